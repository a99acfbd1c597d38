//! Text cut at a byte.
ghost use Rattle.std.specs.List.{after_first, before_first, list_any};
ghost use Rattle.std.specs.Option.{option_copied};
ghost use Rattle.std.specs.Prelude.{◌≡◌, ◌==◌, Some, None, if◌then◌else◌, position};

/// What stands before the first such byte, and what stands after it if there is one.
#[tactic(auto, using(crate::proofs::Cuts::is_found))]
pub(crate) fn cut_at(byte: u8, text: &[u8]) -> (&[u8], Option<&[u8]>)
    ensures before { result.0.now ≡ before_first (λ at. at == byte) text.now }
    ensures after { option_copied result.1 ≡ (if list_any (λ at. at == byte) text.now
        then Some (after_first (λ at. at == byte) text.now) else None) }
{
    match place_of(byte, text) {
        Some(place) => (&text[..place], Some(&text[place + 1..])),
        None => (text, None),
    }
}

fn place_of(byte: u8, text: &[u8]) -> Option<usize>
    ensures { result ≡ position (λ at. at == byte) text.now }
{
    text.iter().position(|at| *at == byte)
}
