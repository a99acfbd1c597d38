//! Parts of a text, given by places that may be past its end.
ghost use Rattle.std.specs.Prelude.{◌≡◌, ◌-◌, drop, take};

#[tactic(auto, using(std::proofs::lemmas::List::take_min))]
pub(crate) fn head(text: &[u8], place: usize) -> &[u8]
    ensures { result.now ≡ take place text.now }
{
    &text[..place.min(text.len())]
}

#[tactic(auto, using(std::proofs::lemmas::List::drop_min))]
pub(crate) fn tail(text: &[u8], place: usize) -> &[u8]
    ensures { result.now ≡ drop place text.now }
{
    &text[place.min(text.len())..]
}

/// The bytes of the text from one place up to another. There are fewer, or none, if a place is past
/// the end.
pub fn bytes_between(text: &[u8], from: usize, to: usize) -> &[u8]
    ensures { result.now ≡ take (to - from) (drop from text.now) }
{
    head(tail(text, from), to.saturating_sub(from))
}
