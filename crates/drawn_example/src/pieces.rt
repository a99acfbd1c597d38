//! The pieces of a word.
ghost use Rattle.std.specs.Prelude.{◌≡◌};
ghost use Rattle.drawn_example.specs.Drawings.{parting, piece_at};

/// The number of the piece that has the item at the place, counted from 1.
pub(crate) fn piece_at(cuts: &[u32], place: usize) -> usize
    ensures { result ≡ piece_at cuts.now place }
{
    cuts.iter().filter(|cut| **cut as usize <= place).count()
}

/// The place where two readings differ first.
pub(crate) fn parting(first: &[u32], second: &[u32]) -> u32
    ensures { result ≡ parting first.now second.now }
{
    match (first, second) {
        ([cut, cuts @ ..], [other, others @ ..]) => {
            if cut == other {
                return parting(cuts, others);
            }
            (*cut).min(*other)
        }
        _ => 0,
    }
}
