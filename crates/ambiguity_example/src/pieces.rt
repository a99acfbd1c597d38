//! Cuts of a word into one piece or two.
ghost use Rattle.std.specs.Prelude.{◌≡◌, ◌↔◌, ◌≤◌, [], ◌∷◌, ℕ, IsTrue, IfSome, IfNone};

/// Whether the cuts are those of a word of `items` items in one piece.
pub(crate) fn is_whole(cuts: &[u32], items: usize) -> bool
    ensures { IsTrue result ↔ (cuts.now ≡ 0 ∷ items ∷ []) }
{
    match cuts {
        [begin, end] => *begin == 0 && *end as usize == items,
        _ => false,
    }
}

/// Where the first piece ends, if the cuts are those of a word of `items` items in two pieces.
pub(crate) fn middle_of(cuts: &[u32], items: usize) -> Option<usize>
    ensures some { IfSome result (λ middle.
        (cuts.now ≡ 0 ∷ middle ∷ items ∷ []) × (middle ≤ items)) }
    ensures none { IfNone result ((middle : ℕ) → middle ≤ items
        → cuts.now ≡ 0 ∷ middle ∷ items ∷ [] → ⊥) }
{
    match cuts {
        [begin, middle, end] => {
            let whole = *begin == 0 && *end as usize == items && middle <= end;
            whole.then_some(*middle as usize)
        }
        _ => None,
    }
}
