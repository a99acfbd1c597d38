//! What is found in a list of entries after each change.
ghost use Rattle.std.specs.Prelude.{◌≡◌, ◌≢◌, ◌++◌, ℕ, Bool, List, [], ◌∷◌, if◌then◌else◌};
ghost use Rattle.split_eval.specs.Entries.{entry_at, live_entries, without, AreDistinct};
ghost use Rattle.split_eval.specs.declared.entry.Entry.{Entry};

/// An entry that was put is found, and at every other inner start what was found before.
pub fn what_is_put_is_found<V>()
    ensures put { (entries : List (Entry V)) (entry : Entry V)
        → entry_at entries entry.inner ≡ None
        → entry_at (entries ++ entry ∷ []) entry.inner ≡ Some entry }
    ensures others { (entries : List (Entry V)) (entry : Entry V) (inner : ℕ)
        → inner ≢ entry.inner → entry_at (entries ++ entry ∷ []) inner ≡ entry_at entries inner }
{}

/// At a live inner start the same is found as before, and at any other nothing.
pub fn what_is_live_is_found<V>()
    ensures { (entries : List (Entry V)) (is_live : ℕ → Bool) (inner : ℕ)
        → entry_at (live_entries is_live entries) inner
        ≡ (if is_live inner then entry_at entries inner else None) }
{}

/// An entry that was taken is not found, and at every other inner start what was found before.
pub fn what_is_taken_is_not_found<V>()
    ensures taken { (entries : List (Entry V)) (inner : ℕ)
        → entry_at (without entries inner) inner ≡ None }
    ensures others { (entries : List (Entry V)) (inner other : ℕ) → other ≢ inner
        → entry_at (without entries inner) other ≡ entry_at entries other }
{}

/// Entries that are distinct stay distinct.
pub fn entries_stay_distinct<V>()
    ensures put { (entries : List (Entry V)) (entry : Entry V) → AreDistinct entries
        → entry_at entries entry.inner ≡ None → AreDistinct (entries ++ entry ∷ []) }
    ensures live { (entries : List (Entry V)) (is_live : ℕ → Bool) → AreDistinct entries
        → AreDistinct (live_entries is_live entries) }
{}
