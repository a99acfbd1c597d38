//! What a search has seen when it is over, and to which words the walks to an end belong.
ghost use Rattle.std.specs.Prelude.{◌≡◌, ◌≤◌, ◌<◌, ℕ, List, true};
ghost use Rattle.item_schema.specs.declared.column.Column.{Column};
ghost use Rattle.rate_expr.specs.Paths.{AreOf};
ghost use Rattle.rate_expr.specs.Rates.{Regex};
ghost use Rattle.rate_expr.specs.Sets.{Sets};
ghost use Rattle.ambiguity_check.specs.Factorings.{BeginsFactors, Factors, EndsFactors};
ghost use Rattle.ambiguity_check.specs.Lengths.{EndsAfter, OverlapOf, TwoSplitsOf, TwoFactoringsOf};
ghost use Rattle.ambiguity_check.specs.declared.graph.Node.{Node};
ghost use Rattle.ambiguity_check.specs.Levels.{Searched, IsLevel};
ghost use Rattle.ambiguity_check.specs.Marked.{IsMarked, AreReached};
ghost use Rattle.ambiguity_check.specs.Meetings.{AreMeetings};
ghost use Rattle.ambiguity_check.specs.Overlaps.{BeginsBoth, FollowsBoth, IsInRows, EndsBoth};
ghost use Rattle.ambiguity_check.specs.Splits.{AreRows, BeginsSplits, Continues, MeetIn};
ghost use Rattle.ambiguity_check.specs.Splits.{EndsSplits};

use crate::graph::Graph;

/// Once a level is empty, all nodes to which walks lead are seen.
pub fn all_are_seen_after_an_empty_level<G: Graph>(graph: &G)
    ensures { (items : ℕ) (search : Searched)
        → IsLevel (G.begins graph.now) (G.continues graph.now) (G.meet graph.now) items search
        → ((node : Node) → IsMarked search.latest node → ⊥)
        → AreReached (G.begins graph.now) (G.continues graph.now) (G.meet graph.now) search.seen }
{
    let _ = graph;
}

/// A walk of pairs to an end is a word of both rates. Only the empty word has no walk.
pub fn overlaps_are_walks()
    ensures sound { (columns : List Column) (first second : Sets) (rows : List ℕ)
        → AreMeetings columns first second rows
        → (r s : Regex) → AreOf first r → AreOf second s → (items : ℕ)
        → EndsAfter (BeginsBoth first second) (FollowsBoth first second) (IsInRows rows)
        (EndsBoth first second) items → OverlapOf columns r s items }
    ensures whole { (columns : List Column) (first second : Sets) (rows : List ℕ)
        → AreMeetings columns first second rows
        → (r s : Regex) → AreOf first r → AreOf second s → (items : ℕ) → 0 < items
        → OverlapOf columns r s items
        → EndsAfter (BeginsBoth first second) (FollowsBoth first second) (IsInRows rows)
        (EndsBoth first second) items }
{}

/// A walk of splits to an end is a word with two splits.
pub fn two_splits_are_walks()
    ensures sound { (columns : List Column) (first second : Sets)
        (together parted rejoined : List ℕ)
        → AreRows columns first second together parted rejoined
        → (r s : Regex) → AreOf first r → AreOf second s → (items : ℕ)
        → EndsAfter (BeginsSplits first second) (Continues first second)
        (MeetIn together parted rejoined) (EndsSplits first second) items
        → TwoSplitsOf columns r s items }
    ensures whole { (columns : List Column) (first second : Sets)
        (together parted rejoined : List ℕ)
        → AreRows columns first second together parted rejoined
        → (r s : Regex) → AreOf first r → AreOf second s → (items : ℕ)
        → TwoSplitsOf columns r s items
        → EndsAfter (BeginsSplits first second) (Continues first second)
        (MeetIn together parted rejoined) (EndsSplits first second) items }
{}

/// A walk of factorings to an end is a word with two factorings. Factors at the front that are the
/// same in both are no part of the walk.
pub fn two_factorings_are_walks()
    ensures sound { (columns : List Column) (sets : Sets) (rows : List ℕ)
        → AreMeetings columns sets sets rows → (r : Regex) → AreOf sets r → (items : ℕ)
        → EndsAfter (BeginsFactors sets) (Factors sets) (IsInRows rows) (EndsFactors sets) items
        → TwoFactoringsOf columns r items }
    ensures whole { (columns : List Column) (sets : Sets) (rows : List ℕ)
        → AreMeetings columns sets sets rows → (r : Regex) → AreOf sets r
        → (sets.nullable ≡ true → ⊥) → (items : ℕ) → TwoFactoringsOf columns r items
        → (some : ℕ) × (some ≤ items)
        × EndsAfter (BeginsFactors sets) (Factors sets) (IsInRows rows) (EndsFactors sets) some }
{}
