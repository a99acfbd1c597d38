//! What holds of every rate, of its sets, and of the states after words.
ghost use Rattle.std.specs.Prelude.{◌≡◌, ◌⊎◌};
ghost use Rattle.rate_expr.specs.After.{IsAfter, IsStateOf};
ghost use Rattle.rate_expr.specs.FirstLastFollow.{AreSetsOf};
ghost use Rattle.rate_expr.specs.Language.{In};
ghost use Rattle.rate_expr.specs.Paths.{AreOf};
ghost use Rattle.rate_expr.specs.Rates.{Regex};
ghost use Rattle.rate_expr.specs.Sets.{Sets, AreSets};
ghost use Rattle.rate_expr.specs.Words.{Word};
ghost use Rattle.rate_expr.specs.declared.state.State.{State};

/// It is decidable whether a word is in a rate.
pub fn each_word_is_in_or_not()
    ensures { (rate : Regex) (word : Word) → In rate word ⊎ (In rate word → ⊥) }
{}

/// The sets of a rate spell exactly its words.
pub fn sets_spell_their_rate()
    ensures { (sets : Sets) (rate : Regex) → AreSetsOf sets rate → AreOf sets rate }
{}

/// A rate has exactly one position automaton.
pub fn one_automaton_of_a_rate()
    ensures some { (rate : Regex) → (sets : Sets) × AreSetsOf sets rate }
    ensures only { (rate : Regex) (sets other : Sets) → AreSets sets → AreSets other
        → AreSetsOf sets rate → AreSetsOf other rate → other ≡ sets }
{}

/// After each word there is exactly one state.
pub fn one_state_after_a_word()
    ensures some { (sets : Sets) (word : Word) → (state : State) × IsAfter sets word state }
    ensures only { (sets : Sets) (word : Word) (state other : State)
        → IsAfter sets word state → IsAfter sets word other → other ≡ state }
    ensures exists { (sets : Sets) (word : Word) (state : State)
        → IsAfter sets word state → IsStateOf sets state }
{}
