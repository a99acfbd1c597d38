//! What the state after a word says of the word.
ghost use Rattle.std.specs.Prelude.{◌≡◌, ◌↔◌, List, [], ◌∷◌, ◌++◌};
ghost use Rattle.value_ops.specs.declared.field.Field.{Field};
ghost use Rattle.rate_expr.specs.After.{IsAfter};
ghost use Rattle.rate_expr.specs.Language.{In};
ghost use Rattle.rate_expr.specs.Paths.{AreOf};
ghost use Rattle.rate_expr.specs.Rates.{Regex};
ghost use Rattle.rate_expr.specs.Readings.{HasExtension};
ghost use Rattle.rate_expr.specs.Sets.{Sets};
ghost use Rattle.rate_expr.specs.Words.{Word};
ghost use Rattle.symbolic_nfa.specs.Automata.{Automaton};
ghost use Rattle.rate_expr.specs.declared.state.State.{State};
ghost use Rattle.symbolic_nfa.specs.States.{Extends, IsAccepted, Steps};

/// A step leads from the state after a word to the state after the word and one more item.
pub fn steps_lead_on()
    ensures begins { (sets : Sets) → IsAfter sets [] State.Initial }
    ensures continues { (sets : Sets) (word : Word) (state next : State) (item : List Field)
        → IsAfter sets word state → Steps sets state item next
        → IsAfter sets (word ++ item ∷ []) next }
{}

/// A word is in the rate exactly if the state after it is accepted.
pub fn acceptance_is_membership()
    ensures { (sets : Sets) (rate : Regex) (word : Word) (state : State) → AreOf sets rate
        → IsAfter sets word state → IsAccepted sets state ↔ In rate word }
{}

/// A word has an extension in the rate exactly if the state after it extends.
pub fn extending_is_having_an_extension()
    ensures { (nfa : Automaton) (rate : Regex) (word : Word) (state : State)
        → AreOf nfa.sets rate → IsAfter nfa.sets word state
        → Extends nfa state ↔ HasExtension nfa.cells.layout.columns rate word }
{}
