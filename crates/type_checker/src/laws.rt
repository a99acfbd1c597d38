//! What holds of every program.
ghost use Rattle.std.specs.Prelude.{◌≡◌, List, Some};
ghost use Rattle.ambiguity_example.specs.Shows.{IsBroken, IsKept, Question};
ghost use Rattle.language_base.specs.declared.rule.Rule.{Rule};
ghost use Rattle.query_syntax.specs.Programs.{Program};
ghost use Rattle.type_checker.specs.Blames.{IsBlameOf, IsFirstBroken, question_of, refusal_of};
ghost use Rattle.type_checker.specs.Judged.{IsJudged, Verdict, refused};
ghost use Rattle.query_resolver.specs.Nodes.{Node};
ghost use Rattle.query_resolver.specs.Steps.{refusal};
ghost use Rattle.type_checker.specs.WordRules.{Breaks, FirstBroken};
ghost use Rattle.type_checker.specs.declared.blame.Blame.{Blame};

/// A program has at most one verdict, and it cannot be that it has none.
pub fn one_verdict()
    ensures only { (program : Program) (one other : Verdict) → IsJudged program one
        → IsJudged program other → other ≡ one }
    ensures none_without { (program : Program)
        → ((verdict : Verdict) → IsJudged program verdict → ⊥) → ⊥ }
{}

/// The first node that breaks a rule decides, and a program with a blame is refused for it. A
/// question of readings that is not kept is broken by some word with two readings.
pub fn blame_refuses()
    ensures first { (nodes : List Node) (node : Node) (rule : Rule) → IsFirstBroken nodes node rule
        → FirstBroken nodes (Some (refusal rule node.place)) }
    ensures refused { (program : Program) (blame : Blame) → IsBlameOf program blame
        → IsJudged program (refused (refusal_of blame)) }
    ensures readings { (node : Node) (rule : Rule) (question : Question)
        → question_of node.query ≡ Some question → Breaks node (Some rule)
        → IsBroken node.columns question × (IsKept node.columns question → ⊥) }
{}
