//! The query: read from its source and compiled.
ghost use Rattle.std.specs.Prelude.{◌≡◌, Err, IfOk, IfErr, IfSome, OnOk, Some};
ghost use Rattle.io_edge.specs.Counts.{FailsBy, Rose};
ghost use Rattle.query_compiler.specs.Compiled.{Compiles, KeepsRules};
ghost use Rattle.item_drill.specs.Drillable.{IsDrillable};
ghost use Rattle.query_compiler.specs.QueryRead.{ReadsFor};
ghost use Rattle.query_compiler.specs.Stops.{IsJudgmentAt, IsStopOf};
ghost use Rattle.query_model.specs.Monitors.{monitor_of};
ghost use Rattle.type_checker.specs.Judged.{accepted};

use io_edge::{Source, TakeStop, read_to_limit};
use language_base::Refusal;
use query_model::Checked;
use query_parser::ReadStop;
use query_syntax::read_syntax;
use std::alloc::{AllocError, Global};
use type_checker::{Blame, Judgment, judge};

/// The most bytes that are read of a query: one more than a query may have.
pub const MAX_READ: usize = 65_537;

/// Why there is no query to run.
#[derive(Drop)]
pub enum QueryStop {
    Failed,
    /// By a rule that does not forbid words with two readings.
    Refused(Refusal),
    /// By a rule that forbids a word with two readings.
    Ambiguous(Box<Blame>),
    Memory,
}

/// Reads the query to its end, or until it is longer than a query may be, and compiles it.
pub fn compile<Q: Source>(alloc: Global, query: &mut Q) -> Result<Box<Checked>, QueryStop>
    ensures accepted { IfOk result (λ compiled.
        IfSome (Q.left query.old) (λ text. Compiles text (accepted (monitor_of compiled.value)))) }
    ensures kept { IfOk result (λ compiled. KeepsRules (monitor_of compiled.value)) }
    ensures drillable { IfOk result (λ compiled. IsDrillable compiled.value.layout) }
    ensures refused { IfErr result (IsStopOf (Q.left query.old)) }
    ensures end { OnOk result (Rose (Q.ends query.old) (Q.ends query.new)) }
    ensures read { ReadsFor (Q.left query.old) (Q.left query.new)
        (Q.ends query.old) (Q.ends query.new) result }
    ensures cause { FailsBy (Q.faults query.old) (Q.faults query.new)
        (result ≡ Err QueryStop.Failed) }
{
    match read_to_limit(alloc, query, MAX_READ) {
        Ok(text) => compile_text(alloc, text.as_slice()),
        Err(TakeStop::Failed) => Err(QueryStop::Failed),
        Err(TakeStop::Memory) => Err(QueryStop::Memory),
    }
}

/// Compiles a query whose text is in memory.
pub fn compile_text(alloc: Global, text: &[u8]) -> Result<Box<Checked>, QueryStop>
    ensures accepted { IfOk result (λ compiled.
        Compiles text.now (accepted (monitor_of compiled.value))) }
    ensures kept { IfOk result (λ compiled. KeepsRules (monitor_of compiled.value)) }
    ensures drillable { IfOk result (λ compiled. IsDrillable compiled.value.layout) }
    ensures refused { IfErr result (IsStopOf (Some text.now)) }
    ensures no_fault { result ≡ Err QueryStop.Failed → ⊥ }
{
    match judge_text(alloc, text) {
        Ok(Judgment::Accepted(checked)) => {
            // Its accessors say that it keeps the rules.
            let _schema = checked.schema();
            Ok(checked)
        }
        Ok(Judgment::Refused(refusal)) => Err(QueryStop::Refused(refusal)),
        Ok(Judgment::Ambiguous(blame)) => Err(QueryStop::Ambiguous(blame)),
        Err(AllocError) => Err(QueryStop::Memory),
    }
}

// The judgment on a text, which is refused, too, where it is no program.
fn judge_text(alloc: Global, text: &[u8]) -> Result<Judgment, AllocError>
    ensures { IfOk result (IsJudgmentAt text.now) }
{
    let program = match read_syntax(alloc, text) {
        Ok(program) => program,
        Err(ReadStop::Refused(refusal)) => return Ok(Judgment::Refused(refusal)),
        Err(ReadStop::Memory) => return Err(AllocError),
    };
    judge(alloc, &program)
}
