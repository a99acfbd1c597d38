//! The top call.
ghost use Rattle.std.specs.Prelude.{◌≡◌, ◌↔◌, IfSome, map, string_bytes};
ghost use Rattle.io_edge.specs.Counts.{Rose};
ghost use Rattle.query_compiler.specs.Compiled.{Compiles};
ghost use Rattle.type_checker.specs.Judged.{Verdict};
ghost use Rattle.sqre_run.specs.Commands.{command_of};
ghost use Rattle.stream_run.specs.Outside.{outside};
ghost use Rattle.sqre_run.specs.QueryRead.{ReadsQuery};
ghost use Rattle.sqre_run.specs.Call.{CompletesOf, EndsItems, FirstFault, LeavesItems};
ghost use Rattle.sqre_run.specs.Call.{OutcomeOf, ReadsToFirstEnd, Untouched};

use crate::blame_text::blame_text;
use crate::command::command_of;
use crate::engine::carry_out;
use io_edge::{Sink, Source};
use query_compiler::{QueryStop, compile};
use report_writer::refusal_text;
use std::alloc::Global;
use stream_run::{Status, refuse};

/// Does what the words after the program's name ask for. `run QUERY ITEMS` compiles the query and
/// answers every line of the items, and so does `slow QUERY ITEMS` with the engine that keeps the
/// whole word. `check QUERY`, `bound QUERY` and `drill QUERY COUNT SEED` write one line.
/// `why QUERY` writes as `check QUERY` does, and after a refusal for a word with two readings a
/// shortest such word. `rewrite QUERY` writes the text of a query that means the same. The caller
/// opens what the words QUERY and ITEMS name.
pub fn sqre<Q: Source, S: Source, W: Sink>(
    alloc: Global,
    words: &[String],
    query: &mut Q,
    items: &mut S,
    out: &mut W,
) -> Status
    ensures usage { result ≡ Status.Usage ↔ (command_of (map string_bytes words.now) ≡ None) }
    ensures untouched { Untouched result query.old query.new items.old items.new out.old out.new }
    ensures items { LeavesItems (command_of (map string_bytes words.now)) items.old items.new }
    ensures read { ReadsQuery (Q.left query.old) (Q.left query.new)
        (Q.ends query.old) (Q.ends query.new) result }
    ensures faults { FirstFault result (Q.faults query.old) (Q.faults query.new)
        (S.faults items.old) (S.faults items.new) (W.faults out.old) (W.faults out.new) }
    ensures ends { result ≡ Status.Done → Rose (Q.ends query.old) (Q.ends query.new)
        × EndsItems (command_of (map string_bytes words.now)) (S.ends items.old)
        (S.ends items.new) }
    ensures first_end { ReadsToFirstEnd (command_of (map string_bytes words.now)) result
        (S.ends items.old) (S.ends items.new) }
    ensures flushed { W.held out.old ≡ 0 → (result ≡ Status.SinkFault → ⊥)
        → W.held out.new ≡ 0 }
    ensures outcome { IfSome (Q.left query.old) (λ text. let at = outside S.left S.ends W.taken in
        OutcomeOf (command_of (map string_bytes words.now)) text result
        (at items.old out.old) (at items.new out.new)) }

    // Where no source and no sink failed, the call is complete.
    ensures complete { (Rose (Q.faults query.old) (Q.faults query.new) → ⊥)
        → (Rose (S.faults items.old) (S.faults items.new) → ⊥)
        → (Rose (W.faults out.old) (W.faults out.new) → ⊥)
        → IfSome (Q.left query.old) (λ text. (compiled : Verdict) → Compiles text compiled
        → CompletesOf (command_of (map string_bytes words.now)) compiled result) }
{
    let Some(command) = command_of(words) else {
        return Status::Usage;
    };
    match compile(alloc, query) {
        Ok(checked) => carry_out(alloc, command, &checked, items, out),
        Err(QueryStop::Failed) => Status::QueryFault,
        Err(QueryStop::Refused(refusal)) => refuse(refusal_text(alloc, refusal), out),
        Err(QueryStop::Ambiguous(blame)) => refuse(blame_text(alloc, command, &blame), out),
        Err(QueryStop::Memory) => Status::Memory,
    }
}
