// A file is read where memory suffices, and its parts stand where they are written. The program
// `cases_queries` shows the constructor of each form.
use crate::assertions::same;
use language_base::Span;
use query_syntax::{Digits, Kind, Let, Main, Mode, Program, Query, Stream, read_syntax};
use std::alloc::Global;
use std::process::Abort;
use std::test::Fail;

fn program(alloc: Global, text: &[u8]) -> Result<Box<Program>, Fail> {
    let program = read_syntax(alloc, text)?;
    Ok(Box::new(alloc, program)?)
}

fn has_three_columns(rt: &impl Abort, stream: &Stream) {
    same(rt, stream.mode, Mode::Header(Span { from: 7, to: 13 }));
    same(rt, stream.span, Span { from: 0, to: 59 });
    let kinds = [
        Kind::Int(Span { from: 22, to: 25 }),
        Kind::Text(Span { from: 35, to: 39 }),
        Kind::Fixed {
            digits: Digits {
                count: 2,
                span: Span { from: 55, to: 56 },
            },
            span: Span { from: 49, to: 57 },
        },
    ];
    same(rt, stream.columns.len(), 3);
    for (column, kind) in stream.columns.iter().zip(kinds) {
        same(rt, column.kind, kind);
    }
}

fn is_named_f(rt: &impl Abort, written: &Let) {
    same(rt, written.name.bytes.as_slice(), b"f".as_slice());
    same(rt, written.name.span, Span { from: 64, to: 65 });
    same(rt, matches!(&*written.query, Query::Eps { .. }), true);
}

fn is_a_name(rt: &impl Abort, main: &Main) {
    same(rt, main.span, Span { from: 75, to: 82 });
    same(rt, matches!(&*main.query, Query::Name(_)), true);
}

#[test]
fn a_file_has_its_parts_at_their_places(rt: HostRuntime) -> Result<(), Fail> {
    let program = program(
        rt.alloc(),
        b"stream(header, col(a, int), col(k, text), col(p, fixed(2))) let(f, eps(1)) main(f)",
    )?;
    has_three_columns(&rt, &program.stream);
    same(&rt, program.lets.len(), 1);
    for written in &program.lets {
        is_named_f(&rt, written);
    }
    is_a_name(&rt, &program.main);
    Ok(())
}
