//! The automata of rates, which share the cells of one stream.
ghost use Rattle.std.specs.Prelude.{◌≡◌, IfOk};

use crate::scope::Scope;
use crate::stop::Stop;
use predicate_cells::Cells;
use predicates::Preds;
use rate_expr::{MAX_POSITIONS, Positions, Rate};
use std::alloc::{AllocError, Global};
use std::rc::Rc;
use symbolic_nfa::Nfa;

/// The cells of items under all tests of the lets.
pub(crate) fn cells_of(alloc: Global, scope: &Scope) -> Result<Rc<Cells>, Stop> {
    let tests = tests_of(alloc, scope)?;
    if !tests.fit(&scope.schema) {
        return Err(Stop::Test);
    }
    Ok(shared(alloc, Cells::new(alloc, &scope.schema, &tests)?)?)
}

fn shared(alloc: Global, cells: Cells) -> Result<Rc<Cells>, AllocError> {
    Ok(Rc::new(alloc, cells)?)
}

fn tests_of(alloc: Global, scope: &Scope) -> Result<Preds, AllocError> {
    let mut tests = Preds::new(alloc);
    for named in &scope.lets {
        let rate = Box::new(alloc, named.query.rate(alloc)?)?;
        add_tests(&rate, &mut tests)?;
    }
    Ok(tests)
}

/// Adds the tests of the rate that are not there yet.
fn add_tests(rate: &Rate, tests: &mut Preds) -> Result<(), AllocError> {
    match rate {
        Rate::Empty => Ok(()),
        Rate::One(test) if tests.place_of(test).is_some() => Ok(()),
        Rate::One(test) => tests.add(test),
        Rate::Seq(first, second) | Rate::Alt(first, second) => {
            add_tests(first, tests)?;
            add_tests(second, tests)
        }
        Rate::Star(inner) => add_tests(inner, tests),
    }
}

/// The rate of the query that is written as this text.
pub(crate) fn rate_of(alloc: Global, scope: &Scope, text: &str) -> Result<Box<Rate>, Stop> {
    let query = scope.query(alloc, text)?;
    Ok(Box::new(alloc, query.rate(alloc)?)?)
}

pub(crate) fn positions_of(alloc: Global, rate: &Rate) -> Result<Positions, Stop> {
    if rate.positions() > MAX_POSITIONS {
        return Err(Stop::Size);
    }
    Ok(Positions::of(alloc, rate)?)
}

pub(crate) fn nfa_of(alloc: Global, cells: &Rc<Cells>, rate: &Rate) -> Result<Nfa, Stop>
    ensures { IfOk result (λ nfa. nfa.cells ≡ cells.now.value) }
{
    let positions = positions_of(alloc, rate)?;
    if !Nfa::can_read(&positions, cells.as_ref()) {
        return Err(Stop::Test);
    }
    Ok(Nfa::new(alloc, positions, cells)?)
}

/// The automata of two rates.
#[derive(Drop)]
pub(crate) struct Automata {
    pub(crate) first: Nfa,
    pub(crate) second: Nfa,
}

pub(crate) fn automata_of(
    alloc: Global,
    cells: &Rc<Cells>,
    first: &Rate,
    second: &Rate,
) -> Result<Automata, Stop>
    ensures { IfOk result (λ automata. automata.first.cells ≡ automata.second.cells) }
{
    let first = nfa_of(alloc, cells, first)?;
    let second = nfa_of(alloc, cells, second)?;
    Ok(Automata { first, second })
}
