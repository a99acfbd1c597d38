//! Questions on rates.

use crate::automata::{cells_of, rate_of};
use crate::decision::Decision;
use crate::levels::{levels_of_pairs, levels_of_splits};
use crate::parts::make;
use crate::scope::Scope;
use crate::sets::sets_of;
use crate::states::states;
use crate::stop::Stop;
use crate::table::{Table, table_of};
use predicate_cells::Cells;
use rate_expr::Rate;
use std::alloc::Global;
use std::rc::Rc;

/// The question that is asked.
#[derive(Clone, Copy)]
enum Call {
    Sets,
    States,
    OfTwo(OfTwo),
}

/// A question on two rates. If there is only one, it is also the second.
#[derive(Clone, Copy)]
enum OfTwo {
    Parts,
    LevelsOfPairs,
    LevelsOfSplits,
    Decide(Decision),
}

impl Call {
    fn named(name: &str) -> Option<Call> {
        match name {
            "sets" => Some(Call::Sets),
            "states" => Some(Call::States),
            _ => Some(Call::OfTwo(OfTwo::named(name)?)),
        }
    }
}

impl OfTwo {
    fn named(name: &str) -> Option<OfTwo> {
        match name {
            "parts" => Some(OfTwo::Parts),
            "levels_of_pairs" => Some(OfTwo::LevelsOfPairs),
            "levels_of_splits" => Some(OfTwo::LevelsOfSplits),
            "disjoint" => Some(OfTwo::Decide(Decision::Disjoint)),
            "one_split" => Some(OfTwo::Decide(Decision::OneSplit)),
            "one_factoring" => Some(OfTwo::Decide(Decision::OneFactoring)),
            "same" => Some(OfTwo::Decide(Decision::Same)),
            "all_but_empty" => Some(OfTwo::Decide(Decision::AllButEmpty)),
            _ => None,
        }
    }

    fn answer(
        self,
        alloc: Global,
        cells: &Rc<Cells>,
        first: &Rate,
        second: &Rate,
    ) -> Result<String, Stop> {
        match self {
            OfTwo::Parts => Ok(String::from_str(alloc, make(alloc, first, second)?)?),
            OfTwo::LevelsOfPairs => levels_of_pairs(alloc, cells, first, second),
            OfTwo::LevelsOfSplits => levels_of_splits(alloc, cells, first, second),
            OfTwo::Decide(decision) => {
                let reported = decision.reported(alloc, cells, first, second)?;
                Ok(String::from_str(alloc, reported)?)
            }
        }
    }
}

/// Each question of the table with its answer.
pub(crate) fn report(alloc: Global, table: &str) -> Result<String, Stop> {
    let table = table_of(alloc, table)?;
    let cells = cells_of(alloc, &table.scope)?;
    answers(alloc, &table, &cells)
}

fn answers(alloc: Global, table: &Table<'_>, cells: &Rc<Cells>) -> Result<String, Stop> {
    let mut text = String::new(alloc);
    for line in &table.cases {
        let answer = answer(alloc, &table.scope, cells, line)?;
        writeln!(text, "{line}: {answer}")?;
    }
    Ok(text)
}

/// A question is a call and what it is asked about: a rate, and after a stroke another rate or a
/// word.
fn answer(alloc: Global, scope: &Scope, cells: &Rc<Cells>, line: &str) -> Result<String, Stop> {
    let Some((name, asked)) = line.split_once(' ') else {
        return Err(Stop::Line);
    };
    let Some(call) = Call::named(name) else {
        return Err(Stop::Line);
    };
    let (first, second) = asked.split_once(" / ").unwrap_or((asked, asked));
    let first = rate_of(alloc, scope, first)?;
    match call {
        Call::Sets => sets_of(alloc, &first),
        Call::States => states(alloc, cells, &first, second),
        Call::OfTwo(call) => {
            let second = rate_of(alloc, scope, second)?;
            call.answer(alloc, cells, &first, &second)
        }
    }
}
