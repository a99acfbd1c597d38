//! The tables made of the answers of runners for keys.
ghost use Rattle.std.specs.Prelude.{◌≡◌, IfOk};
ghost use Rattle.eval_nodes.specs.Plain.{seen_of};
ghost use Rattle.step_laws.specs.Collects.{IsTableOf};
ghost use Rattle.step_laws.specs.Pushes.{IsFirstTable, IsTabled, scalar_of};

use eval_nodes::Progress;
use map_collect::{Keys, Tracks};
use rate_expr::State;
use std::alloc::{AllocError, Global};
use step_laws::Hit;
use value_ops::{Scalar, Table, Value};

/// The table of the keys whose runners answer with a scalar.
pub fn keys_table(keys: &Keys<Progress>, alloc: Global) -> Result<Table, AllocError>
    ensures { IfOk result (IsTableOf seen_of keys.now) }
{
    let mut table = Table::with_capacity(alloc, keys.len())?;
    'keys: for i in 0..keys.len() {
        if let Some(scalar) = scalar_of(&keys.follower(i).answer) {
            table.push(keys.key(i), scalar)?;
        }
    }
    Ok(table)
}

fn scalar_of(answer: &Option<Value>) -> Option<Scalar>
    ensures { result ≡ scalar_of answer.now }
{
    match answer {
        Some(Value::Scalar(scalar)) => Some(*scalar),
        Some(Value::Rec(_) | Value::Table(_)) => None,
        None => None,
    }
}

/// The hit of the first start from which the word is in the rate: the table of its keys.
pub(crate) fn tabled(tracks: &Tracks<Progress>, alloc: Global) -> Result<Option<Hit>, AllocError>
    ensures { IfOk result (IsTabled seen_of tracks.now) }
{
    match tracks.accepted() {
        Some(place) => {
            let table = keys_table(tracks.keys(place), alloc)?;
            Ok(Some(Hit::of_table(tracks.start(place), table)))
        }
        None => Ok(None),
    }
}

/// The hit of a new start: the empty table, since the empty word has no keys.
pub(crate) fn first_table(tracks: &Tracks<Progress>, alloc: Global, at: u64) -> Option<Hit>
    ensures { IsFirstTable tracks.now.nfa.sets at result }
{
    if tracks.nfa().accepts(State::Initial) {
        Some(Hit::of_table(at, Table::new(alloc)))
    } else {
        None
    }
}
