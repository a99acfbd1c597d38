// What no clause says: that answers are found at all. The program cases_rates goes through a table
// of rates and the answers on them, and also compares many with each other.
ghost use Rattle.std.specs.Prelude.{◌≡◌};

use crate::assertions::same;
use crate::fixtures::item_and_items;
use crate::one_number::{Automata, automata_of};
use rate_equal::all_but_empty;
use std::alloc::Global;
use std::process::Abort;
use std::test::Fail;

fn are_every_word_and_an_item(rt: &impl Abort, alloc: Global, automata: &Automata)
    requires { automata.now.first.cells ≡ automata.now.second.cells }
{
    let (words, item) = (&automata.first, &automata.second);
    same(rt, rate_equal::same(alloc, words, words), Ok(true));
    same(rt, rate_equal::same(alloc, words, item), Ok(false));
    same(rt, all_but_empty(alloc, words), Ok(true));
    same(rt, all_but_empty(alloc, item), Ok(false));
}

#[test]
fn one_item_again_and_again_is_every_word(rt: HostRuntime) -> Result<(), Fail> {
    let alloc = rt.alloc();
    let rates = item_and_items(alloc)?;
    let automata = automata_of(&rt, alloc, &rates.items, &rates.item)?;
    are_every_word_and_an_item(&rt, alloc, &automata);
    Ok(())
}
