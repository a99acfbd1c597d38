//! A word, and two readings of it.
ghost use Rattle.std.specs.Prelude.{◌≡◌};

use crate::cuts::Cuts;
use item_schema::Item;
use std::marker::Model;

/// The items of a word, and the cuts of two readings.
#[derive(Drop)]
pub struct Example {
    items: Vec<Item<'static>>,
    first: Cuts,
    second: Cuts,
}

impl Model for Example {
    ghost use Rattle.ambiguity_example.specs.Shows.{Shown};

    ghost Value = { Shown };

    ghost view = { λ e. record { items = e.items.items; first = e.first; second = e.second } };
}

impl Example {
    pub fn new(items: Vec<Item<'static>>, first: Cuts, second: Cuts) -> Example
        ensures { result ≡ record { items = items.entry.items; first = first; second = second } }
    {
        Example {
            items,
            first,
            second,
        }
    }

    pub fn items(&self) -> &[Item]
        ensures { result.now ≡ self.now.items }
    {
        &self.items
    }

    pub fn first(&self) -> &Cuts
        ensures { result.now ≡ self.now.first }
    {
        &self.first
    }

    pub fn second(&self) -> &Cuts
        ensures { result.now ≡ self.now.second }
    {
        &self.second
    }
}
