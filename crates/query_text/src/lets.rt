//! The texts of lets, each once.
ghost use Rattle.std.specs.Prelude.{◌≡◌, ◌<◌, ◌-◌, ◌^◌, [], IfOk};
ghost use Rattle.query_text.specs.LetTexts.{added_text};

use indexmap::IndexSet;
use language_base::Bytes;
use std::alloc::{AllocError, Global};
use std::marker::Model;

/// The texts of the queries of lets, in the order of the lets.
#[derive(Drop)]
pub(crate) struct Lets {
    texts: IndexSet<Bytes>,
}

impl Model for Lets {
    ghost use Rattle.std.specs.Prelude.{List, ℕ};

    ghost Value = { List (List ℕ) };

    ghost view = { λ lets. lets.texts.keys };
}

impl Lets {
    pub(crate) fn new(alloc: Global) -> Lets
        ensures { result ≡ [] }
    {
        Lets {
            texts: IndexSet::new(alloc),
        }
    }

    /// The place of the let with this text, which is added if there is none.
    pub(crate) fn place_of(&mut self, text: Vec<u8>) -> Result<usize, AllocError>
        ensures added { IfOk result (λ place.
            added_text self.old text.items ≡ record { texts = self.new; place = place }) }
        ensures small { IfOk result (λ place. place < 2 ^ 63 - 1) }
    {
        let (place, _added) = self.texts.insert_full(Bytes::from_vec(text))?;
        // A list in memory has fewer than 2^63 - 1 texts.
        prove!(place < self.texts.as_slice().len());
        Ok(place)
    }

    pub(crate) fn as_slice(&self) -> &[Bytes]
        ensures { result.now ≡ self.now }
    {
        self.texts.as_slice()
    }
}
