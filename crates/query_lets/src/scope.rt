//! A query and the lets that it may use.
ghost use Rattle.std.specs.Prelude.{◌≡◌, ◌<◌, [], IfNone, IfOk, IfSome, None, length, map};
ghost use Rattle.query_syntax.specs.Plain.{plain_let, plain_program};
ghost use Rattle.query_lets.specs.Places.{AreNamedApart, ArePlaces, IsPlaced, IsRoot, Leads};
ghost use Rattle.query_lets.specs.Places.{unfolded_of};
ghost use Rattle.query_lets.specs.Unfolded.{unfolded};
ghost use Rattle.query_lets.specs.Words.{wrong_name};

use query_syntax::{Let, Program, Query};
use std::alloc::{AllocError, Global};
use std::collections::HashMap;

/// The lets before a query, their places under their names, and the query.
#[derive(Clone, Copy)]
pub struct Scope<'p, 'm> {
    pub lets: &'p [Let],
    pub places: &'m HashMap<&'p [u8], usize>,
    pub query: &'p Query,
}

impl<'p, 'm> Scope<'p, 'm> {
    /// The main query, after all lets.
    pub fn main(program: &'p Program, places: &'m HashMap<&'p [u8], usize>) -> Scope<'p, 'm>
        requires { ArePlaces places.now (plain_program program.now).lets }
        ensures placed { IsPlaced result }
        ensures same { unfolded_of result ≡ unfolded (plain_program program.now) }
    {
        Scope {
            lets: &program.lets,
            places,
            query: &program.main.query,
        }
    }

    /// The same query as it is after names: no name itself, where names are right.
    pub fn root(self) -> Scope<'p, 'm>
        requires { IsPlaced self }
        ensures leads { Leads self.entry result }
        ensures placed { IsPlaced result }
        ensures root { IsRoot result }
    {
        let mut scope = self;
        'names: while let Some(next) = scope.after_name() {
            scope = next;
        }
        scope
    }

    // The query of the let that the query names, and the lets before that one.
    fn after_name(self) -> Option<Scope<'p, 'm>>
        requires { IsPlaced self }
        ensures leads { IfSome result (Leads self.entry) }
        ensures shorter { IfSome result (λ next.
            length next.lets.now < length self.entry.lets.now) }
        ensures root { IfNone result (IsRoot self.entry) }
    {
        let Query::Name(name) = self.query else {
            return None;
        };
        let place = *self.places.get(name.bytes.as_slice())?;
        let one = self.lets.get(place)?;
        Some(Scope {
            lets: &self.lets[..place],
            places: self.places,
            query: &one.query,
        })
    }
}

/// The place of each let under its name, counted from 0.
pub fn places_of(alloc: Global, program: &Program) -> Result<HashMap<&[u8], usize>, AllocError>
    requires { wrong_name (plain_program program.now) ≡ None }
    ensures { IfOk result (λ places. ArePlaces places (plain_program program.now).lets) }
{
    places_in(alloc, &program.lets)
}

fn places_in(alloc: Global, lets: &[Let]) -> Result<HashMap<&[u8], usize>, AllocError>
    requires { AreNamedApart [] (map plain_let lets.now) }
    ensures { IfOk result (λ places. ArePlaces places (map plain_let lets.now)) }
{
    let mut places = HashMap::new(alloc);
    'lets: for (place, one) in lets.iter().enumerate() {
        places.insert(one.name.bytes.as_slice(), place)?;
    }
    Ok(places)
}
