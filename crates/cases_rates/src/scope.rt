//! What the names in a query stand for.

use crate::query::query_over;
use crate::stop::Stop;
use crate::stream::schema_of;
use item_schema::Schema;
use language_base::Bytes;
use query_model::Query;
use query_syntax::{Name, Program, read_syntax};
use std::alloc::{AllocError, Global};

/// The columns of a stream, and queries with names.
#[derive(Drop)]
pub(crate) struct Scope {
    pub(crate) schema: Schema,
    pub(crate) lets: Vec<Let>,
}

#[derive(Drop)]
pub(crate) struct Let {
    name: Bytes,
    pub(crate) query: Box<Query>,
}

impl Scope {
    /// The stream and the lets of a text.
    pub(crate) fn of(alloc: Global, head: &str) -> Result<Scope, Stop> {
        let program = read(alloc, head, "eps(0)")?;
        Scope::of_program(alloc, &program)
    }

    fn of_program(alloc: Global, program: &Program) -> Result<Scope, Stop> {
        let mut scope = Scope {
            schema: schema_of(alloc, &program.stream)?,
            lets: Vec::new(alloc),
        };
        for written in &program.lets {
            scope.add(alloc, written)?;
        }
        Ok(scope)
    }

    fn add(&mut self, alloc: Global, written: &query_syntax::Let) -> Result<(), Stop> {
        let query = query_over(alloc, self, &written.query)?;
        let name = written.name.bytes.try_copy(alloc)?;
        self.lets.push(Let { name, query })?;
        Ok(())
    }

    /// The query that is written as this text.
    pub(crate) fn query(&self, alloc: Global, text: &str) -> Result<Box<Query>, Stop> {
        let program = read(alloc, "stream(plain, col(n, int))", text)?;
        query_over(alloc, self, &program.main.query)
    }

    pub(crate) fn column(&self, name: &Name) -> Result<u32, Stop> {
        let place = self
            .schema
            .columns()
            .iter()
            .position(|column| column.name.as_slice() == name.bytes.as_slice());
        place
            .and_then(|place| u32::try_from(place).ok())
            .ok_or(Stop::Name)
    }

    /// The query of the let with the name.
    pub(crate) fn named(&self, name: &Name) -> Result<&Query, Stop> {
        match self
            .lets
            .iter()
            .find(|other| other.name.as_slice() == name.bytes.as_slice())
        {
            Some(found) => Ok(found.query.as_ref()),
            None => Err(Stop::Name),
        }
    }
}

fn read(alloc: Global, head: &str, main: &str) -> Result<Box<Program>, Stop> {
    let text = format!(in alloc; "{head} main({main})")?;
    let program = read_syntax(alloc, text.as_bytes())?;
    Ok(Box::new(alloc, program)?)
}
