//! What the names of an expression stand for, and the scales of what it gives.
ghost use Rattle.std.specs.Prelude.{◌≡◌, ◌-◌, IfOk, map};
ghost use Rattle.expressions.specs.Expressions.{plain_of};
ghost use Rattle.answer_units.specs.ExpressionScales.{scale_at, scale_named, scale_of};
ghost use Rattle.answer_units.specs.ExpressionScales.{scales_named, scales_of, shown_names};

use crate::scale::Scale;
use expressions::{Expr, Var};
use std::alloc::{AllocError, Global};

/// The scales of what names stand for: one of each column, and those of the left and the right
/// value. A number has one, and a table has that of its entries; a record has one for each part.
#[derive(Drop)]
pub struct Names<'a> {
    pub columns: &'a [Scale],
    pub left: &'a [Scale],
    pub right: &'a [Scale],
}

impl Names<'_> {
    /// The scales of the value that the expression gives.
    pub fn scales(&self, alloc: Global, value: &Expr) -> Result<Vec<Scale>, AllocError>
        ensures { IfOk result (λ scales.
            scales.items ≡ scales_of (shown_names self.now) (plain_of value.now)) }
    {
        match value {
            Expr::Read(name) => self.named(alloc, *name),
            Expr::Rec(parts) => self.of_parts(alloc, parts.as_slice()),
            _ => Vec::from_slice(alloc, &[self.scale(value)]),
        }
    }

    fn named(&self, alloc: Global, name: Var) -> Result<Vec<Scale>, AllocError>
        ensures { IfOk result (λ scales.
            scales.items ≡ scales_named (shown_names self.now) name) }
    {
        match name {
            Var::Field(_) => Vec::from_slice(alloc, &[self.at(name, 0)]),
            Var::Left => Vec::from_slice(alloc, self.left),
            Var::Right => Vec::from_slice(alloc, self.right),
        }
    }

    fn of_parts(&self, alloc: Global, parts: &[Expr]) -> Result<Vec<Scale>, AllocError>
        ensures { IfOk result (λ scales.
            scales.items ≡ map (λ part. scale_of (shown_names self.now) (plain_of part)) parts.now) }
    {
        parts.iter().map(|part| self.scale(part)).collect(alloc)
    }

    // That at a place, counted from 0, of what the name stands for.
    fn at(&self, name: Var, place: usize) -> Scale
        ensures { result ≡ scale_at (scales_named (shown_names self.now) name) place }
    {
        match name {
            Var::Field(column) if place == 0 => Scale::at(self.columns, column as usize),
            Var::Field(_) => Scale::Unknown,
            Var::Left => Scale::at(self.left, place),
            Var::Right => Scale::at(self.right, place),
        }
    }

    /// That of the number that the expression gives.
    pub fn scale(&self, value: &Expr) -> Scale
        ensures { result ≡ scale_of (shown_names self.now) (plain_of value.now) }
    {
        match value {
            Expr::Literal(number) => Scale::of_literal(*number),
            Expr::Read(name) | Expr::Sum(name) => self.at(*name, 0),
            Expr::Unary(_, inner) => self.scale(inner),
            Expr::Binary(op, first, second) => self.scale(first).by(*op, self.scale(second)),
            Expr::If(_, _, _, met, other) => self.scale(met).alike(self.scale(other)),
            Expr::Count(_) => Scale::Digits(0),
            Expr::Most(name, other) | Expr::Least(name, other) | Expr::Get(name, _, other) => {
                self.at(*name, 0).alike(self.scale(other))
            }
            Expr::Rec(_) => Scale::Unknown,
            Expr::Part(name, place) => self.at(*name, place.saturating_sub(1) as usize),
        }
    }
}
