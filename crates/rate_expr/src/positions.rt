//! The positions of a rate. They are the predicates in it, numbered from left to right, and a word
//! of the rate is read along a path of positions, one for each item.
ghost use Rattle.std.specs.Prelude.{◌≡◌, ◌+◌, ◌<◌, ◌≤◌, ◌^◌, Some, IfOk, length, slice_get};
ghost use Rattle.language_base.specs.Limits.{max_positions};
ghost use Rattle.predicates.specs.Plain.{plain_of};
ghost use Rattle.rate_expr.specs.FirstLastFollow.{AreSetsOf};
ghost use Rattle.rate_expr.specs.Joined.{beside, ends_of, with_ends, with_links};
ghost use Rattle.rate_expr.specs.Paths.{AreOf};
ghost use Rattle.rate_expr.specs.Plain as rates;
ghost use Rattle.rate_expr.specs.Rates.{empty, one, size_of};
ghost use Rattle.rate_expr.specs.Sets.{AreSets};
ghost use Rattle.rate_expr.specs.Shared.{listed, AreShared};

use crate::construction::add;
use crate::links::{append, link};
use crate::part::Part;
use crate::rate::Rate;
use crate::shared_preds::SharedPreds;
use predicates::Pred;
use std::alloc::{AllocError, Global};
use std::marker::Model;

/// The position automaton of a rate, also known as Glushkov's. A set of positions is a mask, in
/// which position p has the bit 2^p.
#[derive(Drop)]
pub struct Positions {
    nullable: bool,
    first: u128,
    last: u128,
    follow: Vec<u128>,
    preds: SharedPreds,
}

impl Model for Positions {
    ghost use Rattle.std.specs.Coded.{codes};
    ghost use Rattle.predicates.specs.Coding.{coded_predicate};
    ghost use Rattle.rate_expr.specs.Sets.{Sets, AreSets};
    ghost use Rattle.rate_expr.specs.Shared.{listed, AreShared};

    ghost Value = { Sets };

    ghost coded = { Prim.hlevel (codes, coded_predicate) };

    ghost view = { λ p. record {
      nullable = p.nullable;
      first = p.first;
      last = p.last;
      follow = p.follow.items;
      preds = listed p.preds;
    } };

    ghost invariant = { λ p. AreShared p.preds × AreSets (record {
      nullable = p.nullable;
      first = p.first;
      last = p.last;
      follow = p.follow.items;
      preds = listed p.preds;
    }) };
}

impl Positions {
    /// Built by Glushkov's construction, in one pass over the rate.
    pub fn of(alloc: Global, rate: &Rate) -> Result<Positions, AllocError>
        requires { size_of (rates.plain_of rate.now) ≤ max_positions }
        ensures sets { IfOk result (λ sets. AreSetsOf sets (rates.plain_of rate.now)) }
        ensures spells { IfOk result (λ sets. AreOf sets (rates.plain_of rate.now)) }
    {
        let mut follow = Vec::new(alloc);
        let mut preds = SharedPreds::new(alloc);
        let part = add(rate, &mut follow, &mut preds)?;
        Ok(Positions {
            nullable: part.nullable,
            first: part.first,
            last: part.last,
            follow,
            preds,
        })
    }

    /// The automaton of the empty word. It takes no memory.
    pub fn empty(alloc: Global) -> Positions
        ensures { AreSetsOf result empty }
    {
        Positions {
            nullable: true,
            first: 0,
            last: 0,
            follow: Vec::new(alloc),
            preds: SharedPreds::new(alloc),
        }
    }

    /// The automaton of the words of one item that meets the predicate.
    pub fn one(alloc: Global, pred: &Pred) -> Result<Positions, AllocError>
        ensures { IfOk result (λ sets. AreSetsOf sets (one (plain_of pred.now))) }
    {
        let mut follow = Vec::new(alloc);
        let mut preds = SharedPreds::new(alloc);
        follow.push(0)?;
        preds.add(pred)?;
        Ok(Positions {
            nullable: false,
            first: 1,
            last: 1,
            follow,
            preds,
        })
    }

    pub(crate) fn ends(&self) -> Part
        ensures ends { result ≡ ends_of self.now }
        ensures sets { AreSets self.now }
    {
        Part {
            nullable: self.nullable,
            first: self.first,
            last: self.last,
        }
    }

    /// The same positions, but words begin and end where those of the part do.
    pub(crate) fn with_ends(self, part: Part) -> Positions
        requires first { part.first < 2 ^ length self.preds }
        requires last { part.last < 2 ^ length self.preds }
        ensures { result ≡ with_ends self part }
    {
        Positions {
            nullable: part.nullable,
            first: part.first,
            last: part.last,
            follow: self.follow,
            preds: self.preds,
        }
    }

    /// The same positions, but each of `to` may also follow each of `from`.
    pub(crate) fn with_links(self, from: u128, to: u128) -> Positions
        requires { to < 2 ^ length self.preds }
        ensures { result ≡ with_links self from to }
    {
        let mut follow = self.follow;
        link(&mut follow, from, to);
        Positions {
            nullable: self.nullable,
            first: self.first,
            last: self.last,
            follow,
            preds: self.preds,
        }
    }

    /// Appends the positions of another rate. No word leads to them yet.
    pub(crate) fn beside(self, other: Positions) -> Result<Positions, AllocError>
        requires { length self.preds + length other.preds ≤ max_positions }
        ensures { IfOk result (λ sets. sets ≡ beside self other) }
    {
        let count = self.count();
        let mut follow = self.follow;
        let mut preds = self.preds;
        append(&mut follow, &other.follow, count)?;
        preds.append(&other.preds)?;
        Ok(Positions {
            nullable: self.nullable,
            first: self.first,
            last: self.last,
            follow,
            preds,
        })
    }

    pub fn try_copy(&self, alloc: Global) -> Result<Positions, AllocError>
        ensures { IfOk result (λ copy. copy ≡ self.now) }
    {
        Ok(Positions {
            nullable: self.nullable(),
            first: self.first(),
            last: self.last(),
            follow: Vec::from_slice(alloc, &self.follow)?,
            preds: self.preds.try_copy(alloc)?,
        })
    }

    /// How many positions there are. The initial state is not one of them.
    pub fn count(&self) -> u32
        ensures count { result ≡ length self.now.preds }
        ensures sets { AreSets self.now }
    {
        self.preds.count() as u32
    }

    /// Whether the empty word is in the rate.
    pub fn nullable(&self) -> bool
        ensures { result ≡ self.now.nullable }
    {
        self.nullable
    }

    /// The positions at which a word may begin.
    pub fn first(&self) -> u128
        ensures { result ≡ self.now.first }
    {
        self.first
    }

    /// The positions at which a word may end.
    pub fn last(&self) -> u128
        ensures { result ≡ self.now.last }
    {
        self.last
    }

    /// The positions that may come next after a position.
    pub fn follow(&self, position: u32) -> u128
        requires { position < length self.now.preds }
        ensures { slice_get self.now.follow position ≡ Some result }
    {
        self.follow[position as usize]
    }

    /// The predicate that an item has to meet at a position.
    pub fn pred(&self, position: u32) -> &Pred
        requires { position < length self.now.preds }
        ensures { slice_get self.now.preds position ≡ Some (plain_of result.now) }
    {
        self.preds.get(position as usize)
    }

    /// The predicates of all positions, in which equal ones are kept once.
    pub fn preds(&self) -> &SharedPreds
        ensures shared { AreShared result.now }
        ensures listed { listed result.now ≡ self.now.preds }
        ensures sets { AreSets self.now }
    {
        &self.preds
    }
}
