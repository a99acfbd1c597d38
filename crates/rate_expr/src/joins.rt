//! The positions of a rate, made from those of its parts.
ghost use Rattle.std.specs.Prelude.{◌+◌, ◌≤◌, IfOk, length};
ghost use Rattle.language_base.specs.Limits.{max_positions};
ghost use Rattle.rate_expr.specs.FirstLastFollow.{AreSetsOf};
ghost use Rattle.rate_expr.specs.Rates.{Regex, choice, sequence, star};

use crate::positions::Positions;
use std::alloc::AllocError;

impl Positions {
    /// The words of either rate. The positions of the second rate are appended to those of the
    /// first.
    pub fn or(self, other: Positions) -> Result<Positions, AllocError>
        requires { length self.preds + length other.preds ≤ max_positions }
        ensures { (r s : Regex) → AreSetsOf self r → AreSetsOf other s
            → IfOk result (λ sets. AreSetsOf sets (choice r s)) }
    {
        let one = self.ends();
        let another = other.ends().moved(self.count());
        Ok(self.beside(other)?.with_ends(one.or(another)))
    }

    /// A word of the first rate and then one of the second, whose positions are appended.
    pub fn then(self, other: Positions) -> Result<Positions, AllocError>
        requires { length self.preds + length other.preds ≤ max_positions }
        ensures { (r s : Regex) → AreSetsOf self r → AreSetsOf other s
            → IfOk result (λ sets. AreSetsOf sets (sequence r s)) }
    {
        let before = self.ends();
        let after = other.ends().moved(self.count());
        let linked = self.beside(other)?.with_links(before.last, after.first);
        Ok(linked.with_ends(before.then(after)))
    }

    /// Any number of words of the rate, one after the other.
    pub fn star(self) -> Positions
        ensures { (r : Regex) → AreSetsOf self r → AreSetsOf result (star r) }
    {
        let ends = self.ends();
        self.with_links(ends.last, ends.first)
            .with_ends(ends.star())
    }
}
