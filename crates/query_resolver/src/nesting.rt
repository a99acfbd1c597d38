//! Where a collection may stand.
ghost use Rattle.std.specs.Prelude.{◌≡◌};
ghost use Rattle.query_resolver.specs.Nestings.{nesting_of};
ghost use Rattle.query_resolver.specs.Resolved.{may_collect};

/// Whether a collection may stand at a place.
#[derive(Clone, Copy)]
pub enum Nesting {
    Outside,
    /// Inside of another collection, or on a stream of values.
    Inside,
}

impl Nesting {
    pub fn may_collect(self) -> bool
        ensures { result ≡ may_collect (nesting_of self) }
    {
        match self {
            Nesting::Outside => true,
            Nesting::Inside => false,
        }
    }
}
