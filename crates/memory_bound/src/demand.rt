//! How much an engine keeps for a query, computed from how much it keeps for the operands.
ghost use Rattle.std.specs.Prelude.{◌≡◌, ◌+◌, ◌-◌, ◌*◌, ◌^◌, min};

/// How many starts may be live at one time, how many slots a node keeps, and how many a value of
/// the query takes that is no table. Each number stays at 2^32 - 1 if it is greater.
#[derive(Clone, Copy)]
pub(crate) struct Demand {
    pub places: u32,
    pub inner: u32,
    pub width: u32,
}

impl Demand {
    /// One item: its start waits for it.
    pub(crate) const ITEM: Demand = Demand {
        places: 1,
        inner: 1,
        width: 1,
    };

    /// The empty word: it is over at once, so that no start waits.
    pub(crate) const NOTHING: Demand = Demand {
        places: 0,
        inner: 0,
        width: 1,
    };

    /// The same, where the values are of this width.
    pub(crate) fn of_width(self, width: u32) -> Demand
        ensures places { result.places ≡ self.places }
        ensures inner { result.inner ≡ self.inner }
        ensures width { result.width ≡ width }
    {
        Demand {
            places: self.places,
            inner: self.inner,
            width,
        }
    }

    /// Two queries that read the same word. Values of the first are as wide as those of both.
    pub(crate) fn beside(self, other: Demand) -> Demand
        ensures places { result.places ≡ min (self.places + other.places) (2 ^ 32 - 1) }
        ensures inner { result.inner ≡ min (self.inner + other.inner) (2 ^ 32 - 1) }
        ensures width { result.width ≡ self.width }
    {
        Demand {
            places: self.places.saturating_add(other.places),
            inner: self.inner.saturating_add(other.inner),
            width: self.width,
        }
    }

    /// A split: for each start of the right operand there is an entry of two starts and a value.
    pub(crate) fn then(self, next: Demand) -> Demand
        ensures places { result.places ≡ min (self.places + next.places) (2 ^ 32 - 1) }
        ensures inner { result.inner
            ≡ min (self.inner + next.inner + (2 + self.width) * next.places) (2 ^ 32 - 1) }
    {
        let both = self.beside(next);
        let each = self.width.saturating_add(2);
        let entries = each.saturating_mul(next.places);
        Demand {
            places: both.places,
            inner: both.inner.saturating_add(entries),
            width: both.width,
        }
    }

    /// An iteration: for each start of a piece there is an entry of two starts and a number.
    pub(crate) fn repeated(self) -> Demand
        ensures places { result.places ≡ self.places }
        ensures inner { result.inner ≡ min (self.inner + 3 * self.places) (2 ^ 32 - 1) }
        ensures width { result.width ≡ 1 }
    {
        let entries = self.places.saturating_mul(3);
        Demand {
            places: self.places,
            inner: self.inner.saturating_add(entries),
            width: 1,
        }
    }

    /// A compose: for each start, and for one idle runner, there are a start and a runner of the
    /// right operand.
    pub(crate) fn read_by(self, other: Demand) -> Demand
        ensures places { result.places ≡ self.places }
        ensures inner { result.inner
            ≡ min (self.inner + (self.places + 1) * (1 + (other.inner + 1 + other.width)))
            (2 ^ 32 - 1) }
        ensures width { result.width ≡ other.width }
    {
        let runners = self.places.saturating_add(1);
        let each = other.slots().saturating_add(1);
        Demand {
            places: self.places,
            inner: self.inner.saturating_add(runners.saturating_mul(each)),
            width: other.width,
        }
    }

    /// A collect over a rate with this number of positions: for each start there are the start
    /// itself, the positions of a state, and a runner.
    pub(crate) fn along(self, positions: u32) -> Demand
        ensures places { result.places ≡ min (positions + 1) (2 ^ 32 - 1) }
        ensures inner { result.inner
            ≡ min ((positions + 1) * (1 + positions + (self.inner + 1 + self.width)))
            (2 ^ 32 - 1) }
        ensures width { result.width ≡ 1 }
    {
        let places = positions.saturating_add(1);
        let each = places.saturating_add(self.slots());
        Demand {
            places,
            inner: places.saturating_mul(each),
            width: 1,
        }
    }

    /// What a runner keeps: its node, the number of items so far, and an answer.
    pub(crate) fn slots(self) -> u32
        ensures { result ≡ min (self.inner + 1 + self.width) (2 ^ 32 - 1) }
    {
        self.inner.saturating_add(1).saturating_add(self.width)
    }
}
