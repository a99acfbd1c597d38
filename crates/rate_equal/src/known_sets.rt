//! The ways on that the search has met so far, each with the targets along it.
//!
//! If two sets of ways on are much alike, most targets along the one are targets along the other,
//! cut down to the positions that both sets have. So for new ways on the search looks for a known
//! set that is near: then only the letters are asked that have a position which the known set
//! lacks. How near two sets are is counted by their positions without twins.
ghost use Rattle.std.specs.Prelude.{◌≡◌, ◌≤◌, ◌<◌, IfSome, length};

use crate::alphabet::Alphabet;
use crate::places::Places;
use crate::rows::without;

// How many of the latest known sets are compared even if they lack some of the ways.
const RECENT: usize = 32;
// A known set whose cost is at most this is near enough, and no further one is compared.
const CLOSE: u32 = 2;
// The cost of a position that a known set lacks. One that it has beyond the ways costs 1.
const GAINED: u32 = 4;
// The letters that have a position which the known set lacks are few if they are at most one in
// this number.
const FEW: usize = 16;

/// The ways on from some pair, and the places of all targets along them. There may be places of
/// other pairs too, but only of pairs whose positions are all on the ways.
#[derive(Drop)]
pub(crate) struct Known {
    pub(crate) ways: (u128, u128),
    // The ways without twins, and how many positions these are.
    asked: (u128, u128),
    size: u32,
    pub(crate) targets: Places,
}

impl Known {
    pub(crate) fn new(ways: (u128, u128), asked: (u128, u128), targets: Places) -> Known
        ensures ways { result.ways ≡ ways }
        ensures targets { result.targets ≡ targets }
    {
        Known {
            ways,
            asked,
            size: count(asked),
            targets,
        }
    }

    fn has_all(&self, asked: (u128, u128)) -> bool {
        without(asked.0, self.asked.0) == 0 && without(asked.1, self.asked.1) == 0
    }

    // How far the known set is from these positions, of which there are `size`.
    fn cost(&self, asked: (u128, u128), size: u32) -> u32 {
        let common = count((self.asked.0 & asked.0, self.asked.1 & asked.1));
        let gained = size.saturating_sub(common);
        let lost = self.size.saturating_sub(common);
        lost.saturating_add(gained.saturating_mul(GAINED))
    }
}

/// How many positions there are in both masks.
pub(crate) fn count(positions: (u128, u128)) -> u32
    ensures { result ≤ 256 }
{
    // This is frequent: often each position of the second automaton has a twin.
    if positions.1 == 0 {
        return positions.0.count_ones();
    }
    positions.0.count_ones() + positions.1.count_ones()
}

/// The place of a known set that is near these positions, if any set is known.
pub(crate) fn nearest(known: &[Known], alphabet: &Alphabet, asked: (u128, u128)) -> Option<usize>
    ensures { IfSome result (λ place. place < length known.now) }
{
    let start = known.len().saturating_sub(RECENT);
    let recent = closest(known, start, asked)?;
    let near = &known[recent];
    let gained = (
        without(asked.0, near.asked.0),
        without(asked.1, near.asked.1),
    );
    if alphabet.count_having(gained) as usize <= alphabet.letters.len() / FEW {
        return Some(recent);
    }
    narrowest(known, start, asked).or(Some(recent))
}

// The place of the nearest set, among those from `start` on.
fn closest(known: &[Known], start: usize, asked: (u128, u128)) -> Option<usize>
    ensures { IfSome result (λ place. place < length known.now) }
{
    let size = count(asked);
    let mut best = None;
    let mut least = u32::MAX;
    'known: for place in (start..known.len()).rev() {
        let cost = known[place].cost(asked, size);
        if cost < least {
            least = cost;
            best = Some(place);
        }
        if least <= CLOSE {
            return best;
        }
    }
    best
}

// The place of the smallest set that has all of these positions, among those before `end`.
fn narrowest(known: &[Known], end: usize, asked: (u128, u128)) -> Option<usize>
    requires { end ≤ length known.now }
    ensures { IfSome result (λ place. place < length known.now) }
{
    let enough = count(asked) + CLOSE;
    let mut best = None;
    let mut least = u32::MAX;
    'known: for place in (0..end).rev() {
        let wider = &known[place];
        if wider.size < least && wider.has_all(asked) {
            least = wider.size;
            best = Some(place);
        }
        if least <= enough {
            return best;
        }
    }
    best
}
