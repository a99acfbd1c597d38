//! Where the readings of a walk of factorings end their pieces.
ghost use Rattle.std.specs.Prelude.{◌≡◌, ◌<◌, ◌↔◌, ◌^◌, IfOk, IsTrue, length};
ghost use Rattle.rate_expr.specs.Paths.{Follows};
ghost use Rattle.ambiguity_example.specs.TurnLists.{AreTurns, Stays};

use crate::cuts::Cuts;
use ambiguity_check::{Node, Phase};
use rate_expr::Positions;
use rate_expr::masks::has;
use std::alloc::{AllocError, Global};

/// One of the two readings of a walk.
#[derive(Clone, Copy)]
pub(crate) enum Side {
    Left,
    Right,
}

/// The cuts of a reading of a walk of factorings.
pub(crate) fn cuts_of(
    alloc: Global,
    positions: &Positions,
    side: Side,
    walk: &[Node],
) -> Result<Cuts, AllocError>
    requires some { 0 < length walk.now }
    requires few { length walk.now < 2 ^ 32 }
    ensures { IfOk result (AreTurns positions.now side walk.now) }
{
    let mut cuts = Vec::new(alloc);
    cuts.push(0)?;
    'nodes: for at in 1..walk.len() {
        if !stays(positions, side, walk[at - 1], walk[at]) {
            cuts.push(at as u32)?;
        }
    }
    cuts.push(walk.len() as u32)?;
    Ok(Cuts::from_vec(cuts))
}

// Whether the reading has both nodes in the same piece.
fn stays(positions: &Positions, side: Side, before: Node, node: Node) -> bool
    ensures { IsTrue result ↔ Stays positions.now side before node }
{
    match side {
        Side::Left => {
            if before.phase == Phase::Together && node.phase != Phase::Together {
                return false;
            }
            follows(positions, before.left, node.left)
        }
        Side::Right => follows(positions, before.right, node.right),
    }
}

fn follows(positions: &Positions, before: u32, next: u32) -> bool
    ensures { IsTrue result ↔ Follows positions.now before next }
{
    before < positions.count() && has(positions.follow(before), next)
}
