//! The texts of the queries that are made of a collect.
ghost use Rattle.std.specs.Prelude.{IfOk};
ghost use Rattle.query_model.specs.Monitors.{monitor_of};
ghost use Rattle.shard_run.specs.Pieces.{IsReplyFor};

use crate::command::Piece;
use crate::reply::{Reply, refused, whole};
use key_shards::{PartStop, mask_of, part_of};
use language_base::{Refusal, Rule};
use query_model::Checked;
use query_text::text_of;
use std::alloc::{AllocError, Global};

/// The text of the query of a shard, or of the mask, or why there is none.
pub fn piece_reply(alloc: Global, piece: Piece, checked: &Checked) -> Result<Reply, AllocError>
    ensures { IfOk result
        (IsReplyFor piece (monitor_of checked.now) checked.now.main.span) }
{
    match piece {
        Piece::Shard => shard_reply(alloc, checked),
        Piece::Mask => mask_reply(alloc, checked),
    }
}

fn shard_reply(alloc: Global, checked: &Checked) -> Result<Reply, AllocError>
    ensures { IfOk result
        (IsReplyFor Piece.Shard (monitor_of checked.now) checked.now.main.span) }
{
    let span = checked.main().span;
    match part_of(checked, alloc) {
        Ok(Some(part)) => {
            // Its accessors say that it keeps the limits.
            let _schema = part.schema();
            Ok(Reply::Text(text_of(&part, alloc)?))
        }
        Ok(None) => whole(alloc, span),
        Err(PartStop::TooLarge) => refused(
            alloc,
            Refusal {
                rule: Rule::Size,
                span,
            },
        ),
        Err(PartStop::Memory) => Err(AllocError),
    }
}

fn mask_reply(alloc: Global, checked: &Checked) -> Result<Reply, AllocError>
    ensures { IfOk result
        (IsReplyFor Piece.Mask (monitor_of checked.now) checked.now.main.span) }
{
    match mask_of(checked, alloc)? {
        Some(mask) => Ok(Reply::Text(text_of(&mask, alloc)?)),
        None => whole(alloc, checked.main().span),
    }
}
