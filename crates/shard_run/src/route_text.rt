//! What is written of a line.
ghost use Rattle.std.specs.Prelude.{◌≡◌, ◌++◌, IfOk, OnOk};
ghost use Rattle.shard_run.specs.Texts.{route_text};

use crate::router::LineRoute;
use itoa::Buffer;
use key_routes::Route;
use report_writer::push_skip;
use std::alloc::AllocError;

/// Puts what is written of a line that goes so into the buffer in place of what was there.
pub fn text_in(route: LineRoute, buffer: &mut Vec<u8>) -> Result<&[u8], AllocError>
    ensures { IfOk result (λ text. text.now ≡ route_text route) }
{
    buffer.clear();
    push_route(route, buffer)?;
    Ok(buffer.as_slice())
}

fn push_route(route: LineRoute, text: &mut Vec<u8>) -> Result<(), AllocError>
    ensures { OnOk result (text.new.items ≡ text.old.items ++ route_text route) }
{
    match route {
        LineRoute::Nowhere => text.extend_from_slice(b"-\n"),
        LineRoute::Skipped(skip) => push_skip(skip, text),
        LineRoute::Sent(Route::All) => text.extend_from_slice(b"all\n"),
        LineRoute::Sent(Route::One(shard)) => push_shard(shard, text),
    }
}

fn push_shard(shard: u32, text: &mut Vec<u8>) -> Result<(), AllocError>
    ensures { OnOk result (text.new.items
        ≡ text.old.items ++ route_text (LineRoute.Sent (Route.One shard))) }
{
    let mut buffer = Buffer::new();
    text.extend_from_slice(buffer.format(shard).as_bytes())?;
    text.extend_from_slice(b"\n")
}
