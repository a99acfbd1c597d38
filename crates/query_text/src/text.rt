//! The text of a query on its stream.
ghost use Rattle.std.specs.Prelude.{◌≡◌, ◌<◌, ◌-◌, ◌^◌, ◌++◌, IfOk, OnOk};
ghost use Rattle.query_model.specs.Queries.{plain_of};
ghost use Rattle.query_text.specs.Memory.{FitsMemory};
ghost use Rattle.query_text.specs.Programs.{text_of};
ghost use Rattle.query_text.specs.StreamTexts.{let_text, lets_text, main_text};

use crate::lets::Lets;
use crate::naming::{Naming, write_let_name};
use crate::node_lets::place_of;
use crate::pieces::{comma, open};
use crate::stream_text::write_stream;
use language_base::Bytes;
use query_model::Checked;
use std::alloc::{AllocError, Global};

/// The canonical text of the query.
pub fn text_of(checked: &Checked, alloc: Global) -> Result<Bytes, AllocError>
    ensures text { IfOk result (λ text.
        text ≡ text_of checked.now.layout (plain_of checked.now.main.shape)) }
    ensures kept { IfOk result (λ text. FitsMemory (plain_of checked.now.main.shape)) }
{
    let naming = Naming::Columns(checked.schema().columns());
    let mut lets = Lets::new(alloc);
    let last = place_of(checked.main(), &naming, &mut lets, alloc)?;
    let mut text = Vec::new(alloc);
    write_stream(checked.schema(), &mut text)?;
    write_lets(lets.as_slice(), &mut text)?;
    write_main(last, &mut text)?;
    Ok(Bytes::from_vec(text))
}

fn write_lets(lets: &[Bytes], text: &mut Vec<u8>) -> Result<(), AllocError>
    ensures { OnOk result (text.new.items ≡ text.old.items ++ lets_text 0 lets.now) }
{
    'lets: for (place, one) in lets.iter().enumerate() {
        write_let(place, one.as_slice(), text)?;
    }
    Ok(())
}

fn write_let(place: usize, query: &[u8], text: &mut Vec<u8>) -> Result<(), AllocError>
    requires { place < 2 ^ 63 - 1 }
    ensures { OnOk result (text.new.items ≡ text.old.items ++ let_text place query.now) }
{
    open(b"let", text)?;
    write_let_name(place, text)?;
    comma(text)?;
    text.extend_from_slice(query)?;
    text.extend_from_slice(b")\n")
}

fn write_main(place: usize, text: &mut Vec<u8>) -> Result<(), AllocError>
    requires { place < 2 ^ 63 - 1 }
    ensures { OnOk result (text.new.items ≡ text.old.items ++ main_text place) }
{
    open(b"main", text)?;
    write_let_name(place, text)?;
    text.extend_from_slice(b")\n")
}
