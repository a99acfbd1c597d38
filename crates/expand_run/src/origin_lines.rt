//! Where the nodes of a plain query come from, as lines.
ghost use Rattle.std.specs.Prelude.{◌≡◌, ◌++◌, IfErr, IfOk, OnOk, string_bytes};
ghost use Rattle.query_parser.specs.Stop.{IsStopBefore};
ghost use Rattle.expand_run.specs.OriginLines.{AreOriginsOf, ArePlacesIn, node_line, node_lines};
ghost use Rattle.expand_run.specs.OriginLines.{use_text};
ghost use Rattle.expand_run.specs.OriginStops.{IsOriginStop};
ghost use Rattle.expand_run.specs.RefusalTexts.{span_text};

use language_base::{Bytes, Span};
use query_parser::{ReadStop, shallow_trees};
use query_templates::{Origin, Use, node_places, origins};
use std::alloc::{AllocError, Global};
use template_expansion::{ExpandStop, expand_trees};

/// A line for each node of the plain query that the text stands for.
pub(crate) fn origin_lines(alloc: Global, text: &[u8]) -> Result<Bytes, ExpandStop>
    ensures lines { IfOk result (AreOriginsOf text.now) }
    ensures stopped { IfErr result (IsOriginStop text.now) }
{
    let made = expand_trees(alloc, text)?;
    let places = places_in(alloc, made.bytes.as_slice())?;
    let origins = origins(alloc, text, &made.trees, &made.plain)?;
    Ok(node_lines(alloc, &places, &origins)?)
}

// The places of the nodes of a text.
fn places_in(alloc: Global, text: &[u8]) -> Result<Vec<Span>, ReadStop>
    ensures places { IfOk result (λ places. ArePlacesIn text.now places.items) }
    ensures stopped { IfErr result (IsStopBefore text.now) }
{
    let trees = shallow_trees(alloc, text)?;
    Ok(node_places(alloc, &trees)?)
}

fn node_lines(alloc: Global, places: &[Span], origins: &[Origin]) -> Result<Bytes, AllocError>
    ensures { IfOk result (λ lines. lines ≡ node_lines places.now origins.now) }
{
    let mut lines = String::new(alloc);
    'nodes: for (place, origin) in places.iter().zip(origins) {
        push_node(*place, *origin, &mut lines)?;
    }
    Ok(Bytes::from_vec(lines.into_bytes()))
}

fn push_node(place: Span, origin: Origin, lines: &mut String) -> Result<(), AllocError>
    ensures { OnOk result (string_bytes lines.new
        ≡ string_bytes lines.old ++ node_line place origin) }
{
    push_place(place, lines)?;
    lines.push_str(" ")?;
    push_place(origin.place, lines)?;
    push_use(origin.used, lines)?;
    lines.push_str("\n")
}

fn push_use(used: Option<Use>, lines: &mut String) -> Result<(), AllocError>
    ensures { OnOk result (string_bytes lines.new ≡ string_bytes lines.old ++ use_text used) }
{
    let Some(Use { place, template }) = used else {
        return Ok(());
    };
    lines.push_str(" ")?;
    push_place(place, lines)?;
    lines.push_str(" ")?;
    push_place(template, lines)
}

fn push_place(place: Span, lines: &mut String) -> Result<(), AllocError>
    ensures { OnOk result (string_bytes lines.new ≡ string_bytes lines.old ++ span_text place) }
{
    let Span { from, to } = place;
    write!(lines, "{from}..{to}")
}
