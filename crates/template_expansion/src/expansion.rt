//! From the bytes of a text with templates to those of a plain one.
ghost use Rattle.std.specs.Prelude.{IfErr, IfOk};
ghost use Rattle.template_expansion.specs.Made.{IsMadeOf};
ghost use Rattle.template_expansion.specs.Meaning.{IsExpansionOf};
ghost use Rattle.template_expansion.specs.Stops.{IsStopAt};

use crate::ExpandStop;
use language_base::Bytes;
use query_parser::{file_of, print_file, shallow_trees};
use query_templates::expanded_file;
use query_trees::Tree;
use std::alloc::Global;

/// The plain file that a text stands for, and the terms that it was made of.
#[derive(Drop)]
pub struct Expansion {
    /// Those of the text.
    pub trees: Vec<Tree>,
    /// Those of the plain file, with tokens of the text.
    pub plain: Vec<Tree>,
    /// The canonical text of the plain file.
    pub bytes: Bytes,
}

pub fn expand(alloc: Global, text: &[u8]) -> Result<Bytes, ExpandStop>
    ensures expanded { IfOk result (IsExpansionOf text.now) }
    ensures stopped { IfErr result (IsStopAt text.now) }
{
    Ok(expand_trees(alloc, text)?.bytes)
}

/// The same, with the terms.
pub fn expand_trees(alloc: Global, text: &[u8]) -> Result<Expansion, ExpandStop>
    ensures made { IfOk result (IsMadeOf text.now) }
    ensures stopped { IfErr result (IsStopAt text.now) }
{
    let trees = shallow_trees(alloc, text)?;
    let plain = expanded_file(alloc, text, &trees)?;
    let file = file_of(alloc, text, &plain)?;
    let bytes = print_file(alloc, &file)?;
    Ok(Expansion {
        trees,
        plain,
        bytes,
    })
}
