//! The rules of reading, one after the other.
ghost use Rattle.std.specs.Prelude.{◌≡◌, ◌≤◌, IfOk, IfErr, length};
ghost use Rattle.language_base.specs.declared.rule.Rule.{Rule};
ghost use Rattle.query_trees.specs.Trees.{trees_of};
ghost use Rattle.query_parser.specs.Plain.{terms_of};
ghost use Rattle.query_parser.specs.Reading.{HasTokens, IsFileOf};
ghost use Rattle.query_parser.specs.Stop.{IsStopAfter, IsStopAt, IsStopBefore};
ghost use Rattle.query_parser.specs.TreeReading.{AreFileOf, AreReadable, AreShallow};

use crate::conversion::terms_of;
use crate::{File, ReadStop};
use language_base::{Refusal, Rule, Span};
use query_forms::{first_large, unfit_file};
use query_tokens::{Token, TokenStop, read_tokens};
use query_trees::{Tree, TreeStop, read_trees};
use std::alloc::Global;

/// The most bytes that a text may have.
const MAX_TEXT: usize = 65_536;

/// Reads a text, or finds the first rule that it breaks.
pub fn read_file(alloc: Global, text: &[u8]) -> Result<File, ReadStop>
    ensures read { IfOk result (λ file. IsFileOf text.now (terms_of file)) }
    ensures stopped { IfErr result (IsStopAt text.now) }
{
    let trees = shallow_trees(alloc, text)?;
    file_of(alloc, text, &trees)
}

/// The file that trees say, or the first rule that they break as one.
pub fn file_of(alloc: Global, text: &[u8], trees: &[Tree]) -> Result<File, ReadStop>
    requires { AreReadable text.now (trees_of trees.now) }
    ensures file { IfOk result (λ file.
        AreFileOf text.now (trees_of trees.now) (terms_of file)) }
    ensures stopped { IfErr result (IsStopAfter text.now (trees_of trees.now)) }
{
    if let Some(span) = unfit_file(text, trees, text.len() as u32) {
        return Err(refused(Rule::Form, span));
    }
    if let Some(span) = first_large(text, trees) {
        return Err(refused(Rule::Literal, span));
    }
    let terms = terms_of(alloc, text, trees)?;
    Ok(File::new(terms))
}

/// The trees of a text, none of which is too deep.
pub fn shallow_trees(alloc: Global, text: &[u8]) -> Result<Vec<Tree>, ReadStop>
    ensures shallow { IfOk result (λ trees. AreShallow text.now (trees_of trees.items)) }
    ensures readable { IfOk result (λ trees. AreReadable text.now (trees_of trees.items)) }
    ensures stopped { IfErr result (IsStopBefore text.now) }
{
    let tokens = tokens_of(alloc, text)?;
    match read_trees(alloc, &tokens, text.len() as u32) {
        Ok(trees) => Ok(trees),
        Err(TreeStop::NoList(span)) => Err(refused(Rule::Term, span)),
        Err(TreeStop::Deep(span)) => Err(refused(Rule::Depth, span)),
        Err(TreeStop::Memory) => Err(ReadStop::Memory),
    }
}

/// The tokens of a text that is not too long.
fn tokens_of(alloc: Global, text: &[u8]) -> Result<Vec<Token>, ReadStop>
    ensures tokens { IfOk result (λ tokens. HasTokens text.now tokens.items) }
    ensures stopped { IfErr result (IsStopBefore text.now) }
{
    if text.len() > MAX_TEXT {
        let first_beyond = Span {
            from: MAX_TEXT as u32,
            to: MAX_TEXT as u32 + 1,
        };
        return Err(refused(Rule::Long, first_beyond));
    }
    match read_tokens(alloc, text) {
        Ok(tokens) => Ok(tokens),
        Err(TokenStop::Fault(place)) => {
            let span = Span {
                from: place,
                to: place + 1,
            };
            Err(refused(Rule::Token, span))
        }
        Err(TokenStop::Memory) => Err(ReadStop::Memory),
    }
}

fn refused(rule: Rule, span: Span) -> ReadStop
    ensures { result ≡ ReadStop.Refused (record { rule = rule; span = span }) }
{
    ReadStop::Refused(Refusal { rule, span })
}
