//! The grammar, read from its file.

use crate::grammar::{Alternative, Grammar, Mark, Part, Rule};
use std::alloc::{AllocError, Global};

/// A line of the file: `NAME: TEXT`, or `NAME WEIGHT: TEXT`.
#[derive(Clone, Copy)]
struct Entry<'t> {
    name: &'t str,
    weight: usize,
    text: &'t str,
}

/// The grammar of the text, with the rules in the order in which they come first. There is none if
/// a line is no entry, or names no rule. Empty lines and lines that begin with `#` are remarks.
pub fn grammar_of(alloc: Global, text: &str) -> Result<Option<Grammar>, AllocError> {
    let mut grammar = named_rules(alloc, text)?;
    for line in text.lines() {
        if !is_remark(line) && !add_alternative(alloc, &mut grammar, line)? {
            return Ok(None);
        }
    }
    Ok(Some(grammar))
}

/// The rules of all names, without alternatives.
fn named_rules(alloc: Global, text: &str) -> Result<Grammar, AllocError> {
    let mut grammar = Grammar::new(alloc);
    for line in text.lines() {
        if let Some(entry) = entry_of(line) {
            add_rule(alloc, &mut grammar, entry.name)?;
        }
    }
    Ok(grammar)
}

fn is_remark(line: &str) -> bool {
    line.is_empty() || line.starts_with('#')
}

fn entry_of(line: &str) -> Option<Entry<'_>> {
    if is_remark(line) {
        return None;
    }
    let (head, text) = line.split_once(':')?;
    let text = text.strip_prefix(' ').unwrap_or(text);
    match head.split_once(' ') {
        Some((name, weight)) => Some(Entry {
            name,
            weight: weight.parse::<usize>().ok()?,
            text,
        }),
        None => Some(Entry {
            name: head,
            weight: 1,
            text,
        }),
    }
}

/// Adds a rule unless there is one with the name.
fn add_rule(alloc: Global, grammar: &mut Grammar, name: &str) -> Result<(), AllocError> {
    if grammar.number_of(name).is_none() {
        let name = String::from_str(alloc, name)?;
        grammar.rules.push(Rule {
            name,
            alternatives: Vec::new(alloc),
            weight: 0,
        })?;
    }
    Ok(())
}

/// Whether the line is an entry in which all names are known. Its alternative is added then.
fn add_alternative(alloc: Global, grammar: &mut Grammar, line: &str) -> Result<bool, AllocError> {
    let Some(entry) = entry_of(line) else {
        return Ok(false);
    };
    let Some(parts) = parts_of(alloc, grammar, entry.text)? else {
        return Ok(false);
    };
    let number = grammar.number_of(entry.name).unwrap_or(0);
    if let Some(rule) = grammar.rules.get_mut(number) {
        rule.weight = rule.weight.saturating_add(entry.weight);
        rule.alternatives.push(Alternative {
            parts,
            weight: entry.weight,
        })?;
    }
    Ok(true)
}

/// The parts of a text, in which `<NAME>` is a rule or a mark.
fn parts_of(
    alloc: Global,
    grammar: &mut Grammar,
    text: &str,
) -> Result<Option<Vec<Part>>, AllocError> {
    let mut parts = Vec::new(alloc);
    for (index, piece) in text.split('<').enumerate() {
        let rest = match piece.split_once('>') {
            Some((name, rest)) if index > 0 => {
                let Some(part) = part_of(grammar, name)? else {
                    return Ok(None);
                };
                parts.push(part)?;
                rest
            }
            _ => piece,
        };
        parts.push(grammar.add_bytes(rest.as_bytes())?)?;
    }
    Ok(Some(parts))
}

fn part_of(grammar: &mut Grammar, name: &str) -> Result<Option<Part>, AllocError> {
    if let Some(mark) = mark_of(name) {
        return Ok(Some(Part::Mark(mark)));
    }
    match bytes_of(name) {
        Some(bytes) => Ok(Some(grammar.add_bytes(bytes)?)),
        None => Ok(grammar.number_of(name).map(Part::Rule)),
    }
}

fn mark_of(name: &str) -> Option<Mark> {
    match name {
        "byte" => Some(Mark::Byte),
        "count" => Some(Mark::Count),
        "keep" => Some(Mark::Keep),
        "kept" => Some(Mark::Kept),
        "again" => Some(Mark::Again),
        "items" => Some(Mark::Items),
        _ => None,
    }
}

/// Bytes that the file can only name.
fn bytes_of(name: &str) -> Option<&'static [u8]> {
    match name {
        "lf" => Some(b"\n"),
        "cr" => Some(b"\r"),
        "tab" => Some(b"\t"),
        "byte-order-mark" => Some(b"\xEF\xBB\xBF"),
        _ => None,
    }
}
