//! Adds up the last column of items and writes the sum after each: what lines, items and answers
//! cost without a query.

use io_edge::{LazyFile, Line, Lines, Sink, Source, WriterSink, write_all};
use item_schema::{Column, Item, Kind, Schema, are_columns};
use language_base::Bytes;
use line_reader::{ItemStop, read_item};
use report_writer::{push_answer, push_skip};
use std::alloc::{AllocError, Global};
use std::io;
use value_ops::{Scalar, Value};

/// The first word is the file, or `-` for standard input. The others are the kinds of the columns.
pub(crate) fn sum_items(rt: HostRuntime, words: &[String]) -> io::Result<()> {
    let alloc = rt.alloc();
    let [file, kinds @ ..] = words else {
        return println!(rt; "the words are a file and kinds");
    };
    match schema_of(alloc, kinds)? {
        Some(schema) => Ok(sum_file(rt, &schema, file.as_str())?),
        None => println!(rt; "the kinds are those of 1 to 32 columns: int, text, hundredths"),
    }
}

fn sum_file(rt: HostRuntime, schema: &Schema, file: &str) -> Result<(), AllocError> {
    let mut source = LazyFile::new(rt, rt.alloc(), file)?;
    sum_source(rt, schema, &mut source)
}

fn sum_source<S: Source>(
    rt: HostRuntime,
    schema: &Schema,
    source: &mut S,
) -> Result<(), AllocError> {
    let alloc = rt.alloc();
    let mut out = WriterSink::new(io::writer(&rt), alloc)?;
    let ended = sum_lines(alloc, schema, source, &mut out);
    // However it ended, what was written is flushed.
    let _at_end = out.flush();
    ended
}

/// Answers line by line. All answers are flushed before a read.
fn sum_lines<S: Source, W: Sink>(
    alloc: Global,
    schema: &Schema,
    source: &mut S,
    out: &mut W,
) -> Result<(), AllocError> {
    let mut lines = Lines::new(alloc)?;
    let mut reply = Reply {
        sum: Scalar::Number(0),
        text: Vec::new(alloc),
    };
    sum_each(alloc, schema, &mut lines, source, &mut reply, out)
}

/// The sum so far, and what is written for the last line.
#[derive(Drop)]
struct Reply {
    sum: Scalar,
    text: Vec<u8>,
}

/// Ends after the last line, or if a reply cannot be written.
fn sum_each<S: Source, W: Sink>(
    alloc: Global,
    schema: &Schema,
    lines: &mut Lines,
    source: &mut S,
    reply: &mut Reply,
    out: &mut W,
) -> Result<(), AllocError> {
    for _ in 0..u64::MAX {
        if !sum_line(alloc, schema, lines, source, reply, out)? {
            break;
        }
    }
    Ok(())
}

/// Whether there was one more line, whose reply is then written.
fn sum_line<S: Source, W: Sink>(
    alloc: Global,
    schema: &Schema,
    lines: &mut Lines,
    source: &mut S,
    reply: &mut Reply,
    out: &mut W,
) -> Result<bool, AllocError> {
    if !lines.is_ready() && out.flush().is_err() {
        return Ok(false);
    }
    let Ok(Line::Whole(line)) = lines.next(source) else {
        return Ok(false);
    };
    reply.text.clear();
    push_reply(alloc, schema, line, reply)?;
    Ok(write_all(out, reply.text.as_slice()).is_ok())
}

fn schema_of(alloc: Global, kinds: &[String]) -> Result<Option<Schema>, AllocError> {
    let columns = columns_of(alloc, kinds)?;
    if !are_columns(&columns) {
        return Ok(None);
    }
    Ok(Some(Schema::new(false, columns)))
}

fn columns_of(alloc: Global, words: &[String]) -> Result<Vec<Column>, AllocError> {
    let mut columns = Vec::new(alloc);
    for (index, word) in words.iter().enumerate() {
        let name = format!(in alloc; "{index}")?;
        columns.push(Column {
            name: Bytes::from_slice(alloc, name.as_bytes())?,
            kind: kind_of(word.as_str()),
        })?;
    }
    Ok(columns)
}

fn kind_of(word: &str) -> Kind {
    match word {
        "text" => Kind::Text,
        "hundredths" => Kind::Fixed(2),
        _ => Kind::Int,
    }
}

/// Appends what is written for a line: the sum after it, or why it is no item.
fn push_reply(
    alloc: Global,
    schema: &Schema,
    line: &[u8],
    reply: &mut Reply,
) -> Result<(), AllocError> {
    match read_item(alloc, schema, line) {
        Ok(item) => {
            reply.sum = sum_with(reply.sum, &item);
            push_answer(Some(&Value::Scalar(reply.sum)), &mut reply.text)
        }
        Err(ItemStop::Skip(skip)) => push_skip(skip, &mut reply.text),
        Err(ItemStop::Memory) => Err(AllocError),
    }
}

/// The sum with the number in the last column, if there is one.
fn sum_with(sum: Scalar, item: &Item) -> Scalar {
    match item.fields().last().and_then(|field| field.scalar()) {
        Some(scalar) => sum + scalar,
        None => sum,
    }
}
