//! The texts of the items of a stream.

use item_schema::{Item, Schema};
use line_reader::{ItemStop, read_item};
use std::alloc::{AllocError, Global};
use stream_run::Reply;

/// The different texts of the items so far.
#[derive(Drop)]
pub(crate) struct Texts<'q> {
    schema: &'q Schema,
    texts: Vec<Vec<u8>>,
}

impl<'q> Texts<'q> {
    pub(crate) fn new(alloc: Global, schema: &'q Schema) -> Texts<'q> {
        Texts {
            schema,
            texts: Vec::new(alloc),
        }
    }

    pub(crate) fn count(&self) -> u32 {
        u32::try_from(self.texts.len()).unwrap_or(u32::MAX)
    }

    /// Adds those of a line, if the reply says that it is an item.
    pub(crate) fn add(
        &mut self,
        alloc: Global,
        reply: Reply,
        line: &[u8],
    ) -> Result<(), AllocError> {
        match (reply, read_item(alloc, self.schema, line)) {
            (Reply::Answered, Ok(item)) => self.add_item(alloc, &item),
            (_, Err(ItemStop::Memory)) => Err(AllocError),
            _ => Ok(()),
        }
    }

    fn add_item(&mut self, alloc: Global, item: &Item) -> Result<(), AllocError> {
        for field in item.fields() {
            if let Some(text) = field.text() {
                self.add_text(alloc, text)?;
            }
        }
        Ok(())
    }

    fn add_text(&mut self, alloc: Global, text: &[u8]) -> Result<(), AllocError> {
        if self.texts.iter().any(|known| known.as_slice() == text) {
            return Ok(());
        }
        let text = Vec::from_slice(alloc, text)?;
        Ok(self.texts.push(text)?)
    }
}
