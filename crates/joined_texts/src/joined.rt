//! Texts that are joined one after the other.
ghost use Rattle.std.specs.Prelude.{◌≡◌, ◌++◌, ◌∷◌, [], OnErr, OnOk, codes};
ghost use Rattle.std.specs.List.{flat_map};
ghost use Rattle.joined_texts.specs.Joining.{bar, escaped, escaped_byte};

use std::alloc::{AllocError, Global};
use std::marker::Model;

/// The bytes of texts that were joined. Their room is kept for the next ones.
#[derive(Drop)]
pub struct Joined {
    bytes: Vec<u8>,
}

impl Model for Joined {
    ghost use Rattle.std.specs.Prelude.{List, ℕ};

    ghost Value = { List ℕ };

    ghost view = { λ j. j.bytes.items };
}

impl Joined {
    /// No text. It takes no memory.
    pub fn new(alloc: Global) -> Joined
        ensures { result ≡ [] }
    {
        Joined {
            bytes: Vec::new(alloc),
        }
    }

    /// Drops all that was joined.
    pub fn clear(&mut self)
        ensures { self.new ≡ [] }
    {
        self.bytes.clear();
    }

    /// The text takes the place of all that was joined before.
    pub fn begin(&mut self, text: &[u8]) -> Result<(), AllocError>
        ensures ok { OnOk result (self.new ≡ escaped text.now) }
        ensures err { OnErr result (self.new ≡ []) }
    {
        self.bytes.clear();
        self.push(b"", text)
    }

    /// Joins one more text.
    pub fn add(&mut self, text: &[u8]) -> Result<(), AllocError>
        ensures ok { OnOk result (self.new ≡ self.old ++ bar ∷ escaped text.now) }
        ensures err { OnErr result (self.new ≡ []) }
    {
        self.push(b"|", text)
    }

    pub fn as_slice(&self) -> &[u8]
        ensures { result.now ≡ self.now }
    {
        self.bytes.as_slice()
    }

    pub fn into_bytes(self) -> Vec<u8>
        ensures { result.items ≡ self }
    {
        self.bytes
    }

    /// Appends a text after a mark. Without memory nothing stays, since a part of a text can be
    /// taken for another.
    fn push(&mut self, mark: &[u8], text: &[u8]) -> Result<(), AllocError>
        ensures ok { OnOk result (self.new ≡ self.old ++ mark.now ++ escaped text.now) }
        ensures err { OnErr result (self.new ≡ []) }
    {
        match push_text(&mut self.bytes, mark, text) {
            Ok(()) => Ok(()),
            Err(error) => {
                self.bytes.clear();
                Err(error)
            }
        }
    }
}

fn push_text(bytes: &mut Vec<u8>, mark: &[u8], text: &[u8]) -> Result<(), AllocError>
    ensures { OnOk result (bytes.new.items ≡ bytes.old.items ++ mark.now ++ escaped text.now) }
{
    bytes.extend_from_slice(mark)?;
    'bytes: for &byte in text {
        push_byte(bytes, byte)?;
    }
    Ok(())
}

fn push_byte(bytes: &mut Vec<u8>, byte: u8) -> Result<(), AllocError>
    ensures { OnOk result (bytes.new.items ≡ bytes.old.items ++ escaped_byte byte) }
{
    if byte == b'|' || byte == b'\\' {
        bytes.push(b'\\')?;
    }
    bytes.push(byte)?;
    Ok(())
}
