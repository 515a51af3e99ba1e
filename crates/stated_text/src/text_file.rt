// A file in a text of decks.
ghost use Rattle.std.specs.Prelude.{◌≡◌, ◌++◌, [], IfOk};
ghost use Rattle.listing_io.specs.{ended_line};
ghost use Rattle.stated_text.specs.Cut.{TextFile as FileOf};

use std::alloc::{AllocError, Global};
use std::marker::Model;

/// A file in a text: its name, its bytes, and the number of the line FILE before it.
#[derive(Drop)]
pub struct TextFile<'a> {
    name: &'a str,
    bytes: Vec<u8>,
    line: u32,
}

impl<'a> Model for TextFile<'a> {
    ghost Value = { FileOf };

    ghost view = { λ f. record { name = f.name.now; bytes = f.bytes.items; line = f.line } };
}

impl<'a> TextFile<'a> {
    pub(crate) fn new(alloc: Global, name: &'a str, line: u32) -> TextFile<'a>
        ensures { result ≡ record { name = name.entry.now; bytes = []; line = line } }
    {
        TextFile {
            name,
            bytes: Vec::new(alloc),
            line,
        }
    }

    pub(crate) fn name(&self) -> &'a str
        ensures { result.now ≡ self.now.name }
    {
        self.name
    }

    pub(crate) fn bytes(&self) -> &[u8]
        ensures { result.now ≡ self.now.bytes }
    {
        self.bytes.as_slice()
    }

    pub(crate) fn line(&self) -> u32
        ensures { result ≡ self.now.line }
    {
        self.line
    }

    // Adds a line to the file.
    pub(crate) fn add(&mut self, line: &[u8]) -> Result<(), AllocError>
        ensures { IfOk result (λ _. self.new ≡ record self.old { bytes = self.old.bytes ++ ended_line line.now }) }
    {
        self.bytes.extend_from_slice(line)?;
        self.bytes.push(b'\n')?;
        Ok(())
    }
}
