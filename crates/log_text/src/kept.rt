//! A line's text in memory that is kept from one line to the next.
ghost use Rattle.std.specs.Prelude.{◌≡◌, [], OnOk};
ghost use Rattle.log_text.specs.Dumped.{dump_text};
ghost use Rattle.log_text.specs.Text.{line_text};

use crate::dumped::push_dump_line;
use crate::push_line;
use rtp_units::{Blob, OutOfMemory};
use std::alloc::Global;
use std::marker::Model;
use timeline::{BinLine, DumpLine};

/// The text of one line at a time, its newline included. Its memory serves for the next line too.
/// Contracts see the bytes.
#[derive(Drop)]
pub struct LineText {
    text: String,
}

impl Model for LineText {
    ghost use Rattle.std.specs.Prelude.{List, ℕ, string_bytes};

    ghost Value = { List ℕ };

    ghost view = { λ line. string_bytes line.text };
}

impl LineText {
    /// No text, and no memory yet.
    pub fn new(alloc: Global) -> LineText
        ensures { result ≡ [] }
    {
        LineText {
            text: String::new(alloc),
        }
    }

    /// Becomes the text of this line of a log. Bytes stand in lower-case hexadecimal digits, behind
    /// the line's other fields; with `hex` those of a packet that leaves too.
    pub fn set_line(&mut self, alloc: Global, line: &BinLine, hex: bool) -> Result<(), OutOfMemory>
        ensures { OnOk result (self.new ≡ line_text hex line.now) }
    {
        self.text.clear();
        push_line(alloc, &mut self.text, line, hex)
    }

    /// Becomes the text of this line of a dump.
    pub fn set_dump_line(&mut self, line: &DumpLine) -> Result<(), OutOfMemory>
        ensures { OnOk result (self.new ≡ dump_text line.now) }
    {
        self.text.clear();
        push_dump_line(&mut self.text, line)
    }

    /// The text.
    pub fn bytes(&self) -> &[u8]
        ensures { result.now ≡ self.now }
    {
        self.text.as_bytes()
    }

    /// The text as it is, with no copy.
    pub fn into_blob(self) -> Blob
        ensures { result ≡ self }
    {
        Blob::from_vec(self.text.into_bytes())
    }
}
