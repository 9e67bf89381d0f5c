//! The lines of a log as text.
#![tactic(auto)]

mod dumped;
mod kept;
mod words;

ghost use Rattle.std.specs.Prelude.{◌≡◌, ◌++◌, IfOk, OnOk, option_map, string_bytes};
ghost use Rattle.log_text.specs.Dumped.{dump_text};
ghost use Rattle.log_text.specs.Text.{bytes_of, line_text};

use crate::words::Words;
pub use kept::LineText;
use rtp_units::{Blob, OutOfMemory};
use std::alloc::Global;
use std::fmt::Write;
use timeline::{BinLine, DumpLine};

/// The bytes of a line, its newline included. Bytes stand in lower-case hexadecimal digits, behind
/// the line's other fields; with `hex` those of a packet that leaves too.
pub fn line(alloc: Global, line: &BinLine, hex: bool) -> Result<Blob, OutOfMemory>
    ensures { IfOk result (λ text. text ≡ line_text hex line.now) }
{
    let mut text = LineText::new(alloc);
    text.set_line(alloc, line, hex)?;
    Ok(text.into_blob())
}

/// The bytes of a dump's line, its newline included.
pub fn dump_line(alloc: Global, line: &DumpLine) -> Result<Blob, OutOfMemory>
    ensures { IfOk result (λ text. text ≡ dump_text line.now) }
{
    let mut text = LineText::new(alloc);
    text.set_dump_line(line)?;
    Ok(text.into_blob())
}

// The text of a line, its newline included, behind what is there.
fn push_line(alloc: Global, text: &mut String, line: &BinLine, hex: bool) -> Result<(), OutOfMemory>
    ensures { OnOk result
        (string_bytes text.new ≡ string_bytes text.old ++ line_text hex line.now) }
{
    let words = Words(line);
    if let Some(bytes) = shown(line, hex) {
        let digits = hex::encode(alloc, bytes.bytes())?;
        write!(text, "{words} {digits}\n")?;
        return Ok(());
    }
    write!(text, "{words}\n")?;
    Ok(())
}

// The bytes that a line shows.
fn shown(line: &BinLine, hex: bool) -> Option<&Blob>
    ensures { option_map (λ bytes. bytes.now) result ≡ bytes_of hex line.now }
{
    match line {
        BinLine::Out { bytes, .. } if hex => Some(bytes),
        BinLine::Nack { bytes, .. } | BinLine::Report { bytes, .. } => Some(bytes),
        BinLine::Cname { name, .. } => Some(name),
        _ => None,
    }
}
