//! The text of unit lines.
ghost use Rattle.std.specs.Prelude.{◌≡◌, IfOk, Some};
ghost use Rattle.unit_log.specs.Text.{cause_text, unit_text, unit_words};

use crate::line::UnitLine;
use depay::Cause;
use rtp_units::{Blob, OutOfMemory};
use std::alloc::Global;
use std::fmt;

/// The bytes of a line, its newline included: `TIME unit LANE FIRST LAST PTS BYTES`,
/// `TIME broken LANE NUMBER CAUSE` or `done RECORDS UNITS BROKEN`. The bytes of a unit stand in
/// lower-case hexadecimal digits.
pub fn line_text(alloc: Global, line: &UnitLine) -> Result<Blob, OutOfMemory>
    ensures { IfOk result (λ text. text ≡ unit_text line.now) }
{
    let words = Words(line);
    if let UnitLine::Unit { bytes, .. } = line {
        let digits = hex::encode(alloc, bytes.bytes())?;
        let text = format!(in alloc; "{words} {digits}\n")?;
        return Ok(Blob::from_vec(text.into_bytes()));
    }
    let text = format!(in alloc; "{words}\n")?;
    Ok(Blob::from_vec(text.into_bytes()))
}

// A line's words, without its bytes and newline.
#[derive(Clone, Copy)]
struct Words<'a>(&'a UnitLine);

impl fmt::Display for Words<'_> {
    ghost output = { λ words. Some (unit_words words.0.now) };

    fn fmt<W: fmt::Write>(&self, f: &mut fmt::Formatter<W>) -> fmt::Result {
        match self.0 {
            UnitLine::Unit {
                time,
                lane,
                first,
                last,
                pts,
                bytes: _,
            } => write!(f, "{time} unit {lane} {first} {last} {pts}"),
            UnitLine::Broken {
                time,
                lane,
                number,
                cause,
            } => {
                let cause = Spelled(*cause);
                write!(f, "{time} broken {lane} {number} {cause}")
            }
            UnitLine::Done {
                records,
                units,
                broken,
            } => write!(f, "done {records} {units} {broken}"),
        }
    }
}

// The word of a cause.
#[derive(Drop)]
struct Spelled(Cause);

impl fmt::Display for Spelled {
    ghost output = { λ word. Some (cause_text word.0) };

    fn fmt<W: fmt::Write>(&self, f: &mut fmt::Formatter<W>) -> fmt::Result {
        match self.0 {
            Cause::Empty => write!(f, "empty"),
            Cause::Kind => write!(f, "kind"),
            Cause::Size => write!(f, "size"),
            Cause::Fragment => write!(f, "fragment"),
            Cause::Large => write!(f, "large"),
            Cause::Incomplete => write!(f, "incomplete"),
        }
    }
}
