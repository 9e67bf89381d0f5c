//! How the lines of a log become text.
ghost use Rattle.std.specs.Prelude.{◌≡◌, ◌<◌, ◌-◌, ◌^◌, ◌∷◌, []};
ghost use Rattle.log_text.specs.Text.{line_text as text_of_line};
ghost use Rattle.unit_log.specs.Standing.{SameSettings};
ghost use Rattle.unit_log.specs.Text.{texts_of, unit_text as unit_text_of};
ghost use Rattle.command_core.specs.Steps.{HasWriteCause, Prints};
ghost use Rattle.command_core.specs.Taken.{AddsMore};
ghost use Rattle.replay_command.specs.Rendered.{Renders, RendersUnits, WasGiven, style_of};

use command_core::{Stop, print_piece};
use log_text::LineText;
use rtp_io::Sink;
use rtp_units::OutOfMemory;
use std::alloc::Global;
use timeline::BinLine;
use unit_log::{Format, UnitLine, UnitLog, line_text as unit_text};

/// What is written for a log.
#[derive(Clone, Copy, Debug, PartialEq, Eq, Drop)]
pub enum Style {
    /// Each line as it is, with the bytes of the packets that leave or without.
    Log { hex: bool },
    /// The media units of the packets that leave with this payload type, from 0 to 127, and have
    /// payloads of this format.
    Units { format: Format, pt: u8 },
}

/// A style, and what it keeps of the lines of a log, which it is given one after the other.
#[derive(Drop)]
pub enum Rendering {
    /// Each line as it is, with the bytes of the packets that leave or without, and the memory in
    /// which lines become text.
    Log { hex: bool, text: LineText },
    /// The media units of the packets that leave.
    Units(UnitLog),
}

impl Rendering {
    /// A rendering that was given no line.
    pub fn new(alloc: Global, style: Style) -> Rendering
        ensures style { style_of result ≡ style }
        ensures given { WasGiven result [] }
    {
        match style {
            Style::Log { hex } => Rendering::Log {
                hex,
                text: LineText::new(alloc),
            },
            Style::Units { format, pt } => Rendering::Units(UnitLog::new(alloc, format, pt)),
        }
    }

    /// Writes what goes out for the next line of the log. Each line of it is one piece.
    ///
    /// The error is `Write` or `Memory`, and a front of it was written then.
    pub fn write<O: Sink>(&mut self, alloc: Global, line: &BinLine, out: &mut O) -> Result<(), Stop>
        requires { O.faults out.old < 2 ^ 64 - 1 }
        ensures style { style_of self.new ≡ style_of self.old }
        ensures renders { Renders result self.old self.new (line.now ∷ [])
            (O.written out.old) (O.written out.new) }
        ensures more { AddsMore [] (O.written out.old) (O.written out.new) }
        ensures cause { HasWriteCause result (O.faults out.old) (O.faults out.new) }
    {
        match self {
            Rendering::Log { hex, text } => print_line(alloc, text, line, *hex, out),
            Rendering::Units(log) => print_units(alloc, log, line, out),
        }
    }
}

// Writes a line as it is.
fn print_line<O: Sink>(
    alloc: Global,
    text: &mut LineText,
    line: &BinLine,
    hex: bool,
    out: &mut O,
) -> Result<(), Stop>
    requires { O.faults out.old < 2 ^ 64 - 1 }
    ensures { Prints (text_of_line hex line.now) result
        (O.written out.old) (O.written out.new) (O.faults out.old) (O.faults out.new) }
{
    match text.set_line(alloc, line, hex) {
        Ok(()) => print_piece(out, text.bytes()),
        Err(OutOfMemory) => Err(Stop::Memory),
    }
}

// Writes the unit lines that a line of the log tells.
fn print_units<O: Sink>(
    alloc: Global,
    log: &mut UnitLog,
    line: &BinLine,
    out: &mut O,
) -> Result<(), Stop>
    requires { O.faults out.old < 2 ^ 64 - 1 }
    ensures same { SameSettings log.old log.new }
    ensures renders { RendersUnits result log.old log.new line.now
        (O.written out.old) (O.written out.new) }
    ensures more { AddsMore [] (O.written out.old) (O.written out.new) }
    ensures cause { HasWriteCause result (O.faults out.old) (O.faults out.new) }
{
    let lines = match log.take(alloc, line) {
        Ok(lines) => lines,
        Err(OutOfMemory) => return Err(Stop::Memory),
    };
    print_all(alloc, lines.as_slice(), out)
}

fn print_all<O: Sink>(alloc: Global, lines: &[UnitLine], out: &mut O) -> Result<(), Stop>
    requires { O.faults out.old < 2 ^ 64 - 1 }
    ensures { Prints (texts_of lines.now) result
        (O.written out.old) (O.written out.new) (O.faults out.old) (O.faults out.new) }
{
    for line in lines {
        match print_unit(alloc, line, out) {
            Ok(()) => {}
            Err(stop) => return Err(stop),
        }
    }
    Ok(())
}

fn print_unit<O: Sink>(alloc: Global, line: &UnitLine, out: &mut O) -> Result<(), Stop>
    requires { O.faults out.old < 2 ^ 64 - 1 }
    ensures { Prints (unit_text_of line.now) result
        (O.written out.old) (O.written out.new) (O.faults out.old) (O.faults out.new) }
{
    let piece = match unit_text(alloc, line) {
        Ok(piece) => piece,
        Err(OutOfMemory) => return Err(Stop::Memory),
    };
    print_piece(out, piece.bytes())
}
