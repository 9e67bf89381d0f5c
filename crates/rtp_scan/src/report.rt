//! What is told of a capture.
ghost use Rattle.std.specs.Prelude.{◌≡◌, ◌++◌, IfOk, OnOk, Some, string_bytes};
ghost use Rattle.std.specs.List.{flat_map};
ghost use Rattle.rtp_scan.specs.Report.{comments_for, left_out_line, lines_for, clock_text};
ghost use Rattle.rtp_scan.specs.Report.{counts_text};
ghost use Rattle.rtp_scan.specs.Report.{report_text, stream_line, stream_text, unplaced_line};
ghost use Rattle.rtp_scan.specs.Report.{unplaced_text};

use crate::clock::{Clock, clock_of};
use crate::proposal::{is_proposed, script_for};
use crate::scan::Scan;
use crate::stream::Stream;
use rtp_units::{Blob, OutOfMemory};
use script_lang::{Script, write};
use std::alloc::Global;
use std::fmt;

/// The text for a scan: a line for each stream, unless only the script is wanted, and a script for
/// them. Comments of the script tell which streams have no place in it, and how many packets were
/// left out.
pub fn report_of(alloc: Global, scan: &Scan, script_only: bool) -> Result<Blob, OutOfMemory>
    ensures { IfOk result (λ text. text ≡ report_text script_only scan.now) }
{
    let streams = scan.streams(alloc)?;
    let script = script_for(alloc, scan, &streams)?;
    let lines = lines_of(alloc, script_only, &streams)?;
    let written = write(alloc, &script)?;
    let comments = comments_of(alloc, &script, &streams, scan.left_out())?;
    joined(lines, written.bytes(), &comments)
}

fn joined(lines: String, script: &[u8], comments: &str) -> Result<Blob, OutOfMemory>
    ensures { IfOk result (λ text. text ≡ string_bytes lines ++ script.now ++ comments.now) }
{
    let mut text = lines.into_bytes();
    text.extend_from_slice(script)?;
    text.extend_from_slice(comments.as_bytes())?;
    Ok(Blob::from_vec(text))
}

fn lines_of(alloc: Global, script_only: bool, streams: &[Stream]) -> Result<String, OutOfMemory>
    ensures { IfOk result (λ text. string_bytes text ≡ lines_for script_only streams.now) }
{
    let mut text = String::new(alloc);
    if !script_only {
        push_streams(&mut text, streams)?;
    }
    Ok(text)
}

fn push_streams(text: &mut String, streams: &[Stream]) -> Result<(), OutOfMemory>
    ensures { OnOk result (string_bytes text.new
        ≡ string_bytes text.old ++ flat_map stream_line streams.now) }
{
    for stream in streams {
        let line = StreamLine(*stream);
        write!(text, "{line}")?;
    }
    Ok(())
}

fn comments_of(
    alloc: Global,
    script: &Script,
    streams: &[Stream],
    left_out: u64,
) -> Result<String, OutOfMemory>
    ensures { IfOk result (λ text. string_bytes text
        ≡ comments_for script.now streams.now left_out) }
{
    let mut text = String::new(alloc);
    push_unplaced(&mut text, script, streams)?;
    if left_out != 0 {
        write!(text, "# packets of further streams: {left_out}\n")?;
    }
    Ok(text)
}

fn push_unplaced(text: &mut String, script: &Script, streams: &[Stream]) -> Result<(), OutOfMemory>
    ensures { OnOk result (string_bytes text.new ≡ string_bytes text.old
        ++ flat_map (unplaced_text script.now) streams.now) }
{
    for stream in streams {
        push_if_unplaced(text, script, stream)?;
    }
    Ok(())
}

fn push_if_unplaced(text: &mut String, script: &Script, stream: &Stream) -> Result<(), OutOfMemory>
    ensures { OnOk result (string_bytes text.new
        ≡ string_bytes text.old ++ unplaced_text script.now stream.now) }
{
    if !is_proposed(script, stream) {
        let line = UnplacedLine(*stream);
        write!(text, "{line}")?;
    }
    Ok(())
}

// A stream's line.
#[derive(Drop)]
struct StreamLine(Stream);

impl fmt::Display for StreamLine {
    ghost output = { λ line. Some (stream_line line.0) };

    fn fmt<W: fmt::Write>(&self, f: &mut fmt::Formatter<W>) -> fmt::Result {
        let name = StreamName(self.0);
        let counts = StreamCounts(self.0);
        let clock = clock_of(&self.0);
        write!(f, "stream {name} {counts} {clock}\n")
    }
}

// The comment on a stream that has no place in the script.
#[derive(Drop)]
struct UnplacedLine(Stream);

impl fmt::Display for UnplacedLine {
    ghost output = { λ line. Some (unplaced_line line.0) };

    fn fmt<W: fmt::Write>(&self, f: &mut fmt::Formatter<W>) -> fmt::Result {
        let name = StreamName(self.0);
        let clock = clock_of(&self.0);
        write!(f, "# no place for stream {name} {clock}\n")
    }
}

// Port, SSRC and payload type.
#[derive(Drop)]
struct StreamName(Stream);

impl fmt::Display for StreamName {
    ghost output = { λ name. Some (stream_text name.0) };

    fn fmt<W: fmt::Write>(&self, f: &mut fmt::Formatter<W>) -> fmt::Result {
        let port = self.0.first.port;
        let ssrc = self.0.first.ssrc;
        let pt = self.0.first.pt;
        write!(f, "{port} {ssrc:08x} {pt}")
    }
}

// Packets, and the times of the first and the latest one.
#[derive(Drop)]
struct StreamCounts(Stream);

impl fmt::Display for StreamCounts {
    ghost output = { λ counts. Some (counts_text counts.0) };

    fn fmt<W: fmt::Write>(&self, f: &mut fmt::Formatter<W>) -> fmt::Result {
        let packets = self.0.packets;
        let first = self.0.first.time;
        let latest = self.0.latest.time;
        write!(f, "{packets} {first} {latest}")
    }
}

impl fmt::Display for Clock {
    ghost output = { λ clock. Some (clock_text clock) };

    fn fmt<W: fmt::Write>(&self, f: &mut fmt::Formatter<W>) -> fmt::Result {
        let rate = self.rate;
        let codec = self.codec;
        write!(f, "{rate} {codec}")
    }
}
