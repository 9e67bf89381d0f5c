//! The text of a dump's lines.
ghost use Rattle.std.specs.Prelude.{◌≡◌, ◌++◌, OnOk, Some, string_bytes};
ghost use Rattle.std.specs.List.{flat_map};
ghost use Rattle.log_text.specs.Dumped.{after_comma, bad_text, dump_text, dump_words, header_text, numbers_text, packet_text, ports_text, sizes_text};

use crate::words::Spelled;
use rtp_units::OutOfMemory;
use std::alloc::AllocError;
use std::fmt;
use std::fmt::Write;
use timeline::{BadPacket, DumpLine, Ports, RtpFacts};

// The text of a dump's line, its newline included, behind what is there.
pub fn push_dump_line(text: &mut String, line: &DumpLine) -> Result<(), OutOfMemory>
    ensures { OnOk result
        (string_bytes text.new ≡ string_bytes text.old ++ dump_text line.now) }
{
    let words = Dumped(line);
    if let DumpLine::Rtcp { types, .. } = line {
        write!(text, "{words} ")?;
        push_numbers(text, types.bytes())?;
        write!(text, "\n")?;
        return Ok(());
    }
    write!(text, "{words}\n")?;
    Ok(())
}

// Numbers in decimal, joined by commas.
fn push_numbers(text: &mut String, numbers: &[u8]) -> Result<(), AllocError>
    ensures { OnOk result
        (string_bytes text.new ≡ string_bytes text.old ++ numbers_text numbers.now) }
{
    match numbers {
        [] => Ok(()),
        [first, more @ ..] => {
            write!(text, "{first}")?;
            push_more(text, more)
        }
    }
}

fn push_more(text: &mut String, numbers: &[u8]) -> Result<(), AllocError>
    ensures { OnOk result (string_bytes text.new
        ≡ string_bytes text.old ++ flat_map after_comma numbers.now) }
{
    for number in numbers {
        write!(text, ",{number}")?;
    }
    Ok(())
}

// A line's words, without the types of a compound and the newline.
#[derive(Clone, Copy)]
struct Dumped<'a>(&'a DumpLine);

impl fmt::Display for Dumped<'_> {
    ghost output = { λ line. Some (dump_words line.0.now) };

    fn fmt<W: fmt::Write>(&self, f: &mut fmt::Formatter<W>) -> fmt::Result {
        match self.0 {
            DumpLine::Rtp {
                record,
                time,
                ports,
                facts,
            } => {
                let packet = PacketWords {
                    ports: *ports,
                    facts: *facts,
                };
                write!(f, "{record} {time} rtp {packet}")
            }
            DumpLine::Rtcp {
                record,
                time,
                ports,
                types: _,
            } => {
                let ports = PortWords(*ports);
                write!(f, "{record} {time} rtcp {ports}")
            }
            DumpLine::BadRtcp {
                record,
                time,
                ports,
                bad,
            } => {
                let ports = PortWords(*ports);
                let bad = BadWords(*bad);
                write!(f, "{record} {time} bad {ports} rtcp {bad}")
            }
            DumpLine::Bad {
                record,
                time,
                ports,
                word,
            } => {
                let ports = PortWords(*ports);
                let word = Spelled(*word);
                write!(f, "{record} {time} bad {ports} rtp {word}")
            }
            DumpLine::Skip {
                record,
                time,
                reason,
            } => {
                let reason = Spelled(*reason);
                write!(f, "{record} {time} skip {reason}")
            }
            DumpLine::Done { records } => write!(f, "done {records}"),
        }
    }
}

// Why a packet of a compound is bad, and its offset.
#[derive(Drop)]
struct BadWords(BadPacket);

impl fmt::Display for BadWords {
    ghost output = { λ bad. Some (bad_text bad.0) };

    fn fmt<W: fmt::Write>(&self, f: &mut fmt::Formatter<W>) -> fmt::Result {
        let word = Spelled(self.0.word);
        let offset = self.0.offset;
        write!(f, "{word} {offset}")
    }
}

#[derive(Drop)]
struct PacketWords {
    ports: Ports,
    facts: RtpFacts,
}

impl fmt::Display for PacketWords {
    ghost output = { λ packet. Some (packet_text packet.ports packet.facts) };

    fn fmt<W: fmt::Write>(&self, f: &mut fmt::Formatter<W>) -> fmt::Result {
        let ports = PortWords(self.ports);
        let header = Header(self.facts);
        let sizes = Sizes(self.facts);
        write!(f, "{ports} {header} {sizes}")
    }
}

#[derive(Drop)]
struct PortWords(Ports);

impl fmt::Display for PortWords {
    ghost output = { λ ports. Some (ports_text ports.0) };

    fn fmt<W: fmt::Write>(&self, f: &mut fmt::Formatter<W>) -> fmt::Result {
        let from = self.0.from;
        let to = self.0.to;
        write!(f, "{from} {to}")
    }
}

// Payload type, sequence number, timestamp, SSRC.
#[derive(Drop)]
struct Header(RtpFacts);

impl fmt::Display for Header {
    ghost output = { λ facts. Some (header_text facts.0) };

    fn fmt<W: fmt::Write>(&self, f: &mut fmt::Formatter<W>) -> fmt::Result {
        let pt = self.0.pt;
        let seq = self.0.seq;
        let timestamp = self.0.timestamp;
        let ssrc = self.0.ssrc;
        write!(f, "{pt} {seq} {timestamp} {ssrc:08x}")
    }
}

// Marker, CSRCs, words of the extension, padding, payload length.
#[derive(Drop)]
struct Sizes(RtpFacts);

impl fmt::Display for Sizes {
    ghost output = { λ facts. Some (sizes_text facts.0) };

    fn fmt<W: fmt::Write>(&self, f: &mut fmt::Formatter<W>) -> fmt::Result {
        let csrcs = self.0.csrcs;
        let words = self.0.words;
        let padding = self.0.padding;
        let len = self.0.len;
        if self.0.marker {
            write!(f, "1 {csrcs} {words} {padding} {len}")
        } else {
            write!(f, "0 {csrcs} {words} {padding} {len}")
        }
    }
}
