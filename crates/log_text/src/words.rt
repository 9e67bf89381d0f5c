//! The words of a line, without its bytes and newline.
ghost use Rattle.std.specs.Prelude.{Some};
ghost use Rattle.log_text.specs.Text.{line_words, word_text, kind_text, source_text, shape_text, fates_text};

use jitter_model::Origin;
use std::fmt;
use timeline::{BinLine, Word};

/// A line's words.
#[derive(Clone, Copy)]
pub struct Words<'a>(pub &'a BinLine);

impl fmt::Display for Words<'_> {
    ghost output = { λ words. Some (line_words words.0.now) };

    fn fmt<W: fmt::Write>(&self, f: &mut fmt::Formatter<W>) -> fmt::Result {
        match self.0 {
            BinLine::Skip {
                time,
                record,
                reason,
            } => {
                let reason = Spelled(*reason);
                write!(f, "{time} skip {record} {reason}")
            }
            BinLine::Bad {
                time,
                session,
                word,
            } => {
                let word = Spelled(*word);
                write!(f, "{time} bad {session} {word}")
            }
            BinLine::RtcpBad {
                time,
                session,
                word,
                offset,
            } => {
                let word = Spelled(*word);
                write!(f, "{time} rtcp-bad {session} {word} {offset}")
            }
            BinLine::Hold {
                time,
                session,
                ssrc,
                seq,
            } => {
                let source = Source {
                    session: *session,
                    ssrc: *ssrc,
                };
                write!(f, "{time} hold {source} {seq}")
            }
            BinLine::Drop {
                time,
                session,
                ssrc,
                seq,
                cause,
            } => {
                let source = Source {
                    session: *session,
                    ssrc: *ssrc,
                };
                let cause = Spelled(*cause);
                write!(f, "{time} drop {source} {seq} {cause}")
            }
            BinLine::Pt {
                time,
                session,
                pt,
                rate,
            } => write!(f, "{time} pt {session} {pt} {rate}"),
            BinLine::Lane {
                time,
                lane,
                session,
                ssrc,
            } => { write!(f, "{time} lane {lane} {session} {ssrc:08x}") }
            BinLine::Unaside { time, lane, count } => write!(f, "{time} unaside {lane} {count}"),
            BinLine::Aside { time, lane, seq } => write!(f, "{time} aside {lane} {seq}"),
            BinLine::Restart {
                time,
                lane,
                seq,
                discarded,
            } => { write!(f, "{time} restart {lane} {seq} {discarded}") }
            BinLine::Refuse {
                time,
                lane,
                seq,
                kind,
                word,
            } => {
                let kind = Kind(*kind);
                let word = Spelled(*word);
                write!(f, "{time} refuse {lane} {seq} {kind} {word}")
            }
            BinLine::Out {
                time,
                lane,
                number,
                pts,
                pt,
                marker,
                len,
                bytes: _,
            } => {
                let shape = Shape {
                    pt: *pt,
                    marker: *marker,
                    len: *len,
                };
                write!(f, "{time} out {lane} {number} {pts} {shape}")
            }
            BinLine::Lost {
                time,
                lane,
                number,
                count,
                pts,
                duration,
            } => { write!(f, "{time} lost {lane} {number} {count} {pts} {duration}") }
            BinLine::Request {
                time,
                lane,
                number,
                k,
            } => { write!(f, "{time} request {lane} {number} {k}") }
            BinLine::Nack {
                time,
                session,
                bytes: _,
            } => write!(f, "{time} nack {session}"),
            BinLine::Flush { time, lane, count } => write!(f, "{time} flush {lane} {count}"),
            BinLine::Flushed { time, lane } => write!(f, "{time} flushed {lane}"),
            BinLine::Latency { time, lane, ns } => write!(f, "{time} latency {lane} {ns}"),
            BinLine::Cname {
                time,
                session,
                ssrc,
                name: _,
            } => {
                let source = Source {
                    session: *session,
                    ssrc: *ssrc,
                };
                write!(f, "{time} cname {source}")
            }
            BinLine::Sr {
                time,
                session,
                ssrc,
                ntp,
                rtp,
            } => {
                let source = Source {
                    session: *session,
                    ssrc: *ssrc,
                };
                write!(f, "{time} sr {source} {ntp} {rtp}")
            }
            BinLine::RtcpStray {
                time,
                session,
                ssrc,
            } => {
                let source = Source {
                    session: *session,
                    ssrc: *ssrc,
                };
                let stray = Spelled(Word::Stray);
                write!(f, "{time} rtcp-{stray} {source}")
            }
            BinLine::Bye {
                time,
                session,
                ssrc,
            } => {
                let source = Source {
                    session: *session,
                    ssrc: *ssrc,
                };
                write!(f, "{time} bye {source}")
            }
            BinLine::Sync { time, lane, local } => write!(f, "{time} sync {lane} {local}"),
            BinLine::Offset { time, lane, ns } => write!(f, "{time} offset {lane} {ns}"),
            BinLine::Gone {
                time,
                session,
                ssrc,
            } => {
                let source = Source {
                    session: *session,
                    ssrc: *ssrc,
                };
                write!(f, "{time} gone {source}")
            }
            BinLine::Report {
                time,
                session,
                bytes: _,
            } => write!(f, "{time} report {session}"),
            BinLine::End { time, lane } => write!(f, "{time} end {lane}"),
            BinLine::Done {
                records,
                lanes,
                out,
                lost,
                refused,
            } => {
                let fates = Fates {
                    out: *out,
                    lost: *lost,
                    refused: *refused,
                };
                write!(f, "done {records} {lanes} {fates}")
            }
        }
    }
}

/// A fixed word.
#[derive(Drop)]
pub struct Spelled(pub Word);

impl fmt::Display for Spelled {
    ghost output = { λ word. Some (word_text word.0) };

    fn fmt<W: fmt::Write>(&self, f: &mut fmt::Formatter<W>) -> fmt::Result {
        match self.0 {
            Word::Cut => write!(f, "cut"),
            Word::NotIp => write!(f, "not-ip"),
            Word::Fragment => write!(f, "fragment"),
            Word::NotUdp => write!(f, "not-udp"),
            Word::Malformed => write!(f, "malformed"),
            Word::Big => write!(f, "big"),
            Word::Port => write!(f, "port"),
            Word::Short => write!(f, "short"),
            Word::Version => write!(f, "version"),
            Word::Csrc => write!(f, "csrc"),
            Word::Extension => write!(f, "extension"),
            Word::Padding => write!(f, "padding"),
            Word::Length => write!(f, "length"),
            Word::First => write!(f, "first"),
            Word::Body => write!(f, "body"),
            Word::Late => write!(f, "late"),
            Word::Duplicate => write!(f, "duplicate"),
            Word::Full => write!(f, "full"),
            Word::Stray => write!(f, "stray"),
            Word::Flushing => write!(f, "flushing"),
            Word::Ended => write!(f, "ended"),
            Word::Own => write!(f, "own"),
            Word::Sources => write!(f, "sources"),
            Word::Collision => write!(f, "collision"),
            Word::Probation => write!(f, "probation"),
            Word::Unmapped => write!(f, "unmapped"),
            Word::Lanes => write!(f, "lanes"),
            Word::Rate => write!(f, "rate"),
            Word::RtxShort => write!(f, "rtx-short"),
            Word::RtxSsrc => write!(f, "rtx-ssrc"),
            Word::RtxAmbiguous => write!(f, "rtx-ambiguous"),
        }
    }
}

#[derive(Drop)]
struct Kind(Origin);

impl fmt::Display for Kind {
    ghost output = { λ kind. Some (kind_text kind.0) };

    fn fmt<W: fmt::Write>(&self, f: &mut fmt::Formatter<W>) -> fmt::Result {
        match self.0 {
            Origin::Original => write!(f, "o"),
            Origin::Retransmission => write!(f, "r"),
        }
    }
}

// The session and the SSRC of a source.
#[derive(Drop)]
struct Source {
    session: u8,
    ssrc: u32,
}

impl fmt::Display for Source {
    ghost output = { λ source. Some (source_text source.session source.ssrc) };

    fn fmt<W: fmt::Write>(&self, f: &mut fmt::Formatter<W>) -> fmt::Result {
        let session = self.session;
        let ssrc = self.ssrc;
        write!(f, "{session} {ssrc:08x}")
    }
}

// The type, marker and length of a packet.
#[derive(Drop)]
struct Shape {
    pt: u8,
    marker: bool,
    len: u16,
}

impl fmt::Display for Shape {
    ghost output = { λ shape. Some (shape_text shape.pt shape.marker shape.len) };

    fn fmt<W: fmt::Write>(&self, f: &mut fmt::Formatter<W>) -> fmt::Result {
        let pt = self.pt;
        let len = self.len;
        if self.marker {
            write!(f, "{pt} 1 {len}")
        } else {
            write!(f, "{pt} 0 {len}")
        }
    }
}

// What became of the packets.
#[derive(Drop)]
struct Fates {
    out: u64,
    lost: u64,
    refused: u64,
}

impl fmt::Display for Fates {
    ghost output = { λ fates. Some (fates_text fates.out fates.lost fates.refused) };

    fn fmt<W: fmt::Write>(&self, f: &mut fmt::Formatter<W>) -> fmt::Result {
        let out = self.out;
        let lost = self.lost;
        let refused = self.refused;
        write!(f, "{out} {lost} {refused}")
    }
}
