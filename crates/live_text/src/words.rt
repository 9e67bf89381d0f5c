//! The words of an entry, without its bytes and newline.
ghost use Rattle.std.specs.Prelude.{◌≡◌, Some};
ghost use Rattle.log_text.specs.Text.{kind_text, shape_text};
ghost use Rattle.live_text.specs.Text.{discarded_by, entry_words, fate_text, local_text};
ghost use Rattle.live_text.specs.Text.{numbered_text, verdict_text};

use jitter_core::{Origin, Verdict};
use live_bin::Entry;
use std::fmt;

/// An entry's words, behind its number in the journal.
#[derive(Clone, Copy)]
pub struct Words<'a> {
    pub index: u64,
    pub entry: &'a Entry,
}

impl fmt::Display for Words<'_> {
    ghost output = { λ words. Some (entry_words words.index words.entry.now) };

    fn fmt<W: fmt::Write>(&self, f: &mut fmt::Formatter<W>) -> fmt::Result {
        let index = self.index;
        match self.entry {
            Entry::Push {
                pusher,
                k,
                stamp,
                seq,
                origin,
                verdict,
                number,
                aside_dropped,
            } => {
                let numbered = Numbered {
                    pusher: *pusher,
                    k: *k,
                };
                let kind = Kind(*origin);
                let fate = Fate {
                    verdict: *verdict,
                    number: *number,
                    aside_dropped: *aside_dropped,
                };
                write!(f, "{index} push {numbered} {stamp} {seq} {kind} {fate}")
            }
            Entry::Report {
                pusher,
                k,
                ntp_ns,
                rtp,
                local,
            } => {
                let numbered = Numbered {
                    pusher: *pusher,
                    k: *k,
                };
                let local = Local(*local);
                write!(f, "{index} report {numbered} {ntp_ns} {rtp} {local}")
            }
            Entry::Clock { by, t } => write!(f, "{index} clock {by} {t}"),
            Entry::FlushStart { count } => write!(f, "{index} flush {count}"),
            Entry::FlushStop => write!(f, "{index} flushed"),
            Entry::Latency { ns } => write!(f, "{index} latency {ns}"),
            Entry::Ends { pusher } => write!(f, "{index} ends {pusher}"),
            Entry::Packet {
                number,
                pts,
                packet,
            } => {
                let shape = Shape {
                    pt: packet.pt,
                    marker: packet.marker,
                    len: packet.payload,
                };
                write!(f, "{index} out {number} {pts} {shape}")
            }
            Entry::Lost {
                number,
                count,
                pts,
                duration,
            } => { write!(f, "{index} lost {number} {count} {pts} {duration}") }
            Entry::Request { number, k } => write!(f, "{index} request {number} {k}"),
            Entry::End => write!(f, "{index} end"),
        }
    }
}

// A pusher, and which of what it brings.
#[derive(Drop)]
struct Numbered {
    pusher: u8,
    k: u64,
}

impl fmt::Display for Numbered {
    ghost output = { λ delivery. Some (numbered_text delivery.pusher delivery.k) };

    fn fmt<W: fmt::Write>(&self, f: &mut fmt::Formatter<W>) -> fmt::Result {
        let pusher = self.pusher;
        let k = self.k;
        write!(f, "{pusher} {k}")
    }
}

// What became of a packet.
#[derive(Drop)]
struct Fate {
    verdict: Verdict,
    number: u64,
    aside_dropped: u8,
}

impl fmt::Display for Fate {
    ghost output = { λ fate. Some (fate_text fate.verdict fate.number fate.aside_dropped) };

    fn fmt<W: fmt::Write>(&self, f: &mut fmt::Formatter<W>) -> fmt::Result {
        let verdict = Verdicted(self.verdict);
        let number = self.number;
        let discarded = discarded(self.verdict);
        let dropped = self.aside_dropped;
        write!(f, "{verdict} {number} {discarded} {dropped}")
    }
}

// How many held packets a push dropped.
fn discarded(verdict: Verdict) -> u32
    ensures { result ≡ discarded_by verdict }
{
    match verdict {
        Verdict::Restart(count) => count,
        _ => 0,
    }
}

#[derive(Drop)]
struct Verdicted(Verdict);

impl fmt::Display for Verdicted {
    ghost output = { λ verdict. Some (verdict_text verdict.0) };

    fn fmt<W: fmt::Write>(&self, f: &mut fmt::Formatter<W>) -> fmt::Result {
        match self.0 {
            Verdict::Accepted => write!(f, "accepted"),
            Verdict::Aside => write!(f, "aside"),
            Verdict::Restart(_) => write!(f, "restart"),
            Verdict::Late => write!(f, "late"),
            Verdict::Duplicate => write!(f, "duplicate"),
            Verdict::Full => write!(f, "full"),
            Verdict::Stray => write!(f, "stray"),
            Verdict::Flushing => write!(f, "flushing"),
            Verdict::Ended => write!(f, "ended"),
        }
    }
}

// A time in the lane's timeline, where there is one.
#[derive(Drop)]
struct Local(Option<u64>);

impl fmt::Display for Local {
    ghost output = { λ local. Some (local_text local.0) };

    fn fmt<W: fmt::Write>(&self, f: &mut fmt::Formatter<W>) -> fmt::Result {
        match self.0 {
            Some(time) => write!(f, "{time}"),
            None => write!(f, "none"),
        }
    }
}

#[derive(Drop)]
struct Kind(Origin);

impl fmt::Display for Kind {
    ghost output = { λ kind. Some (kind_text kind.0) };

    fn fmt<W: fmt::Write>(&self, f: &mut fmt::Formatter<W>) -> fmt::Result {
        match self.0 {
            Origin::Original => write!(f, "o"),
            Origin::Retransmission => write!(f, "r"),
        }
    }
}

// The type, marker and length of a packet.
#[derive(Drop)]
struct Shape {
    pt: u8,
    marker: bool,
    len: u16,
}

impl fmt::Display for Shape {
    ghost output = { λ shape. Some (shape_text shape.pt shape.marker shape.len) };

    fn fmt<W: fmt::Write>(&self, f: &mut fmt::Formatter<W>) -> fmt::Result {
        let pt = self.pt;
        let len = self.len;
        if self.marker {
            write!(f, "{pt} 1 {len}")
        } else {
            write!(f, "{pt} 0 {len}")
        }
    }
}
