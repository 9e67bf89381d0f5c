//! One source: what was heard of it since it was added.
ghost use Rattle.std.specs.Prelude.{◌≡◌, ◌≤◌, ◌^◌};
ghost use Rattle.source_table.specs.Ranges.{IsSourceOf};
ghost use Rattle.source_table.specs.Sources.{fresh, hear_next, hear_answer, report_next, left_next, block_of, reported, is_gone as gone};

use crate::counts::Counts;
use crate::jitter::Jitter;
use crate::run::Run;
use rtcp_wire::ReportBlock;
use rtp_units::{Address, dlsr, ntp_middle};

/// What a packet was to its source.
#[derive(Clone, Copy, Debug, PartialEq, Eq, Drop)]
pub enum Heard {
    /// The source is not valid yet. `broken` says that the packet broke a run, so that the packets kept of
    /// it are dropped.
    Waiting { broken: bool },
    /// The packet made the source valid.
    NowValid,
    /// The source was valid before.
    Valid,
}

/// The last sender report: the middle 32 bits of its NTP timestamp, and when it came.
#[derive(Clone, Copy, Debug, PartialEq, Eq, Drop)]
pub struct Report {
    pub middle: u32,
    pub time: u64,
}

/// A packet of RTP as its source sees it. `rate` is the clock rate of its payload type, where one is known,
/// and `needed` is how many consecutive packets make a source valid, at least 1.
#[derive(Clone, Copy, Debug, PartialEq, Eq, Drop)]
pub struct Packet {
    pub arrival: u64,
    pub seq: u16,
    pub timestamp: u32,
    pub rate: Option<u32>,
    pub needed: u8,
}

/// What was heard of a source since it was added.
#[derive(Clone, Copy, Debug, PartialEq, Eq, Drop)]
pub struct Source {
    /// The address that it was first heard from.
    pub from: Address,
    pub run: Run,
    /// There from the packet on that made the source valid.
    pub counts: Option<Counts>,
    pub jitter: Jitter,
    /// When the last packet of RTP or the last sender report came.
    pub last: u64,
    /// Whether a packet of RTP came since the last block.
    pub spoke: bool,
    /// Whether it said BYE.
    pub left: bool,
    pub report: Option<Report>,
}

impl Source {
    /// A source of which nothing was heard yet.
    pub(crate) fn new(from: Address) -> Source
        ensures { result ≡ fresh from }
    {
        Source {
            from,
            run: Run::new(),
            counts: None,
            jitter: Jitter::new(),
            last: 0,
            spoke: false,
            left: false,
            report: None,
        }
    }

    /// Hears a packet, and says what it is to the source.
    pub(crate) fn hear(&mut self, packet: &Packet) -> Heard
        requires { IsSourceOf (2 ^ 40) self.old }
        ensures answer { result ≡ hear_answer self.old packet.now }
        ensures after { self.new ≡ hear_next self.old packet.now }
    {
        let before = self.run;
        let run = before.next(packet.seq);
        self.run = run;
        self.last = packet.arrival;
        self.spoke = true;
        if let Some(counts) = &mut self.counts {
            if counts.hear(packet.seq) {
                self.jitter = self
                    .jitter
                    .next(packet.arrival, packet.timestamp, packet.rate);
            }
            return Heard::Valid;
        }
        if run.length < packet.needed {
            return Heard::Waiting {
                broken: before.length != 0 && !before.follows(packet.seq),
            };
        }
        self.counts = Some(Counts::begin(packet.seq));
        self.jitter = self
            .jitter
            .next(packet.arrival, packet.timestamp, packet.rate);
        Heard::NowValid
    }

    /// The source after a sender report with this NTP timestamp.
    pub(crate) fn reported_by(&self, now: u64, seconds: u32, fraction: u32) -> Source
        ensures { result ≡ report_next self.now now seconds fraction }
    {
        Source {
            last: now,
            report: Some(Report {
                middle: ntp_middle(seconds, fraction),
                time: now,
            }),
            ..*self
        }
    }

    /// Whether the source is to be removed: it said BYE, or its last packet or report came more than
    /// `timeout` before `now`.
    pub(crate) fn is_gone(&self, now: u64, timeout: u64) -> bool
        ensures { result ≡ gone self.now now timeout }
    {
        self.left || now.saturating_sub(self.last) > timeout
    }

    /// What a report tells of the source, if it is valid and spoke since its last block.
    pub(crate) fn block(&self, ssrc: u32, now: u64) -> Option<ReportBlock>
        requires { IsSourceOf (2 ^ 40) self.now }
        ensures { result ≡ block_of self.now ssrc now }
    {
        let counts = self.counts?;
        if !self.spoke {
            return None;
        }
        let (lsr, delay) = match self.report {
            Some(report) => (report.middle, dlsr(now.saturating_sub(report.time))),
            None => (0, 0),
        };
        Some(ReportBlock {
            ssrc,
            fraction: counts.fraction(),
            lost: counts.lost(),
            greatest: (counts.greatest % 4294967296) as u32,
            jitter: (self.jitter.sixteenths / 16) as u32,
            lsr,
            dlsr: delay,
        })
    }

    /// The source once a block of it was made.
    pub(crate) fn after_block(&self) -> Source
        requires { IsSourceOf (2 ^ 40) self.now }
        ensures { result ≡ reported self.now }
    {
        match self.counts {
            Some(counts) if self.spoke => Source {
                counts: Some(counts.reported()),
                spoke: false,
                ..*self
            },
            _ => *self,
        }
    }
}
