//! A script.
use crate::setting::ScriptSettings;
use rtp_units::{Fid, RtxLine};
use std::marker::Model;

/// A session, 0 to 7, and its ports for RTP and RTCP, which may be equal.
#[derive(Clone, Copy, Debug, PartialEq, Eq, Drop)]
pub struct SessionLine {
    pub session: u8,
    pub rtp: u16,
    pub rtcp: u16,
}

/// A payload type of a session, 0 to 127, and its clock rate, 1 to 1000000 ticks a second.
#[derive(Clone, Copy, Debug, PartialEq, Eq, Drop)]
pub struct PtLine {
    pub session: u8,
    pub pt: u8,
    pub rate: u32,
}

/// What happens at a time.
#[derive(Clone, Copy, Debug, PartialEq, Eq, Drop)]
pub enum Action {
    /// The time goes on.
    Clock,
    /// A flush of a session begins.
    FlushStart(u8),
    /// It ends.
    FlushStop(u8),
    /// A session has a new latency, up to 600 s, in nanoseconds.
    Latency { session: u8, ns: u64 },
}

/// Something that happens at a time in nanoseconds.
#[derive(Clone, Copy, Debug, PartialEq, Eq, Drop)]
pub struct Item {
    pub time: u64,
    pub action: Action,
}

/// A script: its lines of each kind in the order read, and its settings. Contracts see the record of these
/// lists and settings. Whoever makes one shows what holds of every script (`IsScript` in
/// `specs/Contents.antt`): the ranges of all values; that sessions, ports, payload types and SSRCs stand
/// once and what a line names is declared; that times don't fall and are whole milliseconds; that each
/// flush begins and ends in its turn; and that there are at most 64 pairs of SSRCs and 100,000 items.
#[derive(Debug, Drop)]
pub struct Script {
    pub sessions: Vec<SessionLine>,
    pub pts: Vec<PtLine>,
    pub rtx: Vec<RtxLine>,
    pub fids: Vec<Fid>,
    pub items: Vec<Item>,
    pub settings: ScriptSettings,
}

impl Model for Script {
    ghost use Rattle.script_lang.specs.Contents.{Contents, IsScript};

    ghost Value = { Contents };

    ghost view = { λ s. record {
      sessions = s.sessions.items;
      pts = s.pts.items;
      rtx = s.rtx.items;
      fids = s.fids.items;
      items = s.items.items;
      settings = s.settings;
    } };

    ghost invariant = { λ s. IsScript
        (record {
          sessions = s.sessions.items;
          pts = s.pts.items;
          rtx = s.rtx.items;
          fids =
              s.fids.items;
          items = s.items.items;
          settings = s.settings;
        }) };
}
