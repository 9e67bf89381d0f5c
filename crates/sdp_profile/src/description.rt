//! A description.
use rtp_units::{Fid, RtxLine};
use script_lang::{PtLine, SessionLine};
use std::marker::Model;

/// What a description says, as lines of a script. Contracts see the record of the lists. With
/// settings and timed lines that fit they make a script (`IsSound` in `specs/Sound.antt`): the
/// values are in their ranges; sessions, which count from 0, ports, payload types and SSRCs stand
/// once; what a line names is declared; and there are at most 64 pairs of SSRCs.
#[derive(Debug, Drop)]
pub struct Description {
    pub sessions: Vec<SessionLine>,
    pub pts: Vec<PtLine>,
    pub rtx: Vec<RtxLine>,
    pub fids: Vec<Fid>,
}

impl Model for Description {
    ghost use Rattle.sdp_profile.specs.Sections.{Described};
    ghost use Rattle.sdp_profile.specs.Sound.{IsSound};

    ghost Value = { Described };

    ghost view = { λ d. record {
      sessions = d.sessions.items;
      pts = d.pts.items;
      rtx = d.rtx.items;
      fids = d.fids.items;
    } };

    ghost invariant = { λ d. IsSound (record {
      sessions = d.sessions.items;
      pts = d.pts.items;
      rtx = d.rtx.items;
      fids = d.fids.items;
    }) };
}
