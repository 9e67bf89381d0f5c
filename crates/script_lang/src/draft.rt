//! What the lines of a script have said so far.
ghost use Rattle.std.specs.Prelude.{◌≡◌, ◌<◌, ◌≤◌, [], nat_lt, length, IsTrue, None, false, IfOk, OnOk, OnErr, map};

use crate::entry::Entry;
use crate::fault::{ScriptCause, ScriptFault};
use crate::lookups::{add_type, greatest, has_type, pt_lines, rtx_lines};
use crate::script::{Action, Item, PtLine, Script, SessionLine};
use crate::setting::{ScriptSettings, Setting};
use indexmap::IndexMap;
use rtp_units::{Fid, OutOfMemory, RtxLine};
use std::alloc::Global;
use std::marker::Model;

/// The most `fid` lines of a script.
const MAX_FIDS: usize = 64;

/// The most timed lines of a script.
const MAX_ITEMS: usize = 100_000;

/// The lines of a script so far. Contracts see what the lines said.
#[derive(Drop)]
pub(crate) struct Draft {
    sessions: Vec<SessionLine>,
    /// By session and payload type, the clock rate.
    pts: IndexMap<(u8, u8), u32>,
    /// By session and payload type, the session and payload type of what is retransmitted.
    rtx: IndexMap<(u8, u8), (u8, u8)>,
    fids: Vec<Fid>,
    settings: Vec<Setting>,
    items: Vec<Item>,
    /// By session, the line of the flush-start that isn't closed.
    flushes: [Option<u32>; 8],
}

impl Model for Draft {
    ghost use Rattle.std.specs.Prelude.{map};
    ghost use Rattle.script_lang.specs.Facts.{Facts};
    ghost use Rattle.script_lang.specs.Reading.{IsInOrder, pt_of, rtx_of};

    ghost Value = { Facts };

    ghost view = { λ d. record {
      sessions = d.sessions.items;
      pts = map pt_of d.pts.entries;
      rtx = map rtx_of
          d.rtx.entries;
      fids = d.fids.items;
      settings = d.settings.items;
      items = d.items.items;
      flushes = d.flushes;
    } };

    ghost invariant = { λ d. IsInOrder d.items.items };
}

impl Draft {
    ghost use Rattle.script_lang.specs.Facts.{facts_of};
    ghost use Rattle.script_lang.specs.Times.{facts_before};
    ghost use Rattle.script_lang.specs.Tests.{cause_of, is_declared as declared_test, has_port as port_test, has_pt as pt_test, has_rtx as rtx_test, has_ssrc as ssrc_test, is_set as set_test, has_later, is_flushing as flushing_test, action_lacks_session, action_fails_flush};
    ghost use Rattle.script_lang.specs.Contents.{contents_of};
    ghost use Rattle.script_lang.specs.Entries.{entry_fits, item_fits};
    ghost use Rattle.script_lang.specs.Grammar.{closed};
    ghost use Rattle.script_lang.specs.Sound.{IsSound};
    ghost use Rattle.script_lang.specs.Reading.{Answers, with_entry};
    ghost use Rattle.script_lang.specs.declared.entry.Entry.TheVariants as entry;

    /// Nothing was said.
    #[tactic(auto, unfolding(crate::specs::Facts::facts_of))]
    pub fn new(alloc: Global) -> Result<Draft, OutOfMemory>
        ensures { IfOk result (λ draft. draft ≡ facts_of []) }
    {
        Ok(Draft {
            sessions: Vec::new(alloc),
            pts: IndexMap::with_capacity(alloc, 0)?,
            rtx: IndexMap::with_capacity(alloc, 0)?,
            fids: Vec::new(alloc),
            settings: Vec::new(alloc),
            items: Vec::new(alloc),
            flushes: [None; 8],
        })
    }

    /// These sessions were declared.
    pub fn of_sessions(alloc: Global, sessions: &[SessionLine]) -> Result<Draft, OutOfMemory>
        ensures { IfOk result (λ draft. draft ≡ facts_before sessions.now) }
    {
        Ok(Draft {
            sessions: Vec::from_slice(alloc, sessions)?,
            pts: IndexMap::with_capacity(alloc, 0)?,
            rtx: IndexMap::with_capacity(alloc, 0)?,
            fids: Vec::new(alloc),
            settings: Vec::new(alloc),
            items: Vec::new(alloc),
            flushes: [None; 8],
        })
    }

    /// A timed line was read.
    pub fn has_items(&self) -> bool
        ensures { result ≡ nat_lt 0 (length self.now.items) }
    {
        !self.items.is_empty()
    }

    /// What a line has against it behind the lines so far.
    pub fn cause(&self, entry: &Entry) -> Option<ScriptCause>
        ensures { result ≡ cause_of self.now entry.now }
    {
        match entry {
            Entry::Session(line) => self.cause_of_session(line),
            Entry::Pt(line) => self.cause_of_pt(line),
            Entry::Rtx(line) => self.cause_of_rtx(line),
            Entry::Fid(fid) => self.cause_of_fid(fid),
            Entry::Setting(setting) => self.cause_of_setting(setting),
            Entry::Timed(item) => self.cause_of_item(item),
        }
    }

    #[tactic(auto, unfolding(crate::specs::Tests::cause_of))]
    fn cause_of_session(&self, line: &SessionLine) -> Option<ScriptCause>
        ensures { result ≡ cause_of self.now (entry.Session line.now) }
    {
        if self.is_declared(line.session) {
            Some(ScriptCause::Session)
        } else if self.has_port(line.rtp) || self.has_port(line.rtcp) {
            Some(ScriptCause::Port)
        } else {
            None
        }
    }

    #[tactic(auto, unfolding(crate::specs::Tests::cause_of))]
    fn cause_of_pt(&self, line: &PtLine) -> Option<ScriptCause>
        ensures { result ≡ cause_of self.now (entry.Pt line.now) }
    {
        if !self.is_declared(line.session) {
            Some(ScriptCause::Session)
        } else if self.has_pt(line.session, line.pt) || self.has_rtx(line.session, line.pt) {
            Some(ScriptCause::Pt)
        } else {
            None
        }
    }

    #[tactic(auto, unfolding(crate::specs::Tests::cause_of))]
    fn cause_of_rtx(&self, line: &RtxLine) -> Option<ScriptCause>
        ensures { result ≡ cause_of self.now (entry.Rtx line.now) }
    {
        if !self.is_declared(line.session) || !self.is_declared(line.osession) {
            Some(ScriptCause::Session)
        } else if self.has_pt(line.session, line.pt)
            || self.has_rtx(line.session, line.pt)
            || !self.has_pt(line.osession, line.apt)
        {
            Some(ScriptCause::Pt)
        } else {
            None
        }
    }

    #[tactic(auto, unfolding(crate::specs::Tests::cause_of))]
    fn cause_of_fid(&self, fid: &Fid) -> Option<ScriptCause>
        ensures { result ≡ cause_of self.now (entry.Fid fid.now) }
    {
        if !self.is_declared(fid.session) {
            Some(ScriptCause::Session)
        } else if fid.ssrc == fid.rtx_ssrc
            || self.has_ssrc(fid.session, fid.ssrc)
            || self.has_ssrc(fid.session, fid.rtx_ssrc)
        {
            Some(ScriptCause::Ssrc)
        } else if self.fids.len() >= MAX_FIDS {
            Some(ScriptCause::Many)
        } else {
            None
        }
    }

    #[tactic(auto, unfolding(crate::specs::Tests::cause_of))]
    fn cause_of_setting(&self, setting: &Setting) -> Option<ScriptCause>
        ensures { result ≡ cause_of self.now (entry.Setting setting.now) }
    {
        if self.is_set(setting) {
            Some(ScriptCause::Repeat)
        } else {
            None
        }
    }

    #[tactic(auto, unfolding(crate::specs::Tests::cause_of))]
    fn cause_of_item(&self, item: &Item) -> Option<ScriptCause>
        ensures { result ≡ cause_of self.now (entry.Timed item.now) }
    {
        if self.lacks_session(&item.action) {
            Some(ScriptCause::Session)
        } else if self.has_later(item.time) {
            Some(ScriptCause::Order)
        } else if self.fails_flush(&item.action) {
            Some(ScriptCause::Flush)
        } else if self.items.len() >= MAX_ITEMS {
            Some(ScriptCause::Many)
        } else {
            None
        }
    }

    // A session is declared. There are at most eight.
    fn is_declared(&self, session: u8) -> bool
        ensures { result ≡ declared_test self.now.sessions session }
    {
        self.sessions.iter().any(|line| line.session == session)
    }

    fn has_port(&self, port: u16) -> bool
        ensures { result ≡ port_test self.now.sessions port }
    {
        self.sessions
            .iter()
            .any(|line| line.rtp == port || line.rtcp == port)
    }

    fn has_pt(&self, session: u8, pt: u8) -> bool
        ensures { result ≡ pt_test self.now.pts session pt }
    {
        has_type(&self.pts, session, pt)
    }

    fn has_rtx(&self, session: u8, pt: u8) -> bool
        ensures { result ≡ rtx_test self.now.rtx session pt }
    {
        has_type(&self.rtx, session, pt)
    }

    // A session has an SSRC. There are at most 64 pairs.
    fn has_ssrc(&self, session: u8, ssrc: u32) -> bool
        ensures { result ≡ ssrc_test self.now.fids session ssrc }
    {
        self.fids.iter().any(|fid| fid.session == session
            && (fid.ssrc == ssrc || fid.rtx_ssrc == ssrc))
    }

    // A setting's name was set. There are at most fifteen.
    fn is_set(&self, setting: &Setting) -> bool
        ensures { result ≡ set_test self.now.settings setting.now }
    {
        let place = setting.place();
        self.settings.iter().any(|earlier| earlier.place() == place)
    }

    fn has_later(&self, time: u64) -> bool
        ensures { result ≡ has_later self.now.items time }
    {
        match self.items.last() {
            Some(last) => time < last.time,
            None => false,
        }
    }

    fn lacks_session(&self, action: &Action) -> bool
        ensures { result ≡ action_lacks_session self.now.sessions action.now }
    {
        match action {
            Action::Clock => false,
            Action::FlushStart(session) | Action::FlushStop(session) => !self.is_declared(*session),
            Action::Latency { session, .. } => !self.is_declared(*session),
        }
    }

    fn fails_flush(&self, action: &Action) -> bool
        ensures { result ≡ action_fails_flush self.now.flushes action.now }
    {
        match action {
            Action::FlushStart(session) => self.is_flushing(*session),
            Action::FlushStop(session) => !self.is_flushing(*session),
            _ => false,
        }
    }

    fn is_flushing(&self, session: u8) -> bool
        ensures { result ≡ flushing_test self.now.flushes session }
    {
        match self.flushes.get(usize::from(session)) {
            Some(line) => line.is_some(),
            None => false,
        }
    }

    /// Takes up what a line said that has nothing against it.
    pub fn add(&mut self, line: u32, entry: Entry) -> Result<(), OutOfMemory>
        requires passes { cause_of self.old entry ≡ None }
        requires fits { IsTrue (entry_fits entry) }
        ensures { OnOk result (self.new ≡ with_entry self.old line entry) }
    {
        match entry {
            Entry::Session(session) => self.sessions.push(session)?,
            Entry::Pt(pt) => add_type(&mut self.pts, pt.session, pt.pt, pt.rate)?,
            Entry::Rtx(rtx) => {
                let original = (rtx.osession, rtx.apt);
                add_type(&mut self.rtx, rtx.session, rtx.pt, original)?;
            }
            Entry::Fid(fid) => self.fids.push(fid)?,
            Entry::Setting(setting) => self.settings.push(setting)?,
            Entry::Timed(item) => self.add_item(line, item)?,
        }
        Ok(())
    }

    #[tactic(auto, using(crate::proofs::LookupLemmas::in_order_behind))]
    fn add_item(&mut self, line: u32, item: Item) -> Result<(), OutOfMemory>
        requires order { has_later self.old.items item.time ≡ false }
        requires fits { IsTrue (item_fits item) }
        ensures { OnOk result (self.new ≡ with_entry self.old line (entry.Timed item)) }
    {
        self.items.push(item)?;
        match item.action {
            Action::FlushStart(session) => self.flushes[usize::from(session)] = Some(line),
            Action::FlushStop(session) => self.flushes[usize::from(session)] = None,
            _ => {}
        }
        Ok(())
    }

    /// The script, where no flush is left open.
    #[tactic(auto, unfolding(crate::specs::Grammar::closed))]
    pub fn finish(self, alloc: Global) -> Result<Script, ScriptFault>
        requires { IsSound self }
        ensures { Answers result (closed self) }
    {
        let Draft {
            sessions,
            pts,
            rtx,
            fids,
            settings,
            items,
            flushes,
        } = self;
        if let Some(line) = greatest(&flushes) {
            return Err(ScriptFault::Bad {
                line,
                cause: ScriptCause::Flush,
            });
        }
        Ok(Script {
            sessions,
            pts: pt_lines(alloc, &pts)?,
            rtx: rtx_lines(alloc, &rtx)?,
            fids,
            items,
            settings: ScriptSettings::of(&settings),
        })
    }
}
