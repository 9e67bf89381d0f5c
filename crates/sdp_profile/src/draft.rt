//! What the sections of a description have said so far.
ghost use Rattle.std.specs.Prelude.{◌≡◌, ◌<◌, ◌≤◌, ◌++◌, ◌∷◌, [], None, IfOk, OnOk, filter_map};
ghost use Rattle.std.specs.Prelude.{length};
ghost use Rattle.script_lang.specs.Tests.{has_port as port_test};
ghost use Rattle.sdp_profile.specs.Causes.{soonest as soonest_of};
ghost use Rattle.sdp_profile.specs.Descriptions.{nothing};
ghost use Rattle.sdp_profile.specs.Formats.{fault_of_formats as formats_fault, as_pt, as_rtx};
ghost use Rattle.sdp_profile.specs.Sections.{with_section, with_media, with_types};
ghost use Rattle.sdp_profile.specs.Sections.{cause_of_session as session_cause};
ghost use Rattle.sdp_profile.specs.Sections.{media_words as words_of_media};
ghost use Rattle.sdp_profile.specs.Sections.{fault_of_lines as lines_fault};
ghost use Rattle.sdp_profile.specs.Sections.{fault_of_port as port_fault, rtcp_in};
ghost use Rattle.sdp_profile.specs.Media.{media_in, texts};
ghost use Rattle.sdp_profile.specs.Sound.{IsSound};
ghost use Rattle.sdp_profile.specs.Reading.{Leaves, line_in, lines_in};

use crate::attribute::Placed;
use crate::description::Description;
use crate::fault::{Fault, SdpCause, SdpFault, sooner};
use crate::format::{Format, fault_of_formats, formats};
use crate::lines::TextLine;
use crate::media::{MediaLine, payload_types};
use crate::pairs::add_pairs;
use crate::section::{fault_of_lines, fault_of_port, placed, rtcp_port};
use crate::text::words_in;
use rtp_units::{Fid, OutOfMemory, RtxLine};
use script_lang::{PtLine, SessionLine};
use std::alloc::{AllocError, Global};
use std::marker::Model;

/// The most sessions of a script.
const MAX_SESSIONS: usize = 8;

/// The lines that the sections so far give.
#[derive(Drop)]
pub(crate) struct Draft {
    sessions: Vec<SessionLine>,
    pts: Vec<PtLine>,
    rtx: Vec<RtxLine>,
    fids: Vec<Fid>,
}

impl Model for Draft {
    ghost use Rattle.sdp_profile.specs.Sections.{Described};

    ghost Value = { Described };

    ghost view = { λ d. record {
      sessions = d.sessions.items;
      pts = d.pts.items;
      rtx = d.rtx.items;
      fids = d.fids.items;
    } };
}

impl Draft {
    /// Nothing was said.
    pub fn new(alloc: Global) -> Draft
        ensures { result ≡ nothing }
    {
        Draft {
            sessions: Vec::new(alloc),
            pts: Vec::new(alloc),
            rtx: Vec::new(alloc),
            fids: Vec::new(alloc),
        }
    }

    /// Takes up a section: its `m=` line and the lines behind it. After an error the draft is of no
    /// use.
    #[tactic(auto, unfolding(crate::specs::Sections::with_section))]
    pub fn add_section(
        &mut self,
        alloc: Global,
        media: &TextLine<'_>,
        lines: &[TextLine<'_>],
    ) -> Result<(), SdpFault>
        ensures { Leaves result (with_section self.old
            (record { media = line_in media.now; lines = lines_in lines.now })) self.new }
    {
        let words = media_words(alloc, media)?;
        match MediaLine::of_words(&words) {
            Some(section) => {
                let lines = placed(alloc, lines)?;
                self.add_media(alloc, media.number, &lines, &section)
            }
            None => Err(SdpFault::Bad {
                line: media.number,
                cause: SdpCause::Media,
            }),
        }
    }

    #[tactic(auto, unfolding(crate::specs::Sections::with_media))]
    fn add_media(
        &mut self,
        alloc: Global,
        line: u32,
        lines: &[Placed],
        media: &MediaLine<'_>,
    ) -> Result<(), SdpFault>
        ensures { Leaves result (with_media self.old line lines.now (media_in media.now)) self.new }
    {
        if !media.is_kept() {
            return match fault_of_lines(lines) {
                Some(fault) => Err(fault.bad()),
                None => Ok(()),
            };
        }
        match payload_types(alloc, media.types)? {
            Some(types) => self.add_types(alloc, line, media.port, lines, &types),
            None => Err(SdpFault::Bad {
                line,
                cause: SdpCause::Number,
            }),
        }
    }

    // Takes up a kept section of these payload types.
    #[tactic(auto, unfolding(crate::specs::Sections::with_types))]
    fn add_types(
        &mut self,
        alloc: Global,
        line: u32,
        port: u16,
        lines: &[Placed],
        types: &[u8],
    ) -> Result<(), SdpFault>
        ensures { Leaves result (with_types self.old line port lines.now types.now) self.new }
    {
        let rtcp = rtcp_port(lines, port);
        if let Some(cause) = cause_of_session(&self.sessions, port, rtcp) {
            return Err(SdpFault::Bad { line, cause });
        }
        let session = self.sessions.len() as u8;
        let formats = formats(alloc, lines, types)?;
        let pairs = add_pairs(&mut self.fids, session, lines)?;
        if let Some(fault) = soonest(lines, &formats, pairs) {
            return Err(fault.bad());
        }
        add_pts(&mut self.pts, session, &formats)?;
        add_rtx(&mut self.rtx, session, &formats)?;
        let line = SessionLine {
            session,
            rtp: port,
            rtcp: rtcp as u16,
        };
        add_session(&mut self.sessions, line)?;
        Ok(())
    }

    /// The description.
    pub fn finish(self) -> Description
        requires { IsSound self }
        ensures { result ≡ self }
    {
        let Draft {
            sessions,
            pts,
            rtx,
            fids,
        } = self;
        Description {
            sessions,
            pts,
            rtx,
            fids,
        }
    }
}

// The words behind `m=`.
fn media_words<'a>(alloc: Global, media: &TextLine<'a>) -> Result<Vec<&'a [u8]>, AllocError>
    ensures { IfOk result (λ words. texts words.items ≡ words_of_media (line_in media.now)) }
{
    match media.media_text() {
        Some(text) => words_in(alloc, text),
        None => Ok(Vec::new(alloc)),
    }
}

// A ninth session, and a port that is none or an earlier session's.
fn cause_of_session(sessions: &[SessionLine], rtp: u16, rtcp: u32) -> Option<SdpCause>
    ensures value { result ≡ session_cause sessions.now rtp rtcp }
    ensures room { result ≡ None → length sessions.now < 8 }
    ensures port { result ≡ None → rtcp ≤ 65535 }
{
    if sessions.len() >= MAX_SESSIONS {
        Some(SdpCause::Session)
    } else if rtcp > 65535 || has_port(sessions, u32::from(rtp)) || has_port(sessions, rtcp) {
        Some(SdpCause::Port)
    } else {
        None
    }
}

// An earlier session has the port. There are at most eight.
fn has_port(sessions: &[SessionLine], port: u32) -> bool
    ensures { result ≡ port_test sessions.now port }
{
    sessions.iter().any(|line| u32::from(line.rtp) == port || u32::from(line.rtcp) == port)
}

// The first fault of the lines behind an `m=` line.
fn soonest(lines: &[Placed], formats: &[Format], pairs: Option<Fault>) -> Option<Fault>
    ensures { result ≡ soonest_of (lines_fault lines.now ∷ port_fault (rtcp_in lines.now)
        ∷ formats_fault formats.now ∷ pairs ∷ []) }
{
    let lines_or_port = sooner(fault_of_lines(lines), fault_of_port(lines));
    sooner(sooner(lines_or_port, fault_of_formats(formats)), pairs)
}

fn add_session(sessions: &mut Vec<SessionLine>, line: SessionLine) -> Result<(), OutOfMemory>
    ensures { OnOk result (sessions.new.items ≡ sessions.old.items ++ line ∷ []) }
{
    sessions.push(line)?;
    Ok(())
}

fn add_pts(pts: &mut Vec<PtLine>, session: u8, formats: &[Format]) -> Result<(), OutOfMemory>
    ensures { OnOk result (pts.new.items
        ≡ pts.old.items ++ filter_map (as_pt session) formats.now) }
{
    for format in formats {
        if let Some(line) = format.pt_line(session) {
            pts.push(line)?;
        }
    }
    Ok(())
}

fn add_rtx(rtx: &mut Vec<RtxLine>, session: u8, formats: &[Format]) -> Result<(), OutOfMemory>
    ensures { OnOk result (rtx.new.items
        ≡ rtx.old.items ++ filter_map (as_rtx session) formats.now) }
{
    for format in formats {
        if let Some(line) = format.rtx_line(session) {
            rtx.push(line)?;
        }
    }
    Ok(())
}
