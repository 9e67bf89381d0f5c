//! The script that is proposed for streams.
ghost use Rattle.std.specs.Prelude.{◌≡◌, IfOk, OnOk, option_copied};
ghost use Rattle.std.specs.List.{list_any};
ghost use Rattle.script_lang.specs.Tests.{is_declared as is_declared_in, has_port as has_port_in};
ghost use Rattle.script_lang.specs.Tests.{has_pt as has_pt_in};
ghost use Rattle.rtp_scan.specs.Proposal.{is_same_line};
ghost use Rattle.rtp_scan.specs.Streams.{streams_in};
ghost use Rattle.script_lang.specs.Contents.{is_new_session as is_new_session_line};
ghost use Rattle.script_lang.specs.Contents.{is_new_pt as is_new_pt_line};
ghost use Rattle.script_lang.specs.Settings.{defaults};
ghost use Rattle.rtp_scan.specs.Proposal.{AreSessions, ArePts, rtcp_port as rtcp_port_in};
ghost use Rattle.rtp_scan.specs.Proposal.{is_proposed as is_proposed_in, script_in, script_with};
ghost use Rattle.rtp_scan.specs.Proposal.{session_at as session_in, session_for, sessions_in};
ghost use Rattle.rtp_scan.specs.Proposal.{takes_pt as takes_pt_line, pt_for, with_pt, pts_for};
ghost use Rattle.rtp_scan.specs.Proposal.{takes_session as takes_session_line, with_session};
ghost use Rattle.rtp_scan.specs.Proposal.{sessions_for as sessions_of};

use crate::clock::clock_of;
use crate::order::by_packets;
use crate::scan::Scan;
use crate::stream::Stream;
use rtp_units::{Mode, OutOfMemory};
use script_lang::{PtLine, Script, ScriptSettings, SessionLine};
use std::alloc::Global;

/// A millisecond, in nanoseconds.
const MILLISECOND: u64 = 1_000_000;

/// The script for the streams of a scan.
pub(crate) fn script_for(
    alloc: Global,
    scan: &Scan,
    streams: &[Stream],
) -> Result<Script, OutOfMemory>
    requires { streams.now ≡ streams_in scan.now }
    ensures { IfOk result (λ script. script ≡ script_in scan.now) }
{
    let ordered = by_packets(alloc, streams)?;
    let sessions = sessions_for(alloc, scan, &ordered)?;
    let pts = pts_of(alloc, &sessions, streams)?;
    Ok(script_of(sessions, pts))
}

#[tactic(auto, unfolding(crate::specs::Proposal::sessions_for))]
fn sessions_for(
    alloc: Global,
    scan: &Scan,
    ordered: &[Stream],
) -> Result<Vec<SessionLine>, OutOfMemory>
    ensures exact { IfOk result (λ sessions. sessions.items
        ≡ sessions_of scan.now.ports ordered.now) }
    ensures sound { IfOk result (λ sessions. AreSessions sessions.items) }
{
    let mut sessions = Vec::new(alloc);
    for stream in ordered {
        add_session(&mut sessions, scan, stream)?;
    }
    Ok(sessions)
}

// Adds a session for the stream's port, where there is place for one.
fn add_session(
    sessions: &mut Vec<SessionLine>,
    scan: &Scan,
    stream: &Stream,
) -> Result<(), OutOfMemory>
    requires { AreSessions sessions.old.items }
    ensures exact { OnOk result (sessions.new.items
        ≡ with_session scan.now.ports sessions.old.items stream.now) }
    ensures sound { OnOk result (AreSessions sessions.new.items) }
{
    if sessions.len() > 7 {
        return Ok(());
    }
    let line = SessionLine {
        session: sessions.len() as u8,
        rtp: stream.first.port,
        rtcp: rtcp_port(scan, stream.first.port),
    };
    if takes_session(sessions, &line) {
        sessions.push(line)?;
    }
    Ok(())
}

fn rtcp_port(scan: &Scan, port: u16) -> u16
    ensures { result ≡ rtcp_port_in scan.now.ports port }
{
    if scan.has_compounds(port) || port == u16::MAX {
        port
    } else {
        port + 1
    }
}

fn takes_session(before: &[SessionLine], line: &SessionLine) -> bool
    ensures { result ≡ takes_session_line before.now line.now }
{
    line.session <= 7 && line.rtp >= 1 && line.rtcp >= 1 && is_new_session(before, line)
}

fn is_new_session(before: &[SessionLine], line: &SessionLine) -> bool
    ensures { result ≡ is_new_session_line before.now line.now }
{
    !is_declared(before, line.session)
        && !has_port(before, line.rtp)
        && !has_port(before, line.rtcp)
}

fn is_declared(sessions: &[SessionLine], session: u8) -> bool
    ensures { result ≡ is_declared_in sessions.now session }
{
    sessions.iter().any(|l| l.session == session)
}

fn has_port(sessions: &[SessionLine], port: u16) -> bool
    ensures { result ≡ has_port_in sessions.now port }
{
    sessions.iter().any(|l| l.rtp == port || l.rtcp == port)
}

#[tactic(auto, unfolding(crate::specs::Proposal::pts_for))]
fn pts_of(
    alloc: Global,
    sessions: &[SessionLine],
    streams: &[Stream],
) -> Result<Vec<PtLine>, OutOfMemory>
    ensures exact { IfOk result (λ pts. pts.items ≡ pts_for sessions.now streams.now) }
    ensures sound { IfOk result (λ pts. ArePts sessions.now pts.items) }
{
    let mut pts = Vec::new(alloc);
    for stream in streams {
        add_pt(&mut pts, sessions, stream)?;
    }
    Ok(pts)
}

// Adds the stream's payload type to the session of its port, where it has one without the type.
fn add_pt(
    pts: &mut Vec<PtLine>,
    sessions: &[SessionLine],
    stream: &Stream,
) -> Result<(), OutOfMemory>
    requires { ArePts sessions.now pts.old.items }
    ensures exact { OnOk result (pts.new.items
        ≡ with_pt sessions.now pts.old.items stream.now) }
    ensures sound { OnOk result (ArePts sessions.now pts.new.items) }
{
    let session = match session_at(sessions, stream.first.port) {
        Some(session) => session,
        None => return Ok(()),
    };
    let line = pt_line(session, stream);
    if takes_pt(sessions, pts, &line) {
        pts.push(line)?;
    }
    Ok(())
}

fn session_at(sessions: &[SessionLine], port: u16) -> Option<&SessionLine>
    ensures { option_copied result ≡ session_in sessions.now port }
{
    sessions.iter().find(|l| l.rtp == port)
}

fn pt_line(session: &SessionLine, stream: &Stream) -> PtLine
    ensures { result ≡ pt_for session.now stream.now }
{
    PtLine {
        session: session.session,
        pt: stream.first.pt,
        rate: clock_of(stream).rate,
    }
}

fn takes_pt(sessions: &[SessionLine], before: &[PtLine], line: &PtLine) -> bool
    ensures { result ≡ takes_pt_line sessions.now before.now line.now }
{
    line.session <= 7
        && line.pt <= 127
        && line.rate >= 1
        && line.rate <= 1_000_000
        && is_new_pt(sessions, before, line)
}

fn is_new_pt(sessions: &[SessionLine], before: &[PtLine], line: &PtLine) -> bool
    ensures { result ≡ is_new_pt_line sessions.now before.now line.now }
{
    is_declared(sessions, line.session) && !has_pt(before, line.session, line.pt)
}

fn has_pt(pts: &[PtLine], session: u8, pt: u8) -> bool
    ensures { result ≡ has_pt_in pts.now session pt }
{
    pts.iter().any(|l| session == l.session && pt == l.pt)
}

fn script_of(sessions: Vec<SessionLine>, pts: Vec<PtLine>) -> Script
    requires sessions { AreSessions sessions.items }
    requires pts { ArePts sessions.items pts.items }
    ensures { result ≡ script_with sessions.items pts.items }
{
    let alloc = *sessions.allocator();
    Script {
        sessions,
        pts,
        rtx: Vec::new(alloc),
        fids: Vec::new(alloc),
        items: Vec::new(alloc),
        settings: settings(),
    }
}

fn settings() -> ScriptSettings
    ensures { result ≡ defaults }
{
    ScriptSettings {
        latency: 200 * MILLISECOND,
        mode: Mode::Slave,
        rtx: false,
        rtx_delay: 20 * MILLISECOND,
        rtx_retry: 40 * MILLISECOND,
        rtx_max: 3,
        reorder: 3,
        dropout: 3000,
        misorder: 100,
        probation: 2,
        faststart: 0,
        report: 0,
        timeout: 25_000 * MILLISECOND,
        history: 256,
        ssrc: 1,
    }
}

/// The script has the stream's payload type, at its rate, in the session of its port.
pub(crate) fn is_proposed(script: &Script, stream: &Stream) -> bool
    ensures { result ≡ is_proposed_in script.now stream.now }
{
    match session_at(&script.sessions, stream.first.port) {
        Some(session) => has_line(&script.pts, &pt_line(session, stream)),
        None => false,
    }
}

fn has_line(pts: &[PtLine], line: &PtLine) -> bool
    ensures { result ≡ list_any (is_same_line line.now) pts.now }
{
    pts.iter().any(|l| l.session == line.session && l.pt == line.pt && l.rate == line.rate)
}
