//! The sessions of a script.
ghost use Rattle.std.specs.Prelude.{◌≡◌, ◌≤◌, ◌+◌, ℕ, List, [], ◌∷◌, ◌++◌, length, map};
ghost use Rattle.std.specs.Prelude.{false, is_some, option_map, IsSome, IfOk, OnOk, IsSomeAnd};
ghost use Rattle.std.specs.List.{flat_map};
ghost use Rattle.rtcp_wire.specs.Answers.{Gives};
ghost use Rattle.rtcp_wire.specs.Compound.{compound_of};
ghost use Rattle.source_table.specs.Table.{name_of};
ghost use Rattle.front_model.specs.Given.{Setting, Given, Rtp, Report, asks, table};
ghost use Rattle.front_model.specs.Notes.{notes};
ghost use Rattle.front_model.specs.Probation.{kept_at};
ghost use Rattle.front_model.specs.Sessions.{fid_ssrcs};
ghost use Rattle.rtp_session.specs.Answers.{out_notes, told, compound_notes, report_notes};
ghost use Rattle.rtp_front.specs.Sessions.{session_at, StandsAt, StandsAfter, IsSameBut};
ghost use Rattle.rtp_front.specs.Sessions.{KeepsNumbers, HeardAtMost, IsKept};

use indexmap::IndexMap;
use rtcp_wire::RtcpFault;
use rtp_session::{Reported, Session, SessionNote, SessionOut};
use rtp_units::{Address, Fid, OutOfMemory};
use rtp_wire::RtpView;
use script_lang::Script;
use std::alloc::Global;

/// Sessions by their numbers.
pub(crate) type Sessions = IndexMap<u8, Session>;

/// The sessions that a script declares, before anything came.
pub(crate) fn sessions_of(alloc: Global, script: &Script) -> Result<Sessions, OutOfMemory>
    ensures kept { IfOk result (λ sessions.
        (q : ℕ) → IsKept script.now q [] (session_at sessions.entries q)) }
    ensures heard { IfOk result (λ sessions. HeardAtMost 0 sessions.entries) }
{
    let mut sessions = IndexMap::new(alloc);
    for line in script.sessions.as_slice() {
        let paired = paired_ssrcs(alloc, script, line.session)?;
        let session = Session::new(
            alloc,
            script.settings.ssrc,
            script.settings.probation,
            paired.as_slice(),
        )?;
        sessions.insert(line.session, session)?;
    }
    Ok(sessions)
}

/// The SSRCs that the pairs of a session name: they need no probation.
fn paired_ssrcs(alloc: Global, script: &Script, session: u8) -> Result<Vec<u32>, OutOfMemory>
    ensures { IfOk result (λ ssrcs. ssrcs.items ≡ flat_map (fid_ssrcs session) script.now.fids) }
{
    let mut ssrcs = Vec::new(alloc);
    for fid in script.fids.as_slice() {
        add_pair(&mut ssrcs, fid, session)?;
    }
    Ok(ssrcs)
}

/// Adds the SSRCs of a pair, where it is of this session.
fn add_pair(ssrcs: &mut Vec<u32>, fid: &Fid, session: u8) -> Result<(), OutOfMemory>
    ensures { OnOk result (ssrcs.new.items ≡ ssrcs.old.items ++ fid_ssrcs session fid.now) }
{
    if fid.session == session {
        ssrcs.push(fid.ssrc)?;
        ssrcs.push(fid.rtx_ssrc)?;
    }
    Ok(())
}

/// The session of this number hears a packet of RTP.
pub(crate) fn hear_packet(
    alloc: Global,
    sessions: &mut Sessions,
    number: u8,
    now: u64,
    from: Address,
    view: &RtpView<'_>,
    rate: Option<u32>,
) -> Result<SessionOut, OutOfMemory>
    requires kept { IsSome (session_at sessions.old.entries number) }
    requires few { HeardAtMost 100000000 sessions.old.entries }
    requires size { length view.now.bytes ≤ 65535 }
    ensures answer { (s : Setting) (older : List Given)
        → StandsAt sessions.old.entries number s older
        → IfOk result (λ out.
        out_notes (kept_at now view.now) out ≡ notes s older (Rtp now from view.now rate)) }
    ensures stands { (s : Setting) (older : List Given)
        → StandsAt sessions.old.entries number s older
        → OnOk result
        (StandsAt sessions.new.entries number s (Rtp now from view.now rate ∷ older)) }
    ensures rest { IsSameBut number sessions.old.entries sessions.new.entries }
    ensures numbers { KeepsNumbers sessions.old.entries sessions.new.entries }
    ensures heard { (n : ℕ) → HeardAtMost n sessions.old.entries
        → HeardAtMost (n + 1) sessions.new.entries }
{
    match sessions.get_mut(&number) {
        Some(session) => session.rtp(alloc, now, from, view, rate),
        None => unreachable!(),
    }
}

/// The session of this number hears a datagram of RTCP.
pub(crate) fn hear_compound(
    alloc: Global,
    sessions: &mut Sessions,
    number: u8,
    now: u64,
    bytes: &[u8],
) -> Result<Vec<SessionNote>, RtcpFault>
    requires { IsSome (session_at sessions.old.entries number) }
    ensures answer { (s : Setting) (older : List Given)
        → StandsAt sessions.old.entries number s older
        → Gives (λ notes. map told notes.items) result
        (compound_notes s older now (compound_of bytes.now)) }
    ensures stands { (s : Setting) (older : List Given)
        → StandsAt sessions.old.entries number s older
        → StandsAfter sessions.new.entries number s older now (compound_of bytes.now) result }
    ensures rest { IsSameBut number sessions.old.entries sessions.new.entries }
    ensures numbers { KeepsNumbers sessions.old.entries sessions.new.entries }
    ensures heard { (n : ℕ) → HeardAtMost n sessions.old.entries
        → HeardAtMost n sessions.new.entries }
{
    match sessions.get_mut(&number) {
        Some(session) => session.rtcp(alloc, now, bytes),
        None => unreachable!(),
    }
}

/// The session of this number, where it is kept, has a report time.
pub(crate) fn report_session(
    alloc: Global,
    sessions: &mut Sessions,
    number: u8,
    now: u64,
    timeout: u64,
) -> Result<Option<Reported>, OutOfMemory>
    ensures kept { IfOk result (λ reported.
        is_some reported ≡ is_some (session_at sessions.old.entries number)) }
    ensures answer { (s : Setting) (older : List Given)
        → StandsAt sessions.old.entries number s older
        → IfOk result (λ o. IsSomeAnd o (λ reported.
        report_notes reported ≡ notes s older (Report now timeout))) }
    ensures stands { (s : Setting) (older : List Given)
        → StandsAt sessions.old.entries number s older
        → OnOk result (StandsAt sessions.new.entries number s (Report now timeout ∷ older)) }
    ensures rest { IsSameBut number sessions.old.entries sessions.new.entries }
    ensures numbers { KeepsNumbers sessions.old.entries sessions.new.entries }
    ensures heard { (n : ℕ) → HeardAtMost n sessions.old.entries
        → HeardAtMost n sessions.new.entries }
{
    match sessions.get_mut(&number) {
        Some(session) => Ok(Some(session.report(alloc, now, timeout)?)),
        None => Ok(None),
    }
}

/// The CNAME of a source of the session of this number, where both are kept and it has one.
pub(crate) fn cname_in(sessions: &Sessions, number: u8, ssrc: u32) -> Option<&[u8]>
    ensures stands { (s : Setting) (older : List Given)
        → StandsAt sessions.now.entries number s older
        → option_map (λ text. text.now) result ≡ name_of (table s (asks older)) ssrc }
    ensures none { is_some (session_at sessions.now.entries number) ≡ false
        → is_some result ≡ false }
{
    match sessions.get(&number) {
        Some(session) => session.cname(ssrc),
        None => None,
    }
}
