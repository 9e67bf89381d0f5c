//! What lines say by the values of their arguments.
ghost use Rattle.std.specs.Prelude.{◌≡◌, ◌≤◌, IfOk};
ghost use Rattle.script_lang.specs.Forms.{written, written_action};
ghost use Rattle.script_lang.specs.Entries.{session_in, port_in, pt_in, session_line as session_of_words, pt_line as pt_of_words, rtx_line as rtx_of_words, fid_line as fid_of_words, action_of as action_of_form, item_of as item_of_form, entry_of as entry_of_form};

use crate::fault::ScriptCause;
use crate::form::{ActionForm, Form};
use crate::numbers::{number, ssrc, time};
use crate::script::{Action, Item, PtLine, SessionLine};
use crate::setting::Setting;
use rtp_units::{Fid, RtxLine};

/// What a line says.
#[derive(Clone, Copy, Debug, PartialEq, Eq, Drop)]
pub(crate) enum Entry {
    Session(SessionLine),
    Pt(PtLine),
    Rtx(RtxLine),
    Fid(Fid),
    Setting(Setting),
    Timed(Item),
}

impl Entry {
    /// What a form says. The arguments are tested from left to right.
    #[tactic(auto, unfolding(crate::specs::Entries::entry_of))]
    pub fn of_form(form: &Form<'_>) -> Result<Entry, ScriptCause>
        ensures { result ≡ entry_of_form (written form.now) }
    {
        match form {
            Form::Session { session, rtp, rtcp } => {
                Ok(Entry::Session(session_line(session, rtp, rtcp)?))
            }
            Form::Pt { session, pt, rate } => Ok(Entry::Pt(pt_line(session, pt, rate)?)),
            Form::Rtx {
                session,
                pt,
                osession,
                apt,
            } => Ok(Entry::Rtx(rtx_line(session, pt, osession, apt)?)),
            Form::Fid {
                session,
                ssrc,
                rtx_ssrc,
            } => Ok(Entry::Fid(fid_line(session, ssrc, rtx_ssrc)?)),
            Form::Setting { name, value } => Ok(Entry::Setting(Setting::of_words(name, value)?)),
            Form::At { time, action } => Ok(Entry::Timed(item_of(time, action)?)),
        }
    }
}

fn session_number(word: &[u8]) -> Result<u8, ScriptCause>
    ensures value { result ≡ session_in word.now }
    ensures small { IfOk result (λ session. session ≤ 7) }
{
    Ok(number(word, 0, 7)? as u8)
}

fn port_number(word: &[u8]) -> Result<u16, ScriptCause>
    ensures { result ≡ port_in word.now }
{
    Ok(number(word, 1, 65535)? as u16)
}

fn payload_type(word: &[u8]) -> Result<u8, ScriptCause>
    ensures { result ≡ pt_in word.now }
{
    Ok(number(word, 0, 127)? as u8)
}

#[tactic(auto, unfolding(crate::specs::Entries::session_line))]
fn session_line(session: &[u8], rtp: &[u8], rtcp: &[u8]) -> Result<SessionLine, ScriptCause>
    ensures { result ≡ session_of_words session.now rtp.now rtcp.now }
{
    Ok(SessionLine {
        session: session_number(session)?,
        rtp: port_number(rtp)?,
        rtcp: port_number(rtcp)?,
    })
}

#[tactic(auto, unfolding(crate::specs::Entries::pt_line))]
fn pt_line(session: &[u8], pt: &[u8], rate: &[u8]) -> Result<PtLine, ScriptCause>
    ensures { result ≡ pt_of_words session.now pt.now rate.now }
{
    Ok(PtLine {
        session: session_number(session)?,
        pt: payload_type(pt)?,
        rate: number(rate, 1, 1_000_000)? as u32,
    })
}

#[tactic(auto, unfolding(crate::specs::Entries::rtx_line))]
fn rtx_line(session: &[u8], pt: &[u8], osession: &[u8], apt: &[u8]) -> Result<RtxLine, ScriptCause>
    ensures { result ≡ rtx_of_words session.now pt.now osession.now apt.now }
{
    Ok(RtxLine {
        session: session_number(session)?,
        pt: payload_type(pt)?,
        osession: session_number(osession)?,
        apt: payload_type(apt)?,
    })
}

#[tactic(auto, unfolding(crate::specs::Entries::fid_line))]
fn fid_line(session: &[u8], first: &[u8], second: &[u8]) -> Result<Fid, ScriptCause>
    ensures { result ≡ fid_of_words session.now first.now second.now }
{
    Ok(Fid {
        session: session_number(session)?,
        ssrc: ssrc(first)?,
        rtx_ssrc: ssrc(second)?,
    })
}

#[tactic(auto, unfolding(crate::specs::Entries::item_of))]
fn item_of(at: &[u8], action: &ActionForm<'_>) -> Result<Item, ScriptCause>
    ensures { result ≡ item_of_form at.now (written_action action.now) }
{
    Ok(Item {
        time: time(at, 0, 4_294_967_295)?,
        action: action_of(action)?,
    })
}

#[tactic(auto, unfolding(crate::specs::Entries::action_of))]
fn action_of(action: &ActionForm<'_>) -> Result<Action, ScriptCause>
    ensures { result ≡ action_of_form (written_action action.now) }
{
    match action {
        ActionForm::Clock => Ok(Action::Clock),
        ActionForm::FlushStart(session) => Ok(Action::FlushStart(session_number(session)?)),
        ActionForm::FlushStop(session) => Ok(Action::FlushStop(session_number(session)?)),
        ActionForm::Latency { session, latency } => Ok(Action::Latency {
            session: session_number(session)?,
            ns: time(latency, 0, 600_000)?,
        }),
    }
}
