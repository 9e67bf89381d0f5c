//! Writing a script.
ghost use Rattle.std.specs.Prelude.{◌≡◌, ◌≤◌, ◌++◌, IfOk, OnOk, Ok, codes, length, map, string_bytes};
ghost use Rattle.script_lang.specs.Grammar.{read_script};
ghost use Rattle.script_lang.specs.Written.{entry_text, lines_text, script_text};
ghost use Rattle.script_lang.specs.declared.entry.Entry.TheVariants as entry;

use crate::entry::Entry;
use crate::numbers::MILLISECOND;
use crate::script::{Action, Item, PtLine, Script, SessionLine};
use crate::setting::Setting;
use rtp_units::{Blob, Fid, Mode, OutOfMemory, RtxLine};
use std::alloc::Global;
use std::fmt;

/// The text of a script: its lines in order, every setting between the pairs of SSRCs and the items, one
/// space between words. Where the text has no more bytes than a script may have, reading it gives an equal
/// script.
pub fn write(alloc: Global, script: &Script) -> Result<Blob, OutOfMemory>
    ensures text { IfOk result (λ blob. blob ≡ script_text script.now) }
    ensures reads_back { IfOk result
        (λ blob. length blob ≤ 1048576 → read_script blob ≡ Ok script.now) }
{
    let mut text = String::new(alloc);
    push_sessions(&mut text, &script.sessions)?;
    push_pts(&mut text, &script.pts)?;
    push_rtx(&mut text, &script.rtx)?;
    push_fids(&mut text, &script.fids)?;
    push_settings(&mut text, &script.settings.list())?;
    push_items(&mut text, &script.items)?;
    Ok(Blob::from_vec(text.into_bytes()))
}

fn push_sessions(text: &mut String, sessions: &[SessionLine]) -> Result<(), OutOfMemory>
    ensures { OnOk result
        (string_bytes text.new ≡ string_bytes text.old
        ++ lines_text (map entry.Session sessions.now)) }
{
    for line in sessions {
        push_line(text, Entry::Session(*line))?;
    }
    Ok(())
}

fn push_pts(text: &mut String, pts: &[PtLine]) -> Result<(), OutOfMemory>
    ensures { OnOk result
        (string_bytes text.new ≡ string_bytes text.old ++ lines_text (map entry.Pt pts.now)) }
{
    for line in pts {
        push_line(text, Entry::Pt(*line))?;
    }
    Ok(())
}

fn push_rtx(text: &mut String, lines: &[RtxLine]) -> Result<(), OutOfMemory>
    ensures { OnOk result
        (string_bytes text.new ≡ string_bytes text.old ++ lines_text (map entry.Rtx lines.now)) }
{
    for line in lines {
        push_line(text, Entry::Rtx(*line))?;
    }
    Ok(())
}

fn push_fids(text: &mut String, fids: &[Fid]) -> Result<(), OutOfMemory>
    ensures { OnOk result
        (string_bytes text.new ≡ string_bytes text.old ++ lines_text (map entry.Fid fids.now)) }
{
    for fid in fids {
        push_line(text, Entry::Fid(*fid))?;
    }
    Ok(())
}

fn push_settings(text: &mut String, settings: &[Setting]) -> Result<(), OutOfMemory>
    ensures { OnOk result
        (string_bytes text.new ≡ string_bytes text.old
        ++ lines_text (map entry.Setting settings.now)) }
{
    for setting in settings {
        push_line(text, Entry::Setting(*setting))?;
    }
    Ok(())
}

fn push_items(text: &mut String, items: &[Item]) -> Result<(), OutOfMemory>
    ensures { OnOk result
        (string_bytes text.new ≡ string_bytes text.old ++ lines_text (map entry.Timed items.now)) }
{
    for item in items {
        push_line(text, Entry::Timed(*item))?;
    }
    Ok(())
}

fn push_line(text: &mut String, entry: Entry) -> Result<(), OutOfMemory>
    ensures { OnOk result
        (string_bytes text.new ≡ string_bytes text.old ++ (entry_text entry ++ codes "\n")) }
{
    write!(text, "{entry}\n")?;
    Ok(())
}

impl fmt::Display for Entry {
    ghost use Rattle.std.specs.Prelude.{Some};
    ghost use Rattle.script_lang.specs.Written.{entry_text};

    ghost output = { λ entry. Some (entry_text entry) };

    fn fmt<W: fmt::Write>(&self, f: &mut fmt::Formatter<W>) -> fmt::Result {
        match self {
            Entry::Session(line) => {
                let session = line.session;
                let rtp = line.rtp;
                let rtcp = line.rtcp;
                write!(f, "session {session} {rtp} {rtcp}")
            }
            Entry::Pt(line) => {
                let session = line.session;
                let pt = line.pt;
                let rate = line.rate;
                write!(f, "pt {session} {pt} {rate}")
            }
            Entry::Rtx(line) => {
                let session = line.session;
                let pt = line.pt;
                let osession = line.osession;
                let apt = line.apt;
                write!(f, "rtx {session} {pt} {osession} {apt}")
            }
            Entry::Fid(fid) => {
                let session = fid.session;
                let ssrc = fid.ssrc;
                let rtx_ssrc = fid.rtx_ssrc;
                write!(f, "fid {session} {ssrc:08x} {rtx_ssrc:08x}")
            }
            Entry::Setting(setting) => write!(f, "set {setting}"),
            Entry::Timed(item) => {
                let ms = item.time / MILLISECOND;
                let action = item.action;
                write!(f, "at {ms} {action}")
            }
        }
    }
}

impl fmt::Display for Action {
    ghost use Rattle.std.specs.Prelude.{Some};
    ghost use Rattle.script_lang.specs.Written.{action_text};

    ghost output = { λ action. Some (action_text action) };

    fn fmt<W: fmt::Write>(&self, f: &mut fmt::Formatter<W>) -> fmt::Result {
        match self {
            Action::Clock => write!(f, "clock"),
            Action::FlushStart(session) => write!(f, "flush-start {session}"),
            Action::FlushStop(session) => write!(f, "flush-stop {session}"),
            Action::Latency { session, ns } => {
                let ms = *ns / MILLISECOND;
                write!(f, "latency {session} {ms}")
            }
        }
    }
}

impl fmt::Display for Setting {
    ghost use Rattle.std.specs.Prelude.{Some};
    ghost use Rattle.script_lang.specs.Written.{setting_text};

    ghost output = { λ setting. Some (setting_text setting) };

    fn fmt<W: fmt::Write>(&self, f: &mut fmt::Formatter<W>) -> fmt::Result {
        match self {
            Setting::Latency(ns) => {
                let ms = *ns / MILLISECOND;
                write!(f, "latency {ms}")
            }
            Setting::Mode(Mode::Plain) => write!(f, "mode none"),
            Setting::Mode(Mode::Slave) => write!(f, "mode slave"),
            Setting::Rtx(on) => {
                if *on {
                    write!(f, "rtx on")
                } else {
                    write!(f, "rtx off")
                }
            }
            Setting::RtxDelay(ns) => {
                let ms = *ns / MILLISECOND;
                write!(f, "rtx-delay {ms}")
            }
            Setting::RtxRetry(ns) => {
                let ms = *ns / MILLISECOND;
                write!(f, "rtx-retry {ms}")
            }
            Setting::RtxMax(count) => write!(f, "rtx-max {count}"),
            Setting::Reorder(count) => write!(f, "reorder {count}"),
            Setting::Dropout(count) => write!(f, "dropout {count}"),
            Setting::Misorder(count) => write!(f, "misorder {count}"),
            Setting::Probation(count) => write!(f, "probation {count}"),
            Setting::Faststart(count) => write!(f, "faststart {count}"),
            Setting::Report(ns) => {
                let ms = *ns / MILLISECOND;
                write!(f, "report {ms}")
            }
            Setting::Timeout(ns) => {
                let ms = *ns / MILLISECOND;
                write!(f, "timeout {ms}")
            }
            Setting::History(count) => write!(f, "history {count}"),
            Setting::Ssrc(ssrc) => write!(f, "ssrc {ssrc:08x}"),
        }
    }
}
