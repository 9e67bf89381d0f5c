//! The forms of lines.
ghost use Rattle.std.specs.Prelude.{◌≡◌, option_map};
ghost use Rattle.script_lang.specs.Reading.{texts};
ghost use Rattle.script_lang.specs.Forms.{written, written_action, is_timed as timed_test, form_of as form_of_words, form_behind, action_form as form_of_action, at_form as form_of_at, session_form as form_of_session, pt_form as form_of_pt, rtx_form as form_of_rtx, fid_form as form_of_fid, setting_form as form_of_setting, clock_form as form_of_clock, flush_start_form as form_of_start, flush_stop_form as form_of_stop, latency_form as form_of_latency};

use crate::text::spells;

/// What a line says, with words for the arguments.
#[derive(Clone, Copy)]
pub(crate) enum Form<'a> {
    Session {
        session: &'a [u8],
        rtp: &'a [u8],
        rtcp: &'a [u8],
    },
    Pt {
        session: &'a [u8],
        pt: &'a [u8],
        rate: &'a [u8],
    },
    Rtx {
        session: &'a [u8],
        pt: &'a [u8],
        osession: &'a [u8],
        apt: &'a [u8],
    },
    Fid {
        session: &'a [u8],
        ssrc: &'a [u8],
        rtx_ssrc: &'a [u8],
    },
    Setting {
        name: &'a [u8],
        value: &'a [u8],
    },
    At {
        time: &'a [u8],
        action: ActionForm<'a>,
    },
}

/// What happens at a time, with words for the arguments.
#[derive(Clone, Copy)]
pub(crate) enum ActionForm<'a> {
    Clock,
    FlushStart(&'a [u8]),
    FlushStop(&'a [u8]),
    Latency {
        session: &'a [u8],
        latency: &'a [u8],
    },
}

impl<'a> Form<'a> {
    /// The form of the words of a line, if they have one.
    pub fn of_words(words: &[&'a [u8]]) -> Option<Form<'a>>
        ensures { option_map written result ≡ form_of_words (texts words.now) }
    {
        match words {
            [] => None,
            [first, args @ ..] => Form::behind(first, args),
        }
    }

    // The form of the words behind a first word.
    #[tactic(auto, unfolding(crate::specs::Forms::form_behind))]
    fn behind(first: &[u8], args: &[&'a [u8]]) -> Option<Form<'a>>
        ensures { option_map written result ≡ form_behind first.now (texts args.now) }
    {
        if spells(first, "session") {
            session_form(args)
        } else if spells(first, "pt") {
            pt_form(args)
        } else if spells(first, "rtx") {
            rtx_form(args)
        } else if spells(first, "fid") {
            fid_form(args)
        } else if spells(first, "set") {
            setting_form(args)
        } else if spells(first, "at") {
            at_form(args)
        } else {
            None
        }
    }

    /// The line says when something happens.
    pub fn is_timed(&self) -> bool
        ensures { result ≡ timed_test (written self.now) }
    {
        match self {
            Form::At { .. } => true,
            _ => false,
        }
    }
}

fn session_form<'a>(args: &[&'a [u8]]) -> Option<Form<'a>>
    ensures { option_map written result ≡ form_of_session (texts args.now) }
{
    match args {
        [session, rtp, rtcp] => Some(Form::Session { session, rtp, rtcp }),
        _ => None,
    }
}

fn pt_form<'a>(args: &[&'a [u8]]) -> Option<Form<'a>>
    ensures { option_map written result ≡ form_of_pt (texts args.now) }
{
    match args {
        [session, pt, rate] => Some(Form::Pt { session, pt, rate }),
        _ => None,
    }
}

fn rtx_form<'a>(args: &[&'a [u8]]) -> Option<Form<'a>>
    ensures { option_map written result ≡ form_of_rtx (texts args.now) }
{
    match args {
        [session, pt, osession, apt] => Some(Form::Rtx {
            session,
            pt,
            osession,
            apt,
        }),
        _ => None,
    }
}

fn fid_form<'a>(args: &[&'a [u8]]) -> Option<Form<'a>>
    ensures { option_map written result ≡ form_of_fid (texts args.now) }
{
    match args {
        [session, ssrc, rtx_ssrc] => Some(Form::Fid {
            session,
            ssrc,
            rtx_ssrc,
        }),
        _ => None,
    }
}

fn setting_form<'a>(args: &[&'a [u8]]) -> Option<Form<'a>>
    ensures { option_map written result ≡ form_of_setting (texts args.now) }
{
    match args {
        [name, value] => Some(Form::Setting { name, value }),
        _ => None,
    }
}

fn at_form<'a>(args: &[&'a [u8]]) -> Option<Form<'a>>
    ensures { option_map written result ≡ form_of_at (texts args.now) }
{
    match args {
        [time, action, args @ ..] => match action_form(action, args) {
            Some(action) => Some(Form::At { time, action }),
            None => None,
        },
        _ => None,
    }
}

// The form of the words behind an action.
#[tactic(auto, unfolding(crate::specs::Forms::action_form))]
fn action_form<'a>(action: &[u8], args: &[&'a [u8]]) -> Option<ActionForm<'a>>
    ensures { option_map written_action result ≡ form_of_action action.now (texts args.now) }
{
    if spells(action, "clock") {
        clock_form(args)
    } else if spells(action, "flush-start") {
        flush_start_form(args)
    } else if spells(action, "flush-stop") {
        flush_stop_form(args)
    } else if spells(action, "latency") {
        latency_form(args)
    } else {
        None
    }
}

fn clock_form<'a>(args: &[&'a [u8]]) -> Option<ActionForm<'a>>
    ensures { option_map written_action result ≡ form_of_clock (texts args.now) }
{
    match args {
        [] => Some(ActionForm::Clock),
        _ => None,
    }
}

fn flush_start_form<'a>(args: &[&'a [u8]]) -> Option<ActionForm<'a>>
    ensures { option_map written_action result ≡ form_of_start (texts args.now) }
{
    match args {
        [session] => Some(ActionForm::FlushStart(session)),
        _ => None,
    }
}

fn flush_stop_form<'a>(args: &[&'a [u8]]) -> Option<ActionForm<'a>>
    ensures { option_map written_action result ≡ form_of_stop (texts args.now) }
{
    match args {
        [session] => Some(ActionForm::FlushStop(session)),
        _ => None,
    }
}

fn latency_form<'a>(args: &[&'a [u8]]) -> Option<ActionForm<'a>>
    ensures { option_map written_action result ≡ form_of_latency (texts args.now) }
{
    match args {
        [session, latency] => Some(ActionForm::Latency { session, latency }),
        _ => None,
    }
}
