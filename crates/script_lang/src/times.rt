//! Reading settings and timed lines for sessions that stand elsewhere.
ghost use Rattle.std.specs.Prelude.{◌≡◌, [], IsTrue, IfOk};
ghost use Rattle.std.specs.List.{list_all};
ghost use Rattle.script_lang.specs.Entries.{session_fits};
ghost use Rattle.script_lang.specs.Contents.{each_behind, is_new_session};
ghost use Rattle.script_lang.specs.Reading.{Answers, AfterLine, texts};
ghost use Rattle.script_lang.specs.Times.{is_of_times as times_test, has_place as place_test};
ghost use Rattle.script_lang.specs.Times.{times_line_behind, script_of_times};
ghost use Rattle.script_lang.specs.Forms.{form_of};

use crate::draft::Draft;
use crate::fault::{ScriptCause, ScriptFault};
use crate::form::Form;
use crate::reading::{MAX_SCRIPT, read_line};
use crate::script::{Script, SessionLine};
use crate::text::{first_line, is_passed_over, is_text, words_in};
use std::alloc::{AllocError, Global};

/// The script of these sessions and of a text that has `set` and `at` lines alone. The lines are
/// tested as in a script with these sessions; a line with any other first word is `Word`. Lines are
/// counted from 1 in this text; line 0 and `Size` stand for a text of more than `MAX_SCRIPT` bytes.
/// The script has no payload types and no pairs of SSRCs. `OutOfMemory` may come at any line.
pub fn read_times(
    alloc: Global,
    sessions: &[SessionLine],
    bytes: &[u8],
) -> Result<Script, ScriptFault>
    requires fit { IsTrue (list_all session_fits sessions.now) }
    requires new { IsTrue (each_behind is_new_session [] sessions.now) }
    ensures script { Answers result (script_of_times sessions.now bytes.now) }
    ensures sessions { IfOk result (λ script. script.sessions ≡ sessions.now) }
{
    if bytes.len() > MAX_SCRIPT {
        return Err(ScriptFault::Bad {
            line: 0,
            cause: ScriptCause::Size,
        });
    }
    let mut draft = Draft::of_sessions(alloc, sessions)?;
    let mut number: u32 = 0;
    let mut rest = Some(bytes);
    while let Some(text) = rest {
        let (line, behind) = first_line(text);
        number += 1;
        read_times_line(alloc, &mut draft, number, line)?;
        rest = behind;
    }
    draft.finish(alloc)
}

// Takes up what a line says.
#[tactic(auto, unfolding(crate::specs::Times::times_line_behind))]
fn read_times_line(
    alloc: Global,
    draft: &mut Draft,
    number: u32,
    line: &[u8],
) -> Result<(), ScriptFault>
    ensures { AfterLine result (times_line_behind draft.old line.now) number draft.old draft.new }
{
    if has_place(alloc, line)? {
        read_line(alloc, draft, number, line)
    } else {
        Err(ScriptFault::Bad {
            line: number,
            cause: ScriptCause::Word,
        })
    }
}

// The line is passed over or is no text, or it has the form of a setting or a timed line.
fn has_place(alloc: Global, line: &[u8]) -> Result<bool, AllocError>
    ensures { IfOk result (λ place. place ≡ place_test line.now) }
{
    let words = words_in(alloc, line)?;
    Ok(is_passed_over(&words) || !is_text(line) || is_of_times(&words))
}

fn is_of_times(words: &[&[u8]]) -> bool
    ensures { result ≡ times_test (form_of (texts words.now)) }
{
    match Form::of_words(words) {
        Some(Form::Setting { .. }) | Some(Form::At { .. }) => true,
        _ => false,
    }
}
