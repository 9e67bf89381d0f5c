//! Reading a script.
ghost use Rattle.std.specs.Prelude.{◌≡◌, IfOk, IsTrue, None};
ghost use Rattle.script_lang.specs.Grammar.{entry_in_line, line_behind, read_script};
ghost use Rattle.script_lang.specs.Tests.{cause_of};
ghost use Rattle.script_lang.specs.Entries.{entry_fits};
ghost use Rattle.script_lang.specs.Reading.{Answers, AfterLine, texts};
ghost use Rattle.script_lang.specs.Forms.{form_of};

use crate::draft::Draft;
use crate::entry::Entry;
use crate::fault::{ScriptCause, ScriptFault};
use crate::form::Form;
use crate::script::Script;
use crate::text::{first_line, is_passed_over, is_text, words_in};
use std::alloc::Global;

/// The most bytes of a script.
pub const MAX_SCRIPT: usize = 1_048_576;

/// The script that a text is. Else `Bad` tells the first bad line, counted from 1, and the first test that
/// it fails; line 0 and `Size` stand for a text of more than `MAX_SCRIPT` bytes, and where all lines pass
/// and a flush is left open, `Flush` is told of the last line that began one. `OutOfMemory` may come at any
/// line. The time that a line takes doesn't grow with the lines before it.
pub fn read(alloc: Global, bytes: &[u8]) -> Result<Script, ScriptFault>
    ensures { Answers result (read_script bytes.now) }
{
    if bytes.len() > MAX_SCRIPT {
        return Err(ScriptFault::Bad {
            line: 0,
            cause: ScriptCause::Size,
        });
    }
    let mut draft = Draft::new(alloc)?;
    let mut number: u32 = 0;
    let mut rest = Some(bytes);
    while let Some(text) = rest {
        let (line, behind) = first_line(text);
        number += 1;
        read_line(alloc, &mut draft, number, line)?;
        rest = behind;
    }
    draft.finish(alloc)
}

/// Takes up what a line says.
#[tactic(auto, unfolding(crate::specs::Grammar::line_behind))]
pub(crate) fn read_line(
    alloc: Global,
    draft: &mut Draft,
    number: u32,
    line: &[u8],
) -> Result<(), ScriptFault>
    ensures { AfterLine result (line_behind draft.old line.now) number draft.old draft.new }
{
    let words = words_in(alloc, line)?;
    if is_passed_over(&words) {
        return Ok(());
    }
    match entry_in(draft, line, &words) {
        Ok(entry) => {
            draft.add(number, entry)?;
            Ok(())
        }
        Err(cause) => Err(ScriptFault::Bad {
            line: number,
            cause,
        }),
    }
}

// What a line says behind earlier lines. The tests are made in their order, and the first that fails answers.
#[tactic(auto, unfolding(crate::specs::Grammar::entry_in_line, crate::specs::Grammar::entry_of_form))]
fn entry_in(draft: &Draft, line: &[u8], words: &[&[u8]]) -> Result<Entry, ScriptCause>
    ensures value { result ≡ entry_in_line draft.now line.now (texts words.now) }
    ensures passes { IfOk result (λ entry. cause_of draft.now entry ≡ None) }
    ensures fits { IfOk result (λ entry. IsTrue (entry_fits entry)) }
{
    if !is_text(line) {
        return Err(ScriptCause::Text);
    }
    let Some(form) = Form::of_words(words) else {
        return Err(ScriptCause::Word);
    };
    if !form.is_timed() && draft.has_items() {
        return Err(ScriptCause::Order);
    }
    let entry = Entry::of_form(&form)?;
    match draft.cause(&entry) {
        Some(cause) => Err(cause),
        None => Ok(entry),
    }
}
