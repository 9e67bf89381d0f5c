//! The lines of a description that aren't empty, with their numbers.
ghost use Rattle.std.specs.Prelude.{◌≡◌, ◌<◌, ◌≤◌, ◌++◌, ◌∷◌, [], filter, length, option_map, IfOk};
ghost use Rattle.std.specs.Prelude.{IfSome, OnOk};
ghost use Rattle.std.specs.Str.Lines.{strip_carriage_return};
ghost use Rattle.script_lang.specs.Text.{lines_of};
ghost use Rattle.script_lang.specs.Reading.{lines_left};
ghost use Rattle.sdp_profile.specs.Text.{is_filled, filled_lines as lines_filled};
ghost use Rattle.sdp_profile.specs.Sections.{media_text as text_of_media, is_media as media_test};
ghost use Rattle.sdp_profile.specs.Reading.{line_in, lines_in};

use crate::text::{behind, cut};
use std::alloc::{AllocError, Global};

/// A line, and its number in the description.
#[derive(Clone, Copy, Drop)]
pub(crate) struct TextLine<'a> {
    pub number: u32,
    pub text: &'a [u8],
}

impl<'a> TextLine<'a> {
    /// What stands behind `m=`, if the line begins so.
    pub fn media_text(&self) -> Option<&'a [u8]>
        ensures { option_map (λ text. text.now) result ≡ text_of_media (line_in self.now) }
    {
        behind("m=", self.text)
    }

    /// The line begins a section.
    pub fn is_media(&self) -> bool
        ensures { result ≡ media_test (line_in self.now) }
    {
        self.media_text().is_some()
    }
}

/// The lines that aren't empty.
pub(crate) fn filled_lines(alloc: Global, bytes: &[u8]) -> Result<Vec<TextLine<'_>>, AllocError>
    requires { length bytes.now ≤ 1048576 }
    ensures { IfOk result (λ lines. lines_in lines.items ≡ lines_filled bytes.now) }
{
    let mut lines = Vec::new(alloc);
    let mut number: u32 = 0;
    let mut rest = Some(bytes);
    while let Some(bytes) = rest {
        let (text, behind) = first_line(bytes);
        number += 1;
        add_filled(&mut lines, number, text)?;
        rest = behind;
    }
    Ok(lines)
}

// Adds a line, unless it is empty.
fn add_filled<'a>(
    lines: &mut Vec<TextLine<'a>>,
    number: u32,
    text: &'a [u8],
) -> Result<(), AllocError>
    ensures { OnOk result (lines_in lines.new.items ≡ lines_in lines.old.items
        ++ filter is_filled (record { number = number; text = text.now } ∷ [])) }
{
    if text.is_empty() {
        return Ok(());
    }
    add_line(lines, TextLine { number, text })?;
    Ok(())
}

fn add_line<'a>(lines: &mut Vec<TextLine<'a>>, line: TextLine<'a>) -> Result<(), AllocError>
    ensures { OnOk result (lines.new.items ≡ lines.old.items ++ line.entry ∷ []) }
{
    lines.push(line)?;
    Ok(())
}

// The first line of a text, and what stands behind its newline, if it has one.
fn first_line(text: &[u8]) -> (&[u8], Option<&[u8]>)
    ensures line { lines_of text.now ≡ result.0.now ∷ lines_left result.1 }
    ensures rest { IfSome result.1 (λ rest. length rest.now < length text.now) }
{
    match cut(b'\n', text) {
        Some((line, rest)) => (without_return(line), Some(rest)),
        None => (without_return(text), None),
    }
}

// A line less one carriage return at its end.
fn without_return(line: &[u8]) -> &[u8]
    ensures { result.now ≡ strip_carriage_return line.now }
{
    if !line.is_empty() && line[line.len() - 1] == b'\r' {
        &line[..line.len() - 1]
    } else {
        line
    }
}
