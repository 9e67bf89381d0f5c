//! The lines of a text and the words of a line.
ghost use Rattle.std.specs.Prelude.{◌≡◌, ◌∷◌, IfOk, bytes_eq, position, length, ◌≤◌, ◌<◌, ◌+◌, IfSome};
ghost use Rattle.std.specs.Str.Lines.{strip_carriage_return};
ghost use Rattle.script_lang.specs.Text.{is_newline, lines_of, words_of, is_blank as blank_test, is_text as text_test, is_text_byte as text_byte_test, is_passed_over as passed_over_test};
ghost use Rattle.script_lang.specs.Reading.{lines_left, texts};

use std::alloc::{AllocError, Global};

/// The first line of a text, and what stands behind its newline, if it has one.
#[tactic(auto, unfolding(crate::specs::Text::lines_of))]
pub(crate) fn first_line(text: &[u8]) -> (&[u8], Option<&[u8]>)
    ensures line { lines_of text.now ≡ result.0.now ∷ lines_left result.1 }
    ensures rest { IfSome result.1 (λ rest. length rest.now < length text.now) }
{
    match newline_in(text) {
        Some(end) => (without_return(&text[..end]), Some(&text[end + 1..])),
        None => (without_return(text), None),
    }
}

fn newline_in(text: &[u8]) -> Option<usize>
    ensures { result ≡ position is_newline text.now }
{
    text.iter().position(|byte| *byte == b'\n')
}

// A line less one carriage return at its end.
fn without_return(line: &[u8]) -> &[u8]
    ensures { result.now ≡ strip_carriage_return line.now }
{
    if !line.is_empty() && line[line.len() - 1] == b'\r' {
        &line[..line.len() - 1]
    } else {
        line
    }
}

/// The words of a line.
#[tactic(auto, unfolding(crate::specs::Text::words_of))]
pub(crate) fn words_in(alloc: Global, line: &[u8]) -> Result<Vec<&[u8]>, AllocError>
    ensures { IfOk result (λ words. texts words.items ≡ words_of line.now) }
{
    line.split(|byte| is_blank(*byte))
        .filter(|word| !word.is_empty())
        .collect(alloc)
}

fn is_blank(byte: u8) -> bool
    ensures { result ≡ blank_test byte }
{
    byte == b' ' || byte == b'\t'
}

/// The line has no words, or is a comment.
pub(crate) fn is_passed_over(words: &[&[u8]]) -> bool
    ensures { result ≡ passed_over_test (texts words.now) }
{
    match words {
        [] => true,
        [first, ..] => first.starts_with(b"#"),
    }
}

/// All bytes are printable ASCII or tabs.
pub(crate) fn is_text(line: &[u8]) -> bool
    ensures { result ≡ text_test line.now }
{
    line.iter().all(|byte| is_text_byte(*byte))
}

fn is_text_byte(byte: u8) -> bool
    ensures { result ≡ text_byte_test byte }
{
    (b' ' <= byte && byte <= b'~') || byte == b'\t'
}

/// The word spells this text.
pub(crate) fn spells(word: &[u8], text: &str) -> bool
    ensures { result ≡ bytes_eq word.now text.now }
{
    word == text.as_bytes()
}
