//! The parts of a line.
ghost use Rattle.std.specs.Prelude.{◌≡◌, ◌<◌, ◌≤◌, ◌==◌, not, length, position, bytes_eq};
ghost use Rattle.std.specs.Prelude.{option_map, IfOk, IfSome};
ghost use Rattle.std.specs.List.{list_all, list_any, position_or_len};
ghost use Rattle.sdp_profile.specs.Text.{behind as behind_bytes, less_end, cut as cut_at, place};
ghost use Rattle.sdp_profile.specs.Text.{front as front_of, back as back_of, less_spaces, words_of};
ghost use Rattle.sdp_profile.specs.Media.{texts};

use std::alloc::{AllocError, Global};

/// The word is this text.
pub(crate) fn spells(word: &[u8], text: &str) -> bool
    ensures { result ≡ bytes_eq word.now text.now }
{
    word == text.as_bytes()
}

/// What stands behind a text's first bytes, where they are these.
pub(crate) fn behind<'a>(first: &str, text: &'a [u8]) -> Option<&'a [u8]>
    ensures { option_map (λ rest. rest.now) result ≡ behind_bytes first.now text.now }
{
    text.strip_prefix(first.as_bytes())
}

/// The text less its last bytes, where they are these.
pub(crate) fn without_end<'a>(last: &str, text: &'a [u8]) -> &'a [u8]
    ensures { result.now ≡ less_end last.now text.now }
{
    match text.strip_suffix(last.as_bytes()) {
        Some(rest) => rest,
        None => text,
    }
}

/// What stands before and behind the first of these bytes.
pub(crate) fn cut(byte: u8, text: &[u8]) -> Option<(&[u8], &[u8])>
    ensures parts { option_map (λ parts. (parts.0.now, parts.1.now)) result ≡ cut_at byte text.now }
    ensures shorter { IfSome result (λ parts. length parts.1.now < length text.now) }
{
    let place = place_of(byte, text);
    if place < text.len() {
        Some((&text[..place], &text[place + 1..]))
    } else {
        None
    }
}

/// What stands before the first of these bytes, or all, and the rest.
pub(crate) fn front(byte: u8, text: &[u8]) -> (&[u8], &[u8])
    ensures front { result.0.now ≡ front_of byte text.now }
    ensures back { result.1.now ≡ back_of byte text.now }
{
    let place = place_of(byte, text);
    (&text[..place], &text[place..])
}

// The place of the first of these bytes, or the length of the text.
fn place_of(byte: u8, text: &[u8]) -> usize
    ensures place { result ≡ place byte text.now }
    ensures within { result ≤ length text.now }
{
    match place_in(byte, text) {
        Some(place) => place,
        None => text.len(),
    }
}

fn place_in(byte: u8, text: &[u8]) -> Option<usize>
    ensures { result ≡ position (λ b. b == byte) text.now }
{
    text.iter().position(|b| *b == byte)
}

/// The text less the spaces that it begins with.
pub(crate) fn without_spaces(text: &[u8]) -> &[u8]
    ensures { result.now ≡ less_spaces text.now }
{
    let place = spaces_in_front(text);
    &text[place..]
}

fn spaces_in_front(text: &[u8]) -> usize
    ensures place { result ≡ position_or_len (λ b. not (b == 32)) text.now }
    ensures within { result ≤ length text.now }
{
    match other_than_space(text) {
        Some(place) => place,
        None => text.len(),
    }
}

fn other_than_space(text: &[u8]) -> Option<usize>
    ensures { result ≡ position (λ b. not (b == 32)) text.now }
{
    text.iter().position(|b| *b != b' ')
}

/// The text has such a byte.
pub(crate) fn has(byte: u8, text: &[u8]) -> bool
    ensures { result ≡ list_any (λ b. b == byte) text.now }
{
    text.iter().any(|b| *b == byte)
}

/// All bytes are spaces.
pub(crate) fn is_spaces(text: &[u8]) -> bool
    ensures { result ≡ list_all (λ b. b == 32) text.now }
{
    text.iter().all(|b| *b == b' ')
}

/// The words of a text, which are separated by one space each.
pub(crate) fn words_in(alloc: Global, text: &[u8]) -> Result<Vec<&[u8]>, AllocError>
    ensures { IfOk result (λ words. texts words.items ≡ words_of text.now) }
{
    text.split(|b| *b == b' ').collect(alloc)
}
