//! The numbers of a description.
ghost use Rattle.std.specs.Prelude.{◌≡◌, ◌<◌, ◌≤◌, ◌+◌, ◌^◌, ◌*◌, IfSome};
ghost use Rattle.sdp_profile.specs.Numbers.{number_in, type_in, spaced_type_in};

use crate::text::{front, is_spaces};

/// The most digits of a number.
const MAX_DIGITS: usize = 20;

/// The greatest number of any range.
const MAX_NUMBER: u64 = 4_294_967_295;

/// The decimal number of a word, where it is in this range.
#[tactic(auto, unfolding(crate::specs::Numbers::number_in))]
pub(crate) fn number(word: &[u8], least: u64, most: u64) -> Option<u64>
    requires { most ≤ 4294967295 }
    ensures value { result ≡ number_in least most word.now }
    ensures small { IfSome result (λ n. n ≤ most) }
{
    if word.is_empty() || word.len() > MAX_DIGITS {
        return None;
    }
    let mut value = 0;
    for byte in word {
        if !byte.is_ascii_digit() || value > MAX_NUMBER {
            return None;
        }
        value = value * 10 + u64::from(*byte - b'0');
    }
    if least <= value && value <= most {
        Some(value)
    } else {
        None
    }
}

/// A payload type.
pub(crate) fn payload_type(word: &[u8]) -> Option<u8>
    ensures { result ≡ type_in word.now }
{
    match number(word, 0, 127) {
        Some(pt) => Some(pt as u8),
        None => None,
    }
}

/// A payload type with nothing but spaces behind it.
pub(crate) fn spaced_type(text: &[u8]) -> Option<u8>
    ensures { result ≡ spaced_type_in text.now }
{
    let (word, rest) = front(b' ', text);
    if is_spaces(rest) {
        payload_type(word)
    } else {
        None
    }
}
