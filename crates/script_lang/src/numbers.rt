//! The arguments that are numbers.
ghost use Rattle.std.specs.Prelude.{◌≡◌, ◌<◌, ◌≤◌, ◌^◌, ◌*◌, IfOk};
ghost use Rattle.script_lang.specs.Numbers.{number_in, time_in, ssrc_in};

use crate::fault::ScriptCause;

/// A millisecond in nanoseconds.
pub(crate) const MILLISECOND: u64 = 1_000_000;

/// The most digits of a number.
const MAX_DIGITS: usize = 20;

/// The greatest number of any range.
const MAX_NUMBER: u64 = 4_294_967_295;

/// The decimal number of a word, where it is in this range.
#[tactic(auto, unfolding(crate::specs::Numbers::number_in))]
pub(crate) fn number(word: &[u8], least: u64, most: u64) -> Result<u64, ScriptCause>
    requires { most ≤ 4294967295 }
    ensures value { result ≡ number_in least most word.now }
    ensures small { IfOk result (λ n. n ≤ most) }
{
    if word.is_empty() || word.len() > MAX_DIGITS {
        return Err(ScriptCause::Number);
    }
    let mut value = 0;
    for byte in word {
        if !byte.is_ascii_digit() || value > MAX_NUMBER {
            return Err(ScriptCause::Number);
        }
        value = value * 10 + u64::from(*byte - b'0');
    }
    if least <= value && value <= most {
        Ok(value)
    } else {
        Err(ScriptCause::Number)
    }
}

/// A time in milliseconds, where it is in this range of them, in nanoseconds.
#[tactic(auto, unfolding(crate::specs::Numbers::time_in))]
pub(crate) fn time(word: &[u8], least: u64, most: u64) -> Result<u64, ScriptCause>
    requires { most ≤ 4294967295 }
    ensures { result ≡ time_in least most word.now }
{
    Ok(number(word, least, most)? * MILLISECOND)
}

/// The SSRC that eight hexadecimal digits spell.
#[tactic(auto, unfolding(crate::specs::Numbers::ssrc_in))]
pub(crate) fn ssrc(word: &[u8]) -> Result<u32, ScriptCause>
    ensures { result ≡ ssrc_in word.now }
{
    if word.len() != 8 {
        return Err(ScriptCause::Ssrc);
    }
    let mut value: u32 = 0;
    for byte in word {
        match char::from(*byte).to_digit(16) {
            Some(digit) => value = value * 16 + digit,
            None => return Err(ScriptCause::Ssrc),
        }
    }
    Ok(value)
}
