//! The words that are numbers.
ghost use Rattle.std.specs.Prelude.{◌≡◌, ◌≤◌, IfSome};
ghost use Rattle.rtpbin_cli.specs.Numbers.{number_in};

/// The most digits of a number.
const MAX_DIGITS: usize = 20;

/// The greatest number of any range.
const MAX_NUMBER: u64 = 4_294_967_295;

/// The decimal number of a word, where it is in this range.
#[tactic(auto, unfolding(crate::specs::Numbers::number_in))]
pub fn number(word: &[u8], least: u64, most: u64) -> Option<u64>
    requires { most ≤ 4294967295 }
    ensures value { result ≡ number_in least most word.now }
    ensures small { IfSome result (λ n. n ≤ most) }
{
    if word.is_empty() || word.len() > MAX_DIGITS {
        return None;
    }
    let mut value = 0;
    for byte in word {
        if !byte.is_ascii_digit() || value > MAX_NUMBER {
            return None;
        }
        value = value * 10 + u64::from(*byte - b'0');
    }
    if least <= value && value <= most {
        Some(value)
    } else {
        None
    }
}
