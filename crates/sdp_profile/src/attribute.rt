//! What a line behind an `m=` line says.
ghost use Rattle.std.specs.Prelude.{◌≡◌};
ghost use Rattle.sdp_profile.specs.Text.{first_of, front as front_of};
ghost use Rattle.sdp_profile.specs.Numbers.{number_in};
ghost use Rattle.sdp_profile.specs.Attributes.{is_statement as statement_test, rtcp_of};
ghost use Rattle.sdp_profile.specs.Attributes.{is_rtx_name as rtx_test, map_named, map_of, apt_in};
ghost use Rattle.sdp_profile.specs.Attributes.{parameters_of, format_of, pair_of, pair_of_numbers};
ghost use Rattle.sdp_profile.specs.Attributes.{attribute_of, attribute_in};

use crate::numbers::{number, payload_type, spaced_type};
use crate::text::{behind, cut, front, has, spells, without_spaces};

/// What a line says. Payload types are 0 to 127.
#[derive(Clone, Copy, Debug, PartialEq, Eq, Drop)]
pub(crate) enum Attribute {
    /// RTP and RTCP share a port.
    Mux,
    /// The port for RTCP, up to 65536; 0 stands for any other word.
    Rtcp(u32),
    /// The encoding and the clock rate of a payload type. The rate is missing where it isn't 1 to
    /// 1000000.
    Map {
        pt: u8,
        is_rtx: bool,
        rate: Option<u32>,
    },
    /// The original type of a retransmission type. It is missing where the word is no payload type.
    Apt {
        pt: u8,
        apt: Option<u8>,
    },
    /// An original and a retransmission SSRC.
    Pair {
        ssrc: u32,
        rtx_ssrc: u32,
    },
    /// Two words, of which one is no SSRC.
    BadPair,
    /// Something that this profile passes over.
    Other,
    /// No statement at all.
    Malformed,
}

/// What the line of this number says.
#[derive(Clone, Copy, Debug, PartialEq, Eq, Drop)]
pub(crate) struct Placed {
    pub line: u32,
    pub attribute: Attribute,
}

impl Attribute {
    /// What a line says.
    #[tactic(auto, unfolding(crate::specs::Attributes::attribute_of))]
    pub fn of_line(text: &[u8]) -> Attribute
        ensures { result ≡ attribute_of text.now }
    {
        if is_statement(text) {
            Attribute::of_statement(text)
        } else {
            Attribute::Malformed
        }
    }

    fn of_statement(text: &[u8]) -> Attribute
        ensures { result ≡ attribute_in text.now }
    {
        if spells(text, "a=rtcp-mux") {
            Attribute::Mux
        } else if let Some(value) = behind("a=rtcp:", text) {
            rtcp(value)
        } else if let Some(value) = behind("a=rtpmap:", text) {
            mapping(value)
        } else if let Some(value) = behind("a=fmtp:", text) {
            parameters(value)
        } else if let Some(value) = behind("a=ssrc-group:FID ", text) {
            pair(value)
        } else {
            Attribute::Other
        }
    }
}

// A lower-case letter and `=`.
fn is_statement(text: &[u8]) -> bool
    ensures { result ≡ statement_test text.now }
{
    match text {
        [letter, equals, ..] => b'a' <= *letter && *letter <= b'z' && *equals == b'=',
        _ => false,
    }
}

fn rtcp(value: &[u8]) -> Attribute
    ensures { result ≡ rtcp_of value.now }
{
    let (word, _) = front(b' ', value);
    match number(word, 0, 65536) {
        Some(port) => Attribute::Rtcp(port as u32),
        None => Attribute::Rtcp(0),
    }
}

// TYPE NAME/RATE, and maybe more behind another `/`.
fn mapping(value: &[u8]) -> Attribute
    ensures { result ≡ map_of value.now }
{
    let Some((word, encoding)) = cut(b' ', value) else {
        return Attribute::Other;
    };
    let Some(pt) = payload_type(word) else {
        return Attribute::Other;
    };
    match cut(b'/', encoding) {
        Some((name, rate)) => named_mapping(pt, name, rate),
        None => Attribute::Other,
    }
}

fn named_mapping(pt: u8, name: &[u8], rate: &[u8]) -> Attribute
    ensures { result ≡ map_named pt name.now rate.now }
{
    if has(b' ', name) {
        Attribute::Other
    } else {
        Attribute::Map {
            pt,
            is_rtx: is_rtx_name(name),
            rate: clock_rate(rate),
        }
    }
}

// The rate up to a `/`, where it is in its range.
fn clock_rate(text: &[u8]) -> Option<u32>
    ensures { result ≡ number_in 1 1000000 (front_of 47 text.now) }
{
    let (word, _) = front(b'/', text);
    match number(word, 1, 1_000_000) {
        Some(rate) => Some(rate as u32),
        None => None,
    }
}

// `rtx` in any case (RFC 4588, section 8.1).
fn is_rtx_name(name: &[u8]) -> bool
    ensures { result ≡ rtx_test name.now }
{
    match name {
        [r, t, x] => {
            r.eq_ignore_ascii_case(&b'r')
                && t.eq_ignore_ascii_case(&b't')
                && x.eq_ignore_ascii_case(&b'x')
        }
        _ => false,
    }
}

// TYPE PARAMETERS, where a parameter names the original type (RFC 4588, section 8.1).
fn parameters(value: &[u8]) -> Attribute
    ensures { result ≡ format_of value.now }
{
    let Some((word, parameters)) = cut(b' ', value) else {
        return Attribute::Other;
    };
    let Some(pt) = payload_type(word) else {
        return Attribute::Other;
    };
    match first_apt(parameters) {
        Some(apt) => Attribute::Apt { pt, apt },
        None => Attribute::Other,
    }
}

fn first_apt(parameters: &[u8]) -> Option<Option<u8>>
    ensures { result ≡ first_of apt_in (parameters_of parameters.now) }
{
    let mut rest = parameters;
    while let Some((parameter, behind)) = cut(b';', rest) {
        if let Some(apt) = apt_of_parameter(parameter) {
            return Some(apt);
        }
        rest = behind;
    }
    apt_of_parameter(rest)
}

fn apt_of_parameter(parameter: &[u8]) -> Option<Option<u8>>
    ensures { result ≡ apt_in parameter.now }
{
    match behind("apt=", without_spaces(parameter)) {
        Some(text) => Some(spaced_type(text)),
        None => None,
    }
}

// Two SSRCs (RFC 5576, section 4.2), separated by one space.
fn pair(value: &[u8]) -> Attribute
    ensures { result ≡ pair_of value.now }
{
    let Some((first, second)) = cut(b' ', value) else {
        return Attribute::Other;
    };
    if has(b' ', second) {
        Attribute::Other
    } else {
        pair_of_ssrcs(ssrc(first), ssrc(second))
    }
}

fn pair_of_ssrcs(first: Option<u32>, second: Option<u32>) -> Attribute
    ensures { result ≡ pair_of_numbers first second }
{
    match (first, second) {
        (Some(ssrc), Some(rtx_ssrc)) => Attribute::Pair { ssrc, rtx_ssrc },
        _ => Attribute::BadPair,
    }
}

fn ssrc(word: &[u8]) -> Option<u32>
    ensures { result ≡ number_in 0 4294967295 word.now }
{
    match number(word, 0, 4_294_967_295) {
        Some(ssrc) => Some(ssrc as u32),
        None => None,
    }
}
