//! Clock rates of payload types.
ghost use Rattle.std.specs.Prelude.{◌≡◌, ◌==◌, Some, find, option_copied};
ghost use Rattle.rtp_scan.specs.Clocks.{clock_of as clock_in, nearest_rate as rate_near, rate_by};
ghost use Rattle.rtp_scan.specs.Clocks.{IsNearest, static_types, ticks_of as ticks_in, nanoseconds_of};
ghost use Rattle.rtp_scan.specs.Report.{codec_text};

use crate::stream::Stream;
use std::fmt;

/// A codec of RFC 3551 with a static payload type.
#[derive(Clone, Copy, Debug, PartialEq, Eq, Drop)]
pub enum Codec {
    Pcmu,
    Gsm,
    G723,
    Dvi4,
    Lpc,
    Pcma,
    G722,
    L16,
    Qcelp,
    Cn,
    Mpa,
    G728,
    G729,
    CelB,
    Jpeg,
    Nv,
    H261,
    Mpv,
    Mp2t,
    H263,
    /// Of a dynamic type, whose rate is a guess.
    Guessed,
}

/// A clock rate in ticks a second, and of what.
#[derive(Clone, Copy, Debug, PartialEq, Eq, Drop)]
pub struct Clock {
    pub rate: u32,
    pub codec: Codec,
}

/// A payload type that RFC 3551 gives a meaning, its clock rate and its codec.
type StaticType = (u8, u32, Codec);

/// A second, in nanoseconds.
const SECOND: u64 = 1_000_000_000;

/// The rate where no time passed in which ticks could be counted.
const RATE_AT_ONCE: u32 = 90_000;

// The static types of RFC 3551, section 6.
const STATIC_TYPES: [StaticType; 24] = [
    (0, 8000, Codec::Pcmu),
    (3, 8000, Codec::Gsm),
    (4, 8000, Codec::G723),
    (5, 8000, Codec::Dvi4),
    (6, 16000, Codec::Dvi4),
    (7, 8000, Codec::Lpc),
    (8, 8000, Codec::Pcma),
    (9, 8000, Codec::G722),
    (10, 44100, Codec::L16),
    (11, 44100, Codec::L16),
    (12, 8000, Codec::Qcelp),
    (13, 8000, Codec::Cn),
    (14, 90000, Codec::Mpa),
    (15, 8000, Codec::G728),
    (16, 11025, Codec::Dvi4),
    (17, 22050, Codec::Dvi4),
    (18, 8000, Codec::G729),
    (25, 90000, Codec::CelB),
    (26, 90000, Codec::Jpeg),
    (28, 90000, Codec::Nv),
    (31, 90000, Codec::H261),
    (32, 90000, Codec::Mpv),
    (33, 90000, Codec::Mp2t),
    (34, 90000, Codec::H263),
];

/// The clock of a stream: that of its first packet's type, or else the nearest of the usual rates
/// to what its timestamps and times say.
#[tactic(auto, unfolding(crate::specs::Clocks::clock_of))]
pub fn clock_of(stream: &Stream) -> Clock
    ensures { result ≡ clock_in stream.now }
{
    match static_type(stream.first.pt) {
        Some((_, rate, codec)) => Clock { rate, codec },
        None => Clock {
            rate: guessed_rate(stream),
            codec: Codec::Guessed,
        },
    }
}

fn static_type(pt: u8) -> Option<StaticType>
    ensures { result ≡ find (λ t. t.0 == pt) static_types }
{
    type_in(&STATIC_TYPES, pt).copied()
}

fn type_in(types: &[StaticType], pt: u8) -> Option<&StaticType>
    ensures { option_copied result ≡ find (λ t. t.0 == pt) types.now }
{
    types.iter().find(|known| known.0 == pt)
}

fn guessed_rate(stream: &Stream) -> u32
    ensures { result ≡ rate_by (ticks_in stream.now) (nanoseconds_of stream.now) }
{
    let ticks = ticks_of(stream);
    let passed = stream.latest.time.saturating_sub(stream.first.time);
    if passed == 0 {
        RATE_AT_ONCE
    } else {
        nearest_rate(u64::from(ticks) * SECOND / passed)
    }
}

// From the first packet to the latest one.
fn ticks_of(stream: &Stream) -> u32
    ensures { result ≡ ticks_in stream.now }
{
    stream.latest.timestamp.wrapping_sub(stream.first.timestamp)
}

// The rate of dynamic types that is nearest to so many ticks a second.
fn nearest_rate(measured: u64) -> u32
    ensures value { result ≡ rate_near measured }
    ensures nearest { IsNearest measured result }
{
    match measured {
        0..12_000 => 8000,
        12_000..24_000 => 16_000,
        24_000..38_050 => 32_000,
        38_050..46_050 => 44_100,
        46_050..69_000 => 48_000,
        _ => 90_000,
    }
}

impl fmt::Display for Codec {
    ghost output = { λ codec. Some (codec_text codec) };

    fn fmt<W: fmt::Write>(&self, f: &mut fmt::Formatter<W>) -> fmt::Result {
        match self {
            Codec::Pcmu => write!(f, "PCMU"),
            Codec::Gsm => write!(f, "GSM"),
            Codec::G723 => write!(f, "G723"),
            Codec::Dvi4 => write!(f, "DVI4"),
            Codec::Lpc => write!(f, "LPC"),
            Codec::Pcma => write!(f, "PCMA"),
            Codec::G722 => write!(f, "G722"),
            Codec::L16 => write!(f, "L16"),
            Codec::Qcelp => write!(f, "QCELP"),
            Codec::Cn => write!(f, "CN"),
            Codec::Mpa => write!(f, "MPA"),
            Codec::G728 => write!(f, "G728"),
            Codec::G729 => write!(f, "G729"),
            Codec::CelB => write!(f, "CelB"),
            Codec::Jpeg => write!(f, "JPEG"),
            Codec::Nv => write!(f, "nv"),
            Codec::H261 => write!(f, "H261"),
            Codec::Mpv => write!(f, "MPV"),
            Codec::Mp2t => write!(f, "MP2T"),
            Codec::H263 => write!(f, "H263"),
            Codec::Guessed => write!(f, "guessed"),
        }
    }
}
