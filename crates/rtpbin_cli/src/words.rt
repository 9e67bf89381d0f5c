//! The words of a command line.
ghost use Rattle.std.specs.Prelude.{◌≡◌, option_map, string_bytes, IfSome};
ghost use Rattle.rtpbin_cli.specs.Numbers.{number_in};
ghost use Rattle.rtpbin_cli.specs.Words.{texts, form_of, form_view, replay_of, depay_of};
ghost use Rattle.rtpbin_cli.specs.Words.{three_of, four_of, sdp_of, rtxsend_of};
ghost use Rattle.rtpbin_cli.specs.Words.{gen_of, may_be_read, IsSmall};
ghost use Rattle.rtpbin_cli.specs.Words.{format_named as format_of, units_of};

use crate::numbers::number;
use replay_command::{Format, Style};

/// What is done with a capture by a script.
#[derive(Clone, Copy)]
pub enum Way {
    /// It is replayed, and this is written for the log.
    Play(Style),
    /// The retransmissions that its NACKs ask for are written.
    Answer,
}

/// What a command line asks for.
#[derive(Clone, Copy)]
pub enum Asked<'a> {
    /// A capture is read by a script.
    Scripted {
        way: Way,
        capture: &'a str,
        script: &'a str,
    },
    /// A capture is replayed by a session description and a text with settings and timed lines.
    Described {
        capture: &'a str,
        sdp: &'a str,
        times: &'a str,
    },
    /// A line for each record.
    Dump {
        capture: &'a str,
    },
    /// The replay of `count` generated packets, the first of which has the number `first`.
    Gen {
        first: u16,
        count: u32,
    },
}

/// What these words ask for, where they have a form: `replay [-x] CAPTURE SCRIPT`, `dump CAPTURE`,
/// `rtxsend CAPTURE SCRIPT`, `gen NUMBER COUNT`, `sdp CAPTURE SDP TIMES` or
/// `depay FORMAT PT CAPTURE SCRIPT`. The count of words decides, and at most one of the names is
/// standard input.
pub fn asked_by(words: &[String]) -> Option<Asked<'_>>
    ensures form { option_map form_view result ≡ form_of (texts words.now) }
    ensures small { IfSome result IsSmall }
{
    match words {
        [command, capture] => {
            if command.as_str() == "dump" {
                let capture = capture.as_str();
                Some(Asked::Dump { capture })
            } else {
                None
            }
        }
        [command, second, third] => of_three(command, second, third),
        [command, second, third, fourth] => of_four(command, second, third, fourth),
        [command, format, pt, capture, script] => depay(command, format, pt, capture, script),
        _ => None,
    }
}

fn of_three<'a>(command: &String, second: &'a String, third: &'a String) -> Option<Asked<'a>>
    ensures small { IfSome result IsSmall }
    ensures form { option_map form_view result ≡ three_of (string_bytes command.now)
        (string_bytes second.now) (string_bytes third.now) }
{
    if command.as_str() == "rtxsend" {
        rtxsend(second, third)
    } else if command.as_str() == "gen" {
        generate(second.as_str(), third.as_str())
    } else {
        replay(command, false, second, third)
    }
}

fn of_four<'a>(
    command: &String,
    second: &'a String,
    third: &'a String,
    fourth: &'a String,
) -> Option<Asked<'a>>
    ensures small { IfSome result IsSmall }
    ensures form { option_map form_view result ≡ four_of (string_bytes command.now)
        (string_bytes second.now) (string_bytes third.now) (string_bytes fourth.now) }
{
    if command.as_str() == "sdp" {
        described(second.as_str(), third.as_str(), fourth.as_str())
    } else if second.as_str() == "-x" {
        replay(command, true, third, fourth)
    } else {
        None
    }
}

fn described<'a>(capture: &'a str, sdp: &'a str, times: &'a str) -> Option<Asked<'a>>
    ensures small { IfSome result IsSmall }
    ensures form { option_map form_view result ≡ sdp_of capture.now sdp.now times.now }
{
    if may_both_be_read(capture, sdp)
        && may_both_be_read(capture, times)
        && may_both_be_read(sdp, times)
    {
        Some(Asked::Described {
            capture,
            sdp,
            times,
        })
    } else {
        None
    }
}

// Not both names are standard input.
fn may_both_be_read(name: &str, other: &str) -> bool
    ensures { result ≡ may_be_read name.now other.now }
{
    !(name == "-" && other == "-")
}

fn rtxsend<'a>(capture: &'a String, script: &'a String) -> Option<Asked<'a>>
    ensures small { IfSome result IsSmall }
    ensures form { option_map form_view result
        ≡ rtxsend_of (string_bytes capture.now) (string_bytes script.now) }
{
    let capture = capture.as_str();
    let script = script.as_str();
    if !(capture == "-" && script == "-") {
        Some(Asked::Scripted {
            way: Way::Answer,
            capture,
            script,
        })
    } else {
        None
    }
}

// The number of the first packet, and how many there are.
fn generate<'a>(first: &str, count: &str) -> Option<Asked<'a>>
    ensures small { IfSome result IsSmall }
    ensures form { option_map form_view result ≡ gen_of first.now count.now }
{
    match (
        number(first.as_bytes(), 0, 65_535),
        number(count.as_bytes(), 1, 1_000_000),
    ) {
        (Some(first), Some(count)) => Some(Asked::Gen {
            first: first as u16,
            count: count as u32,
        }),
        _ => None,
    }
}

fn replay<'a>(
    command: &String,
    hex: bool,
    capture: &'a String,
    script: &'a String,
) -> Option<Asked<'a>>
    ensures small { IfSome result IsSmall }
    ensures form { option_map form_view result ≡ replay_of (string_bytes command.now) hex
        (string_bytes capture.now) (string_bytes script.now) }
{
    let capture = capture.as_str();
    let script = script.as_str();
    if command.as_str() == "replay" && !(capture == "-" && script == "-") {
        Some(Asked::Scripted {
            way: Way::Play(Style::Log { hex }),
            capture,
            script,
        })
    } else {
        None
    }
}

fn depay<'a>(
    command: &String,
    format: &String,
    pt: &String,
    capture: &'a String,
    script: &'a String,
) -> Option<Asked<'a>>
    ensures small { IfSome result IsSmall }
    ensures form { option_map form_view result ≡ depay_of (string_bytes command.now)
        (string_bytes format.now) (string_bytes pt.now)
        (string_bytes capture.now) (string_bytes script.now) }
{
    let capture = capture.as_str();
    let script = script.as_str();
    if command.as_str() == "depay" && !(capture == "-" && script == "-") {
        match units(format.as_str(), pt.as_str()) {
            Some(style) => Some(Asked::Scripted {
                way: Way::Play(style),
                capture,
                script,
            }),
            None => None,
        }
    } else {
        None
    }
}

// The media units of a format by its name, and of a payload type.
fn units(format: &str, pt: &str) -> Option<Style>
    ensures { result ≡ units_of (format_of format.now) (number_in 0 127 pt.now) }
{
    let format = match format_named(format) {
        Some(format) => format,
        None => return None,
    };
    match number(pt.as_bytes(), 0, 127) {
        Some(pt) => Some(Style::Units {
            format,
            pt: pt as u8,
        }),
        None => None,
    }
}

fn format_named(word: &str) -> Option<Format>
    ensures { result ≡ format_of word.now }
{
    if word == "pcmu" {
        Some(Format::Pcmu)
    } else if word == "h264" {
        Some(Format::H264)
    } else {
        None
    }
}
