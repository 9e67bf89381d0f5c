//! What a section's lines say of its ports, and its lines that are no statements.
ghost use Rattle.std.specs.Prelude.{◌≡◌, IfOk, map};
ghost use Rattle.sdp_profile.specs.Attributes.{placed_of};
ghost use Rattle.sdp_profile.specs.Sections.{is_mux as mux_test, is_muxed as muxed_test, rtcp_in};
ghost use Rattle.sdp_profile.specs.Sections.{rtcp_port as port_for_rtcp};
ghost use Rattle.sdp_profile.specs.Sections.{fault_of_lines as lines_fault};
ghost use Rattle.sdp_profile.specs.Sections.{fault_of_port as port_fault};
ghost use Rattle.sdp_profile.specs.Reading.{lines_in, placed_in};

use crate::attribute::{Attribute, Placed};
use crate::fault::{Fault, SdpCause};
use crate::lines::TextLine;
use std::alloc::{AllocError, Global};

/// What the lines say.
pub(crate) fn placed(alloc: Global, lines: &[TextLine<'_>]) -> Result<Vec<Placed>, AllocError>
    ensures { IfOk result (λ placed. placed.items ≡ map placed_of (lines_in lines.now)) }
{
    let placed = each_placed(alloc, lines)?;
    Ok(placed)
}

fn each_placed(alloc: Global, lines: &[TextLine<'_>]) -> Result<Vec<Placed>, AllocError>
    ensures { IfOk result (λ placed. placed.items ≡ map placed_in lines.now) }
{
    lines.iter().map(|line| placed_line(line)).collect(alloc)
}

fn placed_line(line: &TextLine<'_>) -> Placed
    ensures { result ≡ placed_in line.now }
{
    Placed {
        line: line.number,
        attribute: Attribute::of_line(line.text),
    }
}

/// The port for RTCP of a section with this port.
pub(crate) fn rtcp_port(lines: &[Placed], port: u16) -> u32
    ensures { result ≡ port_for_rtcp lines.now port }
{
    if is_muxed(lines) {
        return u32::from(port);
    }
    match first_rtcp(lines) {
        Some((_, named)) => named,
        None => u32::from(port) + 1,
    }
}

fn is_muxed(lines: &[Placed]) -> bool
    ensures { result ≡ muxed_test lines.now }
{
    lines.iter().any(|placed| is_mux(&placed.attribute))
}

fn is_mux(attribute: &Attribute) -> bool
    ensures { result ≡ mux_test attribute.now }
{
    match attribute {
        Attribute::Mux => true,
        _ => false,
    }
}

// The first line that names a port for RTCP, and the port.
fn first_rtcp(lines: &[Placed]) -> Option<(u32, u32)>
    ensures { result ≡ rtcp_in lines.now }
{
    for placed in lines {
        if let Attribute::Rtcp(port) = placed.attribute {
            return Some((placed.line, port));
        }
    }
    None
}

/// The line that names the port for RTCP, where that isn't 1 to 65535.
pub(crate) fn fault_of_port(lines: &[Placed]) -> Option<Fault>
    ensures { result ≡ port_fault (rtcp_in lines.now) }
{
    match first_rtcp(lines) {
        Some((line, port)) => {
            if 1 <= port && port <= 65535 {
                None
            } else {
                Some(Fault {
                    line,
                    cause: SdpCause::Number,
                })
            }
        }
        None => None,
    }
}

/// The first line that is no statement.
pub(crate) fn fault_of_lines(lines: &[Placed]) -> Option<Fault>
    ensures { result ≡ lines_fault lines.now }
{
    for placed in lines {
        if let Attribute::Malformed = placed.attribute {
            return Some(Fault {
                line: placed.line,
                cause: SdpCause::Line,
            });
        }
    }
    None
}
