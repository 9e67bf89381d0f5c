//! The payload types of a section, by its lines.
ghost use Rattle.std.specs.Prelude.{◌≡◌, IfOk, filter_map};
ghost use Rattle.sdp_profile.specs.Formats.{as_mapping, mapping_of, as_apt, apt_of};
ghost use Rattle.sdp_profile.specs.Formats.{static_rate as rate_of_static, format_in, formats_in};
ghost use Rattle.sdp_profile.specs.Formats.{has_media as media_test};
ghost use Rattle.sdp_profile.specs.Formats.{knows_original as original_test};
ghost use Rattle.sdp_profile.specs.Formats.{fault_of_format as format_fault};
ghost use Rattle.sdp_profile.specs.Formats.{fault_of_formats as formats_fault, as_pt, as_rtx};

use crate::attribute::{Attribute, Placed};
use crate::fault::{Fault, SdpCause, sooner};
use rtp_units::{OutOfMemory, RtxLine};
use script_lang::PtLine;
use std::alloc::Global;

/// The encoding of a payload type, and its clock rate where that is 1 to 1000000.
#[derive(Clone, Copy, Debug, PartialEq, Eq, Drop)]
pub(crate) struct Mapping {
    pub line: u32,
    pub is_rtx: bool,
    pub rate: Option<u32>,
}

/// A payload type, the line that maps it, its clock rate where that is 1 to 1000000, and whether it
/// is for retransmissions, of this original type.
#[derive(Clone, Copy, Debug, PartialEq, Eq, Drop)]
pub(crate) struct Format {
    pub line: u32,
    pub pt: u8,
    pub rate: Option<u32>,
    pub is_rtx: bool,
    pub apt: Option<u8>,
}

/// The payload types that the lines map, and the static ones.
#[tactic(auto, unfolding(crate::specs::Formats::formats_in))]
pub(crate) fn formats(
    alloc: Global,
    lines: &[Placed],
    types: &[u8],
) -> Result<Vec<Format>, OutOfMemory>
    ensures { IfOk result (λ formats. formats.items ≡ formats_in lines.now types.now) }
{
    let mut formats = Vec::new(alloc);
    for pt in types {
        if let Some(format) = Format::of_type(lines, *pt) {
            formats.push(format)?;
        }
    }
    Ok(formats)
}

impl Format {
    fn of_type(lines: &[Placed], pt: u8) -> Option<Format>
        ensures { result ≡ format_in lines.now pt }
    {
        if let Some(mapping) = first_mapping(lines, pt) {
            return Some(Format {
                line: mapping.line,
                pt,
                rate: mapping.rate,
                is_rtx: mapping.is_rtx,
                apt: first_apt(lines, pt),
            });
        }
        match static_rate(pt) {
            Some(rate) => Some(Format {
                line: 0,
                pt,
                rate: Some(rate),
                is_rtx: false,
                apt: None,
            }),
            None => None,
        }
    }

    fn fault(&self, formats: &[Format]) -> Option<Fault>
        ensures { result ≡ format_fault formats.now self.now }
    {
        if self.rate.is_none() {
            return Some(Fault {
                line: self.line,
                cause: SdpCause::Number,
            });
        }
        if self.is_rtx && !knows_original(formats, self.apt) {
            return Some(Fault {
                line: self.line,
                cause: SdpCause::Apt,
            });
        }
        None
    }

    /// Its line, where it isn't for retransmissions.
    pub fn pt_line(&self, session: u8) -> Option<PtLine>
        ensures { result ≡ as_pt session self.now }
    {
        match (self.is_rtx, self.rate) {
            (false, Some(rate)) => Some(PtLine {
                session,
                pt: self.pt,
                rate,
            }),
            _ => None,
        }
    }

    /// Its line, where it is.
    pub fn rtx_line(&self, session: u8) -> Option<RtxLine>
        ensures { result ≡ as_rtx session self.now }
    {
        match (self.is_rtx, self.apt) {
            (true, Some(apt)) => Some(RtxLine {
                session,
                pt: self.pt,
                osession: session,
                apt,
            }),
            _ => None,
        }
    }
}

// The first mapping of a payload type.
fn first_mapping(lines: &[Placed], pt: u8) -> Option<Mapping>
    ensures { result ≡ mapping_of lines.now pt }
{
    for placed in lines {
        if let Some(mapping) = mapping_in(placed, pt) {
            return Some(mapping);
        }
    }
    None
}

fn mapping_in(placed: &Placed, wanted: u8) -> Option<Mapping>
    ensures { result ≡ as_mapping wanted placed.now }
{
    match placed.attribute {
        Attribute::Map { pt, is_rtx, rate } if pt == wanted => Some(Mapping {
            line: placed.line,
            is_rtx,
            rate,
        }),
        _ => None,
    }
}

// The original type of a payload type, by the first line that speaks of it.
fn first_apt(lines: &[Placed], pt: u8) -> Option<u8>
    ensures { result ≡ apt_of lines.now pt }
{
    for placed in lines {
        if let Some(apt) = apt_in(placed, pt) {
            return apt;
        }
    }
    None
}

fn apt_in(placed: &Placed, wanted: u8) -> Option<Option<u8>>
    ensures { result ≡ as_apt wanted placed.now }
{
    match placed.attribute {
        Attribute::Apt { pt, apt } if pt == wanted => Some(apt),
        _ => None,
    }
}

// RFC 3551, section 6: PCMU, GSM, PCMA, G722, MPA, JPEG, H261, MPV, MP2T, H263.
fn static_rate(pt: u8) -> Option<u32>
    ensures { result ≡ rate_of_static pt }
{
    match pt {
        0 | 3 | 8 | 9 => Some(8000),
        14 | 26 | 31 | 32 | 33 | 34 => Some(90000),
        _ => None,
    }
}

fn has_media(formats: &[Format], pt: u8) -> bool
    ensures { result ≡ media_test formats.now pt }
{
    formats
        .iter()
        .any(|format| format.pt == pt && !format.is_rtx)
}

fn knows_original(formats: &[Format], apt: Option<u8>) -> bool
    ensures { result ≡ original_test formats.now apt }
{
    match apt {
        Some(apt) => has_media(formats, apt),
        None => false,
    }
}

/// The first line that has something against a payload type.
pub(crate) fn fault_of_formats(formats: &[Format]) -> Option<Fault>
    ensures { result ≡ formats_fault formats.now }
{
    let mut fault = None;
    for format in formats {
        fault = sooner(fault, format.fault(formats));
    }
    fault
}
