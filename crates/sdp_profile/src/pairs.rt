//! The pairs of an original and a retransmission SSRC.
ghost use Rattle.std.specs.Prelude.{◌≡◌, ◌++◌, [], IfOk, OnOk};
ghost use Rattle.std.specs.List.{cons_option};
ghost use Rattle.script_lang.specs.Tests.{has_ssrc as ssrc_test};
ghost use Rattle.sdp_profile.specs.Pairs.{as_fid, cause_of_fid as fid_cause};
ghost use Rattle.sdp_profile.specs.Pairs.{cause_of_pair as pair_cause};
ghost use Rattle.sdp_profile.specs.Reading.{AddsPairs};

use crate::attribute::{Attribute, Placed};
use crate::fault::{Fault, SdpCause};
use rtp_units::{Fid, OutOfMemory};

/// The most pairs of a script.
const MAX_FIDS: usize = 64;

/// Adds the pairs of a section's lines, up to the first line that has something against it.
pub(crate) fn add_pairs(
    fids: &mut Vec<Fid>,
    session: u8,
    lines: &[Placed],
) -> Result<Option<Fault>, OutOfMemory>
    ensures { IfOk result (λ fault.
        AddsPairs fault fids.old.items fids.new.items session lines.now) }
{
    for placed in lines {
        if let Some(cause) = cause_of_pair(fids, session, &placed.attribute) {
            return Ok(Some(Fault {
                line: placed.line,
                cause,
            }));
        }
        add_fid(fids, fid_in(session, &placed.attribute))?;
    }
    Ok(None)
}

fn add_fid(fids: &mut Vec<Fid>, fid: Option<Fid>) -> Result<(), OutOfMemory>
    ensures { OnOk result (fids.new.items ≡ fids.old.items ++ cons_option fid []) }
{
    if let Some(fid) = fid {
        fids.push(fid)?;
    }
    Ok(())
}

fn fid_in(session: u8, attribute: &Attribute) -> Option<Fid>
    ensures { result ≡ as_fid session attribute.now }
{
    match attribute {
        Attribute::Pair { ssrc, rtx_ssrc } => Some(Fid {
            session,
            ssrc: *ssrc,
            rtx_ssrc: *rtx_ssrc,
        }),
        _ => None,
    }
}

fn cause_of_pair(fids: &[Fid], session: u8, attribute: &Attribute) -> Option<SdpCause>
    ensures { result ≡ pair_cause fids.now session attribute.now }
{
    match attribute {
        Attribute::Pair { ssrc, rtx_ssrc } => cause_of_fid(
            fids,
            &Fid {
                session,
                ssrc: *ssrc,
                rtx_ssrc: *rtx_ssrc,
            },
        ),
        Attribute::BadPair => Some(SdpCause::Number),
        _ => None,
    }
}

fn cause_of_fid(fids: &[Fid], fid: &Fid) -> Option<SdpCause>
    ensures { result ≡ fid_cause fids.now fid.now }
{
    if fid.ssrc == fid.rtx_ssrc
        || has_ssrc(fids, fid.session, fid.ssrc)
        || has_ssrc(fids, fid.session, fid.rtx_ssrc)
    {
        Some(SdpCause::Ssrc)
    } else if fids.len() >= MAX_FIDS {
        Some(SdpCause::Many)
    } else {
        None
    }
}

// A session has an SSRC. There are at most 64 pairs.
fn has_ssrc(fids: &[Fid], session: u8, ssrc: u32) -> bool
    ensures { result ≡ ssrc_test fids.now session ssrc }
{
    fids.iter().any(|fid| fid.session == session && (fid.ssrc == ssrc || fid.rtx_ssrc == ssrc))
}
