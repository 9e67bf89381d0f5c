//! Which payload types and streams carry retransmissions.
ghost use Rattle.std.specs.Prelude.{◌≡◌, ◌≤◌, ◌<◌, find, IfOk, IfSome, option_map};
ghost use Rattle.rtx.specs.Pairs.{AreTypes, carries, repeats, original_of, retransmission_of};

use rtp_units::{Fid, OutOfMemory, RtxLine};
use std::alloc::Global;

/// The retransmission payload types of all sessions, and the pairs of streams that are known beforehand.
/// Where two entries fit, the first one counts.
#[derive(Debug, Drop)]
pub struct Map {
    pub lines: Vec<RtxLine>,
    pub fids: Vec<Fid>,
}

impl Map {
    pub(crate) fn copy(&self, alloc: Global) -> Result<Map, OutOfMemory>
        ensures lines { IfOk result (λ map. map.lines.items ≡ self.now.lines.items) }
        ensures fids { IfOk result (λ map. map.fids.items ≡ self.now.fids.items) }
    {
        Ok(Map {
            lines: Vec::from_slice(alloc, self.lines.as_slice())?,
            fids: Vec::from_slice(alloc, self.fids.as_slice())?,
        })
    }
}

/// The line that makes this payload type of this session one of retransmissions.
pub(crate) fn line_of(lines: &[RtxLine], session: u8, pt: u8) -> Option<RtxLine>
    requires { AreTypes lines.now }
    ensures value { result ≡ find (carries session pt) lines.now }
    ensures types { IfSome result (λ line. (line.pt < 128) × (line.apt < 128)) }
{
    lines
        .iter()
        .copied()
        .find(|line| line.session == session && line.pt == pt)
}

/// The line by which packets of this payload type of this session are retransmitted.
pub(crate) fn line_for(lines: &[RtxLine], session: u8, apt: u8) -> Option<RtxLine>
    requires { AreTypes lines.now }
    ensures value { result ≡ find (repeats session apt) lines.now }
    ensures types { IfSome result (λ line. (line.pt < 128) × (line.apt < 128)) }
{
    lines
        .iter()
        .copied()
        .find(|line| line.osession == session && line.apt == apt)
}

/// The stream of this session that is paired with a retransmission stream.
pub(crate) fn original_ssrc(fids: &[Fid], session: u8, rtx_ssrc: u32) -> Option<u32>
    ensures { result ≡ original_of fids.now session rtx_ssrc }
{
    fids.iter()
        .find(|fid| fid.session == session && fid.rtx_ssrc == rtx_ssrc)
        .map(|fid| fid.ssrc)
}

/// The retransmission stream of this session that is paired with a stream.
pub(crate) fn retransmission_ssrc(fids: &[Fid], session: u8, ssrc: u32) -> Option<u32>
    ensures { result ≡ retransmission_of fids.now session ssrc }
{
    fids.iter()
        .find(|fid| fid.session == session && fid.ssrc == ssrc)
        .map(|fid| fid.rtx_ssrc)
}
