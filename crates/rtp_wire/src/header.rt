//! The parts of a header whose lengths it tells itself.
ghost use Rattle.std.specs.Prelude.{◌≡◌, ◌+◌, ◌≤◌, length, true, option_map, IfSome};
ghost use Rattle.rtp_wire.specs.Packet.{AreWords, has_padding as padding_bit, has_extension as extension_bit, csrcs_end as end_of_csrcs, extension_end as end_of_extension, csrc_count};
ghost use Rattle.rtp_wire.specs.View.{csrcs_of as csrcs_in, extension_of as extension_in};

use crate::network::{u16_at, u32_at};
use arrayvec::ArrayVec;

/// Bytes of the header before the CSRCs.
pub(crate) const FIXED_SIZE: usize = 12;

/// Bytes that begin a header extension: 16 bits of the profile and a count of words.
pub(crate) const EXTENSION_HEAD: usize = 4;

/// The bit P of the first byte.
pub(crate) fn has_padding(bytes: &[u8]) -> bool
    requires { 12 ≤ length bytes.now }
    ensures { result ≡ padding_bit bytes.now }
{
    bytes[0] >> 5 & 1 == 1
}

/// The bit X of the first byte.
pub(crate) fn has_extension(bytes: &[u8]) -> bool
    requires { 12 ≤ length bytes.now }
    ensures { result ≡ extension_bit bytes.now }
{
    bytes[0] >> 4 & 1 == 1
}

/// The place behind the CSRCs, at most 72.
pub(crate) fn csrcs_end(bytes: &[u8]) -> usize
    requires { 12 ≤ length bytes.now }
    ensures value { result ≡ end_of_csrcs bytes.now }
    ensures small { result ≤ 72 }
{
    FIXED_SIZE + 4 * usize::from(bytes[0] & 0x0f)
}

/// The place behind an extension that begins at the end of the CSRCs.
pub(crate) fn extension_end(bytes: &[u8]) -> usize
    requires fixed { 12 ≤ length bytes.now }
    requires head { end_of_csrcs bytes.now + 4 ≤ length bytes.now }
    ensures { result ≡ end_of_extension bytes.now }
{
    let at = csrcs_end(bytes);
    at + EXTENSION_HEAD + 4 * usize::from(u16_at(bytes, at + 2))
}

/// The CSRCs of a packet that has them all.
pub(crate) fn csrcs_of(bytes: &[u8]) -> ArrayVec<u32, 15>
    requires fixed { 12 ≤ length bytes.now }
    requires whole { end_of_csrcs bytes.now ≤ length bytes.now }
    ensures { result.items ≡ csrcs_in bytes.now (csrc_count bytes.now) }
{
    let mut csrcs = ArrayVec::new();
    for k in 0..usize::from(bytes[0] & 0x0f) {
        csrcs.push(u32_at(bytes, FIXED_SIZE + 4 * k));
    }
    csrcs
}

/// The extension of a packet that has it all, if there is one.
pub(crate) fn extension_of(bytes: &[u8]) -> Option<(u16, &[u8])>
    requires fixed { 12 ≤ length bytes.now }
    requires whole { extension_bit bytes.now ≡ true
        → end_of_extension bytes.now ≤ length bytes.now }
    ensures value { option_map (λ x. (x.0, x.1.now)) result
        ≡ extension_in bytes.now (extension_bit bytes.now) (end_of_csrcs bytes.now) }
    ensures words { IfSome result (λ x. AreWords x.1.now) }
{
    if !has_extension(bytes) {
        return None;
    }
    let at = csrcs_end(bytes);
    let words = &bytes[at + EXTENSION_HEAD..extension_end(bytes)];
    Some((u16_at(bytes, at), words))
}
