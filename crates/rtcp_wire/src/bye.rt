//! The body of a BYE.
ghost use Rattle.std.specs.Prelude.{◌≡◌, ◌≤◌, ◌*◌, length, IfOk};
ghost use Rattle.rtcp_wire.specs.Bodies.{numbers_at, reason_at, bye_of};

use crate::items::Items;
use crate::packet::Rtcp;
use rtp_units::{Blob, OutOfMemory};
use rtp_wire::u32_at;
use std::alloc::Global;

pub(crate) fn read_bye(alloc: Global, count: u8, body: &[u8]) -> Result<Option<Rtcp>, OutOfMemory>
    ensures { IfOk result (λ packet. packet ≡ bye_of count body.now) }
{
    let end = 4 * usize::from(count);
    if body.len() < end {
        return Ok(None);
    }
    let behind = body.split_at(end).1;
    let ssrcs = read_sources(alloc, body, count)?;
    match read_reason(alloc, behind)? {
        Some(reason) => Ok(Some(Rtcp::Bye { ssrcs, reason })),
        None => Ok(None),
    }
}

fn read_sources(alloc: Global, body: &[u8], count: u8) -> Result<Items<u32>, OutOfMemory>
    requires { 4 * count ≤ length body.now }
    ensures { IfOk result (λ ssrcs. ssrcs ≡ numbers_at body.now count) }
{
    let mut ssrcs = Items::new(alloc);
    for k in 0..usize::from(count) {
        ssrcs.push(u32_at(body, 4 * k))?;
    }
    Ok(ssrcs)
}

fn read_reason(alloc: Global, bytes: &[u8]) -> Result<Option<Option<Blob>>, OutOfMemory>
    ensures { IfOk result (λ reason. reason ≡ reason_at bytes.now) }
{
    match bytes {
        [] => Ok(Some(None)),
        [len, rest @ ..] => {
            let len = usize::from(*len);
            if rest.len() < len {
                return Ok(None);
            }
            let text = rest.split_at(len).0;
            Ok(Some(Some(Blob::copy_of(alloc, text)?)))
        }
    }
}
