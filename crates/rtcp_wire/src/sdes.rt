//! The body of an SDES.
ghost use Rattle.std.specs.Prelude.{◌≡◌, ◌<◌, ◌≤◌, ◌-◌, length, IfOk, IfSome, option_map};
ghost use Rattle.rtcp_wire.specs.Bodies.{sdes_of};
ghost use Rattle.rtcp_wire.specs.Sdes.{items_at, chunk_at, chunks_at, gap as gap_of};
ghost use Rattle.rtcp_wire.specs.Steps.{IsStep};

use crate::items::Items;
use crate::packet::{Chunk, Rtcp, SdesItem};
use rtp_units::{Blob, OutOfMemory};
use rtp_wire::u32_at;
use std::alloc::Global;

pub(crate) fn read_sdes(alloc: Global, count: u8, body: &[u8]) -> Result<Option<Rtcp>, OutOfMemory>
    ensures { IfOk result (λ packet. packet ≡ sdes_of count body.now) }
{
    match read_chunks(alloc, count, body)? {
        Some(chunks) => Ok(Some(Rtcp::Sdes { chunks })),
        None => Ok(None),
    }
}

fn read_chunks(alloc: Global, count: u8, body: &[u8]) -> Result<Option<Items<Chunk>>, OutOfMemory>
    ensures { IfOk result (λ chunks. chunks ≡ chunks_at count body.now) }
{
    let mut chunks = Items::new(alloc);
    let mut rest = body;
    for _ in 0..count {
        match read_chunk(alloc, rest)? {
            None => return Ok(None),
            Some((chunk, behind)) => {
                chunks.push(chunk)?;
                rest = behind;
            }
        }
    }
    Ok(Some(chunks))
}

/// The chunk that these bytes begin with, and the bytes behind it.
#[tactic(auto, unfolding(crate::specs::Sdes::chunk_at))]
fn read_chunk(alloc: Global, bytes: &[u8]) -> Result<Option<(Chunk, &[u8])>, OutOfMemory>
    ensures { IfOk result (λ found. option_map (λ x. (x.0, x.1.now)) found ≡ chunk_at bytes.now) }
{
    if bytes.len() < 4 {
        return Ok(None);
    }
    let (front, behind) = bytes.split_at(4);
    match read_items(alloc, bytes.len(), behind)? {
        None => Ok(None),
        Some((items, rest)) => {
            let gap = gap(bytes.len() - rest.len());
            if rest.len() < gap {
                return Ok(None);
            }
            let ssrc = u32_at(front, 0);
            Ok(Some((Chunk { ssrc, items }, rest.split_at(gap).1)))
        }
    }
}

/// How many bytes lead from a place to the next multiple of 4.
pub(crate) fn gap(size: usize) -> usize
    ensures value { result ≡ gap_of size }
    ensures small { result ≤ 3 }
{
    (4 - size % 4) % 4
}

/// The items up to the zero byte that ends them, and the bytes behind it. An item has a byte at least, so
/// as many steps as bytes serve.
fn read_items(
    alloc: Global,
    steps: usize,
    bytes: &[u8],
) -> Result<Option<(Items<SdesItem>, &[u8])>, OutOfMemory>
    ensures value { IfOk result
        (λ found. option_map (λ x. (x.0, x.1.now)) found ≡ items_at steps bytes.now) }
    ensures shorter { IfOk result (λ found. IfSome found (λ x. length x.1.now < length bytes.now)) }
{
    let mut items = Items::new(alloc);
    let mut rest = bytes;
    for _ in 0..steps {
        match read_item(alloc, rest)? {
            Step::Bad => return Ok(None),
            Step::End(behind) => return Ok(Some((items, behind))),
            Step::Item(item, behind) => {
                items.push(item)?;
                rest = behind;
            }
        }
    }
    Ok(None)
}

#[derive(Drop)]
enum Step<'a> {
    /// No item, and no zero byte that ends the items.
    Bad,
    /// The zero byte; these bytes follow.
    End(&'a [u8]),
    /// An item; these bytes follow.
    Item(SdesItem, &'a [u8]),
}

fn read_item(alloc: Global, bytes: &[u8]) -> Result<Step<'_>, OutOfMemory>
    ensures { IfOk result (IsStep bytes.now) }
{
    match bytes {
        [] => Ok(Step::Bad),
        [0, behind @ ..] => Ok(Step::End(behind)),
        [_] => Ok(Step::Bad),
        [kind, len, rest @ ..] => {
            let len = usize::from(*len);
            if rest.len() < len {
                return Ok(Step::Bad);
            }
            let (text, behind) = rest.split_at(len);
            let text = Blob::copy_of(alloc, text)?;
            Ok(Step::Item(SdesItem { kind: *kind, text }, behind))
        }
    }
}
