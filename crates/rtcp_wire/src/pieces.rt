//! Adding the pieces of bodies to bytes.
ghost use Rattle.std.specs.Prelude.{◌≡◌, ◌≤◌, ◌++◌, ◌∷◌, length, replicate, IfSome, OnOk};
ghost use Rattle.std.specs.List.{flat_map, AllByRecursion};
ghost use Rattle.std.specs.Int.{w64};
ghost use Rattle.byteorder.specs.Endian.{big_bytes, low_bytes};
ghost use Rattle.rtcp_wire.specs.Written.{numbers_bytes, block_bytes, item_bytes, items_bytes, chunk_bytes, closed, reason_bytes, entry_bytes, ItemFits, ChunkFits, AreSmall, BlockInRange, EntryInRange, ChunkInRange};

use crate::block::ReportBlock;
use crate::packet::{Chunk, Nack, SdesItem};
use crate::sdes::gap;
use byteorder::{BigEndian, ByteOrder};
use rtp_units::{Blob, OutOfMemory};
use rtp_wire::{push_u16, push_u32};

pub(crate) fn push_bytes(out: &mut Vec<u8>, bytes: &[u8]) -> Result<(), OutOfMemory>
    ensures { OnOk result (out.new.items ≡ out.old.items ++ bytes.now) }
{
    out.extend_from_slice(bytes)?;
    Ok(())
}

pub(crate) fn push_numbers(out: &mut Vec<u8>, numbers: &[u32]) -> Result<(), OutOfMemory>
    ensures bytes { OnOk result (out.new.items ≡ out.old.items ++ numbers_bytes numbers.now) }
    ensures range { OnOk result (AreSmall numbers.now) }
{
    for number in numbers {
        push_u32(out, *number)?;
    }
    Ok(())
}

pub(crate) fn push_blocks(out: &mut Vec<u8>, blocks: &[ReportBlock]) -> Result<(), OutOfMemory>
    ensures bytes { OnOk result (out.new.items ≡ out.old.items ++ flat_map block_bytes blocks.now) }
    ensures range { OnOk result (AllByRecursion BlockInRange blocks.now) }
{
    for block in blocks {
        push_block(out, block)?;
    }
    Ok(())
}

fn push_block(out: &mut Vec<u8>, block: &ReportBlock) -> Result<(), OutOfMemory>
    ensures bytes { OnOk result (out.new.items ≡ out.old.items ++ block_bytes block.now) }
    ensures range { OnOk result (BlockInRange block.now) }
{
    push_u32(out, block.ssrc)?;
    out.push(block.fraction)?;
    push_i24(out, block.lost)?;
    push_numbers(out, &[block.greatest, block.jitter, block.lsr, block.dlsr])
}

/// Adds the low 24 bits.
fn push_i24(out: &mut Vec<u8>, number: i32) -> Result<(), OutOfMemory>
    ensures { OnOk result (out.new.items ≡ out.old.items ++ big_bytes 3 (low_bytes w64 3 number)) }
{
    let mut bytes = [0; 3];
    BigEndian::write_i24(&mut bytes, number);
    push_bytes(out, &bytes)
}

pub(crate) fn push_entries(out: &mut Vec<u8>, entries: &[Nack]) -> Result<(), OutOfMemory>
    ensures bytes { OnOk result
        (out.new.items ≡ out.old.items ++ flat_map entry_bytes entries.now) }
    ensures range { OnOk result (AllByRecursion EntryInRange entries.now) }
{
    for entry in entries {
        push_entry(out, entry)?;
    }
    Ok(())
}

fn push_entry(out: &mut Vec<u8>, entry: &Nack) -> Result<(), OutOfMemory>
    ensures bytes { OnOk result (out.new.items ≡ out.old.items ++ entry_bytes entry.now) }
    ensures range { OnOk result (EntryInRange entry.now) }
{
    push_u16(out, entry.pid)?;
    push_u16(out, entry.blp)?;
    Ok(())
}

pub(crate) fn push_chunks(out: &mut Vec<u8>, chunks: &[Chunk]) -> Result<(), OutOfMemory>
    requires { AllByRecursion ChunkFits chunks.now }
    ensures bytes { OnOk result (out.new.items ≡ out.old.items ++ flat_map chunk_bytes chunks.now) }
    ensures range { OnOk result (AllByRecursion ChunkInRange chunks.now) }
{
    for chunk in chunks {
        push_chunk(out, chunk)?;
    }
    Ok(())
}

fn push_chunk(out: &mut Vec<u8>, chunk: &Chunk) -> Result<(), OutOfMemory>
    requires { ChunkFits chunk.now }
    ensures bytes { OnOk result (out.new.items ≡ out.old.items ++ chunk_bytes chunk.now) }
    ensures range { OnOk result (ChunkInRange chunk.now) }
{
    let before = out.len();
    push_u32(out, chunk.ssrc)?;
    push_items(out, chunk.items.as_slice())?;
    let size = out.len() - before;
    push_zeros(out, 4 - size % 4)
}

fn push_items(out: &mut Vec<u8>, items: &[SdesItem]) -> Result<(), OutOfMemory>
    requires { AllByRecursion ItemFits items.now }
    ensures { OnOk result (out.new.items ≡ out.old.items ++ items_bytes items.now) }
{
    for item in items {
        push_text(out, item.kind, &item.text)?;
    }
    Ok(())
}

fn push_text(out: &mut Vec<u8>, kind: u8, text: &Blob) -> Result<(), OutOfMemory>
    requires { length text.now ≤ 255 }
    ensures { OnOk result (out.new.items ≡ out.old.items ++ kind ∷ length text.now ∷ text.now) }
{
    let text = text.bytes();
    out.push(kind)?;
    out.push(text.len() as u8)?;
    push_bytes(out, text)
}

/// Adds at most four zero bytes.
fn push_zeros(out: &mut Vec<u8>, count: usize) -> Result<(), OutOfMemory>
    requires { count ≤ 4 }
    ensures { OnOk result (out.new.items ≡ out.old.items ++ replicate count 0) }
{
    push_bytes(out, &[0; 4][..count])
}

pub(crate) fn push_reason(out: &mut Vec<u8>, reason: &Option<Blob>) -> Result<(), OutOfMemory>
    requires { IfSome reason.now (λ text. length text ≤ 255) }
    ensures { OnOk result (out.new.items ≡ out.old.items ++ reason_bytes reason.now) }
{
    match reason {
        None => Ok(()),
        Some(text) => {
            let text = text.bytes();
            out.push(text.len() as u8)?;
            push_bytes(out, text)?;
            push_zeros(out, gap(1 + text.len()))
        }
    }
}
