//! The maps of a table, by their entries in order.
ghost use Rattle.std.specs.Prelude.{◌≡◌, ◌↔◌, ◌<◌, ◌^◌, nat_eq, not, map, filter, filter_map, length, slice_get, IsSome, IsTrue, IfOk, OnErr, OnOk, Some, None};
ghost use Rattle.std.specs.Map.{lookup};
ghost use Rattle.std.specs.List.{list_any};
ghost use Rattle.indexmap.specs.IndexMap.{insert_entry};
ghost use Rattle.source_table.specs.Ranges.{IsSourceOf, AreSourcesOf};
ghost use Rattle.source_table.specs.Table.{HearsIn, HearsKept, HearsNew};
ghost use Rattle.source_table.specs.Sources.{is_gone, block_of, reported};

use crate::answers::Refuse;
use crate::source::{Heard, Packet, Source};
use indexmap::IndexMap;
use rtcp_wire::ReportBlock;
use rtp_units::{Address, Blob, OutOfMemory};
use std::alloc::Global;

/// The most sources of a table.
pub(crate) const MAX_SOURCES: usize = 64;

/// Hears a packet that came from this address: of the kept source, or of a new one where there is room.
pub(crate) fn hear_source(
    sources: &mut IndexMap<u32, Source>,
    ssrc: u32,
    from: &Address,
    packet: &Packet,
) -> Result<Heard, Refuse>
    requires { AreSourcesOf (2 ^ 40) sources.old.entries }
    ensures { HearsIn sources.old.entries from.now ssrc packet.now result sources.new.entries }
{
    match sources.get_mut(&ssrc) {
        Some(source) => hear_kept(source, from, packet),
        None => hear_new(sources, ssrc, from, packet),
    }
}

/// Hears a packet of a kept source. One from another address changes nothing.
fn hear_kept(source: &mut Source, from: &Address, packet: &Packet) -> Result<Heard, Refuse>
    requires { IsSourceOf (2 ^ 40) source.old }
    ensures { HearsKept source.old from.now packet.now result source.new }
{
    if !same_address(&source.from, from) {
        return Err(Refuse::Collision {
            kept: source.from,
            new: *from,
        });
    }
    Ok(source.hear(packet))
}

/// Hears the first packet of a source.
fn hear_new(
    sources: &mut IndexMap<u32, Source>,
    ssrc: u32,
    from: &Address,
    packet: &Packet,
) -> Result<Heard, Refuse>
    requires { lookup (nat_eq ssrc) sources.old.entries ≡ None }
    ensures { HearsNew sources.old.entries from.now ssrc packet.now result sources.new.entries }
{
    if sources.len() >= MAX_SOURCES {
        return Err(Refuse::LimitSources);
    }
    let mut source = Source::new(*from);
    let heard = source.hear(packet);
    match sources.insert(ssrc, source) {
        Ok(_) => Ok(heard),
        Err(_) => Err(Refuse::OutOfMemory),
    }
}

fn same_address(a: &Address, b: &Address) -> bool
    ensures { IsTrue result ↔ (a.now ≡ b.now) }
{
    *a == *b
}

/// Gives a source that is there its new state, which takes no memory.
pub(crate) fn replace(sources: &mut IndexMap<u32, Source>, ssrc: u32, source: Source)
    requires { IsSome (lookup (nat_eq ssrc) sources.old.entries) }
    ensures { sources.new.entries ≡ insert_entry nat_eq sources.old.entries ssrc source }
{
    match sources.insert(ssrc, source) {
        Ok(_) => {}
        Err(_) => unreachable!(),
    }
}

pub(crate) fn has_name(names: &IndexMap<u32, Blob>, ssrc: u32, text: &[u8]) -> bool
    ensures { IsTrue result ↔ (lookup (nat_eq ssrc) names.now.entries ≡ Some text.now) }
{
    match names.get(&ssrc) {
        None => false,
        Some(name) => name.bytes() == text,
    }
}

pub(crate) fn put_name(
    names: &mut IndexMap<u32, Blob>,
    ssrc: u32,
    name: Blob,
) -> Result<(), OutOfMemory>
    ensures ok { OnOk result (names.new.entries ≡ insert_entry nat_eq names.old.entries ssrc name) }
    ensures err { OnErr result (names.new.entries ≡ names.old.entries) }
{
    names.insert(ssrc, name)?;
    Ok(())
}

/// The SSRCs of sources that are to be removed, in order.
pub(crate) fn gone_of(
    alloc: Global,
    sources: &IndexMap<u32, Source>,
    now: u64,
    timeout: u64,
) -> Result<Vec<u32>, OutOfMemory>
    ensures { IfOk result (λ ssrcs. ssrcs.items
        ≡ map (λ e. e.0) (filter (λ e. is_gone e.1 now timeout) sources.now.entries)) }
{
    let mut ssrcs = Vec::new(alloc);
    for i in 0..sources.len() {
        let (ssrc, source) = entry_at(sources, i);
        if source.is_gone(now, timeout) {
            ssrcs.push(ssrc)?;
        }
    }
    Ok(ssrcs)
}

fn entry_at(sources: &IndexMap<u32, Source>, i: usize) -> (u32, Source)
    requires { i < length sources.now.entries }
    ensures { slice_get sources.now.entries i ≡ Some result }
{
    match sources.get_index(i) {
        Some((ssrc, source)) => (*ssrc, *source),
        None => unreachable!(),
    }
}

pub(crate) fn keep_sources(sources: &mut IndexMap<u32, Source>, now: u64, timeout: u64)
    ensures { sources.new.entries
        ≡ filter (λ e. not (is_gone e.1 now timeout)) sources.old.entries }
{
    sources.retain(|_ssrc, source| !source.is_gone(now, timeout));
}

pub(crate) fn keep_names(names: &mut IndexMap<u32, Blob>, gone: &[u32])
    ensures { names.new.entries ≡ filter
        (λ e. not (list_any (nat_eq e.0) gone.now)) names.old.entries }
{
    names.retain(|ssrc, _name| !gone.contains(ssrc));
}

/// The blocks of all sources that have one, in order.
pub(crate) fn blocks_of(
    alloc: Global,
    sources: &IndexMap<u32, Source>,
    now: u64,
) -> Result<Vec<ReportBlock>, OutOfMemory>
    requires { AreSourcesOf (2 ^ 40) sources.now.entries }
    ensures { IfOk result (λ blocks. blocks.items
        ≡ filter_map (λ e. block_of e.1 e.0 now) sources.now.entries) }
{
    let mut blocks = Vec::new(alloc);
    for i in 0..sources.len() {
        let (ssrc, source) = entry_at(sources, i);
        if let Some(block) = source.block(ssrc, now) {
            blocks.push(block)?;
        }
    }
    Ok(blocks)
}

/// Begins a new interval of each source that had a block.
pub(crate) fn begin_intervals(sources: &mut IndexMap<u32, Source>)
    requires { AreSourcesOf (2 ^ 40) sources.old.entries }
    ensures { sources.new.entries ≡ map (λ e. (e.0, reported e.1)) sources.old.entries }
{
    sources.retain(|_ssrc, source| {
        *source = source.after_block();
        true
    });
}
