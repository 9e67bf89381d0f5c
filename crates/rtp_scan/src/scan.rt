//! The scan: what is found in what came so far.
ghost use Rattle.std.specs.Prelude.{◌≡◌, ◌<◌, ◌≤◌, ◌+◌, ◌-◌, ◌^◌, ◌||◌, ◌∷◌, [], List, nat_eq};
ghost use Rattle.std.specs.Prelude.{nat_lt, slice_get};
ghost use Rattle.std.specs.Prelude.{is_some, length, filter, map, IfOk, OnOk};
ghost use Rattle.std.specs.Map.{lookup};
ghost use Rattle.std.specs.List.{list_any};
ghost use Rattle.indexmap.specs.IndexMap.{insert_entry};
ghost use Rattle.rtp_scan.specs.Streams.{Found, found_in, is_key, key_of, has_place};
ghost use Rattle.rtp_scan.specs.Streams.{streams_in, is_stream};
ghost use Rattle.rtp_scan.specs.Steps.{with_arrival, with_sight};
ghost use Rattle.rtp_scan.specs.declared.sight.Sight.{Sight as SightIn};

use crate::sight::{Arrival, Sight};
use crate::stream::Stream;
use indexmap::{IndexMap, IndexSet};
use rtp_units::OutOfMemory;
use std::alloc::Global;
use std::marker::Model;

/// The most pairs of port and SSRC that are looked at.
pub const MAX_STREAMS: usize = 1024;

/// A destination port and an SSRC.
type Key = (u16, u32);

/// What is found in the records so far.
#[derive(Drop)]
pub struct Scan {
    streams: IndexMap<Key, Stream>,
    ports: IndexSet<u16>,
    left_out: u64,
}

impl Model for Scan {
    ghost use Rattle.rtp_scan.specs.Streams.{Found};

    ghost Value = { Found };

    ghost view = { λ s. record {
      streams = s.streams.entries;
      ports = s.ports.keys;
      left_out = s.left_out;
    } };
}

impl Scan {
    /// Before any record.
    pub fn new(alloc: Global) -> Result<Scan, OutOfMemory>
        ensures { IfOk result (λ scan. scan ≡ found_in []) }
    {
        Ok(Scan {
            streams: IndexMap::with_capacity(alloc, 0)?,
            ports: IndexSet::with_capacity(alloc, 0)?,
            left_out: 0,
        })
    }

    #[tactic(auto, using(crate::proofs::Standing::found_next))]
    /// Notes what the next record brings. Packets of a new pair of port and SSRC are left out, and
    /// counted, where there are `MAX_STREAMS` pairs.
    pub fn note(&mut self, sight: Sight) -> Result<(), OutOfMemory>
        requires { self.old.left_out < 2 ^ 64 - 1 }
        ensures few { OnOk result (self.new.left_out ≤ self.old.left_out + 1) }
        ensures next { OnOk result (self.new ≡ with_sight self.old sight) }
        ensures stands { (before : List SightIn) → self.old ≡ found_in before
            → OnOk result (self.new ≡ found_in (sight ∷ before)) }
    {
        match sight {
            Sight::Rtp(arrival) => self.note_arrival(arrival),
            Sight::Compound(port) => {
                self.ports.insert(port)?;
                Ok(())
            }
            Sight::Nothing => Ok(()),
        }
    }

    /// How many packets were left out.
    pub fn left_out(&self) -> u64
        ensures { result ≡ self.now.left_out }
    {
        self.left_out
    }

    fn note_arrival(&mut self, arrival: Arrival) -> Result<(), OutOfMemory>
        requires { self.old.left_out < 2 ^ 64 - 1 }
        ensures few { OnOk result (self.new.left_out ≤ self.old.left_out + 1) }
        ensures next { OnOk result (self.new ≡ with_arrival self.old arrival) }
    {
        let key = (arrival.port, arrival.ssrc);
        let known = stream_at(&self.streams, key);
        if known.is_none() && self.streams.len() >= MAX_STREAMS {
            self.left_out += 1;
            return Ok(());
        }
        put(&mut self.streams, key, Stream::next(known, arrival))
    }

    /// A compound came to this port.
    pub(crate) fn has_compounds(&self, port: u16) -> bool
        ensures { result ≡ list_any (nat_eq port) self.now.ports }
    {
        self.ports.contains(&port)
    }

    /// The streams in order of first sight.
    pub(crate) fn streams(&self, alloc: Global) -> Result<Vec<Stream>, OutOfMemory>
        ensures { IfOk result (λ streams. streams.items ≡ streams_in self.now) }
    {
        streams_of(alloc, &self.streams)
    }
}

fn stream_at(streams: &IndexMap<Key, Stream>, key: Key) -> Option<Stream>
    ensures { result ≡ lookup (is_key key) streams.now.entries }
{
    match streams.get(&key) {
        None => None,
        Some(stream) => Some(*stream),
    }
}

fn put(streams: &mut IndexMap<Key, Stream>, key: Key, stream: Stream) -> Result<(), OutOfMemory>
    ensures { OnOk result (streams.new.entries
        ≡ insert_entry is_key streams.old.entries key stream) }
{
    streams.insert(key, stream)?;
    Ok(())
}

fn streams_of(alloc: Global, pairs: &IndexMap<Key, Stream>) -> Result<Vec<Stream>, OutOfMemory>
    ensures { IfOk result (λ streams. streams.items
        ≡ filter is_stream (map (λ e. e.1) pairs.now.entries)) }
{
    let mut streams = Vec::new(alloc);
    for i in 0..pairs.len() {
        let stream = pair_at(pairs, i);
        if stream.is_stream() {
            streams.push(stream)?;
        }
    }
    Ok(streams)
}

fn pair_at(pairs: &IndexMap<Key, Stream>, i: usize) -> Stream
    requires { i < length pairs.now.entries }
    ensures { slice_get (map (λ e. e.1) pairs.now.entries) i ≡ Some result }
{
    match pairs.get_index(i) {
        Some((_key, stream)) => *stream,
        None => unreachable!(),
    }
}
