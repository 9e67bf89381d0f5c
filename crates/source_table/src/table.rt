//! The table of a session.
ghost use Rattle.std.specs.Prelude.{◌≡◌, ◌<◌, ◌≤◌, ◌^◌, ℕ, List, [], nat_eq, length, is_some, IfOk, OnOk, OnErr, option_map};
ghost use Rattle.source_table.specs.Answers.{IsAnswer};
ghost use Rattle.source_table.specs.History.{Call, Rtp, Reports, Leaves, Sets, Block, Blocks, Expires, StandsFor, Extends, alone, told_name};
ghost use Rattle.source_table.specs.Sources.{report_next, left_next, reported};
ghost use Rattle.source_table.specs.Table.{Table, empty, kept, name_of, packet_of, changed, needed, Hears, Names, gone, expired, block_in, blocks, all_reported};
ghost use Rattle.rtcp_wire.specs.Written.{LossFits};
ghost use Rattle.std.specs.List.{AllByRecursion};

use crate::answers::{Named, Refuse};
use crate::maps::{
    MAX_SOURCES, begin_intervals, blocks_of, gone_of, has_name, hear_source, keep_names,
    keep_sources, put_name, replace,
};
use crate::source::{Heard, Packet, Source};
use indexmap::IndexMap;
use rtcp_wire::ReportBlock;
use rtp_units::{Address, Blob, OutOfMemory};
use rtp_wire::RtpView;
use std::alloc::Global;
use std::marker::Model;

/// The sources of a session, in order of first sight.
#[derive(Drop)]
pub struct SourceTable {
    own: u32,
    probation: u8,
    heard: u64,
    sources: IndexMap<u32, Source>,
    names: IndexMap<u32, Blob>,
}

impl Model for SourceTable {
    ghost use Rattle.source_table.specs.Ranges.{AreInRange};
    ghost use Rattle.source_table.specs.Table.{Table};

    ghost Value = { Table };

    ghost view = { λ t. record {
      own = t.own;
      probation = t.probation;
      heard = t.heard;
      sources = t.sources.entries;
      names
          = t.names.entries;
    } };

    ghost invariant = { λ t. AreInRange t.heard t.sources.entries };
}

impl SourceTable {
    /// An empty table of a session with this SSRC. `probation` is how many consecutive packets make a
    /// source valid; 0 and 1 mean at once.
    pub fn new(alloc: Global, own: u32, probation: u8) -> Result<SourceTable, OutOfMemory>
        ensures empty { IfOk result (λ t. t ≡ empty own probation) }
        ensures stands { IfOk result (λ t. StandsFor t own probation []) }
    {
        Ok(SourceTable {
            own,
            probation,
            heard: 0,
            sources: IndexMap::with_capacity(alloc, MAX_SOURCES)?,
            names: IndexMap::with_capacity(alloc, 0)?,
        })
    }

    /// How often `hear_rtp` answered Ok.
    pub fn heard(&self) -> u64
        ensures { result ≡ self.now.heard }
    {
        self.heard
    }

    /// Hears a packet of RTP that came from this address at `now` nanoseconds. `rate` is the clock rate of
    /// its payload type, where one is known; with `quick` the source is valid at once.
    pub fn hear_rtp(
        &mut self,
        now: u64,
        from: Address,
        view: &RtpView<'_>,
        rate: Option<u32>,
        quick: bool,
    ) -> Result<Heard, Refuse>
        requires { self.old.heard < 2 ^ 40 }
        ensures answer { Hears self.old from view.now.ssrc
            (packet_of self.old now view.now rate quick) result self.new }
        ensures stands { IsAnswer result
            → Extends self.old (Rtp now from view.now rate quick result) self.new }
    {
        let ssrc = view.ssrc();
        if ssrc == self.own {
            return Err(Refuse::Own);
        }
        let packet = Packet {
            arrival: now,
            seq: view.seq(),
            timestamp: view.timestamp(),
            rate,
            needed: self.packets_needed(quick),
        };
        let heard = hear_source(&mut self.sources, ssrc, &from, &packet)?;
        self.heard += 1;
        Ok(heard)
    }

    /// How many consecutive packets make a source valid.
    fn packets_needed(&self, quick: bool) -> u8
        ensures { result ≡ needed self.now quick }
    {
        if quick { 1 } else { self.probation.max(1) }
    }

    /// Hears a sender report with this NTP timestamp. False where the source is not kept.
    pub fn hear_sr(&mut self, now: u64, ssrc: u32, seconds: u32, fraction: u32) -> bool
        ensures value { result ≡ is_some (kept self.old ssrc) }
        ensures after { self.new ≡ changed self.old ssrc (λ s. report_next s now seconds fraction) }
        ensures stands { Extends self.old (Reports now ssrc seconds fraction) self.new }
    {
        match self.sources.get(&ssrc) {
            None => false,
            Some(source) => {
                let after = source.reported_by(now, seconds, fraction);
                replace(&mut self.sources, ssrc, after);
                true
            }
        }
    }

    /// Hears that a source leaves. False where the source is not kept.
    pub fn hear_bye(&mut self, ssrc: u32) -> bool
        ensures value { result ≡ is_some (kept self.old ssrc) }
        ensures after { self.new ≡ changed self.old ssrc left_next }
        ensures stands { Extends self.old (Leaves ssrc) self.new }
    {
        match self.sources.get(&ssrc) {
            None => false,
            Some(source) => {
                let after = Source {
                    left: true,
                    ..*source
                };
                replace(&mut self.sources, ssrc, after);
                true
            }
        }
    }

    /// The name of a source, where it is kept and has one.
    pub fn cname(&self, ssrc: u32) -> Option<&[u8]>
        ensures value { option_map (λ text. text.now) result ≡ name_of self.now ssrc }
        // It is what the calls on this source alone left, whatever came of others.
        ensures told { (own probation : ℕ) (calls : List Call)
            → StandsFor self.now own probation calls
            → option_map (λ text. text.now) result ≡ told_name (alone probation ssrc calls) }
    {
        match self.names.get(&ssrc) {
            None => None,
            Some(text) => Some(text.bytes()),
        }
    }

    /// What a report tells of a source that is valid and spoke since its last block. The next block begins
    /// a new interval.
    pub fn block(&mut self, ssrc: u32, now: u64) -> Option<ReportBlock>
        ensures value { result ≡ block_in (kept self.old ssrc) ssrc now }
        ensures after { self.new ≡ changed self.old ssrc reported }
        ensures stands { Extends self.old (Block ssrc now) self.new }
    {
        match self.sources.get(&ssrc) {
            None => None,
            Some(source) => {
                let block = source.block(ssrc, now);
                let after = source.after_block();
                replace(&mut self.sources, ssrc, after);
                block
            }
        }
    }

    /// The blocks of all sources that are valid and spoke since their last block, in table order. Their next
    /// blocks begin new intervals. After a refusal the table is as before.
    pub fn blocks(&mut self, alloc: Global, now: u64) -> Result<Vec<ReportBlock>, OutOfMemory>
        ensures ok { IfOk result (λ list. (list.items ≡ blocks self.old now)
            × (self.new ≡ all_reported self.old)) }
        ensures stands { OnOk result (Extends self.old (Blocks now) self.new) }
        // A report block has 24 bits for the loss.
        ensures fits { IfOk result (λ list. AllByRecursion LossFits list.items) }
        ensures err { OnErr result (self.new ≡ self.old) }
    {
        let blocks = blocks_of(alloc, &self.sources, now)?;
        begin_intervals(&mut self.sources);
        Ok(blocks)
    }

    /// Sets the name of a kept source, a text of at most 255 bytes. After a refusal the table is as before.
    pub fn set_cname(&mut self, alloc: Global, ssrc: u32, text: &[u8]) -> Result<Named, OutOfMemory>
        requires { length text.now ≤ 255 }
        ensures ok { IfOk result (λ named. Names self.old ssrc text.now named self.new) }
        ensures stands { IfOk result (λ named.
            Extends self.old (Sets ssrc text.now named) self.new) }
        ensures err { OnErr result (self.new ≡ self.old) }
    {
        if !self.sources.contains_key(&ssrc) {
            return Ok(Named::Unknown);
        }
        if has_name(&self.names, ssrc, text) {
            return Ok(Named::Same);
        }
        put_name(&mut self.names, ssrc, Blob::copy_of(alloc, text)?)?;
        Ok(Named::Changed)
    }

    /// Removes each source that said BYE, or whose last packet of RTP or sender report came more than
    /// `timeout` before `now`, and gives their SSRCs in table order. After a refusal the table is as before.
    pub fn expire(&mut self, alloc: Global, now: u64, timeout: u64) -> Result<Vec<u32>, OutOfMemory>
        ensures ok { IfOk result (λ ssrcs. (ssrcs.items ≡ gone self.old now timeout)
            × (self.new ≡ expired self.old now timeout)) }
        ensures stands { OnOk result (Extends self.old (Expires now timeout) self.new) }
        ensures err { OnErr result (self.new ≡ self.old) }
    {
        let ssrcs = gone_of(alloc, &self.sources, now, timeout)?;
        keep_sources(&mut self.sources, now, timeout);
        keep_names(&mut self.names, ssrcs.as_slice());
        Ok(ssrcs)
    }
}
