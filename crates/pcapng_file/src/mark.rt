//! What the blocks so far said.
ghost use Rattle.std.specs.Prelude.{◌≡◌, ◌<◌, ◌≤◌, ◌*◌, ◌^◌, IfOk, IfSome, slice_get, length};
ghost use Rattle.pcapng_file.specs.Blocks.{start as at_start};
ghost use Rattle.pcapng_file.specs.Reading.{CanFollow, Counts};

use crate::content::Content;
use crate::fault::NgFault;
use crate::frame::Frame;
use crate::interface::{Interface, MAX_INTERFACES};
use crate::packet::NgRecord;
use pcap_file::{MAX_RECORDS, Order};
use rtp_units::OutOfMemory;
use std::alloc::Global;
use std::marker::Model;

/// The most blocks of a file.
const MAX_BLOCKS: u64 = 200_000_000;

/// What the blocks before a place said.
#[derive(Drop)]
pub(crate) struct Mark {
    // The byte order of the section, and its interfaces.
    order: Order,
    interfaces: Vec<Interface>,
    // The stamp of the packet record before, or 0.
    stamp: u64,
    // How many blocks there were, and how many packet records.
    blocks: u64,
    records: u64,
    // Where the next block begins in the file.
    offset: u64,
}

impl Model for Mark {
    ghost use Rattle.std.specs.Prelude.{◌<◌, ◌≤◌, ◌*◌, ◌^◌, All, length};
    ghost use Rattle.pcapng_file.specs.Blocks.{Mark as MarkValue};

    ghost Value = { MarkValue };

    ghost view = { λ m. record {
      order = m.order;
      interfaces = m.interfaces.items;
      stamp = m.stamp;
      blocks = m.blocks;
      records = m.records;
      offset = m.offset;
    } };

    ghost invariant = { λ m. (length m.interfaces.items ≤ 1024) × (m.stamp < 2 ^ 32 * 1000000000)
        × (m.blocks ≤ 200000000) × (m.records ≤ 100000000) × (m.offset ≤ 2 ^ 32 * m.blocks)
        × All (λ i. 0 < i.units) m.interfaces.items };
}

impl Mark {
    /// Before the first block. It makes room for all the interfaces that a section may have.
    pub fn start(alloc: Global) -> Result<Mark, OutOfMemory>
        ensures { IfOk result (λ mark. mark ≡ at_start) }
    {
        Ok(Mark {
            order: Order::Little,
            interfaces: Vec::with_capacity(alloc, MAX_INTERFACES)?,
            stamp: 0,
            blocks: 0,
            records: 0,
            offset: 0,
        })
    }

    pub fn order(&self) -> Order
        ensures { result ≡ self.now.order }
    {
        self.order
    }

    pub fn stamp(&self) -> u64
        ensures value { result ≡ self.now.stamp }
        ensures early { result < 2 ^ 32 * 1000000000 }
    {
        self.stamp
    }

    pub fn blocks(&self) -> u64
        ensures value { result ≡ self.now.blocks }
        ensures bound { result ≤ 200000000 }
    {
        self.blocks
    }

    pub fn offset(&self) -> u64
        ensures { result ≡ self.now.offset }
    {
        self.offset
    }

    pub fn count_interfaces(&self) -> usize
        ensures { result ≡ length self.now.interfaces }
    {
        self.interfaces.len()
    }

    /// The interface with this number.
    pub fn interface(&self, number: u32) -> Option<Interface>
        ensures value { result ≡ slice_get self.now.interfaces number }
        ensures some { IfSome result (λ i. 0 < i.units) }
    {
        self.interfaces.get(number as usize).copied()
    }

    /// Counts a block of this content, and takes what it says. It gives the record, if the block
    /// has one.
    pub fn count(&mut self, frame: Frame, content: Content) -> Result<Option<NgRecord>, NgFault>
        requires { CanFollow self.old content }
        ensures { Counts result self.old self.new frame content }
    {
        if self.blocks >= MAX_BLOCKS {
            return Err(NgFault::TooMany(self.offset));
        }
        let found = match content {
            Content::Section => {
                self.order = frame.order;
                self.interfaces.clear();
                None
            }
            Content::Interface(interface) => {
                if self.interfaces.push(interface).is_err() {
                    return Err(NgFault::OutOfMemory);
                }
                None
            }
            Content::Packet(record) => {
                if self.records >= MAX_RECORDS {
                    return Err(NgFault::TooMany(self.offset));
                }
                self.records += 1;
                self.stamp = record.rec.stamp;
                Some(record)
            }
            Content::Other => None,
        };
        self.blocks += 1;
        self.offset += u64::from(frame.total);
        Ok(found)
    }
}
