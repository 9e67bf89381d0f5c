//! The records of a capture, one after the other.
ghost use Rattle.std.specs.Prelude.{◌≡◌, ◌<◌, ◌≤◌, ◌^◌, ◌-◌, IsTrue, None, IfSome, length};
ghost use Rattle.rtp_io.specs.Outside.{SameDisk};
ghost use Rattle.pcap_file.specs.Faults.{HasCaptureCause, fault_of};
ghost use Rattle.pcap_file.specs.Reading.{AfterOpen, AfterOpenAny, AfterNext};

use crate::fault::CaptureFault;
use crate::header::{Format, read_header};
use crate::record::{PcapRecord, read_record};
use rtp_io::{Files, Pull, PullFault};
use std::alloc::Global;
use std::marker::Model;

/// A capture that is read record by record. Contracts see what its file header said, how many records were
/// given, the offset behind them and the fault that was met, if one was.
#[derive(Drop)]
pub struct Pcap {
    format: Format,
    count: u64,
    offset: u64,
    fault: Option<CaptureFault>,
}

impl Model for Pcap {
    ghost use Rattle.std.specs.Prelude.{◌≤◌, ◌+◌, ◌*◌};
    ghost use Rattle.pcap_file.specs.Place.{Place};

    ghost Value = { Place };

    ghost view = { λ pcap. record
        { format = pcap.format; count = pcap.count; offset = pcap.offset; fault = pcap.fault } };

    ghost invariant = { λ pcap. (pcap.count ≤ 100000000)
        × (pcap.offset ≤ 24 + 262160 * pcap.count) };
}

/// Reads the file header of the open file.
pub fn open_capture<F: Files>(files: &mut F, pull: &mut Pull) -> Result<Pcap, CaptureFault>
    requires countable { F.faults files.old < 2 ^ 64 - 1 }
    ensures same { SameDisk (F.disk files.old) (F.disk files.new) }
    ensures opened { IsTrue (F.disk files.old).told
        → (F.disk files.new).opened ≡ (F.disk files.old).opened }
    ensures bound { length pull.new ≤ 262160 }
    ensures after { AfterOpen result pull.old pull.new (F.disk files.old) (F.disk files.new) }
    ensures cause { HasCaptureCause (F.faults files.old) (F.faults files.new) result }
{
    let header = match pull.need(files, 24) {
        Ok(bytes) => read_header(bytes),
        Err(PullFault::End { .. }) => return Err(CaptureFault::CutHeader),
        Err(PullFault::ReadFault) => return Err(CaptureFault::ReadFault),
    };
    match header {
        Ok(format) => Ok(Pcap {
            format,
            count: 0,
            offset: 24,
            fault: None,
        }),
        Err(fault) => Err(fault),
    }
}

/// A capture of either form.
#[derive(Drop)]
pub enum Opened {
    /// A capture in the pcap savefile format.
    Pcap(Pcap),
    /// A pcapng file, of whose first block these bytes were taken.
    Ng { head: [u8; 24] },
}

/// Reads the first 24 bytes of the open file: the file header of a pcap capture, or the beginning of a pcapng
/// file. Every other answer is that of `open_capture`.
pub fn open_any<F: Files>(files: &mut F, pull: &mut Pull) -> Result<Opened, CaptureFault>
    requires countable { F.faults files.old < 2 ^ 64 - 1 }
    ensures same { SameDisk (F.disk files.old) (F.disk files.new) }
    ensures opened { IsTrue (F.disk files.old).told
        → (F.disk files.new).opened ≡ (F.disk files.old).opened }
    ensures bound { length pull.new ≤ 262160 }
    ensures after { AfterOpenAny result pull.old pull.new (F.disk files.old) (F.disk files.new) }
    ensures cause { HasCaptureCause (F.faults files.old) (F.faults files.new) result }
{
    let head = match pull.need(files, 24) {
        Ok(bytes) => copied(bytes),
        Err(PullFault::End { .. }) => return Err(CaptureFault::CutHeader),
        Err(PullFault::ReadFault) => return Err(CaptureFault::ReadFault),
    };
    if head.starts_with(&[0x0a, 0x0d, 0x0d, 0x0a]) {
        return Ok(Opened::Ng { head });
    }
    match read_header(&head) {
        Ok(format) => Ok(Opened::Pcap(Pcap {
            format,
            count: 0,
            offset: 24,
            fault: None,
        })),
        Err(fault) => Err(fault),
    }
}

fn copied(bytes: &[u8]) -> [u8; 24]
    requires { length bytes.now ≡ 24 }
    ensures { result ≡ bytes.now }
{
    let mut head = [0; 24];
    head.copy_from_slice(bytes);
    head
}

impl Pcap {
    /// The next record, and `None` where the file ends at a record's border. A fault is kept and answered
    /// again by each later call.
    pub fn next<F: Files>(
        &mut self,
        alloc: Global,
        files: &mut F,
        pull: &mut Pull,
    ) -> Result<Option<PcapRecord>, CaptureFault>
        requires countable { F.faults files.old < 2 ^ 64 - 1 }
        ensures same { SameDisk (F.disk files.old) (F.disk files.new) }
        ensures opened { IsTrue (F.disk files.old).told
            → (F.disk files.new).opened ≡ (F.disk files.old).opened }
        ensures bound { self.old.fault ≡ None → length pull.new ≤ 262160 }
        ensures after { self.old.fault ≡ None
            → AfterNext result self.old self.new pull.old pull.new (F.disk files.old)
            (F.disk files.new) }
        ensures cause { self.old.fault ≡ None
            → HasCaptureCause (F.faults files.old) (F.faults files.new) result }
        ensures keeps { self.old.fault ≡ None → self.new.fault ≡ fault_of result }
        ensures format { self.new.format ≡ self.old.format }
        ensures repeats { IfSome self.old.fault
            (λ fault. (result ≡ Err fault) × (self.new ≡ self.old) × (pull.new ≡ pull.old)
            × (F.disk files.new ≡ F.disk files.old) × (F.faults files.new ≡ F.faults files.old)) }
    {
        if let Some(fault) = self.fault {
            return Err(fault);
        }
        match read_record(alloc, files, pull, self.format, self.count, self.offset) {
            Ok(None) => Ok(None),
            Ok(Some(record)) => {
                self.count += 1;
                self.offset += 16 + record.bytes.bytes().len() as u64;
                Ok(Some(record))
            }
            Err(fault) => {
                self.fault = Some(fault);
                Err(fault)
            }
        }
    }

    /// The link type of the frames.
    pub fn link(&self) -> u16
        ensures { result ≡ self.now.format.link }
    {
        self.format.link
    }
}
