//! A capture file of either form, read record by record.
ghost use Rattle.std.specs.Prelude.{◌≡◌, ◌<◌, ◌≤◌, ◌^◌, ◌-◌, IsTrue, None, IfSome, length};
ghost use Rattle.rtp_io.specs.Outside.{SameDisk};
ghost use Rattle.capture_file.specs.Faults.{HasFileCause, fault_of};
ghost use Rattle.capture_file.specs.Place.{kept_fault};
ghost use Rattle.capture_file.specs.Reading.{AfterOpen, AfterNext};

use crate::fault::FileFault;
use crate::record::CaptureRecord;
use pcap_file::{Opened, Pcap, open_any};
use pcapng_file::Ng;
use rtp_io::{Files, Pull};
use rtp_units::OutOfMemory;
use std::alloc::Global;

/// A capture file that is read record by record.
#[derive(Drop)]
pub enum CaptureFile {
    /// A capture in the pcap savefile format.
    Pcap(Pcap),
    /// A pcapng file.
    Ng(Ng),
}

impl CaptureFile {
    /// Begins the open file, which is a pcapng file where it has at least 24 bytes and begins with
    /// the type of a section header, 0a 0d 0d 0a, and a pcap capture otherwise. It takes the first
    /// 24 bytes, and looks at those of a pcap capture's file header.
    pub fn open<F: Files>(
        alloc: Global,
        files: &mut F,
        pull: &mut Pull,
    ) -> Result<CaptureFile, FileFault>
        requires countable { F.faults files.old < 2 ^ 64 - 1 }
        ensures same { SameDisk (F.disk files.old) (F.disk files.new) }
        ensures opened { IsTrue (F.disk files.old).told
            → (F.disk files.new).opened ≡ (F.disk files.old).opened }
        ensures bound { length pull.new ≤ 262160 }
        ensures after { AfterOpen result pull.old pull.new
            (F.disk files.old) (F.disk files.new) }
        ensures cause { HasFileCause (F.faults files.old) (F.faults files.new) result }
    {
        match open_any(files, pull) {
            Ok(Opened::Pcap(pcap)) => Ok(CaptureFile::Pcap(pcap)),
            Ok(Opened::Ng { head }) => match Ng::start(alloc, head) {
                Ok(ng) => Ok(CaptureFile::Ng(ng)),
                Err(OutOfMemory) => Err(FileFault::OutOfMemory),
            },
            Err(fault) => Err(FileFault::of_pcap(fault)),
        }
    }

    /// The next record, and `None` where the file ends behind a record, or behind a block of a
    /// pcapng file. A fault is kept and answered again by each later call.
    pub fn next<F: Files>(
        &mut self,
        alloc: Global,
        files: &mut F,
        pull: &mut Pull,
    ) -> Result<Option<CaptureRecord>, FileFault>
        requires countable { F.faults files.old < 2 ^ 64 - 1 }
        ensures same { SameDisk (F.disk files.old) (F.disk files.new) }
        ensures opened { IsTrue (F.disk files.old).told
            → (F.disk files.new).opened ≡ (F.disk files.old).opened }
        ensures bound { length pull.old ≤ 262160 → length pull.new ≤ 262160 }
        ensures after { kept_fault self.old ≡ None → AfterNext result self.old self.new
            pull.old pull.new (F.disk files.old) (F.disk files.new) }
        ensures cause { kept_fault self.old ≡ None
            → HasFileCause (F.faults files.old) (F.faults files.new) result }
        ensures keeps { kept_fault self.old ≡ None → kept_fault self.new ≡ fault_of result }
        ensures repeats { IfSome (kept_fault self.old) (λ fault. (result ≡ Err fault)
            × (self.new ≡ self.old) × (pull.new ≡ pull.old)
            × (F.disk files.new ≡ F.disk files.old) × (F.faults files.new ≡ F.faults files.old)) }
    {
        match self {
            CaptureFile::Pcap(pcap) => next_of_pcap(alloc, files, pull, pcap),
            CaptureFile::Ng(ng) => next_of_ng(alloc, files, pull, ng),
        }
    }
}

fn next_of_pcap<F: Files>(
    alloc: Global,
    files: &mut F,
    pull: &mut Pull,
    pcap: &mut Pcap,
) -> Result<Option<CaptureRecord>, FileFault>
    requires countable { F.faults files.old < 2 ^ 64 - 1 }
    ensures same { SameDisk (F.disk files.old) (F.disk files.new) }
    ensures opened { IsTrue (F.disk files.old).told
        → (F.disk files.new).opened ≡ (F.disk files.old).opened }
    ensures bound { length pull.old ≤ 262160 → length pull.new ≤ 262160 }
    ensures after { kept_fault (CaptureFile.Pcap pcap.old) ≡ None
        → AfterNext result (CaptureFile.Pcap pcap.old) (CaptureFile.Pcap pcap.new)
        pull.old pull.new (F.disk files.old) (F.disk files.new) }
    ensures cause { kept_fault (CaptureFile.Pcap pcap.old) ≡ None
        → HasFileCause (F.faults files.old) (F.faults files.new) result }
    ensures keeps { kept_fault (CaptureFile.Pcap pcap.old) ≡ None
        → kept_fault (CaptureFile.Pcap pcap.new) ≡ fault_of result }
    ensures repeats { IfSome (kept_fault (CaptureFile.Pcap pcap.old))
        (λ fault. (result ≡ Err fault) × (pcap.new ≡ pcap.old) × (pull.new ≡ pull.old)
        × (F.disk files.new ≡ F.disk files.old) × (F.faults files.new ≡ F.faults files.old)) }
{
    match pcap.next(alloc, files, pull) {
        Ok(Some(rec)) => Ok(Some(CaptureRecord {
            link: pcap.link(),
            rec,
        })),
        Ok(None) => Ok(None),
        Err(fault) => Err(FileFault::of_pcap(fault)),
    }
}

fn next_of_ng<F: Files>(
    alloc: Global,
    files: &mut F,
    pull: &mut Pull,
    ng: &mut Ng,
) -> Result<Option<CaptureRecord>, FileFault>
    requires countable { F.faults files.old < 2 ^ 64 - 1 }
    ensures same { SameDisk (F.disk files.old) (F.disk files.new) }
    ensures opened { IsTrue (F.disk files.old).told
        → (F.disk files.new).opened ≡ (F.disk files.old).opened }
    ensures bound { length pull.old ≤ 262160 → length pull.new ≤ 262160 }
    ensures after { kept_fault (CaptureFile.Ng ng.old) ≡ None
        → AfterNext result (CaptureFile.Ng ng.old) (CaptureFile.Ng ng.new)
        pull.old pull.new (F.disk files.old) (F.disk files.new) }
    ensures cause { kept_fault (CaptureFile.Ng ng.old) ≡ None
        → HasFileCause (F.faults files.old) (F.faults files.new) result }
    ensures keeps { kept_fault (CaptureFile.Ng ng.old) ≡ None
        → kept_fault (CaptureFile.Ng ng.new) ≡ fault_of result }
    ensures repeats { IfSome (kept_fault (CaptureFile.Ng ng.old))
        (λ fault. (result ≡ Err fault) × (ng.new ≡ ng.old) × (pull.new ≡ pull.old)
        × (F.disk files.new ≡ F.disk files.old) × (F.faults files.new ≡ F.faults files.old)) }
{
    match ng.next(alloc, files, pull) {
        Ok(Some(record)) => Ok(Some(CaptureRecord {
            link: record.link,
            rec: record.rec,
        })),
        Ok(None) => Ok(None),
        Err(fault) => Err(FileFault::of_ng(fault)),
    }
}
