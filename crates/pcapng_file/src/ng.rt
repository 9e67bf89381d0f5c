//! The records of a pcapng file, one after the other.
ghost use Rattle.std.specs.Prelude.{◌≡◌, ◌<◌, ◌≤◌, ◌*◌, ◌^◌, ◌-◌, [], true, IsTrue, None, IfSome};
ghost use Rattle.std.specs.Prelude.{IfOk, length};
ghost use Rattle.rtp_io.specs.Outside.{SameDisk};
ghost use Rattle.pcapng_file.specs.Faults.{HasNgCause, fault_of};
ghost use Rattle.pcapng_file.specs.Blocks.{is_section};
ghost use Rattle.pcapng_file.specs.Reading.{StandsFor, AfterNext, AfterSearch, head_bytes};

use crate::block::{Step, read_behind, read_block};
use crate::fault::NgFault;
use crate::mark::Mark;
use crate::packet::NgRecord;
use rtp_io::{Files, Pull};
use rtp_units::OutOfMemory;
use std::alloc::Global;
use std::marker::Model;

/// A pcapng file that is read record by record. Contracts see what its blocks said so far, the
/// bytes that were taken of it and not yet looked at, and the fault that was met, if one was.
#[derive(Drop)]
pub struct Ng {
    mark: Mark,
    head: Option<[u8; 24]>,
    fault: Option<NgFault>,
}

impl Model for Ng {
    ghost use Rattle.std.specs.Prelude.{◌≡◌, true, IfSome};
    ghost use Rattle.pcapng_file.specs.Blocks.{is_section};
    ghost use Rattle.pcapng_file.specs.Reading.{Place, head_bytes};

    ghost Value = { Place };

    ghost view = { λ ng. record { mark = ng.mark; head = head_bytes ng.head; fault = ng.fault } };

    ghost invariant = { λ ng. IfSome ng.head (λ head. is_section head ≡ true) };
}

impl Ng {
    /// A file of which these first 24 bytes were taken. It makes room for 1,024 interfaces.
    pub fn start(alloc: Global, head: [u8; 24]) -> Result<Ng, OutOfMemory>
        requires { is_section head ≡ true }
        ensures stands { IfOk result (λ ng. StandsFor ng head []) }
        ensures interfaces { IfOk result (λ ng. ng.mark.interfaces ≡ []) }
        ensures records { IfOk result (λ ng. ng.mark.records ≡ 0) }
        ensures fault { IfOk result (λ ng. ng.fault ≡ None) }
    {
        Ok(Ng {
            mark: Mark::start(alloc)?,
            head: Some(head),
            fault: None,
        })
    }

    /// The next packet record, and `None` where the file ends at a block's border. A fault is kept
    /// and answered again by each later call.
    pub fn next<F: Files>(
        &mut self,
        alloc: Global,
        files: &mut F,
        pull: &mut Pull,
    ) -> Result<Option<NgRecord>, NgFault>
        requires countable { F.faults files.old < 2 ^ 64 - 1 }
        ensures same { SameDisk (F.disk files.old) (F.disk files.new) }
        ensures opened { IsTrue (F.disk files.old).told →
            (F.disk files.new).opened ≡ (F.disk files.old).opened }
        ensures bound { length pull.old ≤ 262160 → length pull.new ≤ 262160 }
        ensures after { self.old.fault ≡ None → AfterNext result self.old self.new pull.old pull.new
            (F.disk files.old) (F.disk files.new) }
        ensures cause { self.old.fault ≡ None → HasNgCause (F.faults files.old) (F.faults files.new)
            result }
        ensures keeps { self.old.fault ≡ None → self.new.fault ≡ fault_of result }
        ensures repeats { IfSome self.old.fault (λ fault. (result ≡ Err fault)
            × (self.new ≡ self.old) × (pull.new ≡ pull.old)
            × (F.disk files.new ≡ F.disk files.old) × (F.faults files.new ≡ F.faults files.old)) }
    {
        if let Some(fault) = self.fault {
            return Err(fault);
        }
        let head = self.head;
        self.head = None;
        match find_record(alloc, files, pull, &mut self.mark, head) {
            Ok(found) => Ok(found),
            Err(fault) => {
                self.fault = Some(fault);
                Err(fault)
            }
        }
    }
}

// Reads blocks up to the next one with a record. Of the first one these bytes were taken before.
fn find_record<F: Files>(
    alloc: Global,
    files: &mut F,
    pull: &mut Pull,
    mark: &mut Mark,
    head: Option<[u8; 24]>,
) -> Result<Option<NgRecord>, NgFault>
    requires head { IfSome head (λ head. is_section head ≡ true) }
    requires countable { F.faults files.old < 2 ^ 64 - 1 }
    ensures same { SameDisk (F.disk files.old) (F.disk files.new) }
    ensures opened { IsTrue (F.disk files.old).told →
        (F.disk files.new).opened ≡ (F.disk files.old).opened }
    ensures bound { length pull.old ≤ 262160 → length pull.new ≤ 262160 }
    ensures after { AfterSearch result mark.old mark.new (head_bytes head) pull.old pull.new
        (F.disk files.old) (F.disk files.new) }
    ensures cause { HasNgCause (F.faults files.old) (F.faults files.new) result }
    ensures short { IfOk result (λ found. IfSome found (λ r. length r.rec.bytes ≤ 262144)) }
    ensures early { IfOk result (λ found. IfSome found (λ r. r.rec.stamp < 2 ^ 32 * 1000000000)) }
{
    match head {
        None => search(alloc, files, pull, mark),
        Some(head) => match read_behind(alloc, files, pull, mark, &head) {
            Ok(Some(record)) => Ok(Some(record)),
            Ok(None) => search(alloc, files, pull, mark),
            Err(fault) => Err(fault),
        },
    }
}

fn search<F: Files>(
    alloc: Global,
    files: &mut F,
    pull: &mut Pull,
    mark: &mut Mark,
) -> Result<Option<NgRecord>, NgFault>
    requires countable { F.faults files.old < 2 ^ 64 - 1 }
    ensures same { SameDisk (F.disk files.old) (F.disk files.new) }
    ensures opened { IsTrue (F.disk files.old).told →
        (F.disk files.new).opened ≡ (F.disk files.old).opened }
    ensures bound { length pull.old ≤ 262160 → length pull.new ≤ 262160 }
    ensures after { AfterSearch result mark.old mark.new [] pull.old pull.new (F.disk files.old)
        (F.disk files.new) }
    ensures cause { HasNgCause (F.faults files.old) (F.faults files.new) result }
    ensures short { IfOk result (λ found. IfSome found (λ r. length r.rec.bytes ≤ 262144)) }
    ensures early { IfOk result (λ found. IfSome found (λ r. r.rec.stamp < 2 ^ 32 * 1000000000)) }
{
    loop {
        match read_block(alloc, files, pull, mark)? {
            Step::End => return Ok(None),
            Step::Passed => {}
            Step::Found(record) => return Ok(Some(record)),
        }
    }
}
