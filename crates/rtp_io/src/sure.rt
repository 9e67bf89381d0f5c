//! Files and bytes in memory that never fail.
ghost use Rattle.std.specs.Prelude.{◌≡◌, ◌<◌, ◌≤◌, ◌+◌, ◌-◌, ◌^◌, ◌||◌, [], ℕ, List, None, Some, IsTrue, false, IfOk, OnOk, OnErr, length, take, min, bytes_eq, unwrap_or};

use crate::outside::{Failed, Files, Sink};
use crate::shelf::Shelf;
use crate::tape::Tape;
use rtp_units::OutOfMemory;
use std::alloc::Global;

/// Files in memory that never fail. Only a name that is there may be opened.
#[derive(Drop)]
pub struct SureFiles {
    shelf: Shelf,
}

impl Files for SureFiles {
    ghost use Rattle.rtp_io.specs.Outside.{SameDisk, IsOpened, IsClosed, Gives, Stays, HasCause};
    ghost use Rattle.rtp_io.specs.Memory.{held_to};
    ghost use Rattle.rtp_io.specs.Objects.{sure_disk, sure_step};

    ghost disk = { sure_disk };

    ghost faults = { λ _. 0 };

    fn open_file(&mut self, name: &str) -> Result<(), Failed>
        requires may_open { IsTrue ((sure_disk self.old).may_open name.now) }
        ensures same { SameDisk (sure_disk self.old) (sure_disk self.new) }
        ensures opened { OnOk result (IsOpened name.now (sure_disk self.new)) }
        ensures closed { OnErr result (IsClosed (sure_disk self.new)) }
        ensures cause { HasCause 0 0 result }

        // The step stays.
        ensures step { sure_step self.new ≡ sure_step self.old }
    {
        if self.shelf.open(name) {
            Ok(())
        } else {
            unreachable!()
        }
    }

    fn read(&mut self, buf: &mut [u8]) -> Result<usize, Failed>
        requires room { 0 < length buf.old }
        ensures same { SameDisk (sure_disk self.old) (sure_disk self.new) }
        ensures bound { IfOk result (λ n. n ≤ length buf.new) }
        ensures given { IfOk result
            (λ n. Gives (take n buf.new) (sure_disk self.old) (sure_disk self.new)) }
        ensures kept { OnErr result (Stays (sure_disk self.old) (sure_disk self.new)) }
        ensures cause { HasCause 0 0 result }

        // It gives all that it can within the step.
        ensures size { IfOk result
            (λ n. n ≡ held_to (sure_step self.old)
            (min (length buf.old) (length (sure_disk self.old).left))) }
        ensures step { sure_step self.new ≡ sure_step self.old }
    {
        Ok(self.shelf.give(buf))
    }
}

impl SureFiles {
    ghost use Rattle.rtp_io.specs.Memory.{IsBare, AddsFile};
    ghost use Rattle.rtp_io.specs.Objects.{sure_disk, sure_step};

    /// No files and no step.
    pub fn new(alloc: Global) -> Result<SureFiles, OutOfMemory>
        ensures bare { IfOk result (λ files. IsBare (sure_disk files)) }
        ensures held { IfOk result
            (λ files. (name : List ℕ) → (sure_disk files).may_open name ≡ false) }
        ensures step { IfOk result (λ files. sure_step files ≡ None) }
    {
        Ok(SureFiles {
            shelf: Shelf::new(alloc),
        })
    }

    /// Adds a file under a name that isn't there yet. A call that was refused memory changes nothing.
    pub fn add(&mut self, alloc: Global, name: &str, bytes: &[u8]) -> Result<(), OutOfMemory>
        requires { (sure_disk self.old).may_open name.now ≡ false }
        ensures ok { OnOk result
            (AddsFile name.now bytes.now (sure_disk self.old) (sure_disk self.new)) }
        ensures held { OnOk result
            ((other : List ℕ)
            → (sure_disk self.new).may_open other
            ≡ (bytes_eq name.now other || (sure_disk self.old).may_open other)) }
        ensures err { OnErr result (sure_disk self.new ≡ sure_disk self.old) }
        ensures step { sure_step self.new ≡ sure_step self.old }
    {
        self.shelf.add(alloc, name, bytes)
    }

    /// From now on one read gives at most `n` bytes.
    pub fn set_step(&mut self, n: usize)
        requires { 0 < n }
        ensures step { sure_step self.new ≡ Some n }
        ensures disk { sure_disk self.new ≡ sure_disk self.old }
    {
        self.shelf.step = Some(n);
    }

    /// What is left of the open file, and nothing where none is open.
    pub fn left(&self) -> &[u8]
        ensures { result.now ≡ (sure_disk self.now).left }
    {
        self.shelf.left()
    }
}

/// Bytes in memory. They are told while they fit the room that the sink was made with. No write fails, and
/// once the bytes are no longer told each write takes its whole piece.
#[derive(Drop)]
pub struct SureSink {
    tape: Tape,
    ghost whole: { tape.step ≡ None },
}

impl Sink for SureSink {
    ghost use Rattle.rtp_io.specs.Outside.{Adds, HasCause};
    ghost use Rattle.rtp_io.specs.Memory.{TellsWhile};
    ghost use Rattle.rtp_io.specs.Objects.{sure_written, sure_room};

    ghost written = { sure_written };

    ghost faults = { λ _. 0 };

    fn write(&mut self, piece: &[u8]) -> Result<usize, Failed>
        requires some { 0 < length piece.now }
        ensures progress { IfOk result (λ n. 0 < n) }
        ensures bound { IfOk result (λ n. n ≤ length piece.now) }
        ensures added { IfOk result
            (λ n. Adds (take n piece.now) (sure_written self.old) (sure_written self.new)) }
        ensures none { OnErr result (Adds [] (sure_written self.old) (sure_written self.new)) }
        ensures cause { HasCause 0 0 result }

        // The bytes are told exactly while they fit the room.
        ensures told { IfOk result
            (λ n. TellsWhile (sure_room self.old) n (sure_written self.old) (sure_written self.new)) }
        ensures room { sure_room self.new ≡ sure_room self.old }
        ensures all { IfOk result (λ n. n ≡ length piece.now) }
    {
        Ok(self.tape.take(piece))
    }
}

impl SureSink {
    ghost use Rattle.rtp_io.specs.Objects.{sure_written, sure_room};

    /// No bytes. It tells its bytes while at most `n` were written.
    pub fn with_room(alloc: Global, n: usize) -> Result<SureSink, OutOfMemory>
        ensures told { IfOk result (λ sink. sure_written sink ≡ Some []) }
        ensures room { IfOk result (λ sink. sure_room sink ≡ n) }
    {
        Ok(SureSink {
            tape: Tape::with_room(alloc, n)?,
        })
    }

    /// The bytes that were written, and none once they are no longer told.
    pub fn bytes(&self) -> &[u8]
        ensures { result.now ≡ unwrap_or (sure_written self.now) [] }
    {
        self.tape.bytes()
    }
}
