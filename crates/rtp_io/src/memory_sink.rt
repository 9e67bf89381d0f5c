//! Bytes in memory, of which some writes fail.
ghost use Rattle.std.specs.Prelude.{◌≡◌, ◌<◌, ◌≤◌, ◌+◌, ◌-◌, ◌^◌, ◌++◌, ◌∷◌, [], None, Some, IfOk, IfSome, OnOk, OnErr, IsTrue, Contains, length, take, min, unwrap_or};

use crate::failing::is_to_fail;
use crate::outside::{Failed, Sink};
use crate::tape::Tape;
use rtp_units::OutOfMemory;
use std::alloc::Global;

/// Bytes in memory. Writes are counted from 1, and those whose numbers were given to `fail_at` fail. The
/// bytes are told while they fit the room that the sink was made with. Afterwards every write that isn't to
/// fail takes its whole piece, and nothing is told.
#[derive(Drop)]
pub struct MemorySink {
    tape: Tape,
    failing: Vec<u64>,
    calls: u64,
    faults: u64,
}

impl Sink for MemorySink {
    ghost use Rattle.rtp_io.specs.Outside.{Adds, HasCause};
    ghost use Rattle.rtp_io.specs.Memory.{IsTaken, TellsWhile};
    ghost use Rattle.rtp_io.specs.Objects.{memory_written, memory_sink_faults, memory_room, memory_sink_step, failing_writes, write_count, IsNextToFail, CountsWrite};

    ghost written = { memory_written };

    ghost faults = { memory_sink_faults };

    fn write(&mut self, piece: &[u8]) -> Result<usize, Failed>
        requires some { 0 < length piece.now }
        requires countable { memory_sink_faults self.old < 2 ^ 64 - 1 }
        ensures progress { IfOk result (λ n. 0 < n) }
        ensures bound { IfOk result (λ n. n ≤ length piece.now) }
        ensures added { IfOk result
            (λ n. Adds (take n piece.now) (memory_written self.old) (memory_written self.new)) }
        ensures none { OnErr result (Adds [] (memory_written self.old) (memory_written self.new)) }
        ensures cause { HasCause (memory_sink_faults self.old)
            (memory_sink_faults self.new) result }

        // The bytes are told exactly while they fit the room.
        ensures told { IfOk result
            (λ n. TellsWhile (memory_room self.old) n (memory_written self.old)
            (memory_written self.new)) }
        ensures kept { OnErr result (memory_written self.new ≡ memory_written self.old) }

        // It fails exactly where it is to fail, and takes all that it can within the step.
        ensures passes { OnOk result
            (¬ (IsNextToFail (failing_writes self.old) (write_count self.old))) }
        ensures fails { OnErr result
            (IsNextToFail (failing_writes self.old) (write_count self.old)) }
        ensures taken { IfOk result
            (λ n. IsTaken (memory_sink_step self.old) (length piece.now) n
            (memory_written self.new)) }
        ensures counted { CountsWrite self.old self.new }
    {
        if is_to_fail(&self.failing, &mut self.calls) {
            self.faults += 1;
            return Err(Failed);
        }
        Ok(self.tape.take(piece))
    }
}

impl MemorySink {
    ghost use Rattle.rtp_io.specs.Objects.{memory_written, memory_sink_faults, memory_room, memory_sink_step, failing_writes, write_count};

    /// No bytes, no failing writes and no step. It tells its bytes while at most `n` were written.
    pub fn with_room(alloc: Global, n: usize) -> Result<MemorySink, OutOfMemory>
        ensures told { IfOk result (λ sink. memory_written sink ≡ Some []) }
        ensures room { IfOk result (λ sink. memory_room sink ≡ n) }
        ensures faults { IfOk result (λ sink. memory_sink_faults sink ≡ 0) }
        ensures failing { IfOk result (λ sink. failing_writes sink ≡ []) }
        ensures calls { IfOk result (λ sink. write_count sink ≡ 0) }
        ensures step { IfOk result (λ sink. memory_sink_step sink ≡ None) }
    {
        Ok(MemorySink {
            tape: Tape::with_room(alloc, n)?,
            failing: Vec::new(alloc),
            calls: 0,
            faults: 0,
        })
    }

    /// Lets the write with this number fail. Numbers count from 1.
    pub fn fail_at(&mut self, call: u64) -> Result<(), OutOfMemory>
        ensures ok { OnOk result (failing_writes self.new ≡ failing_writes self.old ++ call ∷ []) }
        ensures err { OnErr result (failing_writes self.new ≡ failing_writes self.old) }
        ensures told { memory_written self.new ≡ memory_written self.old }
        ensures room { memory_room self.new ≡ memory_room self.old }
        ensures faults { memory_sink_faults self.new ≡ memory_sink_faults self.old }
        ensures calls { write_count self.new ≡ write_count self.old }
        ensures step { memory_sink_step self.new ≡ memory_sink_step self.old }
    {
        self.failing.push(call)?;
        Ok(())
    }

    /// From now on one write takes at most `n` bytes, while the sink tells its bytes.
    pub fn set_step(&mut self, n: usize)
        requires { 0 < n }
        ensures step { memory_sink_step self.new ≡ Some n }
        ensures told { memory_written self.new ≡ memory_written self.old }
        ensures room { memory_room self.new ≡ memory_room self.old }
        ensures faults { memory_sink_faults self.new ≡ memory_sink_faults self.old }
        ensures failing { failing_writes self.new ≡ failing_writes self.old }
        ensures calls { write_count self.new ≡ write_count self.old }
    {
        self.tape.step = Some(n);
    }

    /// The bytes that were written, and none once they are no longer told.
    pub fn bytes(&self) -> &[u8]
        ensures { result.now ≡ unwrap_or (memory_written self.now) [] }
    {
        self.tape.bytes()
    }
}
