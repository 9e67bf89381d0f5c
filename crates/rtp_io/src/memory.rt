//! Files in memory, of which some calls fail.
ghost use Rattle.std.specs.Prelude.{◌≡◌, ◌<◌, ◌≤◌, ◌+◌, ◌-◌, ◌^◌, ◌++◌, ◌∷◌, ◌||◌, ◌⊎◌, [], ℕ, List, Bool, None, Some, true, false, IfOk, IfSome, OnOk, OnErr, IsTrue, Contains, length, take, min, bytes_eq};

use crate::failing::is_to_fail;
use crate::outside::{Failed, Files};
use crate::shelf::Shelf;
use rtp_units::OutOfMemory;
use std::alloc::Global;

/// Files in memory. Calls of `open_file` and `read` are counted together from 1, and those whose numbers
/// were given to `fail_at` fail. A name that isn't there can't be opened either.
#[derive(Drop)]
pub struct MemoryFiles {
    shelf: Shelf,
    failing: Vec<u64>,
    calls: u64,
    faults: u64,
}

impl Files for MemoryFiles {
    ghost use Rattle.rtp_io.specs.Outside.{SameDisk, IsOpened, IsClosed, Gives, Stays, HasCause};
    ghost use Rattle.rtp_io.specs.Memory.{held_to};
    ghost use Rattle.rtp_io.specs.Objects.{memory_disk, memory_faults, memory_step, is_held, failing_calls, call_count, IsNextToFail, CountsCall};

    ghost disk = { memory_disk };

    ghost faults = { memory_faults };

    fn open_file(&mut self, name: &str) -> Result<(), Failed>
        requires countable { memory_faults self.old < 2 ^ 64 - 1 }
        ensures same { SameDisk (memory_disk self.old) (memory_disk self.new) }
        ensures opened { OnOk result (IsOpened name.now (memory_disk self.new)) }
        ensures closed { OnErr result (IsClosed (memory_disk self.new)) }
        ensures cause { HasCause (memory_faults self.old) (memory_faults self.new) result }

        // It fails exactly where it is to fail or the name isn't there.
        ensures passes { OnOk result
            (¬ (IsNextToFail (failing_calls self.old) (call_count self.old))
            × (is_held self.old name.now ≡ true)) }
        ensures fails { OnErr result
            (IsNextToFail (failing_calls self.old) (call_count self.old)
            ⊎ (is_held self.old name.now ≡ false)) }
        ensures counted { CountsCall self.old self.new }
    {
        if is_to_fail(&self.failing, &mut self.calls) {
            self.shelf.close();
            self.faults += 1;
            return Err(Failed);
        }
        if self.shelf.open(name) {
            Ok(())
        } else {
            self.faults += 1;
            Err(Failed)
        }
    }

    fn read(&mut self, buf: &mut [u8]) -> Result<usize, Failed>
        requires room { 0 < length buf.old }
        requires countable { memory_faults self.old < 2 ^ 64 - 1 }
        ensures same { SameDisk (memory_disk self.old) (memory_disk self.new) }
        ensures bound { IfOk result (λ n. n ≤ length buf.new) }
        ensures given { IfOk result
            (λ n. Gives (take n buf.new) (memory_disk self.old) (memory_disk self.new)) }
        ensures kept { OnErr result (Stays (memory_disk self.old) (memory_disk self.new)) }
        ensures cause { HasCause (memory_faults self.old) (memory_faults self.new) result }

        // It fails exactly where it is to fail, and gives all that it can within the step.
        ensures passes { OnOk result
            (¬ (IsNextToFail (failing_calls self.old) (call_count self.old))) }
        ensures fails { OnErr result (IsNextToFail (failing_calls self.old) (call_count self.old)) }
        ensures size { IfOk result
            (λ n. n ≡ held_to (memory_step self.old)
            (min (length buf.old) (length (memory_disk self.old).left))) }
        ensures counted { CountsCall self.old self.new }
    {
        if is_to_fail(&self.failing, &mut self.calls) {
            self.faults += 1;
            return Err(Failed);
        }
        Ok(self.shelf.give(buf))
    }
}

impl MemoryFiles {
    ghost use Rattle.rtp_io.specs.Outside.{SameDisk};
    ghost use Rattle.rtp_io.specs.Memory.{IsBare, AddsFile};
    ghost use Rattle.rtp_io.specs.Objects.{memory_disk, memory_faults, memory_step, is_held, failing_calls, call_count};

    /// No files, no failing calls and no step.
    pub fn new(alloc: Global) -> Result<MemoryFiles, OutOfMemory>
        ensures bare { IfOk result (λ files. IsBare (memory_disk files)) }
        ensures held { IfOk result (λ files. (name : List ℕ) → is_held files name ≡ false) }
        ensures faults { IfOk result (λ files. memory_faults files ≡ 0) }
        ensures failing { IfOk result (λ files. failing_calls files ≡ []) }
        ensures calls { IfOk result (λ files. call_count files ≡ 0) }
        ensures step { IfOk result (λ files. memory_step files ≡ None) }
    {
        Ok(MemoryFiles {
            shelf: Shelf::new(alloc),
            failing: Vec::new(alloc),
            calls: 0,
            faults: 0,
        })
    }

    /// Adds a file under a name that isn't there yet. A call that was refused memory changes nothing.
    pub fn add(&mut self, alloc: Global, name: &str, bytes: &[u8]) -> Result<(), OutOfMemory>
        requires { is_held self.old name.now ≡ false }
        ensures ok { OnOk result
            (AddsFile name.now bytes.now (memory_disk self.old) (memory_disk self.new)) }
        ensures held { OnOk result
            ((other : List ℕ)
            → is_held self.new other ≡ (bytes_eq name.now other || is_held self.old other)) }
        ensures err { OnErr result (memory_disk self.new ≡ memory_disk self.old) }
        ensures same { OnErr result (is_held self.new ≡ is_held self.old) }
        ensures faults { memory_faults self.new ≡ memory_faults self.old }
        ensures failing { failing_calls self.new ≡ failing_calls self.old }
        ensures calls { call_count self.new ≡ call_count self.old }
        ensures step { memory_step self.new ≡ memory_step self.old }
    {
        self.shelf.add(alloc, name, bytes)
    }

    /// Lets the call with this number fail. Numbers count from 1.
    pub fn fail_at(&mut self, call: u64) -> Result<(), OutOfMemory>
        ensures ok { OnOk result (failing_calls self.new ≡ failing_calls self.old ++ call ∷ []) }
        ensures err { OnErr result (failing_calls self.new ≡ failing_calls self.old) }
        ensures disk { memory_disk self.new ≡ memory_disk self.old }
        ensures held { is_held self.new ≡ is_held self.old }
        ensures faults { memory_faults self.new ≡ memory_faults self.old }
        ensures calls { call_count self.new ≡ call_count self.old }
        ensures step { memory_step self.new ≡ memory_step self.old }
    {
        self.failing.push(call)?;
        Ok(())
    }

    /// From now on one read gives at most `n` bytes.
    pub fn set_step(&mut self, n: usize)
        requires { 0 < n }
        ensures step { memory_step self.new ≡ Some n }
        ensures disk { memory_disk self.new ≡ memory_disk self.old }
        ensures held { is_held self.new ≡ is_held self.old }
        ensures faults { memory_faults self.new ≡ memory_faults self.old }
        ensures failing { failing_calls self.new ≡ failing_calls self.old }
        ensures calls { call_count self.new ≡ call_count self.old }
    {
        self.shelf.step = Some(n);
    }

    /// What is left of the open file, and nothing where none is open.
    pub fn left(&self) -> &[u8]
        ensures { result.now ≡ (memory_disk self.now).left }
    {
        self.shelf.left()
    }
}
