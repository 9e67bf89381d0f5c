//! Files and sinks, as the program sees them.
ghost use Rattle.std.specs.Prelude.{◌≡◌, ◌<◌, ◌≤◌, ◌-◌, ◌^◌, ℕ, List, [], Option, IsTrue, length, take, IfOk, OnOk, OnErr};
ghost use Rattle.rtp_io.specs.Outside.{Disk, SameDisk, IsOpened, IsClosed, Gives, Stays, HasCause, Adds};

use thiserror::Error;

/// A file or a sink failed, and its count of faults rose in that call.
#[derive(Clone, Copy, Debug, PartialEq, Eq, Drop, Error)]
#[error("a file or a sink failed")]
pub struct Failed;

/// Files by name, of which one at a time is open for reading. None is open at first.
pub trait Files {
    /// What is known of the files.
    ghost disk: { Self → Disk };

    /// How often a call has failed. It never falls.
    ghost faults: { Self → ℕ };

    /// Opens the file of this name, all of which is then left, and closes what was open. After a failure
    /// no file is open.
    fn open_file(&mut self, name: &str) -> Result<(), Failed>
        requires may_open { IsTrue ((disk self.old).may_open name.now) }
        requires countable { faults self.old < 2 ^ 64 - 1 }
        ensures same { SameDisk (disk self.old) (disk self.new) }
        ensures opened { IsTrue (disk self.old).told
            → OnOk result (IsOpened name.now (disk self.new)) }
        ensures closed { IsTrue (disk self.old).told → OnErr result (IsClosed (disk self.new)) }
        ensures cause { HasCause (faults self.old) (faults self.new) result };

    /// Gives a piece of what is left of the open file, and 0 bytes only where nothing is left or no file
    /// is open. After a failure what is left stays.
    fn read(&mut self, buf: &mut [u8]) -> Result<usize, Failed>
        requires room { 0 < length buf.old }
        requires countable { faults self.old < 2 ^ 64 - 1 }
        ensures same { SameDisk (disk self.old) (disk self.new) }
        ensures bound { IfOk result (λ n. n ≤ length buf.new) }
        ensures given { IsTrue (disk self.old).told
            → IfOk result (λ n. Gives (take n buf.new) (disk self.old) (disk self.new)) }
        ensures kept { IsTrue (disk self.old).told
            → OnErr result (Stays (disk self.old) (disk self.new)) }
        ensures cause { HasCause (faults self.old) (faults self.new) result };
}

/// Where bytes go.
pub trait Sink {
    /// The bytes that were written, where they are told.
    ghost written: { Self → Option (List ℕ) };

    /// How often a call has failed. It never falls.
    ghost faults: { Self → ℕ };

    /// Takes some of the bytes from the front of the piece, at least one. A call that failed wrote nothing.
    fn write(&mut self, piece: &[u8]) -> Result<usize, Failed>
        requires some { 0 < length piece.now }
        requires countable { faults self.old < 2 ^ 64 - 1 }
        ensures progress { IfOk result (λ n. 0 < n) }
        ensures bound { IfOk result (λ n. n ≤ length piece.now) }
        ensures added { IfOk result
            (λ n. Adds (take n piece.now) (written self.old) (written self.new)) }
        ensures none { OnErr result (Adds [] (written self.old) (written self.new)) }
        ensures cause { HasCause (faults self.old) (faults self.new) result };
}
