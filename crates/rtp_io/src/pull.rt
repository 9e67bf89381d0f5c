//! A buffer in front of the open file.
ghost use Rattle.std.specs.Prelude.{◌≡◌, ◌+◌, ◌<◌, ◌≤◌, ◌-◌, ◌^◌, ◌++◌, List, [], IsTrue, length, take, drop, IfOk, OnOk, OnErr, MatchResult};
ghost use Rattle.rtp_io.specs.Outside.{SameDisk, Gives, Stays};
ghost use Rattle.rtp_io.specs.Pulled.{HasReadCause, HasPullCause, TopUpEnds, Keeps};

use crate::outside::{Failed, Files};
use rtp_units::OutOfMemory;
use std::alloc::Global;
use std::marker::Model;
use thiserror::Error;

/// The most bytes that can be asked for at once.
pub const PULL_BYTES: usize = 262_160;

/// Why the bytes that were asked for did not come.
#[derive(Clone, Copy, Debug, PartialEq, Eq, Drop, Error)]
pub enum PullFault {
    /// The file ends with so many bytes left, fewer than were asked for.
    #[error("the file ends with {have} bytes left")]
    End { have: usize },
    /// A read failed, and the files counted it.
    #[error("a read failed")]
    ReadFault,
}

/// A buffer in front of the open file. Contracts see the bytes that were read and not yet taken.
#[derive(Drop)]
pub struct Pull {
    buf: Vec<u8>,
    start: usize,
    end: usize,
}

impl Model for Pull {
    ghost use Rattle.std.specs.Prelude.{◌≡◌, ◌≤◌, ◌-◌, List, ℕ, length, take, drop};

    ghost Value = { List ℕ };

    ghost view = { λ pull. take (pull.end - pull.start) (drop pull.start pull.buf.items) };

    ghost invariant = { λ pull. (pull.start ≤ pull.end) × (pull.end ≤ 262160)
        × (length pull.buf.items ≡ 262160) };
}

impl Pull {
    ghost use Rattle.std.specs.Borrow.{sem};
    ghost use Rattle.std.specs.Io.BufRead.{Rests};
    ghost use Rattle.rtp_io.specs.contracts.pull.Pull.{the_row};
    ghost use Rattle.rtp_io.specs.Pulled.{AfterNeed, HasPullCause};

    /// An empty buffer.
    pub fn new(alloc: Global) -> Result<Pull, OutOfMemory>
        ensures { IfOk result (λ pull. pull ≡ []) }
    {
        Ok(Pull {
            buf: zeros(alloc, PULL_BYTES)?,
            start: 0,
            end: 0,
        })
    }

    /// Gives the next `n` bytes of the open file, and takes them. It reads only while it holds fewer, and it
    /// never holds more than `PULL_BYTES`. After a fault nothing is taken, and bytes that were read are kept.
    pub fn need<F: Files>(&mut self, files: &mut F, n: usize) -> Result<&[u8], PullFault>
        requires n { n ≤ 262160 }
        requires countable { F.faults files.old < 2 ^ 64 - 1 }
        ensures length { IfOk result (λ bytes. length bytes.now ≡ n) }
        ensures* after { sem 𝓛 (Rests the_row self.entry
            (λ new. AfterNeed n result self.old new (F.disk files.old) (F.disk files.new))) }
        ensures cause { HasPullCause (F.faults files.old) (F.faults files.new) result }
        ensures lazy { n ≤ length self.old → F.disk files.new ≡ F.disk files.old }
    {
        make_room(&mut self.buf, &mut self.start, &mut self.end, n);
        top_up(files, &mut self.buf, self.start, &mut self.end, n)?;
        let from = self.start;
        self.start += n;
        Ok(&self.buf[from..from + n])
    }
}

fn zeros(alloc: Global, size: usize) -> Result<Vec<u8>, OutOfMemory>
    ensures { IfOk result (λ bytes. length bytes.items ≡ size) }
{
    Ok(vec![in alloc; 0; size]?)
}

// Moves the bytes from start to end to the front where n bytes from start on pass the end.
fn make_room(buf: &mut [u8], start: &mut usize, end: &mut usize, n: usize)
    requires order { start.old ≤ end.old }
    requires bound { end.old ≤ length buf.old }
    requires n { n ≤ length buf.old }
    ensures order { start.new ≤ end.new }
    ensures bound { end.new ≤ length buf.new }
    ensures room { start.new + n ≤ length buf.new }
    ensures same { take (end.new - start.new) (drop start.new buf.new)
        ≡ take (end.old - start.old) (drop start.old buf.old) }
{
    if buf.len() - *start < n {
        buf.copy_within(*start..*end, 0);
        *end -= *start;
        *start = 0;
    }
}

// Reads behind the bytes from start to end until they are n.
pub(crate) fn top_up<F: Files>(
    files: &mut F,
    buf: &mut [u8],
    start: usize,
    end: &mut usize,
    n: usize,
) -> Result<(), PullFault>
    requires order { start ≤ end.old }
    requires bound { end.old ≤ length buf.old }
    requires room { start + n ≤ length buf.old }
    requires countable { F.faults files.old < 2 ^ 64 - 1 }
    ensures order { end.old ≤ end.new }
    ensures bound { end.new ≤ length buf.new }
    ensures kept { Keeps (take (end.old - start) (drop start buf.old))
        (take (end.new - start) (drop start buf.new)) (F.disk files.old) (F.disk files.new) }
    ensures full { OnOk result (n ≤ end.new - start) }
    ensures end { TopUpEnds n (end.new - start) result (F.disk files.new) }
    ensures cause { HasPullCause (F.faults files.old) (F.faults files.new) result }
    ensures lazy { n ≤ end.old - start → F.disk files.new ≡ F.disk files.old }
{
    while *end - start < n {
        let got = read_behind(files, buf, *end)?;
        if got == 0 {
            return Err(PullFault::End { have: *end - start });
        }
        *end += got;
    }
    Ok(())
}

// Reads into the bytes from end on.
fn read_behind<F: Files>(files: &mut F, buf: &mut [u8], end: usize) -> Result<usize, PullFault>
    requires room { end < length buf.old }
    requires countable { F.faults files.old < 2 ^ 64 - 1 }
    ensures same { SameDisk (F.disk files.old) (F.disk files.new) }
    ensures front { take end buf.new ≡ take end buf.old }
    ensures bound { IfOk result (λ n. end + n ≤ length buf.new) }
    ensures given { IsTrue (F.disk files.old).told
        → IfOk result (λ n. Gives (take n (drop end buf.new))
        (F.disk files.old) (F.disk files.new)) }
    ensures kept { IsTrue (F.disk files.old).told
        → OnErr result (Stays (F.disk files.old) (F.disk files.new)) }
    ensures cause { HasReadCause (F.faults files.old) (F.faults files.new) result }
{
    match files.read(&mut buf[end..]) {
        Ok(n) => Ok(n),
        Err(Failed) => Err(PullFault::ReadFault),
    }
}
