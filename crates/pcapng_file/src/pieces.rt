//! Pieces of a file whose lengths are known before they are read.
ghost use Rattle.std.specs.Prelude.{◌≡◌, ◌<◌, ◌≤◌, ◌-◌, ◌^◌, IsTrue, length, take as taken_of};
ghost use Rattle.rtp_io.specs.Outside.{SameDisk};
ghost use Rattle.pcapng_file.specs.Pieces.{AfterPart, HasStopCause};
ghost use Rattle.pcapng_file.specs.Options.{filled as filled_of};

use rtp_io::{Files, Pull, PullFault};
use rtp_units::{Blob, OutOfMemory};
use std::alloc::Global;

/// The most bytes that are passed over at once.
const PIECE: u32 = 65_536;

/// Why the bytes of a block did not come.
#[derive(Clone, Copy, Debug, PartialEq, Eq, Drop)]
pub(crate) enum Stop {
    /// The file ends before.
    Cut,
    /// A read failed.
    ReadFault,
    /// Memory was refused.
    OutOfMemory,
}

impl From<OutOfMemory> for Stop {
    ghost use Rattle.pcapng_file.specs.declared.pieces.Stop.TheVariants.{OutOfMemory as NoMemory};

    ghost from_gives = { λ _ e. e ≡ NoMemory };

    fn from(_: OutOfMemory) -> Self {
        Stop::OutOfMemory
    }
}

/// So many bytes, filled to a multiple of four.
pub(crate) fn filled(size: u32) -> u32
    requires { size ≤ 2 ^ 31 }
    ensures { result ≡ filled_of size }
{
    (size + 3) / 4 * 4
}

/// Takes the next `N` bytes.
pub(crate) fn take<F: Files, const N: usize>(
    files: &mut F,
    pull: &mut Pull,
) -> Result<[u8; N], Stop>
    requires size { N ≤ 262160 }
    requires countable { F.faults files.old < 2 ^ 64 - 1 }
    ensures same { SameDisk (F.disk files.old) (F.disk files.new) }
    ensures opened { IsTrue (F.disk files.old).told →
        (F.disk files.new).opened ≡ (F.disk files.old).opened }
    ensures bound { length pull.old ≤ 262160 → length pull.new ≤ 262160 }
    ensures after { AfterPart (λ bytes taken. taken ≡ bytes) N result pull.old pull.new
        (F.disk files.old) (F.disk files.new) }
    ensures cause { HasStopCause (F.faults files.old) (F.faults files.new) result }
{
    match pull.need(files, N) {
        Ok(bytes) => {
            let mut taken = [0; N];
            taken.copy_from_slice(bytes);
            Ok(taken)
        }
        Err(PullFault::End { .. }) => Err(Stop::Cut),
        Err(PullFault::ReadFault) => Err(Stop::ReadFault),
    }
}

/// Takes so many bytes, and the others up to a multiple of four, and keeps the first of them.
pub(crate) fn take_filled<F: Files>(
    alloc: Global,
    files: &mut F,
    pull: &mut Pull,
    size: u32,
) -> Result<Blob, Stop>
    requires size { size ≤ 262144 }
    requires countable { F.faults files.old < 2 ^ 64 - 1 }
    ensures same { SameDisk (F.disk files.old) (F.disk files.new) }
    ensures opened { IsTrue (F.disk files.old).told →
        (F.disk files.new).opened ≡ (F.disk files.old).opened }
    ensures bound { length pull.old ≤ 262160 → length pull.new ≤ 262160 }
    ensures after { AfterPart (λ blob taken. blob ≡ taken_of size taken) (filled_of size) result
        pull.old pull.new (F.disk files.old) (F.disk files.new) }
    ensures cause { HasStopCause (F.faults files.old) (F.faults files.new) result }
{
    match pull.need(files, filled(size) as usize) {
        Ok(bytes) => Ok(Blob::copy_of(alloc, &bytes[..size as usize])?),
        Err(PullFault::End { .. }) => Err(Stop::Cut),
        Err(PullFault::ReadFault) => Err(Stop::ReadFault),
    }
}

// Passes over so many bytes at once.
fn skip_piece<F: Files>(files: &mut F, pull: &mut Pull, size: u32) -> Result<(), Stop>
    requires size { size ≤ 65536 }
    requires countable { F.faults files.old < 2 ^ 64 - 1 }
    ensures same { SameDisk (F.disk files.old) (F.disk files.new) }
    ensures opened { IsTrue (F.disk files.old).told →
        (F.disk files.new).opened ≡ (F.disk files.old).opened }
    ensures bound { length pull.old ≤ 262160 → length pull.new ≤ 262160 }
    ensures after { AfterPart (λ _ _. Unit {0}) size result pull.old pull.new (F.disk files.old)
        (F.disk files.new) }
    ensures cause { HasStopCause (F.faults files.old) (F.faults files.new) result }
{
    match pull.need(files, size as usize) {
        Ok(_) => Ok(()),
        Err(PullFault::End { .. }) => Err(Stop::Cut),
        Err(PullFault::ReadFault) => Err(Stop::ReadFault),
    }
}

/// Passes over so many bytes, piece by piece.
pub(crate) fn skip<F: Files>(files: &mut F, pull: &mut Pull, size: u32) -> Result<(), Stop>
    requires countable { F.faults files.old < 2 ^ 64 - 1 }
    ensures same { SameDisk (F.disk files.old) (F.disk files.new) }
    ensures opened { IsTrue (F.disk files.old).told →
        (F.disk files.new).opened ≡ (F.disk files.old).opened }
    ensures bound { length pull.old ≤ 262160 → length pull.new ≤ 262160 }
    ensures after { AfterPart (λ _ _. Unit {0}) size result pull.old pull.new (F.disk files.old)
        (F.disk files.new) }
    ensures cause { HasStopCause (F.faults files.old) (F.faults files.new) result }
{
    let mut left = size;
    while left > 0 {
        let piece = left.min(PIECE);
        skip_piece(files, pull, piece)?;
        left -= piece;
    }
    Ok(())
}
