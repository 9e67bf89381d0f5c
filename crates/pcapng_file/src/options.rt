//! The options of an interface, read one by one.
ghost use Rattle.std.specs.Prelude.{◌≡◌, ◌<◌, ◌≤◌, ◌-◌, ◌^◌, ◌∷◌, [], IsTrue, length, ◌||◌, nat_lt};
ghost use Rattle.std.specs.Prelude.{not, take as taken_of};
ghost use Rattle.rtp_io.specs.Outside.{SameDisk};
ghost use Rattle.pcapng_file.specs.Pieces.{AfterPart, HasStopCause};
ghost use Rattle.pcapng_file.specs.Options.{filled as filled_of, fits as fits_of, said_by};
ghost use Rattle.pcapng_file.specs.Options.{options_say};

use crate::pieces::{Stop, filled, skip, take};
use pcap_file::Order;
use rtp_io::{Files, Pull};

/// The code of a time resolution, of one byte.
const RESOLUTION: u16 = 9;

/// The code of a time offset, of eight bytes.
const OFFSET: u16 = 14;

/// What an interface's options say of its times.
#[derive(Clone, Copy, Debug, PartialEq, Eq)]
pub(crate) struct Said {
    /// The byte of the time resolution.
    pub resolution: Option<u8>,
    /// What is added to each time, in seconds.
    pub seconds: Option<i64>,
}

/// Reads the options in so many bytes, up to code 0 or the end, and passes over what is behind
/// them. The first option with a code gives its value. It answers `None` where an option passes the
/// end or has a wrong length.
pub(crate) fn read_options<F: Files>(
    files: &mut F,
    pull: &mut Pull,
    order: Order,
    size: u32,
) -> Result<Option<Said>, Stop>
    requires countable { F.faults files.old < 2 ^ 64 - 1 }
    ensures same { SameDisk (F.disk files.old) (F.disk files.new) }
    ensures opened { IsTrue (F.disk files.old).told →
        (F.disk files.new).opened ≡ (F.disk files.old).opened }
    ensures bound { length pull.old ≤ 262160 → length pull.new ≤ 262160 }
    ensures after { AfterPart (λ said taken. said ≡ options_say order taken) size result
        pull.old pull.new (F.disk files.old) (F.disk files.new) }
    ensures cause { HasStopCause (F.faults files.old) (F.faults files.new) result }
{
    let mut said = Said {
        resolution: None,
        seconds: None,
    };
    let mut left = size;
    while left >= 4 {
        let head: [u8; 4] = take(files, pull)?;
        left -= 4;
        let code = order.number16(&head, 0);
        let count = order.number16(&head, 2);
        if code == 0 {
            skip(files, pull, left)?;
            return Ok(Some(said));
        }
        if is_wrong(code, count, left) {
            skip(files, pull, left)?;
            return Ok(None);
        }
        let value = read_value(files, pull, order, code, count)?;
        said = said.or(value);
        left -= filled(u32::from(count));
    }
    skip(files, pull, left)?;
    Ok(Some(said))
}

// Whether an option passes so many bytes, or has another length than its code asks for.
fn is_wrong(code: u16, size: u16, left: u32) -> bool
    ensures { result ≡ (nat_lt left (filled_of size) || not (fits_of code size)) }
{
    filled(u32::from(size)) > left || !fits(code, size)
}

// Whether an option has the length that its code asks for.
fn fits(code: u16, length: u16) -> bool
    ensures { result ≡ fits_of code length }
{
    match code {
        RESOLUTION => length == 1,
        OFFSET => length == 8,
        _ => true,
    }
}

// Reads the value of an option, and says what this option alone says.
fn read_value<F: Files>(
    files: &mut F,
    pull: &mut Pull,
    order: Order,
    code: u16,
    size: u16,
) -> Result<Said, Stop>
    requires fits { IsTrue (fits_of code size) }
    requires countable { F.faults files.old < 2 ^ 64 - 1 }
    ensures same { SameDisk (F.disk files.old) (F.disk files.new) }
    ensures opened { IsTrue (F.disk files.old).told →
        (F.disk files.new).opened ≡ (F.disk files.old).opened }
    ensures bound { length pull.old ≤ 262160 → length pull.new ≤ 262160 }
    ensures after { AfterPart (λ said taken. said
        ≡ said_by order (record { code = code; value = taken_of size taken } ∷ [])) (filled_of size)
        result pull.old pull.new (F.disk files.old) (F.disk files.new) }
    ensures cause { HasStopCause (F.faults files.old) (F.faults files.new) result }
{
    match code {
        RESOLUTION => {
            let value: [u8; 4] = take(files, pull)?;
            Ok(Said {
                resolution: Some(value[0]),
                seconds: None,
            })
        }
        OFFSET => {
            let value: [u8; 8] = take(files, pull)?;
            Ok(Said {
                resolution: None,
                seconds: Some(order.number64(&value, 0).cast_signed()),
            })
        }
        _ => {
            skip(files, pull, filled(u32::from(size)))?;
            Ok(Said {
                resolution: None,
                seconds: None,
            })
        }
    }
}

impl Said {
    ghost use Rattle.pcapng_file.specs.Options.{also};

    // What was said before, and where nothing was, what these options say.
    fn or(self, next: Said) -> Said
        ensures { result ≡ also self next }
    {
        Said {
            resolution: self.resolution.or(next.resolution),
            seconds: self.seconds.or(next.seconds),
        }
    }
}
