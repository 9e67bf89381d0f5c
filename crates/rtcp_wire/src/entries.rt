//! Missing sequence numbers as the entries of a generic NACK.
ghost use Rattle.std.specs.Prelude.{◌≡◌, ◌≤◌, ◌↔◌, ℕ, length, IfOk};
ghost use Rattle.rtcp_wire.specs.Nacking.{join as join_of, opens, greedy, greedy_behind, NamedBy, Among};

use crate::packet::Nack;
use rtp_units::OutOfMemory;
use std::alloc::Global;

/// Packs numbers into as few entries as one pass can: a number that the last entry can name joins it, and
/// any other opens an entry.
pub fn nacks(alloc: Global, numbers: &[u16]) -> Result<Vec<Nack>, OutOfMemory>
    ensures greedy { IfOk result (λ list. list.items ≡ greedy numbers.now) }
    ensures count { IfOk result (λ list. length list.items ≤ length numbers.now) }
    // The entries name exactly these numbers.
    ensures named { IfOk result (λ list. (x : ℕ) → (NamedBy list.items x) ↔ (Among numbers.now x)) }
{
    entries_of(alloc, numbers)
}

fn entries_of(alloc: Global, numbers: &[u16]) -> Result<Vec<Nack>, OutOfMemory>
    ensures { IfOk result (λ list. list.items ≡ greedy numbers.now) }
{
    match numbers {
        [] => Ok(Vec::new(alloc)),
        [first, others @ ..] => entries_from(alloc, *first, others),
    }
}

fn entries_from(alloc: Global, first: u16, numbers: &[u16]) -> Result<Vec<Nack>, OutOfMemory>
    ensures { IfOk result (λ list. list.items ≡ greedy_behind (opens first) numbers.now) }
{
    let mut list = Vec::new(alloc);
    let mut entry = open(first);
    for number in numbers {
        match join(entry, *number) {
            Some(joined) => entry = joined,
            None => {
                list.push(entry)?;
                entry = open(*number);
            }
        }
    }
    list.push(entry)?;
    Ok(list)
}

fn open(number: u16) -> Nack
    ensures { result ≡ opens number }
{
    Nack {
        pid: number,
        blp: 0,
    }
}

/// The entry with one number more, if it can name it.
fn join(entry: Nack, number: u16) -> Option<Nack>
    ensures { result ≡ join_of entry number }
{
    match number.wrapping_sub(entry.pid) {
        0 => Some(entry),
        distance @ 1..=16 => Some(Nack {
            pid: entry.pid,
            blp: entry.blp | 1 << (distance - 1),
        }),
        _ => None,
    }
}
