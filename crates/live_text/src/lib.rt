//! The entries of a lane's journal as text.
#![tactic(auto)]

#[cfg(test)]
mod lane_tests;
#[cfg(test)]
mod tests;
mod words;

ghost use Rattle.std.specs.Prelude.{◌≡◌, IfOk, option_map};
ghost use Rattle.live_text.specs.Text.{bytes_of, entry_text};

use crate::words::Words;
use live_bin::Entry;
use rtp_units::{Blob, OutOfMemory};
use std::alloc::Global;

/// The bytes of a journal's entry number `index`, counted from 0, its newline included. With `hex`
/// the bytes of a packet that leaves stand behind its other fields, in lower-case hexadecimal
/// digits.
pub fn entry(alloc: Global, index: u64, entry: &Entry, hex: bool) -> Result<Blob, OutOfMemory>
    ensures { IfOk result (λ text. text ≡ entry_text hex index entry.now) }
{
    let words = Words { index, entry };
    if let Some(bytes) = shown(entry, hex) {
        let digits = hex::encode(alloc, bytes.bytes())?;
        let text = format!(in alloc; "{words} {digits}\n")?;
        return Ok(Blob::from_vec(text.into_bytes()));
    }
    let text = format!(in alloc; "{words}\n")?;
    Ok(Blob::from_vec(text.into_bytes()))
}

// The bytes that an entry shows.
fn shown(entry: &Entry, hex: bool) -> Option<&Blob>
    ensures { option_map (λ bytes. bytes.now) result ≡ bytes_of hex entry.now }
{
    match entry {
        Entry::Packet { packet, .. } if hex => Some(&packet.bytes),
        _ => None,
    }
}
