//! A ring of raw slots: values under numbers, each in the slot of its number modulo the capacity. The slots are one block
//! of memory that is reserved once, stays uninitialised where no value was put, and is freed with the values that are held.
#![tactic(auto)]

mod entry;
mod ring;
mod slots;
#[cfg(test)]
mod tests;

// A crate can name a ring in a contract only if the types of its fields are exported.
#[doc(hidden)]
pub use entry::Entry;
pub use ring::SlotRing;
#[doc(hidden)]
pub use slots::Slots;
