//! `SlotRing`. A clause sees a ring as its `capacity` and the finite map `held`.
ghost use Rattle.std.specs.Prelude.{◌≡◌, ◌+◌, ◌%◌, ◌^◌, ◌<◌, ◌≤◌, ◌↔◌, ⊤, Bool, false, map as list_map, length, replicate, is_some, None, IfOk, IfErr, OnOk, IsErr, option_copied};
ghost use Rattle.std.specs.FinMap as map;
ghost use Rattle.slot_ring.specs.Ring.{ring, IsTaken};
ghost use Rattle.slot_ring.specs.Slots.{IsPowerOfTwo};

use crate::entry::Entry;
use crate::slots::Slots;
use rtp_units::OutOfMemory;
use std::alloc::Global;
use std::marker::Model;
use std_alloc::room::may_hold;

/// Values under numbers, each in the slot of its number modulo the capacity.
///
/// A ring may be moved to and shared with other threads where its values may. A ring of a type that isn't `Drop` can be
/// filled and emptied, but not let go.
pub struct SlotRing<T> {
    slots: Slots<Entry<T>, Global>,
    // Which slots hold a value. There are as many marks as slots.
    filled: Vec<bool>,
    count: u32,
    alloc: Global,
}

impl<T> Model for SlotRing<T> {
    ghost use Rattle.std.specs.Prelude.{◌≡◌, length};
    ghost use Rattle.slot_ring.specs.Ring.{Ring, ring, ring_code};

    ghost Value = { Ring T };

    ghost coded = { ring_code T.code };

    ghost use Rattle.slot_ring.specs.Slots.{held_in, IsSound};

    ghost view = { λ r. ring (length r.slots.places) (held_in r.slots.places) };

    ghost invariant = { λ r. IsSound r.slots.places r.filled.items r.count
        × (r.slots.lender ≡ r.alloc) };
}

/// The slot of a number: the number modulo the count of slots, which is a power of two.
fn slot_of(number: u64, filled: &Vec<bool>) -> usize
    requires { IsPowerOfTwo (length filled.now.items) }
    ensures { result ≡ number % length filled.now.items }
{
    let mask = filled.len() as u64 - 1;
    (number & mask) as usize
}

/// Drops the value of each slot that holds one.
fn drop_held<T: Drop>(slots: &mut Slots<Entry<T>, Global>, filled: &mut Vec<bool>)
    requires marked { filled.old.items ≡ list_map is_some slots.old.places }
    ensures empty { slots.new.places ≡ replicate (length slots.old.places) None }
    ensures marks { filled.new.items ≡ replicate (length slots.old.places) false }
    ensures lender { slots.new.lender ≡ slots.old.lender }
{
    for index in 0..filled.len() {
        if filled[index] {
            filled[index] = false;
            drop(slots.read(index));
        }
    }
}

impl<T> SlotRing<T> {
    /// An empty ring of 2^`log2` slots, or an error where there is no memory for them. No other call takes memory.
    pub fn with_capacity(alloc: Global, log2: u32) -> Result<SlotRing<T>, OutOfMemory>
        requires { log2 ≤ 16 }
        ensures { IfOk result (λ r. r ≡ ring (2 ^ log2) map.empty) }
    {
        let capacity = 1usize << log2;
        if !may_hold::<Entry<T>>(capacity) {
            return Err(OutOfMemory);
        }
        let filled = Vec::from_elem(alloc, false, capacity)?;
        let slots = Slots::allocate(&alloc, capacity)?;
        Ok(SlotRing {
            slots,
            filled,
            count: 0,
            alloc,
        })
    }

    /// Holds the value under the number, or gives it back where a held number has the same slot.
    pub fn put(&mut self, number: u64, value: T) -> Result<(), T>
        ensures exactly { IsErr result ↔ IsTaken self.old number }
        ensures ok { OnOk result (self.new
            ≡ ring self.old.capacity (map.insert self.old.held number value)) }
        ensures refused { IfErr result (λ v. (v ≡ value) × (self.new ≡ self.old)) }
    {
        let index = slot_of(number, &self.filled);
        if self.filled[index] {
            return Err(value);
        }
        self.slots.write(index, Entry { number, value });
        self.filled[index] = true;
        self.count += 1;
        Ok(())
    }

    /// The value under the number.
    pub fn get(&self, number: u64) -> Option<&T>
        ensures { option_copied result ≡ map.get self.now.held number }
    {
        let index = slot_of(number, &self.filled);
        if !self.filled[index] {
            return None;
        }
        let entry = self.slots.get(index);
        if entry.number != number {
            return None;
        }
        Some(&entry.value)
    }

    /// Takes the value under the number out of the ring.
    pub fn take(&mut self, number: u64) -> Option<T>
        ensures value { result ≡ map.get self.old.held number }
        ensures after { self.new ≡ ring self.old.capacity (map.remove self.old.held number) }
    {
        let index = slot_of(number, &self.filled);
        if !self.filled[index] {
            return None;
        }
        if self.slots.get(index).number != number {
            return None;
        }
        let Entry { number: _, value } = self.slots.read(index);
        self.filled[index] = false;
        self.count -= 1;
        Some(value)
    }

    /// Drops the held values, and says how many there were.
    pub fn clear(&mut self) -> u32
    where
        T: Drop,
        ensures count { result ≡ map.len self.old.held }
        ensures after { self.new ≡ ring self.old.capacity map.empty }
    {
        let count = self.count;
        drop_held(&mut self.slots, &mut self.filled);
        self.count = 0;
        count
    }

    /// How many values are held.
    pub fn len(&self) -> u32
        ensures len { result ≡ map.len self.now.held }
        ensures within { result ≤ self.now.capacity }
    {
        self.count
    }

    /// Gives back the memory of a ring that holds nothing.
    fn free(self)
        requires { self.held ≡ map.empty }
    {
        let SlotRing {
            slots,
            filled,
            count: _,
            alloc,
        } = self;
        slots.free(&alloc, filled.len());
    }
}

impl<T: Drop> Drop for SlotRing<T> {
    fn drop(mut self) {
        self.clear();
        self.free();
    }
}
