//! `Slots`: a row of places in one block of memory, each empty or holding a value.
ghost use Rattle.std.specs.Prelude.{◌≡◌, ◌<◌, List, Option, Some, None, length, replicate, get_or, slice_set, IfOk};
ghost use Rattle.std.specs.Vec.Ownership.{FitsInBlock};
ghost use Rattle.slot_ring.specs.Places.{IsFilled};

use std::alloc::{AllocError, Allocator};
use std::marker::{Model, PhantomData, Send, Sync};
use std::mem::{align_of, size_of};

/// The owner of a row of places and of their block. It is not `Drop`: `free` gives the block back.
pub struct Slots<T, A: Allocator> {
    start: *mut T,
    // Which kind of allocator lent the block.
    mark: PhantomData<*const A>,
    // The value in each place, and the allocator that lent the block.
    ghost places: { List (Option T) },
    ghost lender: { A },
}

impl<T, A: Allocator> Model for Slots<T, A> {
    ghost use Rattle.std.specs.Prelude.{List, Option};
    ghost use Rattle.slot_ring.specs.Ownership.{row_owned, row_shared};

    ghost also_owns = { λ s. row_owned T.row (A.dealloc_token s.lender) s.start s.places };

    ghost also_shares = { λ s _ κ. row_shared T.row s.start s.places κ };
}

unsafe impl<T: Send, A: Allocator + Send> Send for Slots<T, A> {}

// A `&` to it reaches the values alone.
unsafe impl<T: Sync, A: Allocator> Sync for Slots<T, A> {}

impl<T, A: Allocator> Slots<T, A> {
    /// A block of `len` empty places.
    pub(crate) fn allocate(alloc: &A, len: usize) -> Result<Slots<T, A>, AllocError>
        requires { FitsInBlock T.row len }
        ensures { IfOk result (λ s. (s.places ≡ replicate len None) × (s.lender ≡ alloc.now)) }
    {
        match alloc.allocate(len * size_of::<T>(), align_of::<T>()) {
            Ok(block) => Ok(Slots {
                start: block as *mut T,
                mark: PhantomData,
            }),
            Err(error) => Err(error),
        }
    }

    /// Fills an empty place.
    pub(crate) fn write(&mut self, index: usize, value: T)
        requires { (index < length self.old.places) × (get_or self.old.places index None ≡ None) }
        ensures { (self.new.places ≡ slice_set self.old.places index (Some value))
            × (self.new.lender ≡ self.old.lender) }
    {
        unsafe { self.start.add(index).write(value) }
    }

    /// Moves the value out of a filled place, and leaves it empty.
    pub(crate) fn read(&mut self, index: usize) -> T
        requires { IsFilled self.old.places index }
        ensures { (get_or self.old.places index None ≡ Some result)
            × (self.new.places ≡ slice_set self.old.places index None)
            × (self.new.lender ≡ self.old.lender) }
    {
        unsafe { self.start.add(index).read() }
    }

    /// Lends the value in a filled place.
    pub(crate) fn get(&self, index: usize) -> &T
        requires { IsFilled self.now.places index }
        ensures { get_or self.now.places index None ≡ Some result.now }
    {
        unsafe { &*self.start.add(index) }
    }

    /// Gives back a block of `len` places that are all empty.
    pub(crate) fn free(self, alloc: &A, len: usize)
        requires { (self.places ≡ replicate len None) × (self.lender ≡ alloc.now) }
    {
        let Slots { start, mark: _ } = self;
        unsafe {
            alloc.deallocate(start as *mut u8, len * size_of::<T>(), align_of::<T>());
        }
    }
}
