//! Want of memory.
ghost use Rattle.std.specs.Prelude.{◌≡◌};
ghost use Rattle.std.specs.Prelude.{refl};

use std::alloc::{AllocError, AllocFailed};

/// Memory was refused. A call that answers it has left its value as its own page says.
#[derive(Clone, Copy, Debug, PartialEq, Eq, Drop)]
pub struct OutOfMemory;

impl From<AllocError> for OutOfMemory {
    fn from(_: AllocError) -> Self {
        OutOfMemory
    }
}

impl<T: Drop> From<AllocFailed<T>> for OutOfMemory {
    fn from(_: AllocFailed<T>) -> Self {
        OutOfMemory
    }
}
