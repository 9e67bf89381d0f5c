//! An owned list of bytes.
ghost use Rattle.std.specs.Prelude.{◌≡◌, IfOk};

use crate::OutOfMemory;
use std::alloc::Global;
use std::marker::Model;

/// An owned list of bytes, such as a packet or a record. Contracts see the list.
#[derive(Debug, Drop)]
pub struct Blob {
    items: Vec<u8>,
}

impl Model for Blob {
    ghost use Rattle.std.specs.Prelude.{List, ℕ};

    ghost Value = { List ℕ };

    ghost view = { λ blob. blob.items.items };
}

impl Blob {
    /// A copy of these bytes.
    pub fn copy_of(alloc: Global, bytes: &[u8]) -> Result<Blob, OutOfMemory>
        ensures { IfOk result (λ blob. blob ≡ bytes.now) }
    {
        Ok(Blob {
            items: Vec::from_slice(alloc, bytes)?,
        })
    }

    /// The list as it is, with no copy.
    pub fn from_vec(items: Vec<u8>) -> Blob
        ensures { result ≡ items.items }
    {
        Blob { items }
    }

    /// The bytes.
    pub fn bytes(&self) -> &[u8]
        ensures { result.now ≡ self.now }
    {
        self.items.as_slice()
    }
}
