//! Named contents in memory, of which one at a time is open.
ghost use Rattle.std.specs.Prelude.{◌≡◌, ◌<◌, ◌≤◌, ◌+◌, ◌^◌, ◌||◌, ℕ, List, Bool, true, false, None, IfNone, IfOk, IfSome, OnOk, OnErr, length, take, drop, min, vec_len, bytes_eq};
ghost use Rattle.std.specs.Option.{ForSome};
ghost use Rattle.rtp_io.specs.Outside.{AreBytes};

use crate::step::at_most;
use rtp_units::OutOfMemory;
use std::alloc::Global;

/// A file in memory.
#[derive(Drop)]
pub(crate) struct Entry {
    pub name: String,
    pub bytes: Vec<u8>,
    ghost small: { AreBytes bytes.items },
}

/// Files in memory. The place of the open one counts from 0, and the position in it tells how many of its
/// bytes were given.
#[derive(Drop)]
pub(crate) struct Shelf {
    pub entries: Vec<Entry>,
    pub opened: Option<usize>,
    pub position: usize,
    /// The most bytes that one read gives.
    pub step: Option<usize>,
    ghost there: { ForSome opened (λ place. place < vec_len entries) },
}

impl Shelf {
    ghost use Rattle.rtp_io.specs.Outside.{SameDisk, IsOpened, IsClosed, Gives};
    ghost use Rattle.rtp_io.specs.Memory.{disk_of, find, known, IsPlace, IsBare, AddsFile, held_to};

    /// No files.
    pub fn new(alloc: Global) -> Shelf
        ensures bare { (p : List ℕ → Bool) → IsBare (disk_of p result) }
        ensures known { (name : List ℕ) → known result name ≡ false }
        ensures step { result.step ≡ None }
    {
        Shelf {
            entries: Vec::new(alloc),
            opened: None,
            position: 0,
            step: None,
        }
    }

    /// Adds a file. A call that was refused memory changes nothing.
    pub fn add(&mut self, alloc: Global, name: &str, bytes: &[u8]) -> Result<(), OutOfMemory>
        requires { known self.old name.now ≡ false }
        ensures ok { OnOk result
            ((p : List ℕ → Bool)
            → AddsFile name.now bytes.now (disk_of p self.old) (disk_of p self.new)) }
        ensures known { OnOk result
            ((other : List ℕ)
            → known self.new other ≡ (bytes_eq name.now other || known self.old other)) }
        ensures err { OnErr result ((p : List ℕ → Bool) → disk_of p self.new ≡ disk_of p self.old) }
        ensures same { OnErr result (known self.new ≡ known self.old) }
        ensures step { self.new.step ≡ self.old.step }
    {
        let name = String::from_str(alloc, name)?;
        let bytes = copy_of(alloc, bytes)?;
        self.entries.push(Entry { name, bytes })?;
        Ok(())
    }

    fn place_of(&self, name: &str) -> Option<usize>
        ensures found { IfSome result (λ place. IsPlace self.now.entries.items name.now place) }
        ensures none { IfNone result (find self.now.entries.items name.now ≡ None) }
    {
        for (place, entry) in self.entries.iter().enumerate() {
            if entry.name.as_str() == name {
                return Some(place);
            }
        }
        None
    }

    /// Opens the file with a name, if there is one, and closes what was open.
    pub fn open(&mut self, name: &str) -> bool
        ensures known { result ≡ known self.old name.now }
        ensures same { (p : List ℕ → Bool) → SameDisk (disk_of p self.old) (disk_of p self.new) }
        ensures held { known self.new ≡ known self.old }
        ensures opened { result ≡ true → (p : List ℕ → Bool)
            → IsOpened name.now (disk_of p self.new) }
        ensures closed { result ≡ false → (p : List ℕ → Bool) → IsClosed (disk_of p self.new) }
        ensures step { self.new.step ≡ self.old.step }
    {
        self.opened = self.place_of(name);
        self.position = 0;
        self.opened.is_some()
    }

    /// Closes what was open.
    pub fn close(&mut self)
        ensures same { (p : List ℕ → Bool) → SameDisk (disk_of p self.old) (disk_of p self.new) }
        ensures held { known self.new ≡ known self.old }
        ensures closed { (p : List ℕ → Bool) → IsClosed (disk_of p self.new) }
        ensures step { self.new.step ≡ self.old.step }
    {
        self.opened = None;
    }

    /// What is left of the open file, and nothing where none is open.
    pub fn left(&self) -> &[u8]
        ensures left { (p : List ℕ → Bool) → result.now ≡ (disk_of p self.now).left }
        ensures fits { 0 < length result.now → self.now.position + length result.now < 2 ^ 64 }
    {
        match self.opened {
            None => &[],
            Some(place) => match self.entries.get(place) {
                None => &[],
                Some(entry) => rest_of(&entry.bytes, self.position),
            },
        }
    }

    /// Gives a piece of what is left, at most a step of it.
    pub fn give(&mut self, buf: &mut [u8]) -> usize
        requires { 0 < length buf.old }
        ensures bound { result ≤ length buf.new }
        ensures same { (p : List ℕ → Bool) → SameDisk (disk_of p self.old) (disk_of p self.new) }
        ensures held { known self.new ≡ known self.old }
        ensures gives { (p : List ℕ → Bool)
            → Gives (take result buf.new) (disk_of p self.old) (disk_of p self.new) }
        ensures step { self.new.step ≡ self.old.step }
        ensures size { (p : List ℕ → Bool)
            → result ≡ held_to self.old.step
            (min (length buf.old) (length (disk_of p self.old).left)) }
    {
        let left = self.left();
        let position = self.position;
        let size = at_most(self.step, buf.len().min(left.len()));
        buf[..size].copy_from_slice(&left[..size]);
        self.position = moved(position, size);
        size
    }
}

// A copy that is made byte by byte, so that its numbers are known to be bytes.
fn copy_of(alloc: Global, bytes: &[u8]) -> Result<Vec<u8>, OutOfMemory>
    ensures items { IfOk result (λ copy. copy.items ≡ bytes.now) }
    ensures small { IfOk result (λ copy. AreBytes copy.items) }
{
    let mut copy = Vec::with_capacity(alloc, bytes.len())?;
    for byte in bytes {
        copy.push(*byte)?;
    }
    Ok(copy)
}

fn rest_of(bytes: &[u8], position: usize) -> &[u8]
    ensures rest { result.now ≡ drop position bytes.now }
    ensures fits { 0 < length result.now → position + length result.now < 2 ^ 64 }
{
    if position < bytes.len() {
        &bytes[position..]
    } else {
        &[]
    }
}

fn moved(position: usize, size: usize) -> usize
    requires { 0 < size → position + size < 2 ^ 64 }
    ensures { result ≡ position + size }
{
    if size == 0 { position } else { position + size }
}
