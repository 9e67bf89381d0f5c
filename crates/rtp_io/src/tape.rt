//! Bytes that are kept while they have room.
ghost use Rattle.std.specs.Prelude.{◌≡◌, ◌<◌, ◌≤◌, [], None, Some, IfOk, IfSome, length, take, unwrap_or, vec_len, vec_capacity};

use crate::step::at_most;
use rtp_units::OutOfMemory;
use std::alloc::Global;

/// Bytes that were written, told while they have room.
#[derive(Drop)]
pub(crate) struct Tape {
    bytes: Vec<u8>,
    pub room: usize,
    lost: bool,
    /// The most bytes that one write takes while the bytes are told.
    pub step: Option<usize>,
    ghost fits: { vec_len bytes ≤ room },
    ghost reserved: { room ≤ vec_capacity bytes },
}

impl Tape {
    ghost use Rattle.rtp_io.specs.Outside.{Adds};
    ghost use Rattle.rtp_io.specs.Memory.{told_of, IsTaken, TellsWhile};

    pub fn with_room(alloc: Global, room: usize) -> Result<Tape, OutOfMemory>
        ensures told { IfOk result (λ tape. told_of tape ≡ Some []) }
        ensures room { IfOk result (λ tape. tape.room ≡ room) }
        ensures step { IfOk result (λ tape. tape.step ≡ None) }
    {
        Ok(Tape {
            bytes: Vec::with_capacity(alloc, room)?,
            room,
            lost: false,
            step: None,
        })
    }

    /// Takes a front of the piece: at most a step of it while the bytes are told, and all of it once they
    /// have no more room.
    pub fn take(&mut self, piece: &[u8]) -> usize
        requires { 0 < length piece.now }
        ensures progress { 0 < result }
        ensures bound { result ≤ length piece.now }
        ensures added { Adds (take result piece.now) (told_of self.old) (told_of self.new) }
        ensures told { TellsWhile self.old.room result (told_of self.old) (told_of self.new) }
        ensures room { self.new.room ≡ self.old.room }
        ensures step { self.new.step ≡ self.old.step }
        ensures taken { IsTaken self.old.step (length piece.now) result (told_of self.new) }
    {
        if self.lost {
            return piece.len();
        }
        let size = at_most(self.step, piece.len());
        if self.room - self.bytes.len() < size {
            self.lost = true;
            return piece.len();
        }
        match self.bytes.extend_from_slice(&piece[..size]) {
            Ok(()) => size,
            Err(_) => unreachable!(),
        }
    }

    /// The bytes that are told, and none once they had no more room.
    pub fn bytes(&self) -> &[u8]
        ensures { result.now ≡ unwrap_or (told_of self.now) [] }
    {
        if self.lost { &[] } else { &self.bytes }
    }
}
