//! A sink in memory with room for so many bytes, which tells what it took and fails where it is full.

ghost use Rattle.std.specs.Prelude.{◌≡◌, ◌-◌, ◌<◌, ◌≤◌, ◌++◌, [], Some, None, IfOk, OnErr, length, min, take};
ghost use Rattle.net_io.specs.Faults.{counted};
ghost use Rattle.net_io.specs.Pieces.{at_most};

use crate::mem_files::within_most;
use crate::{Failed, Sink};
use no_memory::NoMemory;
use std::alloc::Global;
use std::marker::Model;

/// A sink in memory that takes so many bytes and then fails.
pub struct MemSink {
    taken: Vec<u8>,
    room: usize,
    most: Option<usize>,
    faults: u64,
}

impl Drop for MemSink {
    fn drop(self) {
        let MemSink {
            taken: _,
            room: _,
            most: _,
            faults: _,
        } = self;
    }
}

impl Model for MemSink {
    ghost use Rattle.std.specs.Prelude.{◌≤◌, IfSome, vec_len, vec_capacity};
    ghost use Rattle.net_io.specs.BoundedSink.{BoundedSink};

    ghost Value = { BoundedSink };

    ghost view = { λ s. record { taken = s.taken.items; room = s.room; most = s.most; faults = s.faults } };

    // The room is there from the start, so that no write is in want of memory, and a write takes at least one byte.
    ghost invariant = { λ s. (vec_len s.taken ≤ s.room) × (s.room ≤ vec_capacity s.taken) × IfSome s.most (λ most. 1 ≤ most) };
}

impl MemSink {
    /// A sink with room for `room` bytes, which are set aside at once.
    pub fn new(alloc: Global, room: usize) -> Result<MemSink, NoMemory>
        ensures { IfOk result (λ sink. sink ≡ record { taken = []; room = room; most = None; faults = 0 }) }
    {
        Ok(MemSink {
            taken: Vec::with_capacity(alloc, room)?,
            room,
            most: None,
            faults: 0,
        })
    }

    /// Lets each write from now on take at most so many bytes. It takes the place of an earlier number.
    pub fn at_most(&mut self, bytes: usize)
        requires { 1 ≤ bytes }
        ensures { self.new ≡ record self.old { most = Some bytes } }
    {
        self.most = Some(bytes);
    }

    /// The bytes that it took.
    pub fn taken(&self) -> &[u8]
        ensures { result.now ≡ self.now.taken }
    {
        self.taken.as_slice()
    }
}

impl Sink for MemSink {
    ghost use Rattle.std.specs.Prelude.{Some};

    ghost taken = { λ s. Some s.taken };

    ghost faults = { λ s. s.faults };

    /// Takes as many bytes of the piece as there is room for, and fails where there is room for none.
    fn write(&mut self, piece: &[u8]) -> Result<usize, Failed>
        ensures count { IfOk result (λ n. n ≡ min (at_most self.old.most (length piece.now)) (self.old.room - length self.old.taken)) }
        ensures took { IfOk result (λ n. self.new ≡ record self.old { taken = self.old.taken ++ take n piece.now }) }
        ensures some { IfOk result (λ n. 0 < length piece.now → 0 < n) }
        ensures full { OnErr result (self.old.room ≤ length self.old.taken) }
        ensures fault { OnErr result (self.new ≡ record self.old { faults = counted self.old.faults }) }
        ensures later { self.old.faults ≤ self.new.faults }
    {
        let count = within_most(self.most, piece.len()).min(self.room - self.taken.len());
        if count == 0 && !piece.is_empty() {
            self.faults = self.faults.saturating_add(1);
            return Err(Failed);
        }
        match self.taken.extend_from_slice(&piece[..count]) {
            Ok(()) => Ok(count),
            Err(_) => unreachable!(),
        }
    }
}
