//! A sink in memory, whose writes fail where they are told to.
ghost use Rattle.std.specs.Prelude.{◌≡◌, ◌≤◌, ◌<◌, ◌↔◌, ◌⊎◌, ◌-◌, ◌++◌, ◌∷◌, [], length, take, min, Some, OnOk, OnErr, IfOk, IsErr};
ghost use Rattle.adv_shelf.specs.Memory.{SinkState, new_sink, IsDue, after_call, next_count};

use crate::failing::count_call;
use crate::{Failed, Sink};
use adv_base::NoMemory;
use std::alloc::Global;
use std::marker::Model;

/// A sink in memory with room for a number of bytes. It tells them, and the writes whose numbers it was
/// given fail.
#[derive(Drop)]
pub struct MemSink {
    capacity: usize,
    /// It has memory for all that the sink may take.
    bytes: Vec<u8>,
    /// For each write that is to fail, how many writes from now it is.
    failing: Vec<u64>,
    faults: u64,
}

impl Model for MemSink {
    ghost use Rattle.std.specs.Prelude.{◌≤◌, vec_len};
    ghost use Rattle.std.specs.Vec.{vec_capacity};
    ghost use Rattle.adv_shelf.specs.Memory.{SinkState};

    ghost Value = { SinkState };

    ghost view = { λ a. record { capacity = a.capacity; bytes = a.bytes.items; failing = a.failing.items; faults = a.faults } };

    ghost invariant = { λ a. (vec_len a.bytes ≤ a.capacity) × (a.capacity ≤ vec_capacity a.bytes) };
}

impl MemSink {
    /// A sink with room for `capacity` bytes and none of them, no fault and no write that is to fail.
    pub fn with_capacity(alloc: Global, capacity: usize) -> Result<MemSink, NoMemory>
        ensures { IfOk result (λ sink. sink ≡ new_sink capacity) }
    {
        match Vec::with_capacity(alloc, capacity) {
            Ok(bytes) => Ok(MemSink {
                capacity,
                bytes,
                failing: Vec::new(alloc),
                faults: 0,
            }),
            Err(_) => Err(NoMemory),
        }
    }

    /// The bytes that were written.
    pub fn bytes(&self) -> &[u8]
        ensures { result.now ≡ self.now.bytes }
    {
        self.bytes.as_slice()
    }

    /// Makes the write of that number fail, counted from 1 from now on.
    pub fn fail_at(&mut self, call: u64) -> Result<(), NoMemory>
        ensures ok { OnOk result (self.new ≡ record self.old { failing = self.old.failing ++ call ∷ [] }) }
        ensures err { OnErr result (self.new ≡ self.old) }
    {
        match self.failing.push(call) {
            Ok(()) => Ok(()),
            Err(_) => Err(NoMemory),
        }
    }
}

impl Sink for MemSink {
    ghost written = { λ s. Some s.bytes };

    ghost faults = { λ s. s.faults };

    /// As much of the piece as there is room for. It takes no memory.
    fn write(&mut self, piece: &[u8]) -> Result<usize, Failed>
        ensures fails { IsErr result ↔ (IsDue self.old.failing ⊎ ((0 < length piece.now) × (self.old.capacity ≤ length self.old.bytes))) }
        ensures count { IfOk result (λ n. n ≡ min (length piece.now) (self.old.capacity - length self.old.bytes)) }
        ensures some { 0 < length piece.now → IfOk result (λ n. 0 < n) }

        ensures ok { IfOk result (λ n. self.new ≡ record self.old { bytes = self.old.bytes ++ take n piece.now; failing = after_call self.old.failing }) }
        ensures err { OnErr result (self.new ≡ record self.old { failing = after_call self.old.failing; faults = next_count self.old.faults }) }
        ensures counts { self.old.faults ≤ self.new.faults }
    {
        if count_call(&mut self.failing) {
            self.faults = self.faults.saturating_add(1);
            return Err(Failed);
        }
        let count = piece.len().min(self.capacity - self.bytes.len());
        if count == 0 && !piece.is_empty() {
            self.faults = self.faults.saturating_add(1);
            return Err(Failed);
        }
        self.bytes.extend_from_slice(&piece[..count]).unwrap();
        Ok(count)
    }
}
