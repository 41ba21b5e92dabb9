ghost use Rattle.std.specs.Prelude.{◌≡◌, ◌+◌, ◌<◌, ◌≤◌, ◌↔◌, ◌++◌, Some, length, vec_len, vec_capacity, IsErr, IfOk};
ghost use Rattle.tydi_io.specs.Faults.{HasCause};
ghost use Rattle.tydi_io.specs.MemSink.{push_count, PushFails, sink_at_first, sink_after_push};

use crate::calls::Calls;
use crate::failed::Failed;
use crate::sink::Sink;
use std::alloc::Global;
use std::marker::Model;
use tydi_base::{List, Memory};

/// Room in memory for bytes, which takes a few at a time and fails exactly where it is to or where the room is full.
#[derive(Debug, Drop)]
pub struct MemSink {
    taken: Vec<u8>,
    room: usize,
    most: usize,
    calls: Calls,
}

impl Model for MemSink {
    ghost use Rattle.std.specs.Prelude.{◌≤◌, vec_len, vec_capacity};
    ghost use Rattle.tydi_io.specs.MemSink.{MemSinkState};

    ghost Value = { MemSinkState };

    ghost view = { λ s. record {
      taken = s.taken.items;
      room = s.room;
      most = s.most;
      failing = s.calls.failing;
      calls = s.calls.next;
      faults = s.calls.faults;
    } };

    ghost invariant = { λ s. (1 ≤ s.most) × (vec_len s.taken ≤ s.room) × (s.room ≤ vec_capacity s.taken) };
}

impl MemSink {
    /// A sink with room for so many bytes, of which it takes at most `most` with one push. The room is taken here, and no
    /// push takes memory. The pushes are numbered from 0, and the number stays at the greatest `u64` once it is reached. A
    /// push fails exactly where its number is in `failing`, or where the piece is not empty and no room is left.
    pub fn new(
        alloc: Global,
        room: usize,
        most: usize,
        failing: List<u64>,
    ) -> Result<MemSink, Memory>
        requires { 1 ≤ most }
        ensures { IfOk result (λ sink. sink ≡ sink_at_first room most failing) }
    {
        Ok(MemSink {
            taken: Vec::with_capacity(alloc, room)?,
            room,
            most,
            calls: Calls::new(failing),
        })
    }

    /// The bytes taken so far.
    pub fn taken(&self) -> &[u8]
        ensures { result.now ≡ self.now.taken }
    {
        self.taken.as_slice()
    }
}

impl Sink for MemSink {
    ghost taken = { λ sink. Some sink.taken };

    ghost faults = { λ sink. sink.faults };

    fn push(&mut self, piece: &[u8]) -> Result<usize, Failed>
        ensures fails { IsErr result ↔ PushFails self.old (length piece.now) }
        ensures count { IfOk result (λ n. n ≡ push_count self.old (length piece.now)) }
        ensures state { self.new ≡ sink_after_push self.old piece.now result }
        ensures within { IfOk result (λ n. n ≤ length piece.now) }
        ensures some { IfOk result (λ n. 0 < length piece.now → 0 < n) }
        ensures cause { HasCause self.old.faults self.new.faults result }
    {
        self.calls.count()?;
        let left = self.room - self.taken.len();
        if left == 0 && !piece.is_empty() {
            return Err(self.calls.fault());
        }
        let count = self.most.min(piece.len()).min(left);
        append(&mut self.taken, &piece[..count]);
        Ok(count)
    }
}

/// Adds bytes for which there is room.
fn append(taken: &mut Vec<u8>, bytes: &[u8])
    requires { vec_len taken.old + length bytes.now ≤ vec_capacity taken.old }
    ensures items { taken.new.items ≡ taken.old.items ++ bytes.now }
    ensures capacity { vec_capacity taken.old ≤ vec_capacity taken.new }
{
    let _ = taken.extend_from_slice(bytes);
}
