// A sink over memory.
ghost use Rattle.std.specs.Prelude.{◌≡◌, ◌≤◌, ◌<◌, ◌++◌, ℕ, Some, None, length, take, vec_len, vec_capacity};
ghost use Rattle.std.specs.Prelude.{is_err, IsOk, IfOk, OnErr};
ghost use Rattle.run_terms.specs.Files.{Counts};
ghost use Rattle.mb_outside.specs.Calls.{next, one_more, part_of};
ghost use Rattle.mb_outside.specs.SinkState.{SinkState, empty_sink, room_left, is_write_refused};

use crate::calls::FailingCalls;
use crate::shelf::Failed;
use crate::sink::Sink;
use mb_base::NoMemory;
use std::alloc::Global;
use std::marker::Model;

/// A sink over memory that was reserved when it was made.
///
/// It tells the bytes that it took, and where `fails` is empty what is left of `room`. A write fails,
/// and raises the count by one, exactly where it is listed in `fails`, counted from 1, or where the
/// bytes would be more than `room`. It takes no memory.
#[derive(Drop)]
pub struct MemorySink {
    bytes: Vec<u8>,
    room: usize,
    most: usize,
    calls: FailingCalls,
    faults: u64,
}

impl Model for MemorySink {
    ghost Value = { SinkState };

    ghost view = { λ s. record { bytes = s.bytes.items; room = s.room; most = s.most; calls = s.calls; faults = s.faults } };

    ghost invariant = { λ s. (0 < s.most) × (vec_len s.bytes ≤ s.room) × (s.room ≤ vec_capacity s.bytes) };
}

impl MemorySink {
    /// A sink without bytes, with memory for `room` of them, or `NoMemory`. One write takes at most
    /// `most` bytes of its piece.
    pub fn of(
        alloc: Global,
        room: usize,
        most: usize,
        fails: Vec<u64>,
    ) -> Result<MemorySink, NoMemory>
        requires { 0 < most }
        ensures { IfOk result (λ sink. sink ≡ empty_sink room most fails.items) }
    {
        let bytes = Vec::with_capacity(alloc, room)?;
        Ok(MemorySink {
            bytes,
            room,
            most,
            calls: FailingCalls::of(fails),
            faults: 0,
        })
    }

    /// The bytes taken so far.
    pub fn bytes(&self) -> &[u8]
        ensures { result.now ≡ self.now.bytes }
    {
        &self.bytes
    }
}

impl Sink for MemorySink {
    ghost told = { λ sink. Some sink.bytes };

    ghost faults = { λ sink. sink.faults };

    ghost other = { λ _. 0 };

    ghost second = { λ _. 0 };

    ghost rest = { λ _. None };

    ghost room = { room_left };

    ghost other_spare = { λ _. None };

    ghost loan = { λ _. None };

    fn write(&mut self, piece: &[u8]) -> Result<usize, Failed>
        ensures some { IfOk result (λ count. count ≡ 0 → length piece.now ≡ 0) }
        ensures count { Counts self.old.faults self.new.faults result }
        ensures sure { (free : ℕ) → room_left self.old ≡ Some free → length piece.now ≤ free → IsOk result }
        ensures exact { is_err result ≡ is_write_refused self.old piece.now }
        ensures taken { IfOk result (λ count. count ≡ part_of self.old.most piece.now) }
        ensures after { IfOk result (λ count.
            self.new ≡ record self.old { bytes = self.old.bytes ++ take count piece.now; calls = next self.old.calls }) }
        ensures refused { OnErr result (
            self.new ≡ record self.old { calls = next self.old.calls; faults = one_more self.old.faults }) }
    {
        let count = self.most.min(piece.len());
        let left = self.room - self.bytes.len();
        if self.calls.fails_now() || count > left {
            self.faults = self.faults.saturating_add(1);
            return Err(Failed);
        }
        let (front, _) = piece.split_at(count);
        match self.bytes.extend_from_slice(front) {
            Ok(()) => Ok(count),
            Err(_) => unreachable!(),
        }
    }
}
