//! A sink in memory.

ghost use Rattle.std.specs.Prelude.{◌≡◌, ◌+◌, ◌++◌, ◌-◌, ◌≤◌, [], length, take, vec_capacity, IfOk};
ghost use Rattle.edge_io.specs.Memory.{WriteAnswer, after_write, count_taken, one_up, sink_state};
ghost use Rattle.edge_io.specs.Numbered.{has_call};

use crate::calls::{Calls, has_call};
use crate::counts::one_up;
use crate::sink::{Failed, Sink};
use std::alloc::{AllocError, Global};
use std::marker::Model;

/// A sink that keeps what is written, up to a room given at the start. Its calls are numbered from 0.
#[derive(Drop)]
pub struct MemSink {
    bytes: Vec<u8>,
    room: usize,
    fail: Calls,
    none: Calls,
    calls: u64,
    faults: u64,
}

impl Model for MemSink {
    ghost use Rattle.std.specs.Prelude.{◌≤◌, length, vec_capacity};
    ghost use Rattle.edge_io.specs.Memory.{MemSinkState};

    ghost Value = { MemSinkState };

    ghost view = { λ s. record { bytes = s.bytes.items; room = s.room; fail = s.fail; none = s.none; calls = s.calls; faults = s.faults } };

    ghost invariant = { λ s. (length s.bytes.items ≤ s.room) × (s.room ≤ vec_capacity s.bytes) };
}

impl MemSink {
    /// A sink with room for so many bytes, which takes its memory at once. The calls numbered in `fail` fail, those in
    /// `none` take nothing.
    pub fn new(alloc: Global, room: u32, fail: Calls, none: Calls) -> Result<MemSink, AllocError>
        ensures { IfOk result (λ sink. sink ≡ record { bytes = []; room = room; fail = fail; none = none; calls = 0; faults = 0 }) }
    {
        let room = room as usize;
        Ok(MemSink {
            bytes: Vec::with_capacity(alloc, room)?,
            room,
            fail,
            none,
            calls: 0,
            faults: 0,
        })
    }

    /// What was written.
    pub fn bytes(&self) -> &[u8]
        ensures { result.now ≡ self.now.bytes }
    {
        self.bytes.as_slice()
    }
}

impl Sink for MemSink {
    ghost state = { sink_state };

    ghost called = { λ s piece answer t. t ≡ after_write s answer piece };

    fn write(&mut self, piece: &[u8]) -> Result<usize, Failed>
        ensures answer { WriteAnswer result (has_call self.old.fail self.old.calls) (has_call self.old.none self.old.calls) (self.old.room - length self.old.bytes) piece.now }
        ensures after { self.new ≡ after_write self.old result piece.now }
    {
        let call = self.calls;
        let left = self.room - self.bytes.len();
        self.calls = one_up(call);
        if has_call(&self.fail, call) {
            self.faults = one_up(self.faults);
            return Err(Failed);
        }
        let taken = count_taken(has_call(&self.none, call), left, piece);
        if taken == 0 && !piece.is_empty() {
            self.faults = one_up(self.faults);
        }
        append_within(&mut self.bytes, &piece[..taken]);
        Ok(taken)
    }
}

/// How much of a piece is taken: none of it, or as much as there is room for.
pub(crate) fn count_taken(none: bool, left: usize, piece: &[u8]) -> usize
    ensures count { result ≡ count_taken none left piece.now }
    ensures room { result ≤ left }
    ensures size { result ≤ length piece.now }
{
    if none { 0 } else { piece.len().min(left) }
}

/// Appends within the capacity, so that no memory is taken.
pub(crate) fn append_within(bytes: &mut Vec<u8>, piece: &[u8])
    requires { length bytes.old.items + length piece.now ≤ vec_capacity bytes.old }
    ensures items { bytes.new.items ≡ bytes.old.items ++ piece.now }
    ensures capacity { vec_capacity bytes.old ≤ vec_capacity bytes.new }
{
    match bytes.extend_from_slice(piece) {
        Ok(()) => {}
        Err(_) => unreachable!(),
    }
}
