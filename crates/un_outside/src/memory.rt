//! The outside in memory, for tests and for callers that have the bytes at hand.

ghost use Rattle.std.specs.Prelude.{◌≡◌, ℕ, ◌+◌, ◌-◌, ◌<◌, ◌≤◌, ◌^◌, ◌++◌, ◌⊎◌, min, List, Option, Some, None, [], length, take, drop};
ghost use Rattle.std.specs.Prelude.{true, false, IfOk, IfSome, IsErr, vec_capacity};
ghost use Rattle.std.specs.Io.{ReadsAtMost, WritesAtMost};
ghost use Rattle.std.specs.Io.KnownBytes.{ReadConsumes, WriteAppends};
ghost use Rattle.un_outside.specs.Causes.{HasCause, HasWriteCause};

use crate::outside::{Failed, Sink, Source};
use std::alloc::Global;
use un_base::memory_error::NoMemory;

/// Copies what stands in `bytes` from `at` on into the front of `buf`, at most `piece` bytes, and answers how many.
fn copy_front(bytes: &[u8], at: usize, piece: usize, buf: &mut [u8]) -> usize
    requires within { at ≤ length bytes.now }
    requires some { 0 < piece }
    ensures count { result ≡ min (min (length bytes.now - at) piece) (length buf.old) }
    ensures fits { result ≤ length buf.new }
    ensures stays { at + result ≤ length bytes.now }
    ensures front { drop at bytes.now ≡ take result buf.new ++ drop (at + result) bytes.now }
    ensures end { result ≡ 0 → 0 < length buf.new → drop (at + result) bytes.now ≡ [] }
{
    let rest = &bytes[at..];
    let count = rest.len().min(piece).min(buf.len());
    buf[..count].copy_from_slice(&rest[..count]);
    count
}

/// A source over bytes in memory. It gives at most `piece` bytes a call, and the calls whose numbers, from 0, stand in
/// `fails` fail.
#[derive(Drop)]
pub struct MemSource {
    bytes: Vec<u8>,
    at: usize,
    piece: usize,
    fails: Vec<u64>,
    calls: u64,
    faults: u64,
    ghost within: { at ≤ length bytes.items },
    ghost gives: { 0 < piece },
}

impl MemSource {
    ghost use Rattle.un_outside.specs.Memory.{source_piece, source_fails};

    /// The source that has these bytes left and was not called yet. `piece` is at least 1.
    pub fn new(bytes: Vec<u8>, piece: usize, fails: Vec<u64>) -> MemSource
        requires { 0 < piece }
        ensures left { ⟦<MemSource as Source>⟧.left result ≡ Some bytes.items }
        ensures calls { ⟦<MemSource as Source>⟧.calls result ≡ 0 }
        ensures faults { ⟦<MemSource as Source>⟧.faults result ≡ 0 }
        ensures piece { source_piece result ≡ piece }
        ensures fails { source_fails result ≡ fails.items }
    {
        MemSource {
            bytes,
            at: 0,
            piece,
            fails,
            calls: 0,
            faults: 0,
        }
    }
}

impl Source for MemSource {
    ghost use Rattle.un_outside.specs.Memory.{source_left, source_faults, source_calls, source_piece, source_fails, source_fails_next};
    ghost use Rattle.un_outside.specs.Memory.{source_gives_next};

    ghost left = { source_left };

    ghost faults = { source_faults };

    ghost calls = { source_calls };

    /// Fails exactly where the number of this call was named, and else gives as many bytes as the piece, what is left
    /// and the buffer allow.
    fn read(&mut self, buf: &mut [u8]) -> Result<usize, Failed>
        ensures bound { ReadsAtMost result buf.new }
        ensures bytes { ReadConsumes (source_left self.old) (source_left self.new) result buf.new }
        ensures cause { HasCause (source_faults self.old) (source_faults self.new) result }
        ensures call { source_calls self.new ≡ min (source_calls self.old + 1) (2 ^ 64 - 1) }

        // Which calls fail, and how many bytes the others give.
        ensures fails { source_fails_next self.old ≡ true → IsErr result }
        ensures gives { source_fails_next self.old ≡ false → result ≡ Ok (source_gives_next self.old (length buf.old)) }
        ensures same_piece { source_piece self.new ≡ source_piece self.old }
        ensures same_fails { source_fails self.new ≡ source_fails self.old }
    {
        let call = self.calls;
        self.calls = call.saturating_add(1);
        if self.fails.contains(&call) {
            self.faults = self.faults.saturating_add(1);
            return Err(Failed);
        }
        let count = copy_front(&self.bytes, self.at, self.piece, buf);
        self.at += count;
        Ok(count)
    }
}

/// A source over bytes in memory that never fails and gives all that fits.
#[derive(Drop)]
pub struct SureSource {
    bytes: Vec<u8>,
    at: usize,
    ghost within: { at ≤ length bytes.items },
}

impl SureSource {
    /// The source that has these bytes left.
    pub fn new(bytes: Vec<u8>) -> SureSource
        ensures left { ⟦<SureSource as Source>⟧.left result ≡ Some bytes.items }
    {
        SureSource { bytes, at: 0 }
    }
}

impl Source for SureSource {
    ghost left = { λ s. Some (drop s.at s.bytes.items) };

    ghost faults = { λ s. 0 };

    ghost calls = { λ s. 0 };

    fn read(&mut self, buf: &mut [u8]) -> Result<usize, Failed> {
        let count = copy_front(&self.bytes, self.at, usize::MAX, buf);
        self.at += count;
        Ok(count)
    }
}

/// A sink in memory. It takes at most `piece` bytes a call and holds at most `room`. The calls whose numbers, from 0,
/// stand in `fails` fail, and so does a call on a full sink.
#[derive(Drop)]
pub struct MemSink {
    bytes: Vec<u8>,
    room: usize,
    piece: usize,
    fails: Vec<u64>,
    calls: u64,
    faults: u64,
    ghost within: { length bytes.items ≤ room },
    ghost reserved: { room ≤ vec_capacity bytes },
    ghost takes: { 0 < piece },
}

impl MemSink {
    ghost use Rattle.un_outside.specs.Memory.{sink_room, sink_piece, sink_fails};

    /// The sink that holds nothing and was not called yet. It takes memory for `room` bytes at once, so a write takes
    /// none. `piece` is at least 1.
    ///
    /// # Errors
    /// `NoMemory` where there is no memory for `room` bytes.
    pub fn new(
        alloc: Global,
        room: usize,
        piece: usize,
        fails: Vec<u64>,
    ) -> Result<MemSink, NoMemory>
        requires { 0 < piece }
        ensures held { IfOk result (λ s. ⟦<MemSink as Sink>⟧.held s ≡ Some []) }
        ensures calls { IfOk result (λ s. ⟦<MemSink as Sink>⟧.calls s ≡ 0) }
        ensures faults { IfOk result (λ s. ⟦<MemSink as Sink>⟧.faults s ≡ 0) }
        ensures room { IfOk result (λ s. sink_room s ≡ room) }
        ensures piece { IfOk result (λ s. sink_piece s ≡ piece) }
        ensures fails { IfOk result (λ s. sink_fails s ≡ fails.items) }
    {
        let bytes = Vec::with_capacity(alloc, room)?;
        Ok(MemSink {
            bytes,
            room,
            piece,
            fails,
            calls: 0,
            faults: 0,
        })
    }

    /// The bytes that it holds.
    pub fn bytes(&self) -> &[u8]
        ensures { ⟦<MemSink as Sink>⟧.held self.now ≡ Some result.now }
    {
        self.bytes.as_slice()
    }
}

impl Sink for MemSink {
    ghost use Rattle.un_outside.specs.Memory.{sink_held, sink_faults, sink_calls, sink_room, sink_piece, sink_fails, sink_is_full};
    ghost use Rattle.un_outside.specs.Memory.{sink_fails_next, sink_takes_next};

    ghost held = { sink_held };

    ghost faults = { sink_faults };

    ghost calls = { sink_calls };

    ghost piece = { λ s. Some s.piece };

    ghost is_full = { sink_is_full };

    /// Fails exactly where the number of this call was named or the sink is full, and else takes as many bytes as the
    /// piece and the room allow.
    fn write(&mut self, bytes: &[u8]) -> Result<usize, Failed>
        ensures bound { WritesAtMost result bytes.now }
        ensures bytes { WriteAppends (sink_held self.old) (sink_held self.new) result bytes.now }
        ensures cause { HasWriteCause (sink_faults self.old) (sink_faults self.new) result (length bytes.now) }
        ensures call { sink_calls self.new ≡ min (sink_calls self.old + 1) (2 ^ 64 - 1) }
        ensures paced { IfOk result (λ n. (min (length bytes.now) (sink_piece self.old) ≤ n) ⊎ (sink_is_full self.new ≡ true)) }

        // Which calls fail, and how many bytes the others take.
        ensures fails { sink_fails_next self.old ≡ true → IsErr result }
        ensures full { sink_is_full self.old ≡ true → IsErr result }
        ensures takes { sink_fails_next self.old ≡ false → sink_is_full self.old ≡ false
            → result ≡ Ok (sink_takes_next self.old (length bytes.now)) }
        ensures same_room { sink_room self.new ≡ sink_room self.old }
        ensures same_piece { sink_piece self.new ≡ sink_piece self.old }
        ensures same_fails { sink_fails self.new ≡ sink_fails self.old }
    {
        let call = self.calls;
        self.calls = call.saturating_add(1);
        if self.fails.contains(&call) || self.bytes.len() == self.room {
            self.faults = self.faults.saturating_add(1);
            return Err(Failed);
        }
        let count = bytes
            .len()
            .min(self.piece)
            .min(self.room - self.bytes.len());
        match self.bytes.extend_from_slice(&bytes[..count]) {
            Ok(()) => Ok(count),
            Err(_) => {
                self.faults = self.faults.saturating_add(1);
                Err(Failed)
            }
        }
    }
}
