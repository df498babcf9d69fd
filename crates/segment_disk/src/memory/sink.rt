// The sink in memory: it keeps what it takes, as far as its room goes, which is taken when it is
// made. It takes as much as there is room for, and fails at the listed calls and where it is full.
ghost use Rattle.std.specs.Prelude.{◌≡◌, ◌≤◌, ◌<◌, [], Some, length, take, min, is_err, IfOk, OnErr, vec_capacity};
ghost use Rattle.segment_disk.specs.Cause.{HasCause};
ghost use Rattle.segment_disk.specs.Failing.{after_next};
ghost use Rattle.segment_disk.specs.Stream.{with_behind};

use crate::failed::{Failed, count_fault};
use crate::memory::Memory;
use crate::memory::schedule::FailingCalls;
use crate::stream::Sink;
use std::alloc::Global;

/// A sink in memory, which keeps what it takes.
#[derive(Debug, Drop)]
pub struct MemSink {
    bytes: Vec<u8>,
    size: usize,
    schedule: FailingCalls,
    faults: u64,
    ghost within: { length bytes.items ≤ size },
    ghost roomy: { size ≤ vec_capacity bytes },
}

impl MemSink {
    ghost use Rattle.segment_disk.specs.MemStream.{sink_failing, sink_size};

    /// A sink with room for this many bytes. It fails at the calls that are listed by their
    /// numbers, from 1, and where its room is full.
    pub fn new(alloc: Global, size: usize, fail: Vec<u64>) -> Result<MemSink, Memory>
        ensures taken { IfOk result (λ sink. ⟦<MemSink as Sink>⟧.taken sink ≡ Some []) }
        ensures faults { IfOk result (λ sink. ⟦<MemSink as Sink>⟧.faults sink ≡ 0) }
        ensures failing { IfOk result
            (λ sink. sink_failing sink ≡ record { numbers = fail.items; made = 0 }) }
        ensures size { IfOk result (λ sink. sink_size sink ≡ size) }
    {
        Ok(MemSink {
            bytes: Vec::with_capacity(alloc, size)?,
            size,
            schedule: FailingCalls::new(fail),
            faults: 0,
        })
    }

    /// What was taken.
    pub fn taken(&self) -> &[u8]
        ensures { ⟦<MemSink as Sink>⟧.taken self.now ≡ Some result.now }
    {
        self.bytes.as_slice()
    }
}

impl Sink for MemSink {
    ghost use Rattle.segment_disk.specs.MemStream.{sink_taken, sink_faults, sink_failing, sink_size, sink_room, refuses};

    ghost taken = { sink_taken };

    ghost faults = { sink_faults };

    fn write(&mut self, from: &[u8]) -> Result<usize, Failed>
        ensures within { IfOk result (λ n. n ≤ length from.now) }
        ensures some { IfOk result (λ n. 0 < length from.now → 0 < n) }
        ensures taken { IfOk result
            (λ n. sink_taken self.new ≡ with_behind (sink_taken self.old) (take n from.now)) }
        ensures failed { OnErr result (sink_taken self.new ≡ sink_taken self.old) }
        ensures cause { HasCause (sink_faults self.old) (sink_faults self.new) result }

        // It fails at the listed calls and where it is full, and takes as much as there is room
        // for.
        ensures fails { is_err result ≡ refuses self.old (length from.now) }
        ensures failing { sink_failing self.new ≡ after_next (sink_failing self.old) }
        ensures count { IfOk result (λ n. n ≡ min (length from.now) (sink_room self.old)) }
        ensures size { sink_size self.new ≡ sink_size self.old }
    {
        if self.schedule.next_fails() {
            return Err(count_fault(&mut self.faults));
        }
        let room = self.size - self.bytes.len();
        if room == 0 && !from.is_empty() {
            return Err(count_fault(&mut self.faults));
        }
        let count = from.len().min(room);
        self.bytes.extend_from_slice(&from[..count]).unwrap();
        Ok(count)
    }

    fn faults(&self) -> u64 {
        self.faults
    }
}
