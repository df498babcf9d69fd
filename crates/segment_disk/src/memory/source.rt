// The source in memory: a list of bytes, and how many of them were handed out. It reads as much as
// there is room for, and fails at the listed calls alone.
ghost use Rattle.std.specs.Prelude.{◌≡◌, ◌≤◌, ◌<◌, [], ◌++◌, Some, take, drop, length, min, is_err, IfOk, OnErr, IfSome};
ghost use Rattle.segment_disk.specs.Cause.{HasCause};
ghost use Rattle.segment_disk.specs.Failing.{fails_next, after_next};
ghost use Rattle.segment_disk.specs.Stream.{Takes, ends_after};

use crate::ends_told::EndsTold;
use crate::failed::{Failed, count_fault};
use crate::memory::schedule::FailingCalls;
use crate::stream::Source;

/// A source of bytes in memory.
#[derive(Debug, Drop)]
pub struct MemSource {
    bytes: Vec<u8>,
    taken: usize,
    ends_told: EndsTold,
    schedule: FailingCalls,
    faults: u64,
    ghost within: { taken ≤ length bytes.items },
}

impl MemSource {
    ghost use Rattle.segment_disk.specs.MemStream.{source_failing};

    /// A source of these bytes. It fails at the calls that are listed by their numbers, from 1, and
    /// at these alone.
    pub fn new(bytes: Vec<u8>, fail: Vec<u64>) -> MemSource
        ensures left { ⟦<MemSource as Source>⟧.left result ≡ Some bytes.items }
        ensures handed { ⟦<MemSource as Source>⟧.handed result ≡ [] }
        ensures ends_told { ⟦<MemSource as Source>⟧.ends_told result ≡ 0 }
        ensures faults { ⟦<MemSource as Source>⟧.faults result ≡ 0 }
        ensures failing { source_failing result ≡ record { numbers = fail.items; made = 0 } }
    {
        MemSource {
            bytes,
            taken: 0,
            ends_told: EndsTold::new(),
            schedule: FailingCalls::new(fail),
            faults: 0,
        }
    }
}

impl Source for MemSource {
    ghost use Rattle.segment_disk.specs.MemStream.{source_left, source_handed, source_ends_told, source_faults, source_failing};

    ghost left = { source_left };

    ghost handed = { source_handed };

    ghost ends_told = { source_ends_told };

    ghost faults = { source_faults };

    fn read(&mut self, into: &mut [u8]) -> Result<usize, Failed>
        ensures within { IfOk result (λ n. n ≤ length into.old) }
        ensures handed { IfOk result
            (λ n. source_handed self.new ≡ source_handed self.old ++ take n into.new) }
        ensures none_handed { OnErr result (source_handed self.new ≡ source_handed self.old) }
        ensures taken { IfOk result
            (λ n. Takes (source_left self.old) (source_left self.new) n into.new) }
        ensures end { IfOk result (λ n. n ≡ 0 → 0 < length into.old
            → IfSome (source_left self.old) (λ bytes. bytes ≡ [])) }
        ensures ends_told { IfOk result (λ n. source_ends_told self.new
            ≡ ends_after (source_ends_told self.old) (length into.old) n) }
        ensures no_end_told { OnErr result (source_ends_told self.new ≡ source_ends_told self.old) }
        ensures failed { OnErr result (source_left self.new ≡ source_left self.old) }
        ensures cause { HasCause (source_faults self.old) (source_faults self.new) result }

        // It fails at the listed calls alone, and reads as much as there is room for.
        ensures fails { is_err result ≡ fails_next (source_failing self.old) }
        ensures failing { source_failing self.new ≡ after_next (source_failing self.old) }
        ensures count { IfOk result (λ n. IfSome (source_left self.old)
            (λ bytes. n ≡ min (length into.old) (length bytes))) }
    {
        if self.schedule.next_fails() {
            return Err(count_fault(&mut self.faults));
        }
        let rest = &self.bytes[self.taken..];
        let count = into.len().min(rest.len());
        into[..count].copy_from_slice(&rest[..count]);
        self.taken += count;
        self.ends_told.note(into.len(), count);
        Ok(count)
    }

    fn faults(&self) -> u64 {
        self.faults
    }
}
