// What the host has of the disk: the calls, which it takes in the order in which they were queued,
// and by which it says how many it has made. It acknowledges at most what it has taken. Behind a
// call that failed it is handed out nothing, and can acknowledge nothing more: the failed call may
// have had its effect or not, as one that a crash cut short, and of those behind it none is made.
ghost use Rattle.std.specs.Prelude.{◌≡◌, ◌≤◌, ◌<◌, length};
ghost use Rattle.rtrb.specs.Ring.{received};

use crate::disk::HostedDisk;
use crate::words::QueueWords;
use rtrb::Consumer;
use segment_disk::Call;
use std::alloc::Global;
use std::sync::Arc;
use std::sync::atomic::{AtomicIn, Ordering, Rule};

/// The host's end of the queue. `H` is what the host says by acknowledging so many calls
/// (`H.invariant`): whoever is told of them later knows that of the number told.
#[derive(Drop)]
pub struct HostCalls<H: Rule> {
    pub(crate) queue: Consumer<Call>,
    pub(crate) made: Arc<AtomicIn<H>, Global>,
    pub(crate) words: Arc<QueueWords, Global>,
    pub(crate) taken: u64,
    pub(crate) acknowledged: u64,
    pub(crate) failed: bool,
    ghost counts: { taken ≡ length (received queue) },
    ghost within: { acknowledged ≤ taken },
}

impl<H: Rule> HostCalls<H> {
    ghost use Rattle.std.specs.Prelude.{◌≡◌, ◌≤◌, ◌++◌, [], ◌∷◌, None, true, false, IfSome, MatchOption, length};
    ghost use mathlib.Core.List.{IsPrefix};
    ghost use Rattle.hosted_disk.specs.Hosted.{GoesOnTaking, HasBothEnds, calls_queued, calls_seen, calls_taken, has_failed};

    /// How many calls are to be taken now.
    pub fn look(&mut self) -> usize
        ensures seen { result ≡ length (calls_seen self.new) }
        ensures taken { calls_taken self.new ≡ calls_taken self.old }
        ensures goes_on { GoesOnTaking self.old self.new }
    {
        self.queue.slots()
    }

    /// The next call to make, as it stands in the queue, if one was seen there (`look`).
    pub fn next(&self) -> Option<&Call>
        ensures { MatchOption result (calls_seen self.now ≡ [])
            (λ call. IsPrefix (call.now ∷ []) (calls_seen self.now)) }
    {
        if self.queue.cached_slots() == 0 {
            return None;
        }
        Some(self.queue.peek_known())
    }

    /// Takes the next call out of the queue. It is the host's to make, once it has made those
    /// before.
    pub fn take(&mut self) -> Option<Call>
        // Each is taken once, in order: what was seen in the queue comes out as it was seen.
        ensures taken { MatchOption result (calls_taken self.new ≡ calls_taken self.old)
            (λ call. (calls_taken self.new ≡ calls_taken self.old ++ call ∷ [])
            × IsPrefix (calls_seen self.old) (call ∷ calls_seen self.new)) }
        ensures none { has_failed self.old ≡ true → result ≡ None }
        ensures goes_on { GoesOnTaking self.old self.new }
    {
        if self.failed || self.taken == u64::MAX {
            return None;
        }
        let call = self.queue.pop().ok()?;
        self.taken += 1;
        self.words.taken.store(self.taken, Ordering::SeqCst);
        Some(call)
    }

    /// How many calls were taken.
    pub fn taken(&self) -> u64
        ensures { result ≡ length (calls_taken self.now) }
    {
        self.taken
    }

    /// How many the host has said to have made.
    pub fn acknowledged(&self) -> u64
        ensures told { result ≡ self.now.acknowledged }
        ensures within { result ≤ length (calls_taken self.now) }
    {
        self.acknowledged
    }

    /// Whether the host has said that a call failed.
    pub fn has_failed(&self) -> bool
        ensures { result ≡ has_failed self.now }
    {
        self.failed
    }

    /// The host says that it has made so many calls in all, the first ones taken, and that each of
    /// them answered Ok.
    pub fn acknowledge(&mut self, count: u64)
        requires up { has_failed self.old ≡ false }
        requires rises { self.old.acknowledged ≤ count }
        requires taken { count ≤ length (calls_taken self.old) }
        requires made { H.invariant count }
        ensures acknowledged { self.new.acknowledged ≡ count }
        ensures taken { calls_taken self.new ≡ calls_taken self.old }
        ensures up { has_failed self.new ≡ false }
    {
        self.acknowledged = count;
        self.made.store(count, Ordering::SeqCst);
    }

    /// The host says that a call which it took has failed. It is handed out no other, and the log
    /// goes down at its next call of the disk.
    pub fn fail(&mut self)
        ensures failed { has_failed self.new ≡ true }
        ensures taken { calls_taken self.new ≡ calls_taken self.old }
        ensures acknowledged { self.new.acknowledged ≡ self.old.acknowledged }
    {
        self.failed = true;
        self.words.failed.store(1, Ordering::SeqCst);
    }

    /// `look` with the disk at hand: what was taken, and then what is in the queue, are the calls
    /// of the disk's tape.
    pub fn look_beside(&mut self, disk: &mut HostedDisk) -> usize
        requires { HasBothEnds disk.old self.old }
        ensures seen { result ≡ length (calls_seen self.new) }
        ensures tape { calls_queued disk.new ≡ calls_taken self.new ++ calls_seen self.new }
        ensures same { calls_queued disk.new ≡ calls_queued disk.old }
        ensures taken { calls_taken self.new ≡ calls_taken self.old }
        ensures ends { HasBothEnds disk.new self.new }
        ensures goes_on { GoesOnTaking self.old self.new }
    {
        self.queue.slots_beside(&mut disk.queue)
    }
}
