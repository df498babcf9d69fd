// How far the host has come, for everybody but the disk and the host.
use crate::words::QueueWords;
use segment_disk::Memory;
use std::alloc::Global;
use std::sync::Arc;
use std::sync::atomic::{AtomicIn, Ordering, Rule};

/// What anybody may ask of a hosted disk at any time.
#[derive(Drop)]
pub struct HostProgress<H: Rule> {
    pub(crate) made: Arc<AtomicIn<H>, Global>,
    pub(crate) words: Arc<QueueWords, Global>,
    pub(crate) capacity: u64,
}

impl<H: Rule> HostProgress<H> {
    /// How many calls the host has said to have made.
    pub fn made(&self) -> u64
        ensures { H.invariant result }
    {
        self.made.load(Ordering::SeqCst)
    }

    /// Whether the queue has room for so many calls more. It is so still when they are made, if
    /// nobody else calls the disk in between: what the host takes only makes room.
    pub fn has_room(&self, calls: u64) -> bool {
        let taken = self.words.taken.load(Ordering::SeqCst);
        let queued = self.words.queued.load(Ordering::SeqCst);
        queued.saturating_sub(taken).saturating_add(calls) <= self.capacity
    }

    /// Whether the host has said that a call failed.
    pub fn has_failed(&self) -> bool {
        self.words.failed.load(Ordering::SeqCst) != 0
    }

    /// Another one, for somebody else.
    pub fn share(&self) -> Result<HostProgress<H>, Memory> {
        Ok(HostProgress {
            made: Arc::try_clone(&self.made)?,
            words: Arc::try_clone(&self.words)?,
            capacity: self.capacity,
        })
    }
}
