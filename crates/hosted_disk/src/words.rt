// What the two ends of the queue and all others tell each other beside the calls. Each word has one
// writer, and only rises.
use std::sync::atomic::AtomicU64;

// `queued` the disk alone stores, the others the host. `failed` is 1 once a call of the host's has
// failed, else 0.
#[derive(Drop)]
pub(crate) struct QueueWords {
    pub queued: AtomicU64,
    pub taken: AtomicU64,
    pub failed: AtomicU64,
}

impl QueueWords {
    pub fn new() -> QueueWords {
        QueueWords {
            queued: AtomicU64::new(0),
            taken: AtomicU64::new(0),
            failed: AtomicU64::new(0),
        }
    }
}
