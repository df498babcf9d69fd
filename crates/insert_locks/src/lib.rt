//! Insertion locks, as their users take them, tell under them, give them back and watch them
//! (PostgreSQL's xlog.c, WALInsertLockAcquire, WALInsertLockUpdateInsertingAt,
//! WALInsertLockRelease, WaitXLogInsertionsToFinish).
//!
//! A lock's word is 0 if the lock is free, 1 if it is held and its holder has told no progress,
//! else one more than an address below which all is copied under it. Anybody takes a lock that is
//! free. Then its holder alone stores the word: its progress, and 0 once nothing is left to copy. A
//! record is reserved and copied under one lock, a segment switch under all eight, and they are
//! taken first. So who loads the reserved end and then visits all eight misses no copy below that
//! end that is not done.
#![tactic(auto)]

mod holding;
pub mod laws;
mod numbers;
mod seeing;
mod taking;
mod watching;

pub use holding::{advance, advance_below, release, release_below};
pub use numbers::LockNo;
pub use seeing::{see_end, see_reserved};
pub use taking::{AllHeld, try_take, try_take_lock};
pub use watching::{Watched, watch};
