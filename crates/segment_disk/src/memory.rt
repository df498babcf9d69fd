//! Bodies in memory of the source, the sink and the disk, for tests and as models of what the real
//! ones do. Each takes its memory when it is made, and fails at just the calls that it was told to,
//! or where its room is full; so what a run over them does is settled by what they were made with.

mod crash;
mod disk;
mod first;
mod pick;
mod reading;
mod record;
mod schedule;
mod segments;
mod sink;
mod source;
mod span;
mod taking;

ghost use Rattle.std.specs.Prelude.{◌≡◌};

pub use disk::MemDisk;
pub use pick::Pick;
pub use sink::MemSink;
pub use source::MemSource;
use std::alloc::{AllocError, AllocFailed};

/// Memory ran out.
#[derive(Clone, Copy, Debug, PartialEq, Eq)]
pub struct Memory;

impl From<AllocError> for Memory {
    fn from(_: AllocError) -> Self {
        Memory
    }
}

impl<T: Drop> From<AllocFailed<T>> for Memory {
    fn from(_: AllocFailed<T>) -> Self {
        Memory
    }
}
