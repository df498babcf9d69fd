use segment_disk::{Failed, Memory};
use std::alloc::{AllocError, AllocFailed};

/// Why a row is not played.
#[derive(Clone, Copy, Debug)]
pub enum Halt {
    OutOfMemory,
    /// It asks for nothing that is known, or for something that cannot be done.
    NotUnderstood,
}

impl From<AllocError> for Halt {
    fn from(_: AllocError) -> Halt {
        Halt::OutOfMemory
    }
}

impl<T: Drop> From<AllocFailed<T>> for Halt {
    fn from(_: AllocFailed<T>) -> Halt {
        Halt::OutOfMemory
    }
}

impl From<Memory> for Halt {
    fn from(_: Memory) -> Halt {
        Halt::OutOfMemory
    }
}

impl From<Failed> for Halt {
    fn from(_: Failed) -> Halt {
        Halt::NotUnderstood
    }
}
