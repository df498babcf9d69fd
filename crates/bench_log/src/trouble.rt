//! Why the program ends with another status than 0.

use segment_disk::Memory;
use std::alloc::{AllocError, AllocFailed};
use std::io;
use thiserror::Error;

#[derive(Clone, Copy, Debug, PartialEq, Eq, Error)]
pub enum Trouble {
    #[error("usage: BACKENDS TIMES memory|files commits hard|async or inserts BYTES, or turns")]
    Usage,
    #[error("out of memory")]
    Memory,
    #[error("no log was opened")]
    Open,
    #[error("a commit or an insert was refused")]
    Refused,
    #[error("the standard output or the clock failed")]
    Stream,
}

impl From<AllocError> for Trouble {
    fn from(_e: AllocError) -> Trouble {
        Trouble::Memory
    }
}

impl<T: Drop> From<AllocFailed<T>> for Trouble {
    fn from(_e: AllocFailed<T>) -> Trouble {
        Trouble::Memory
    }
}

impl From<Memory> for Trouble {
    fn from(_e: Memory) -> Trouble {
        Trouble::Memory
    }
}

impl From<io::Error> for Trouble {
    fn from(_e: io::Error) -> Trouble {
        Trouble::Stream
    }
}
