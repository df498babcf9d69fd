//! Why bytes are no record.

ghost use Rattle.std.specs.Prelude.{◌≡◌};
ghost use Rattle.wal_record.specs.declared.fault.RecErr.TheVariants as records;

use std::alloc::{AllocError, AllocFailed};
use thiserror::Error;

/// Which check of a record's bytes failed.
#[derive(Clone, Copy, Debug, PartialEq, Eq)]
pub enum RecKind {
    /// The first number is not the count of the bytes, or they are fewer than a header.
    Length,
    /// No manager has the record's number.
    Rmgr,
    /// No item begins with this byte.
    Id,
    /// An item that has its place before others stands behind one of them.
    Order,
    /// An item ends before its own header does.
    Short,
    /// A block's fork is none of the four.
    Fork,
    /// A block's flag for data and the data's length disagree.
    Data,
    /// An image's header is not that of a page of 8192 bytes.
    Image,
    /// The first block is said to have the relation of the block before it.
    Same,
    /// The bytes that are left are not those that the items promised.
    Fill,
}

/// Why bytes are no record: the first check that fails, or want of memory.
#[derive(Clone, Copy, Debug, PartialEq, Eq, Error)]
pub enum RecErr {
    #[error("out of memory")]
    Memory,
    /// `at` is an offset in the record's bytes.
    #[error("malformed at {at}: {kind:?}")]
    Malformed { at: u64, kind: RecKind },
    #[error("block {block} has a compressed image")]
    Compressed { block: u8 },
}

impl From<AllocError> for RecErr {
    ghost from_gives = { λ _ e. e ≡ records.Memory };

    fn from(_e: AllocError) -> RecErr {
        RecErr::Memory
    }
}

impl<T: Drop> From<AllocFailed<T>> for RecErr {
    ghost from_gives = { λ _ e. e ≡ records.Memory };

    fn from(_e: AllocFailed<T>) -> RecErr {
        RecErr::Memory
    }
}
