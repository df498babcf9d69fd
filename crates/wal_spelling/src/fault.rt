//! Why a record is not assembled.

ghost use Rattle.std.specs.Prelude.{◌≡◌};
ghost use Rattle.wal_spelling.specs.declared.fault.BodyErr.TheVariants as bodies;

use std::alloc::{AllocError, AllocFailed};
use thiserror::Error;

/// Why a record cannot be assembled: of those that hold, the one that stands last here. `Memory`
/// comes whenever memory runs out.
#[derive(Clone, Copy, Debug, PartialEq, Eq, Error)]
pub enum BodyErr {
    #[error("out of memory")]
    Memory,
    /// More than 1,048,576 bytes: the record's size.
    #[error("a record of {len} bytes is too long")]
    TooLong { len: u64 },
    /// The first block that is not right.
    #[error("block {index} of the record is not right")]
    BadBlock { index: u32 },
    /// A switch of segments is no record to assemble.
    #[error("a segment switch is no record to insert")]
    Switch,
    /// No manager has this number.
    #[error("no manager has the number {rmid}")]
    BadRmgr { rmid: u8 },
}

impl From<AllocError> for BodyErr {
    ghost from_gives = { λ _ e. e ≡ bodies.Memory };

    fn from(_e: AllocError) -> BodyErr {
        BodyErr::Memory
    }
}

impl<T: Drop> From<AllocFailed<T>> for BodyErr {
    ghost from_gives = { λ _ e. e ≡ bodies.Memory };

    fn from(_e: AllocFailed<T>) -> BodyErr {
        BodyErr::Memory
    }
}
