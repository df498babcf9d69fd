//! Why reading a record does not go on. What is told is of the log; want of memory and a fault of
//! the disk are of this step alone, and the next one tries again.

use crate::found::Answer;
use segment_disk::Failed;
use std::alloc::AllocError;

/// Why a step of reading does not go on.
#[derive(Clone, Copy, Debug)]
pub(crate) enum ReadFailure {
    /// What stands where no record does.
    Told(Answer),
    Memory,
    /// The disk failed.
    Disk,
}

impl From<Answer> for ReadFailure {
    ghost use Rattle.std.specs.Prelude.{◌≡◌};
    ghost use Rattle.wal_reader.specs.declared.read_failure.ReadFailure.TheVariants as failures;

    ghost from_gives = { λ answer failure. failure ≡ failures.Told answer };

    fn from(answer: Answer) -> ReadFailure {
        ReadFailure::Told(answer)
    }
}

impl From<AllocError> for ReadFailure {
    ghost use Rattle.std.specs.Prelude.{◌≡◌};
    ghost use Rattle.wal_reader.specs.declared.read_failure.ReadFailure.TheVariants as failures;

    ghost from_gives = { λ _ failure. failure ≡ failures.Memory };

    fn from(_error: AllocError) -> ReadFailure {
        ReadFailure::Memory
    }
}

impl From<Failed> for ReadFailure {
    ghost use Rattle.std.specs.Prelude.{◌≡◌};
    ghost use Rattle.wal_reader.specs.declared.read_failure.ReadFailure.TheVariants as failures;

    ghost from_gives = { λ _ failure. failure ≡ failures.Disk };

    fn from(_failed: Failed) -> ReadFailure {
        ReadFailure::Disk
    }
}
