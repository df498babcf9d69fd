//! Why a change was refused, and why no map was opened.

ghost use Rattle.std.specs.Prelude.{◌≡◌};
ghost use Rattle.durable_map.specs.declared.fault.ChangeErr.TheVariants as changes;
ghost use Rattle.durable_map.specs.declared.fault.MapFaultKind.TheVariants as kinds;

use std::alloc::AllocError;
use wal_log::{CommitErr, OpenFaultKind};
use wal_types::Lsn;

/// Why a change was not answered as durable. The map is as it was.
#[derive(Clone, Copy, Debug, PartialEq, Eq)]
pub enum ChangeErr {
    /// There is no memory. Nothing was logged.
    Memory,
    /// The key or the value has more bytes than `LONGEST`. Nothing was logged.
    TooLong,
    /// The log refused the commit. Where its record was reserved all the same, it may be found when
    /// the map is opened again.
    Refused(CommitErr),
}

impl From<AllocError> for ChangeErr {
    ghost from_gives = { λ _ e. e ≡ changes.Memory };

    fn from(_e: AllocError) -> ChangeErr {
        ChangeErr::Memory
    }
}

impl From<CommitErr> for ChangeErr {
    ghost from_gives = { λ refused e. e ≡ changes.Refused refused };

    fn from(refused: CommitErr) -> ChangeErr {
        ChangeErr::Refused(refused)
    }
}

/// Why no map was opened. The disk comes back.
#[derive(Drop)]
pub struct MapFault<D> {
    pub disk: D,
    pub kind: MapFaultKind,
}

#[derive(Clone, Copy, Debug, PartialEq, Eq)]
pub enum MapFaultKind {
    /// There was no memory while the log was read.
    Memory,
    /// The disk failed while the log was read, and stood at this count of faults then.
    Disk { faults: u64 },
    /// The record at this place says no change.
    NoChange { at: Lsn },
    /// The log was read, if segments can have the size asked for, and not reopened.
    Log(OpenFaultKind),
}

impl From<AllocError> for MapFaultKind {
    ghost from_gives = { λ _ e. e ≡ kinds.Memory };

    fn from(_e: AllocError) -> MapFaultKind {
        MapFaultKind::Memory
    }
}
