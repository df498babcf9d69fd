//! What the calls of a write-ahead log answer: positions, moments of its disk, and why a call was
//! refused.

use crate::lsn::Lsn;

/// An insert's answer: where its record starts and where it ends, at the end form of its last byte.
#[derive(Clone, Copy, Debug, PartialEq, Eq)]
pub struct Receipt {
    pub start: Lsn,
    pub end: Lsn,
}

/// A flush's answer: all below a position is durable from this moment of the disk on. A moment is
/// the number of counted calls that the disk has answered.
#[derive(Clone, Copy, Debug, PartialEq, Eq)]
pub struct Hard {
    pub upto: Lsn,
    pub moment: u64,
}

/// A commit's answer: where its record starts and ends, and the moment of the disk from which on
/// it is durable.
#[derive(Clone, Copy, Debug, PartialEq, Eq)]
pub struct Sealed {
    pub start: Lsn,
    pub end: Lsn,
    pub moment: u64,
}

/// Why a call was refused.
#[derive(Clone, Copy, Debug, PartialEq, Eq)]
pub enum Cause {
    /// The log has fewer bytes left than the record takes up: how many.
    Full { free: u64 },
    /// A device call failed in this call: the disk's count of faults then.
    Disk { faults: u64 },
    /// A device call failed before: the disk's count of faults then.
    Down { faults: u64 },
}

/// Nothing is told to be durable; where a record was reserved all the same, its start.
#[derive(Clone, Copy, Debug, PartialEq, Eq)]
pub struct Refused {
    pub cause: Cause,
    pub reserved: Option<Lsn>,
}
