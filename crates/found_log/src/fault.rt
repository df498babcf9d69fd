use thiserror::Error;
use wal_reader::Stopped;

/// Why a log is not gone on with.
#[derive(Clone, Copy, Debug, PartialEq, Eq, Error)]
pub enum FindFault {
    /// There was no memory.
    #[error("out of memory")]
    Memory,
    /// The disk failed, and stood at this count of faults then.
    #[error("the disk failed")]
    Disk { faults: u64 },
    /// A segment is there behind the last one that the log may have.
    #[error("the log is beyond its last segment")]
    Beyond { segment: u64 },
    /// The log stops as no crash of this program lets one stop.
    #[error("{0}")]
    Foreign(Stopped),
}
