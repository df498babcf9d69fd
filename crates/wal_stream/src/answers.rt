use thiserror::Error;
use wal_types::Lsn;

/// What became of a frame that a standby can use.
#[derive(Clone, Copy, Debug, PartialEq, Eq)]
pub enum Accepted {
    /// The standby has the log up to there already.
    Old { upto: Lsn },
    /// The page was written, and the standby has the log up to there. It is durable behind
    /// `harden`.
    Taken { upto: Lsn },
}

/// Why a standby did not take a frame. But for `Disk` nothing changed.
#[derive(Clone, Copy, Debug, PartialEq, Eq, Error)]
pub enum StandbyErr {
    /// The bytes are no frame of the standby's segment size, or the page lies outside its segments.
    #[error("a bad frame")]
    Bad,
    /// The frame's page is not the next one: the standby's log ends before it, here.
    #[error("a gap in the log")]
    Gap { at: Lsn },
    /// The frame is of another log: here stands the first word that is not the standby's.
    #[error("a frame of another log")]
    Diverged { at: Lsn },
    /// The disk failed, and stood at this count of faults then.
    #[error("the disk failed")]
    Disk { faults: u64 },
}
