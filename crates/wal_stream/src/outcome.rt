use wal_types::Lsn;

/// What became of the frames that came: how many of them had each answer of a standby. One that
/// ended it, as of another log or at a fault of the disk, is counted nowhere.
#[derive(Clone, Copy, Debug, PartialEq, Eq)]
pub struct FrameCounts {
    pub taken: u64,
    pub old: u64,
    pub gap: u64,
    pub bad: u64,
}

/// Why no more frames are taken.
#[derive(Clone, Copy, Debug, PartialEq, Eq)]
pub enum ReceivingEnd {
    /// The source was read to its end.
    Source,
    /// A byte came behind 1,048,576 frames.
    TooMany,
    /// A frame is of another log: here stands the first word that is not the standby's.
    Diverged { at: Lsn },
    /// The source failed.
    SourceFault,
    /// The standby's disk failed, and stood at this count of faults then.
    Disk { faults: u64 },
}

/// What a standby received.
#[derive(Clone, Copy, Debug, PartialEq, Eq)]
pub struct Received {
    pub counts: FrameCounts,
    /// Up to where the standby has the log now. It is durable if what was received was hardened.
    pub upto: Lsn,
    pub ended: ReceivingEnd,
}
