//! Which word it is.

/// One of the words that all backends share (PostgreSQL's xlog.c: the insert position, the
/// insertion locks, the pages of the WAL buffers and the positions of XLogCtl).
#[derive(Clone, Copy, Debug, PartialEq, Eq)]
pub enum Word {
    /// The byte position up to which records are reserved, and one more while it is locked.
    Position,
    /// The address at which the last reserved record starts, 0 where there is none.
    LastStart,
    /// An insertion lock, by its number from 0 to 7.
    Lock(u32),
    /// Who has the turn to map a page.
    MappingTurn,
    /// Who has the turn to write.
    WriteTurn,
    /// The address below which each page has been mapped.
    InitialisedEnd,
    /// The address below which the log is written.
    Written,
    /// The address below which the log is durable.
    Flushed,
    /// The disk's moment when the last flush had ended.
    Moment,
    /// The disk's count of faults where it has failed, else 0.
    Down,
    /// The address behind the page that a buffer of the ring holds, 0 where it holds none.
    BufferEnd(u32),
    /// A word of the ring, eight bytes of a page: 1,024 for each buffer.
    Ring(u32),
    /// The last word: the address up to which commits are answered that may not be durable yet.
    Async,
}
