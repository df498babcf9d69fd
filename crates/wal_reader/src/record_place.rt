//! Where a record is read.

use wal_types::Lsn;

/// A place in a log at which a record is read: where it would start, and what the pages and records
/// before it say of it.
#[derive(Clone, Copy, Debug)]
pub(crate) struct RecordPlace {
    /// The byte position of its first byte: a multiple of 8.
    pub(crate) position: u64,
    /// The start of the record before, once one was read.
    pub(crate) prev: Option<Lsn>,
    /// The timeline of the page that was read last; 0 before any was.
    pub(crate) timeline: u32,
}
