use wal_types::{Lsn, Record};

/// A record to be listed.
#[derive(Debug, Drop)]
pub struct Listed {
    pub start: Lsn,
    /// The start of the record before, as this one names it.
    pub prev: Lsn,
    /// The record's size in bytes.
    pub total: u32,
    pub value: Record,
}
