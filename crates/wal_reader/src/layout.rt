//! Where a record's header has what the reader looks at (PostgreSQL's xlogrecord.h), and a page's
//! length; the other numbers are those of byte_position and wal_spelling.

use byte_position::PAGE_SIZE;

/// A page's length, as offsets in it count.
pub(crate) const PAGE_LEN: u32 = PAGE_SIZE as u32;

pub(crate) const PREV_AT: usize = 8;

pub(crate) const CRC_AT: usize = 20;
