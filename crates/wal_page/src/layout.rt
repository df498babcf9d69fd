//! Where a page's header has its fields, and its flags (PostgreSQL's xlog_internal.h,
//! XLogPageHeaderData and XLogLongPageHeaderData). The numbers are those of PostgreSQL 16.

/// XLOG_PAGE_MAGIC
pub(crate) const MAGIC: u16 = 0xD113;

pub(crate) const MAGIC_AT: usize = 0;

pub(crate) const INFO_AT: usize = 2;

pub(crate) const TIMELINE_AT: usize = 4;

pub(crate) const ADDRESS_AT: usize = 8;

pub(crate) const REM_LEN_AT: usize = 16;

pub(crate) const SYSTEM_ID_AT: usize = 24;

pub(crate) const SEGMENT_SIZE_AT: usize = 32;

pub(crate) const PAGE_SIZE_AT: usize = 36;

/// XLP_FIRST_IS_CONTRECORD
pub(crate) const CONTINUED: u16 = 1;
/// XLP_LONG_HEADER
pub(crate) const LONG: u16 = 2;
/// XLP_BKP_REMOVABLE
pub(crate) const BACKUP_REMOVABLE: u16 = 4;
/// XLP_FIRST_IS_OVERWRITE_CONTRECORD
pub(crate) const OVERWRITTEN: u16 = 8;
/// XLP_ALL_FLAGS
pub(crate) const ALL_FLAGS: u16 = CONTINUED | LONG | BACKUP_REMOVABLE | OVERWRITTEN;
