//! The numbers of a page's layout (PostgreSQL's xlog_internal.h).

/// XLOG_BLCKSZ: the size of a page of the log in bytes.
pub const PAGE_SIZE: u64 = 8192;

/// The bytes of a page of the log, or of a block's page: both have 8192 (PostgreSQL's XLOG_BLCKSZ
/// and BLCKSZ).
pub type Page = [u8; PAGE_SIZE as usize];

/// The size of a word of the log in bytes: records and headers take up whole words, and a disk
/// writes each word whole.
pub const WORD: u64 = 8;

/// How many words a page has.
pub const PAGE_WORDS: u64 = PAGE_SIZE / WORD;

/// The timeline that this log is written on: each page's header has it, and each segment's name
/// begins with it.
pub const TIMELINE: u32 = 1;

/// SizeOfXLogLongPHD: the length of the header of a segment's first page.
pub const LONG_HEADER_LEN: u64 = 40;

/// SizeOfXLogShortPHD: the length of the header of each other page.
pub const SHORT_HEADER_LEN: u64 = 24;
