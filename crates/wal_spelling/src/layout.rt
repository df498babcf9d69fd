//! Where a record's header has its fields, and the bytes that items begin with (PostgreSQL's
//! xlogrecord.h).

/// The header's length, SizeOfXLogRecord.
pub const HEADER_LEN: usize = 24;

pub const LEN_AT: usize = 0;

pub const XID_AT: usize = 4;

pub const INFO_AT: usize = 16;

pub const RMID_AT: usize = 17;

/// The manager of the log itself, RM_XLOG_ID.
pub const XLOG_RMID: u8 = 0;
/// XLOG_SWITCH
pub const SWITCH_INFO: u8 = 0x40;

/// XLR_BLOCK_ID_DATA_SHORT: main data with a byte of length.
pub const MAIN_SHORT: u8 = 255;
/// XLR_BLOCK_ID_DATA_LONG: main data with four bytes of length.
pub const MAIN_LONG: u8 = 254;
/// XLR_BLOCK_ID_ORIGIN
pub const ORIGIN: u8 = 253;
/// XLR_BLOCK_ID_TOPLEVEL_XID
pub const TOP_XID: u8 = 252;

/// The longest record that is assembled.
pub const MAX_LEN: u64 = 1_048_576;

/// XLR_MAX_BLOCK_ID
pub const MAX_BLOCK_ID: u8 = 32;
/// The last of a relation's forks, INIT_FORKNUM.
pub const MAX_FORK: u8 = 3;
/// A block's data has a length of two bytes.
pub const MAX_CONTENT_LEN: usize = 65_535;
/// The length of a page, BLCKSZ.
pub const PAGE_LEN: u16 = 8192;

/// A fork byte's low half: the fork (BKPBLOCK_FORK_MASK).
pub const FORK_MASK: u8 = 0x0f;
/// BKPBLOCK_HAS_IMAGE
pub const HAS_IMAGE: u8 = 0x10;
/// BKPBLOCK_HAS_DATA
pub const HAS_DATA: u8 = 0x20;
/// BKPBLOCK_WILL_INIT
pub const WILL_INIT: u8 = 0x40;
/// BKPBLOCK_SAME_REL: the relation of the block just before.
pub const SAME_REL: u8 = 0x80;

/// An image's page has a hole (BKPIMAGE_HAS_HOLE).
pub const HAS_HOLE: u8 = 0x01;
/// BKPIMAGE_APPLY
pub const APPLY: u8 = 0x02;
/// The three forms of compression (BKPIMAGE_COMPRESSED).
pub const COMPRESSED: u8 = 0x1c;
/// The bits of an image's flags that mean nothing.
pub const UNKNOWN_FLAGS: u8 = 0xe0;
