//! What an exported call answers, by number. The header of the bindings has the same table.

/// What was asked was done.
pub const DONE: u32 = 0;
/// Something was in the way, which others take away: it may be tried again.
pub const BUSY: u32 = 1;
/// It is so once the host has made the calls up to `moment`; it has acknowledged `detail` of them.
pub const BEHIND: u32 = 2;
/// The log is full: `detail` bytes of it are left.
pub const FULL: u32 = 3;
/// The disk has failed: of a flush `detail` is its count of faults then.
pub const DOWN: u32 = 4;
/// There is no memory.
pub const MEMORY: u32 = 5;
/// No log can have this setup.
pub const SETUP: u32 = 6;
/// The address is above all that is reserved, which ends at `end`.
pub const UNRESERVED: u32 = 7;
/// The record is longer than 1,048,576 bytes, or than its session's share of half the ring.
pub const LONG: u32 = 8;
/// No manager has this number, or the record is one that the log alone writes.
pub const MANAGER: u32 = 9;
/// As many sessions as the setup allows were split off.
pub const SESSIONS: u32 = 10;
/// What was handed in is spent, or what is asked has no meaning.
pub const MISUSE: u32 = 11;
/// No call is in the queue, or one of the host's has failed.
pub const NONE: u32 = 12;
/// The disk's queue has no room: calls have to be made first.
pub const QUEUE: u32 = 13;
/// This page of the log has to be handed in, or that the log has none such.
pub const WANTED: u32 = 14;
/// The log ends, at `end`.
pub const END_OF_LOG: u32 = 15;
/// The log stops at `start`, by `damage`.
pub const DAMAGED: u32 = 16;
/// A segment is there behind the last one that the log may have: `segment`.
pub const BEYOND: u32 = 17;
/// The record's block `detail`, counted from 0 on, is not right.
pub const BLOCK: u32 = 18;
/// Nothing is to be flushed: the log has flushed all below `upto`, and what was answered lies
/// there.
pub const IDLE: u32 = 19;
