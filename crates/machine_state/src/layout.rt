//! The numbers of the words that all backends share, in a machine's list as in the table of the log
//! that threads share, which keeps for itself where each lies in memory. Behind the buffers' ends
//! come the words of the ring, 1,024 for each buffer, and behind these the last word.

ghost use Rattle.std.specs.Prelude.{◌≡◌, ◌+◌, ◌*◌, ◌≤◌};
ghost use Rattle.machine_state.specs.Words.{ends_number, lock_number};

use byte_position::PAGE_WORDS;

/// The byte position up to which records are reserved.
pub const POSITION: usize = 0;

/// The address at which the last reserved record starts.
pub const LAST_START: usize = 1;

/// The first of the insertion locks.
const FIRST_LOCK: usize = 2;

/// How many insertion locks there are (NUM_XLOGINSERT_LOCKS).
pub const LOCKS: u32 = 8;

/// Who has the turn to map a page.
pub const MAPPING_TURN: usize = 10;

/// Who has the turn to write.
pub const WRITE_TURN: usize = 11;

/// The address below which each page has been mapped.
pub const INITIALISED_END: usize = 12;

/// The address below which the log is written.
pub const WRITTEN: usize = 13;

/// The address below which the log is durable.
pub const FLUSHED: usize = 14;

/// The disk's moment when the last flush had ended: stored just before the flushed address.
pub const MOMENT: usize = 15;

/// The disk's count of faults, where it has failed.
pub const DOWN: usize = 16;

/// The first buffer's end word.
pub const BUFFER_ENDS: usize = 17;

/// An insertion lock's number.
#[inline]
pub fn number_of_lock(lock: u32) -> usize
    ensures { result ≡ lock_number lock }
{
    FIRST_LOCK + lock as usize
}

/// The last word, behind a ring of so many pages: the address up to which commits are answered that
/// may not be durable yet.
pub fn async_number(ring_pages: u32) -> usize
    requires { ring_pages ≤ 64 }
    ensures { result ≡ ends_number + ring_pages + ring_pages * 1024 }
{
    let pages = ring_pages as usize;
    BUFFER_ENDS + pages + pages * PAGE_WORDS as usize
}
