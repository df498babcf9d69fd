// The log that passes share (PostgreSQL's xlog.c, XLogCtlData). All of it that changes is the
// table: shared words, each of which changes by one atomic step, and the writer in its slot.
// docs/COMMIT.md has a list of who may change which word, and when.
//
// Between two calls a `Pass` holds nothing, and an `Inflight` one insertion lock, with its record
// in flight, or all with a segment switch. A call seats the pass, and puts it back where it is
// about nothing again, or about just that. In an insert it takes an insertion lock, then locks the
// position, and unlocks that before it copies. While it copies, under that lock, it may take the
// turn to map or the turn to write, and never has both. A segment switch does so under all eight
// insertion locks. A flush takes the turn to write alone, and no insertion lock. A call that waits
// holds nothing but the locks of a record that it is copying, or those that a switch has taken so
// far.

use segment_disk::Disk;
use wal_rule::LogTable;

/// A log that several passes fill side by side, over a table of shared words with the disk in its
/// slot. Its calls take a `&self`, so that threads make them at once, each with a pass of its own.
#[derive(Drop)]
pub struct Wal<D: Disk> {
    pub(crate) table: LogTable<D>,
}
