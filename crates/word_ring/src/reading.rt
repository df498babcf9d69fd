// The numbers of the writer in hand (PostgreSQL's xlog.c, XLogCtl->LogwrtResult). They are not
// shared words: who has the writer in hand has them alone. The words that all may load (the written
// and the flushed address, and the moment) are stored from them by wal_log, behind the calls.
ghost use Rattle.word_ring.specs.InHand.{HasHand, IsReadOff, IsSame, writer_in};
ghost use Rattle.wal_rule.specs.SeatedPasses.{view_of};

use segment_disk::Disk;
use wal_rule::SeatedPass;

/// What the writer in hand has done.
#[derive(Clone, Copy, Debug, PartialEq, Eq)]
pub struct WriterNow {
    /// The address up to which the log is written.
    pub written: u64,
    /// The last segment made, 0 where none is.
    pub made: u64,
    /// The segment of which writes wait for a sync.
    pub waiting: Option<u64>,
    /// The disk's count of faults when it failed.
    pub fault: Option<u64>,
    /// How many calls of the disk were counted.
    pub moment: u64,
}

/// Reads the writer in hand. Nothing is changed by it, and no call is made.
pub fn writer_now<'p, D: Disk>(seated: &mut SeatedPass<'p, D>) -> WriterNow
    requires hand { HasHand D.tape D.moment D.faults seated.old }
    ensures read { IsReadOff (writer_in (view_of seated.old)) result }
    ensures same { IsSame seated.old seated.new }
{
    let writer = seated.seat.slot_mut(&seated.table.table.shared, 0);
    WriterNow {
        written: writer.written(),
        made: writer.made(),
        waiting: writer.waiting(),
        fault: writer.fault(),
        moment: writer.moment(),
    }
}
