// Calls of the device by the pass that has the writer in hand, and what they leave of the writer
// (PostgreSQL's xlog.c, XLogFileInit, XLogWrite, issue_xlog_fsync). Each is one call, and one step
// of the machine, and asks for what that step rests on: no call has failed before; a segment is
// made when its first byte is the next to be written; while writes to one segment wait for a sync,
// no other one is made or written, so one sync makes all durable that is written. Each leaves the
// writer in hand.
ghost use Rattle.std.specs.Prelude.{[], ◌∷◌};
ghost use Rattle.segment_disk.specs.Tape.{create_call, sync_call, write_call};
ghost use Rattle.word_ring.specs.InHand.{CallsEnd, HasHand, lent_in};
ghost use Rattle.word_ring.specs.Written.{IsPagePut, IsSegmentMade, IsSegmentSynced};
ghost use Rattle.machine_state.specs.Steps.{IsNextCreate, IsNextSync, IsNextWrite};
ghost use Rattle.wal_rule.specs.SeatedPasses.{setup_of, view_of};

use byte_position::Page;
use flush_core::DiskFault;
use segment_disk::Disk;
use wal_rule::SeatedPass;

// Makes the segment behind the last one.
pub(crate) fn create_segment<'p, D: Disk>(
    seated: &mut SeatedPass<'p, D>,
    segment: u64,
) -> Result<(), DiskFault>
    requires hand { HasHand D.tape D.moment D.faults seated.old }
    // It is the one behind the last that was made, and no write waits for a sync. The next byte to
    // be written lies in it, and is known to be copied.
    requires next { IsNextCreate (setup_of seated.old) segment
        (lent_in (view_of seated.old).writing.hold) }
    ensures ends { CallsEnd D.tape D.moment D.faults (IsSegmentMade segment)
        (create_call (setup_of seated.old).seg_size segment ∷ []) result seated.old
        seated.new }
{
    seated.create(segment)
}

// Writes the page under way up to an address.
pub(crate) fn put_page<'p, D: Disk>(
    seated: &mut SeatedPass<'p, D>,
    segment: u64,
    page: u32,
    upto: u64,
    bytes: &Page,
) -> Result<(), DiskFault>
    requires hand { HasHand D.tape D.moment D.faults seated.old }
    // The page holds the next byte to be written, on a segment that is made, and no write to
    // another one waits for a sync. It is written up to an address on it below which all is copied.
    // The bytes are those of its words, as the pass has loaded them from the ring.
    requires next { IsNextWrite (setup_of seated.old) segment page upto bytes.now
        (lent_in (view_of seated.old).writing.hold) }
    ensures ends { CallsEnd D.tape D.moment D.faults (IsPagePut segment upto)
        (write_call (setup_of seated.old).seg_size segment page bytes.now ∷ []) result
        seated.old seated.new }
{
    seated.write_page(segment, page, upto, bytes)
}

// Makes the writes to the segment that waits durable.
pub(crate) fn sync_segment<'p, D: Disk>(
    seated: &mut SeatedPass<'p, D>,
    segment: u64,
) -> Result<(), DiskFault>
    requires hand { HasHand D.tape D.moment D.faults seated.old }
    requires next { IsNextSync segment (lent_in (view_of seated.old).writing.hold) }
    ensures ends { CallsEnd D.tape D.moment D.faults IsSegmentSynced
        (sync_call (setup_of seated.old).seg_size segment ∷ []) result seated.old
        seated.new }
{
    seated.sync(segment)
}
