// With the position locked: a record's place is reserved, or the position is given back
// (PostgreSQL's xlog.c, ReserveXLogInsertLocation, between its SpinLockAcquire and
// SpinLockRelease). To reserve, the last start (word 1) is loaded, which the record names as its
// prev; the record's own start is stored there; then the position is stored behind the record. That
// store ends the lock, and from it on the record stands in the order, in flight under all insertion
// locks that the pass holds. So who locks the position next finds in word 1 the start of the record
// that ends at it. A step's kind `K` names the record, which no code has at hand: one that the body
// spells.
ghost use Rattle.std.specs.Prelude.{◌≡◌, ◌+◌, ◌%◌, ◌<◌, ◌≤◌, ◌^◌, length};
ghost use Rattle.byte_position.specs.Position.{address_of};
ghost use Rattle.wal_types.specs.declared.record.Record.{Record};
ghost use Rattle.wal_spelling.specs.Spelling.{assembled};
ghost use Rattle.wal_page.specs.Order.{assembled_room_at};
ghost use Rattle.machine_state.specs.Views.{Landed, Locked};
ghost use Rattle.machine_state.specs.Words.{end_form, log_limit};
ghost use Rattle.machine_state.specs.Steps.{MayStandUnder, give_position_back, store_position};
ghost use Rattle.wal_rule.specs.SeatedPasses.{HasView, StaysSeated, setup_of, view_of};
ghost use Rattle.reserve_lock.specs.Reserved.{IsEntryReserved, full_view, stayed_view};

use segment_disk::Disk;
use wal_rule::{OfKind, SeatedPass};
use wal_spelling::Body;
use wal_types::Lsn;

// Gives the position back as it was, where too few bytes are left for the record.
pub(crate) fn give_back<'p, D: Disk, K: OfKind>(
    seated: &mut SeatedPass<'p, D>,
    body: &Body,
    at: u64,
)
    // The position is locked, and the record would end behind the log's end.
    requires kind { (value : Record) × (assembled value ≡ body.now)
        × (K.kind ≡ give_position_back value) }
    requires place { (view_of seated.old).reserving.place ≡ Locked at }
    requires short { log_limit (setup_of seated.old)
        < at + assembled_room_at (setup_of seated.old).seg_size at body.now }
    // The pass notes that the log was full there, and has the position locked no longer.
    ensures view { HasView (full_view at (view_of seated.old)) seated.old seated.new }
{
    seated.give_position_back::<K>(at);
}

// Gives the position back as it was, where the log stands at a segment's start.
pub(crate) fn stay_there<'p, D: Disk>(seated: &mut SeatedPass<'p, D>, at: u64)
    requires place { (view_of seated.old).reserving.place ≡ Locked at }
    requires starts { end_form (setup_of seated.old) at % (setup_of seated.old).seg_size ≡ 0 }
    // The pass notes that it stopped there, and has the position locked no longer.
    ensures view { HasView (stayed_view at (view_of seated.old)) seated.old seated.new }
{
    seated.stay(at);
}

// Reserves the record's place at the locked position, under the insertion locks that the pass
// holds, and tells where the record before starts. The record takes up `room` bytes there, from the
// address `start` on.
#[inline(always)]
pub(crate) fn reserve_at<'p, D: Disk, K: OfKind>(
    seated: &mut SeatedPass<'p, D>,
    body: &Body,
    at: u64,
    start: Lsn,
    room: u64,
) -> u64
    // The position is locked, the record ends within the log, and the pass holds an insertion lock
    // at least, all of them for a segment switch, with nothing in flight.
    requires kind { (value : Record)
        × MayStandUnder (view_of seated.old).working.locks value
        × (assembled value ≡ body.now)
        × (K.kind ≡ store_position (view_of seated.old).working.locks value) }
    requires place { (view_of seated.old).reserving.place ≡ Locked at }
    requires start { start.0 ≡ address_of (setup_of seated.old).seg_size at }
    requires room { room ≡ assembled_room_at (setup_of seated.old).seg_size at body.now }
    requires some { 1 ≤ length (view_of seated.old).working.locks }
    requires landed { (view_of seated.old).working.flight ≡ Landed }
    requires fits { at + room ≤ log_limit (setup_of seated.old) }
    requires low { at + room < 2 ^ 60 }
    // The entry is the last of the pass's log and in flight under its locks, with no word copied;
    // the position is locked no longer.
    ensures entry { IsEntryReserved (setup_of seated.old) body.now at result
        (view_of seated.old).working.locks (view_of seated.old) (view_of seated.new) }
    ensures stays { StaysSeated seated.old seated.new }
{
    let prev = seated.load_prev();
    seated.store_prev(start.0);
    seated.store_position::<K>(at + room);
    prev
}
