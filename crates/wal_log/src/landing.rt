// A record in flight is ended: its words are copied (copying.rt), and its insertion locks are given
// back, which tells each watcher that no word of it is left (PostgreSQL's xlog.c,
// WALInsertLockRelease). If the disk has failed the copy is given up: record and locks stay with a
// view with which nobody steps any more, so that no watch ever takes the record for copied.
ghost use Rattle.std.specs.Prelude.{◌≡◌, ◌/◌, ◌<◌, true, IfOk, MatchResult};
ghost use mathlib.Core.Option.{some};
ghost use Rattle.wal_page.specs.Placed.{placed_end};
ghost use Rattle.wal_rule.specs.Company.{IsAlone, has_met_others};
ghost use Rattle.wal_rule.specs.SeatedPasses.{setup_of, view_of};
ghost use Rattle.wal_log.specs.Downs.{KnowsNoFault, MeetsFault};
ghost use Rattle.wal_log.specs.HeldLocks.{locks_of};
ghost use Rattle.wal_log.specs.PassLogs.{log_of_pass};
ghost use Rattle.wal_log.specs.Room.{MakesRoomBehind, page_ahead};
ghost use Rattle.wal_log.specs.Standing.{ComesToRest, CopiesAlone, entry_in_flight};
ghost use Rattle.wal_log.specs.Whole.{CopiesLast, CopiesWhole};

use crate::copying::copy_whole;
use crate::fault::Fault;
use crate::held_locks::{Held, release_held};
use crate::room::make_room;
use byte_position::PAGE_SIZE;
use segment_disk::Disk;
use std::sync::Wait;
use std::thread;
use wal_page::Placed;
use wal_rule::{Company, SeatedPass};
use wal_types::Lsn;

// At each so many-th page a backend lets others run: more often costs two backends what it gains
// eight (docs/PERFORMANCE.md).
const YIELDS: u64 = 4;

// Copies the words that are left of a record, and gives its locks back; or gives the copy up. The
// record's last word ends at `end`.
#[inline(always)]
pub(crate) fn land<'p, 'a, D: Disk, R: Wait>(
    rt: &R,
    seated: &mut SeatedPass<'p, D>,
    held: Held,
    end: Lsn,
    placed: &mut Placed<'a>,
) -> Result<(), Fault>
    // The pass copies this record under these locks and is about nothing else. It knows of no
    // failed disk.
    requires copies { CopiesAlone (locks_of held) placed.old seated.old }
    requires end { end.0 ≡ placed_end placed.old }
    requires up { KnowsNoFault (view_of seated.old) }
    // Each word of the entry that was in flight was copied. Or the disk failed, in this call or
    // before.
    ensures lands { (e : _) → entry_in_flight (view_of seated.old) ≡ some e
        → MatchResult result (λ _. CopiesWhole (view_of seated.old) (view_of seated.new) e
        × KnowsNoFault (view_of seated.new))
        (λ fault. MeetsFault (view_of seated.old) (view_of seated.new) fault) }
    // Behind the copy it gives the locks back, and does nothing else.
    ensures last { (e : _) → entry_in_flight (view_of seated.old) ≡ some e
        → IfOk result (λ _. CopiesLast (view_of seated.old) (view_of seated.new) e) }
    // The pass is about nothing, and its log is as it was.
    ensures log { log_of_pass (view_of seated.new) ≡ log_of_pass (view_of seated.old) }
    ensures async_met { (view_of seated.new).async_met ≡ (view_of seated.old).async_met }
    ensures rests { ComesToRest seated.old seated.new }
{
    match copy_whole(rt, seated, held, end, placed) {
        Ok(()) => {
            release_held(seated, held);
            Ok(())
        }
        Err(fault) => {
            seated.give_up();
            Err(fault)
        }
    }
}

// Copies the words that are left of a record, and gives its one lock back; or gives the copy up.
// Behind it a pass that has met others makes room ahead, if the record came to a further page, and
// at times lets others run. A fault that it meets there it tells itself, though the record is
// whole: a fault is told by who made the device call, and to all later calls as one that was met
// before.
#[inline(always)]
pub(crate) fn land_and_make_room<'p, 'a, D: Disk, R: Wait>(
    rt: &R,
    seated: &mut SeatedPass<'p, D>,
    company: &Company,
    held: Held,
    end: Lsn,
    placed: &mut Placed<'a>,
) -> Result<(), Fault>
    requires copies { CopiesAlone (locks_of held) placed.old seated.old }
    requires end { end.0 ≡ placed_end placed.old }
    requires up { KnowsNoFault (view_of seated.old) }
    // Each word of the entry that was in flight was copied. Or the disk failed, in this call or
    // before, perhaps once all words were copied.
    ensures lands { (e : _) → entry_in_flight (view_of seated.old) ≡ some e
        → MatchResult result (λ _. CopiesWhole (view_of seated.old) (view_of seated.new) e
        × KnowsNoFault (view_of seated.new))
        (λ fault. MeetsFault (view_of seated.old) (view_of seated.new) fault) }
    // A pass that is alone gives the lock back, and does nothing else.
    ensures alone { IsAlone company.now → (e : _) → entry_in_flight (view_of seated.old) ≡ some e
        → IfOk result (λ _. CopiesLast (view_of seated.old) (view_of seated.new) e) }
    // One that has met others makes room behind it, if the record came to a further page.
    ensures makes { has_met_others company.now ≡ true → placed.old.next / 8192 < end.0 / 8192
        → IfOk result (λ _. MakesRoomBehind D.tape D.moment D.faults
        (page_ahead (setup_of seated.old) (placed.old.next / 8192)) seated.old seated.new) }
    ensures log { log_of_pass (view_of seated.new) ≡ log_of_pass (view_of seated.old) }
    ensures async_met { (view_of seated.new).async_met ≡ (view_of seated.old).async_met }
    ensures rests { ComesToRest seated.old seated.new }
{
    let page = placed.next_lsn().0 / PAGE_SIZE;
    land(rt, seated, held, end, placed)?;
    if company.has_met_others() && page < end.0 / PAGE_SIZE {
        make_room(seated, page)?;
        let_others_run(page);
    }
    Ok(())
}

// Yields at each so many-th page, with nothing held and nothing in flight. That this gains is
// measured (docs/PERFORMANCE.md); why it does was not traced.
#[inline(always)]
fn let_others_run(page: u64) {
    if page % YIELDS == 0 {
        thread::yield_now();
    }
}
