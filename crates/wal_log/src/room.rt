// Room is made ahead of the records, so that their copies may find their pages mapped (PostgreSQL's
// WAL writer does so for others: xlog.c, AdvanceXLInsertBuffer with `opportunistic`). Half a ring
// behind the page in which a record began, a page's end word is looked at. If it is not mapped yet,
// all that is copied is written out, where that reaches the page that has to go from its buffer,
// and pages are mapped under one turn. Others may copy into the pages between meanwhile. The pass
// has nothing in flight, and holds no lock.
ghost use Rattle.std.specs.Prelude.{◌≡◌, ◌<◌, ◌^◌, IfOk, MatchBool, MatchResult};
ghost use Rattle.wal_rule.specs.SeatedPasses.{StandsAtRest, setup_of, view_of};
ghost use Rattle.wal_log.specs.Copying.{MapsPage};
ghost use Rattle.wal_log.specs.Downs.{KnowsNoFault, MeetsFault};
ghost use Rattle.wal_log.specs.PassLogs.{log_of_pass};
ghost use Rattle.wal_log.specs.Room.{IsSeenTo, IsToBeSeenTo, MakesRoom, MeetsMapped, MeetsUnmapped, page_ahead};
ghost use Rattle.wal_log.specs.Standing.{AddsNothing, ComesToRest, HasNoTurn};
ghost use Rattle.wal_log.specs.Writing.{IsHeldUp, WritesCopied};

use crate::fault::Fault;
use crate::turns::is_turn_taken;
use crate::writing::{WriteErr, write_copied};
use byte_position::PAGE_SIZE;
use segment_disk::Disk;
use std::hint::spin_loop;
use wal_rule::SeatedPass;
use word_ring::{Presence, confirm, map_ahead};

// How many pages are mapped at most. A ring has no more than twice as many.
const AHEAD: u32 = 32;

// How often the locks are watched at most, where a lock's holder has not copied so far.
const LOOKS: u32 = 64;

// Makes room half a ring behind a page, where there is none yet. If somebody else has one of the
// turns, or a lock's holder has not copied so far, that is left to whoever needs the room.
#[inline(never)]
pub(crate) fn make_room<'p, D: Disk>(seated: &mut SeatedPass<'p, D>, page: u64) -> Result<(), Fault>
    requires rests { StandsAtRest seated.old }
    requires up { KnowsNoFault (view_of seated.old) }
    requires low { page < 2 ^ 38 }
    // Its log is as it was, and it is about nothing behind it. If the disk fails, it tells so.
    ensures ends { MatchResult result (λ _. KnowsNoFault (view_of seated.new))
        (λ e. MeetsFault (view_of seated.old) (view_of seated.new) e) }
    // At Ok the page half a ring behind was met mapped, or somebody or a copy was in the way, or
    // all that it knew to be copied is written and pages are mapped, as far as they may be.
    ensures makes { IfOk result (λ _. MakesRoom D.tape D.moment D.faults
        (page_ahead (setup_of seated.old) page) seated.old seated.new) }
    ensures log { log_of_pass (view_of seated.new) ≡ log_of_pass (view_of seated.old) }
    ensures async_met { (view_of seated.new).async_met ≡ (view_of seated.old).async_met }
    ensures rests { ComesToRest seated.old seated.new }
{
    let pages = u64::from(seated.shape().ring_pages());
    let ahead = page + pages / 2;
    if is_seen_to(seated, ahead) {
        return Ok(());
    }
    if write_ahead(seated, (ahead + 1).saturating_sub(pages) * PAGE_SIZE)? {
        map_ahead(seated, AHEAD);
    }
    Ok(())
}

// Whether nothing is to be done for a page: it was mapped, or somebody else writes. That is asked
// before the locks are watched, since a watch takes their lines of memory from who inserts.
fn is_seen_to<'p, D: Disk>(seated: &mut SeatedPass<'p, D>, page: u64) -> bool
    requires rests { HasNoTurn seated.old }
    requires low { page < 2 ^ 40 }
    // At true that was met; at false it met the page not mapped, and the turn free.
    ensures tells { MatchBool result
        (IsSeenTo (setup_of seated.old) page (view_of seated.old) (view_of seated.new))
        (IsToBeSeenTo (setup_of seated.old) page (view_of seated.old) (view_of seated.new)) }
    ensures maps { MapsPage seated.old seated.new }
{
    was_mapped(seated, page) || is_turn_taken(seated)
}

// Whether a page is in its buffer, or was there before: then the buffer holds a later one.
fn was_mapped<'p, D: Disk>(seated: &mut SeatedPass<'p, D>, page: u64) -> bool
    requires low { page < 2 ^ 40 }
    // At true the end word of its buffer, as it was met, says so; at false it says otherwise.
    ensures tells { MatchBool result (MeetsMapped (setup_of seated.old) page (view_of seated.old))
        (MeetsUnmapped (setup_of seated.old) page (view_of seated.old)) }
    ensures maps { MapsPage seated.old seated.new }
{
    match confirm(seated, page) {
        Presence::Present => true,
        Presence::Other { end } => page * PAGE_SIZE < end,
    }
}

// Writes all that is copied, where that reaches an address, and tells whether it did. It does not
// where somebody else has the turn to write, nor where a lock's holder has not copied so far.
fn write_ahead<'p, D: Disk>(seated: &mut SeatedPass<'p, D>, upto: u64) -> Result<bool, Fault>
    requires rests { HasNoTurn seated.old }
    requires up { KnowsNoFault (view_of seated.old) }
    ensures ends { MatchResult result (λ _. KnowsNoFault (view_of seated.new))
        (λ e. MeetsFault (view_of seated.old) (view_of seated.new) e) }
    // All that it knew to be copied is written, up to the address at least, or to the reserved end.
    // Or it met the turn taken, or a lock that was held so.
    ensures tells { IfOk result (λ wrote. MatchBool wrote
        (WritesCopied D.tape D.moment D.faults upto (view_of seated.old) seated.new)
        (IsHeldUp upto (view_of seated.new))) }
    ensures adds_nothing { AddsNothing seated.old seated.new }
    ensures rests { HasNoTurn seated.new }
{
    for _look in 0..LOOKS {
        match write_copied(seated, upto) {
            Ok(()) => return Ok(true),
            Err(WriteErr::Fault(fault)) => return Err(fault),
            Err(WriteErr::Turn { .. }) => return Ok(false),
            Err(WriteErr::Behind { .. }) => spin_loop(),
        }
    }
    Ok(false)
}
