// A reserved record's words are copied, page by page (PostgreSQL's xlog.c, CopyXLogRecordToWAL,
// GetXLogBuffer). The record is in flight under insertion locks, which stay held: one, or for a
// segment switch all. Of the page of its next word the buffer's end is loaded: if it is the page's
// own, the words are stored, else one page is mapped and the end loaded again. A copy stops where
// so many words are copied as were asked for, where somebody else has the turn to map, or where the
// page to be replaced is not written. Where words are left it tells its progress under its locks,
// which PostgreSQL does before it maps any page (WALInsertLockUpdateInsertingAt): a lock that tells
// nothing holds every watcher back, also one that would write that page. An insert goes on from
// there: it loads down before it pauses.
ghost use Rattle.std.specs.Prelude.{◌≡◌, ◌/◌, ◌<◌, ◌≤◌, ◌^◌, MatchBool, MatchResult};
ghost use Rattle.machine_state.specs.Views.{Away, View};
ghost use Rattle.wal_page.specs.Placed.{placed_end};
ghost use Rattle.wal_rule.specs.SeatedPasses.{setup_of, view_of};
ghost use Rattle.word_ring.specs.Ring.{end_of_page};
ghost use Rattle.wal_log.specs.Copying.{CopiesFront, CopiesSome, CopyGoesOn, MapsPage, StopsAtOnce, TellsAbsent};
ghost use Rattle.wal_log.specs.Downs.{FindsDown, KnowsNoFault, MeetsFault};
ghost use Rattle.wal_log.specs.HeldLocks.{locks_of};
ghost use Rattle.wal_log.specs.PassLogs.{log_of_pass};
ghost use Rattle.wal_log.specs.Standing.{CopiesAlone, StaysAtWork};
ghost use Rattle.wal_log.specs.Waiting.{CopiesOrWaits, FindsUp, WaitsForPage};

use crate::fault::Fault;
use crate::held_locks::Held;
use crate::writing::{WriteErr, tell_progress, write_early};
use byte_position::PAGE_SIZE;
use crossbeam_utils::Backoff;
use segment_disk::Disk;
use std::sync::Wait;
use wal_page::Placed;
use wal_rule::SeatedPass;
use wal_types::Lsn;
use word_ring::{MapTry, Presence, confirm, copy_page, copy_present, map_ahead, try_map};

// How many pages are mapped behind one that was needed, as far as their buffers are free. Room is
// made ahead by room.rt; who needed a page himself all the same maps some behind it too.
const AHEAD: u32 = 32;

// How often a page's end word is looked at, where somebody else has a turn that the page needs,
// before a turn is tried again: tries of all who wait would stand in the way of who has it.
const LOOKS: u32 = 64;

/// Why a copy stopped.
#[derive(Clone, Copy, Debug, PartialEq, Eq)]
pub enum CopyStop {
    /// So many words are copied as were asked for, and more are left.
    Asked,
    /// No word is left.
    Whole,
    /// The page of the next word is in no buffer, and could not be mapped. Pages are counted from
    /// the log's address 0; `end` is the end of the page that its buffer held, 0 for none. Where
    /// somebody had the turn to map, `turn` is the turn's word and `written` 0. Where nobody had
    /// it, `turn` is 0, and the page to be replaced ends above `written`, the written address that
    /// was met.
    Absent {
        page: u64,
        end: u64,
        turn: u64,
        written: u64,
    },
}

/// A page that is in no buffer, and could not be mapped, as `CopyStop` tells it.
#[derive(Clone, Copy)]
pub struct Absent {
    pub page: u64,
    pub end: u64,
    pub turn: u64,
    pub written: u64,
}

/// How many words a copy stored, and why it stopped.
#[derive(Clone, Copy, Debug, PartialEq, Eq)]
pub struct Copied {
    pub k: u32,
    pub stop: CopyStop,
}

// Copies a record's words, as long as any is left. Where a page's buffer is wanted whose page is
// not written, it writes that itself. The record's last word ends at `end`.
#[inline(always)]
pub(crate) fn copy_whole<'p, 'a, D: Disk, R: Wait>(
    rt: &R,
    seated: &mut SeatedPass<'p, D>,
    held: Held,
    end: Lsn,
    placed: &mut Placed<'a>,
) -> Result<(), Fault>
    // The pass copies this record under these locks and is about nothing else. It knows of no
    // failed disk.
    requires copies { CopiesAlone (locks_of held) placed.old seated.old }
    requires end { end.0 ≡ placed_end placed.old }
    requires up { KnowsNoFault (view_of seated.old) }
    // However it ends, the record stays in flight under the locks; at Ok no word of it is left.
    // Else the disk failed in this call or before: the caller may give the copy up.
    ensures copies { CopiesAlone (locks_of held) placed.new seated.new }
    ensures ends { MatchResult result
        (λ _. (placed.new.next ≡ placed_end placed.old) × KnowsNoFault (view_of seated.new))
        (λ e. MeetsFault (view_of seated.old) (view_of seated.new) e) }
    ensures copies_on { CopyGoesOn placed.old placed.new seated.old seated.new }
{
    copy_there(seated, end, placed);
    if placed.next_lsn().0 < end.0 {
        copy_rest(rt, seated, held, end, placed)
    } else {
        Ok(())
    }
}

// Copies the words that are left, page by page, as long as their pages are in their buffers, which
// are all words of most records. The last one ends at `end`. What is done else stands in functions
// of its own, so that those inserts make no room for it.
#[inline(always)]
fn copy_there<'p, 'a, D: Disk>(seated: &mut SeatedPass<'p, D>, end: Lsn, placed: &mut Placed<'a>)
    // The pass copies this record under locks, and does so still behind it.
    requires copies { (locks : _) × CopiesAlone locks placed.old seated.old }
    requires end { end.0 ≡ placed_end placed.old }
    ensures copies { (locks : _) → CopiesAlone locks placed.old seated.old
        → CopiesAlone locks placed.new seated.new }
    ensures within { placed.new.next ≤ placed_end placed.old }
    ensures up { KnowsNoFault (view_of seated.old) → KnowsNoFault (view_of seated.new) }
    ensures copies_on { CopyGoesOn placed.old placed.new seated.old seated.new }
{
    'pages: while placed.next_lsn().0 < end.0 {
        let next = placed.next_lsn().0;
        if copy_present(seated, placed, next, end.0, u32::MAX) == 0 {
            return;
        }
    }
}

// Copies the words that are left, and waits for pages that are not in their buffers. It leaves what
// `copy_whole` leaves.
#[inline(never)]
fn copy_rest<'p, 'a, D: Disk, R: Wait>(
    rt: &R,
    seated: &mut SeatedPass<'p, D>,
    held: Held,
    end: Lsn,
    placed: &mut Placed<'a>,
) -> Result<(), Fault>
    requires copies { CopiesAlone (locks_of held) placed.old seated.old }
    requires end { end.0 ≡ placed_end placed.old }
    requires up { KnowsNoFault (view_of seated.old) }
    ensures copies { CopiesAlone (locks_of held) placed.new seated.new }
    ensures ends { MatchResult result
        (λ _. (placed.new.next ≡ placed_end placed.old) × KnowsNoFault (view_of seated.new))
        (λ e. MeetsFault (view_of seated.old) (view_of seated.new) e) }
    ensures copies_on { CopyGoesOn placed.old placed.new seated.old seated.new }
{
    let backoff = Backoff::new();
    for _ in rt.forever() {
        if copy_or_wait(seated, held, end, placed, &backoff)? {
            return Ok(());
        }
    }
    unreachable!()
}

// Copies words as long as their pages are in their buffers, or can be mapped. Where words are left
// it waits once for the page of the next one. It tells whether none is left.
fn copy_or_wait<'p, 'a, D: Disk>(
    seated: &mut SeatedPass<'p, D>,
    held: Held,
    end: Lsn,
    placed: &mut Placed<'a>,
    backoff: &Backoff,
) -> Result<bool, Fault>
    requires copies { CopiesAlone (locks_of held) placed.old seated.old }
    requires end { end.0 ≡ placed_end placed.old }
    requires up { KnowsNoFault (view_of seated.old) }
    ensures copies { CopiesAlone (locks_of held) placed.new seated.new }
    // Where it waits it has looked whether the disk has failed, or has made room.
    ensures ends { MatchResult result
        (λ whole. KnowsNoFault (view_of seated.new)
        × MatchBool whole (placed.new.next ≡ placed_end placed.old)
        (CopiesOrWaits D.tape D.moment D.faults (setup_of seated.old) placed.old placed.new
        (view_of seated.old) seated.new))
        (λ e. MeetsFault (view_of seated.old) (view_of seated.new) e) }
    ensures copies_on { CopyGoesOn placed.old placed.new seated.old seated.new }
{
    let copied = copy_front(seated, held, end, placed, u32::MAX);
    match copied.stop {
        CopyStop::Whole => Ok(true),
        CopyStop::Asked => {
            backoff.reset();
            Ok(false)
        }
        CopyStop::Absent {
            page,
            end,
            turn,
            written,
        } => {
            let absent = Absent {
                page,
                end,
                turn,
                written,
            };
            reset_behind(backoff, copied.k);
            wait_for_page(seated, held, placed, absent, backoff)?;
            Ok(false)
        }
    }
}

// Behind words that were copied the next pause is a short one.
fn reset_behind(backoff: &Backoff, copied: u32) {
    if copied > 0 {
        backoff.reset();
    }
}

// Copies a record's next words, at most so many, and tells its progress if words are left, unless
// none was asked for. It does not wait. The record's last word ends at `end`.
#[inline(always)]
pub(crate) fn copy_front<'p, 'a, D: Disk>(
    seated: &mut SeatedPass<'p, D>,
    held: Held,
    end: Lsn,
    placed: &mut Placed<'a>,
    most: u32,
) -> Copied
    // The pass copies this record under these locks and is about nothing else.
    requires copies { CopiesAlone (locks_of held) placed.old seated.old }
    requires end { end.0 ≡ placed_end placed.old }
    // So it does behind it. It tells how many words were copied, and why it stopped.
    ensures copies { CopiesAlone (locks_of held) placed.new seated.new }
    ensures tells { CopiesFront (setup_of seated.old) most placed.old placed.new
        (view_of seated.old) (view_of seated.new) result }
    // No fault was met on the way.
    ensures up { KnowsNoFault (view_of seated.old) → KnowsNoFault (view_of seated.new) }
    ensures copies_on { CopyGoesOn placed.old placed.new seated.old seated.new }
{
    let mut k = 0;
    while placed.next_lsn().0 < end.0 {
        if most == 0 {
            return Copied {
                k,
                stop: CopyStop::Asked,
            };
        }
        match copy_some(seated, end, placed, most - k) {
            Ok(count) => k += count,
            Err(stop) => {
                tell_progress(seated, held, placed);
                return Copied { k, stop };
            }
        }
    }
    Copied {
        k,
        stop: CopyStop::Whole,
    }
}

// Copies the words on the next word's page, at most so many, or tells why it copies none. A word is
// left, and the last one ends at `end`.
fn copy_some<'p, 'a, D: Disk>(
    seated: &mut SeatedPass<'p, D>,
    end: Lsn,
    placed: &mut Placed<'a>,
    most: u32,
) -> Result<u32, CopyStop>
    // The pass copies this record under locks, and does so still behind the step.
    requires copies { (locks : _) × CopiesAlone locks placed.old seated.old }
    requires end { end.0 ≡ placed_end placed.old }
    requires left { placed.old.next < placed_end placed.old }
    ensures copies { (locks : _) → CopiesAlone locks placed.old seated.old
        → CopiesAlone locks placed.new seated.new }
    ensures tells { MatchResult result (λ count. CopiesSome most count placed.old placed.new)
        (λ stop. (placed.new ≡ placed.old)
        × StopsAtOnce (setup_of seated.old) most placed.old (view_of seated.new) stop) }
    ensures up { KnowsNoFault (view_of seated.old) → KnowsNoFault (view_of seated.new) }
    ensures copies_on { CopyGoesOn placed.old placed.new seated.old seated.new }
{
    if most == 0 {
        return Err(CopyStop::Asked);
    }
    let next = placed.next_lsn().0;
    match reach_page(seated, next / PAGE_SIZE) {
        Ok(()) => Ok(copy_page(seated, placed, next, end.0, most)),
        Err(absent) => Err(CopyStop::Absent {
            page: absent.page,
            end: absent.end,
            turn: absent.turn,
            written: absent.written,
        }),
    }
}

// Meets a page's end, and maps the pages up to it that are not mapped yet, and some behind it, or
// tells why that could not be done.
fn reach_page<'p, D: Disk>(seated: &mut SeatedPass<'p, D>, page: u64) -> Result<(), Absent>
    // The pass is not mapping, and is not behind it. Of its view only the highest end met and the
    // written address loaded have changed.
    requires away { (view_of seated.old).mapping.stage ≡ Away }
    requires low { page < 2 ^ 40 }
    ensures ends { MatchResult result
        (λ _. end_of_page page ≤ (view_of seated.new).mapping.confirmed)
        (λ absent. TellsAbsent (setup_of seated.old) page (view_of seated.new) absent) }
    ensures maps { MapsPage seated.old seated.new }
{
    loop {
        let end = match confirm(seated, page) {
            Presence::Present => return Ok(()),
            Presence::Other { end } => end,
        };
        match try_map(seated, page) {
            MapTry::There => return Ok(()),
            MapTry::Mapped => map_ahead(seated, AHEAD),
            MapTry::Taken { turn } => {
                return Err(Absent {
                    page,
                    end,
                    turn,
                    written: 0,
                });
            }
            MapTry::Unwritten { written } => {
                return Err(Absent {
                    page,
                    end,
                    turn: 0,
                    written,
                });
            }
        }
    }
}

// Waits for the page where somebody has the turn to map; else makes room. Where somebody has the
// turn to write, who makes room too, it waits for the page, and where a copy is missing it pauses.
#[inline(never)]
fn wait_for_page<'p, 'a, D: Disk>(
    seated: &mut SeatedPass<'p, D>,
    held: Held,
    placed: &Placed<'a>,
    absent: Absent,
    backoff: &Backoff,
) -> Result<(), Fault>
    requires copies { CopiesAlone (locks_of held) placed.now seated.old }
    requires up { KnowsNoFault (view_of seated.old) }
    // The page of the next word was met absent.
    requires absent { (met : View)
        × TellsAbsent (setup_of seated.old) (placed.now.next / 8192) met absent }
    // It copies so behind it. That the page can be mapped now is not said; the caller looks again.
    ensures copies { CopiesAlone (locks_of held) placed.now seated.new }
    ensures ends { MatchResult result
        (λ _. KnowsNoFault (view_of seated.new)
        × WaitsForPage D.tape D.moment D.faults placed.now absent (view_of seated.old) seated.new)
        (λ e. MeetsFault (view_of seated.old) (view_of seated.new) e) }
    ensures copies_on { CopyGoesOn placed.now placed.now seated.old seated.new }
{
    let page = placed.next_lsn().0 / PAGE_SIZE;
    if absent.turn != 0 {
        return await_page(seated, page, backoff);
    }
    let upto = (absent.written / PAGE_SIZE + 1) * PAGE_SIZE;
    match write_early(seated, held, placed, upto) {
        Ok(()) => Ok(()),
        Err(WriteErr::Fault(fault)) => Err(fault),
        Err(WriteErr::Turn { .. }) => await_written(seated, absent.written, backoff),
        Err(WriteErr::Behind { .. }) => wait_up(seated, backoff),
    }
}

// Pauses, and looks at a page's end word, again and again until it is the page's own, but so many
// times at most, unless the disk has failed: before each pause that is looked at.
fn await_page<'p, D: Disk>(
    seated: &mut SeatedPass<'p, D>,
    page: u64,
    backoff: &Backoff,
) -> Result<(), Fault>
    requires low { page < 2 ^ 40 }
    requires up { KnowsNoFault (view_of seated.old) }
    ensures ends { MatchResult result
        (λ _. KnowsNoFault (view_of seated.new) × FindsUp (view_of seated.old) (view_of seated.new))
        (λ e. FindsDown (view_of seated.old) (view_of seated.new) e) }
    // Its locks and its copy the pass has as before, and its log is as it was.
    ensures stays { StaysAtWork seated.old seated.new }
    ensures log { log_of_pass (view_of seated.new) ≡ log_of_pass (view_of seated.old) }
{
    for _look in 1..LOOKS {
        wait_up(seated, backoff)?;
        if let Presence::Present = confirm(seated, page) {
            return Ok(());
        }
    }
    wait_up(seated, backoff)
}

// Pauses, and looks at the written address, again and again until it is another one than was known,
// but so many times at most, unless the disk has failed: then a page more may be mapped.
fn await_written<'p, D: Disk>(
    seated: &mut SeatedPass<'p, D>,
    known: u64,
    backoff: &Backoff,
) -> Result<(), Fault>
    requires away { (view_of seated.old).mapping.stage ≡ Away }
    requires up { KnowsNoFault (view_of seated.old) }
    ensures ends { MatchResult result
        (λ _. KnowsNoFault (view_of seated.new) × FindsUp (view_of seated.old) (view_of seated.new))
        (λ e. FindsDown (view_of seated.old) (view_of seated.new) e) }
    // Its locks and its copy the pass has as before, and its log is as it was.
    ensures stays { StaysAtWork seated.old seated.new }
    ensures log { log_of_pass (view_of seated.new) ≡ log_of_pass (view_of seated.old) }
{
    for _look in 1..LOOKS {
        wait_up(seated, backoff)?;
        if seated.load_written() != known {
            return Ok(());
        }
    }
    wait_up(seated, backoff)
}

// Pauses, unless the disk has failed. Its locks and its copy the pass has as before.
fn wait_up<'p, D: Disk>(seated: &mut SeatedPass<'p, D>, backoff: &Backoff) -> Result<(), Fault>
    ensures ends { MatchResult result
        (λ _. KnowsNoFault (view_of seated.new) × FindsUp (view_of seated.old) (view_of seated.new))
        (λ e. FindsDown (view_of seated.old) (view_of seated.new) e) }
    ensures stays { StaysAtWork seated.old seated.new }
    ensures log { log_of_pass (view_of seated.new) ≡ log_of_pass (view_of seated.old) }
{
    let faults = seated.load_down();
    if faults != 0 {
        return Err(Fault::Down { faults });
    }
    backoff.snooze();
    Ok(())
}
