// The log is flushed up to an address (PostgreSQL's xlog.c, XLogFlush). The pass holds nothing
// before it and behind it. A try loads down, the reserved end and the flushed address, and if that
// suffices the moment. Else it watches the locks, and with the turn to write it loads down and the
// flushed address again. If another flush has passed the address meanwhile, the moment is loaded,
// and no device call is made. Else it writes what the watch told, stores that as written, syncs,
// and stores the moment, then the flushed address. Since the moment is stored before that address
// and loaded behind it, who finds an address flushed is told no moment that is too early.
// PostgreSQL waits at locks and turn (WaitXLogInsertionsToFinish, LWLockAcquireOrWait). Here a try
// ends there, and the next one begins anew.
ghost use Rattle.std.specs.Prelude.{◌≡◌, ◌<◌, ◌≤◌, MatchOption, MatchResult};
ghost use mathlib.Core.Option.{none};
ghost use Rattle.word_ring.specs.InHand.{IsReady, known_copied, writer_in};
ghost use Rattle.machine_state.specs.Words.{end_form};
ghost use Rattle.wal_rule.specs.Downs.{KnowsDown};
ghost use Rattle.wal_rule.specs.Passes.{view_of_pass};
ghost use Rattle.wal_rule.specs.SeatedPasses.{StandsAtRest, setup_of, view_of};
ghost use Rattle.wal_log.specs.Downs.{KnowsNoFault, SetsDownItself};
ghost use Rattle.wal_log.specs.Flushing.{AnswersFlush, AnswersFlushTry, FlushesOnlyUnflushed, IsToldHard, JudgesFlush, JudgesFlushTry, LoadsHard, MeetsUnflushed, SeesWhether, TriesOnlyUnflushed, flush_err_known_down, try_flush_err_known_down, try_flush_err_of_turn};
ghost use Rattle.wal_log.specs.Hands.{HasAllStored, HasFailed};
ghost use Rattle.wal_log.specs.Logs.{IsPassOfLog, LeavesPass};
ghost use Rattle.wal_log.specs.PassLogs.{log_of_pass};
ghost use Rattle.wal_log.specs.Standing.{ComesToRest, HasNoTurn, SeesMore, StaysAtWork, WorksOn};
ghost use Rattle.wal_log.specs.Writing.{FlushesAll};
ghost use Rattle.wal_log.specs.declared.flushing.TryFlushErr.TheVariants.{Disk};

use crate::patience::Patience;
use crate::turns::{TurnErr, give_back, go_down, take_ready};
use crate::wal::Wal;
use crate::writing::{store_written, write_pages};
use byte_position::PAGE_SIZE;
use flush_core::DiskFault;
use insert_locks::{LockNo, Watched, see_end, see_reserved, watch};
use segment_disk::Disk;
use std::sync::Wait;
use std::thread;
use wal_rule::{Pass, SeatedPass};
use wal_types::{Hard, Lsn};
use word_ring::{sync_written, writer_now};

// How often the flushed address is looked at, at most, before the turn is tried again: an insert
// that makes room may have it, and stores no flushed address.
const LOOKS: u32 = 64;

// How often others are let come before a try, at most, and how often in a row nobody does.
const GATHERS: u32 = 4;

const STILL: u32 = 2;

/// Why one try of a flush told nothing. It looks in this order: whether the disk has failed before,
/// whether the address is reserved, whether it is flushed already, at the locks, at the turn; with
/// the turn had, again whether the disk has failed and whether the address is flushed. Then it
/// calls the device.
#[derive(Clone, Copy, Debug, PartialEq, Eq)]
pub enum TryFlushErr {
    /// A device call failed in this call: the disk's count of faults then.
    Disk { faults: u64 },
    /// The disk has failed before: its count of faults then.
    Down { faults: u64 },
    /// The address is above the end of what is reserved, which is this one.
    Unreserved { end: Lsn },
    /// An insertion lock's holder has not copied so far: the lock's word.
    Behind { lock: LockNo, word: u64 },
    /// Somebody has the turn to write: the turn's word.
    Turn { word: u64 },
}

/// Why a flush told nothing.
#[derive(Clone, Copy, Debug, PartialEq, Eq)]
pub enum FlushErr {
    /// A device call failed in this call: the disk's count of faults then.
    Disk { faults: u64 },
    /// The disk has failed before: its count of faults then.
    Down { faults: u64 },
    /// The address is above the end of what is reserved, which is this one.
    Unreserved { end: Lsn },
}

impl From<TurnErr> for TryFlushErr {
    ghost from_gives = { λ e t. t ≡ try_flush_err_of_turn e };

    fn from(e: TurnErr) -> TryFlushErr {
        match e {
            TurnErr::Down { faults } => TryFlushErr::Down { faults },
            TurnErr::Taken { turn } => TryFlushErr::Turn { word: turn },
        }
    }
}

impl From<DiskFault> for TryFlushErr {
    ghost from_gives = { λ e t. t ≡ Disk e.faults };

    fn from(e: DiskFault) -> TryFlushErr {
        TryFlushErr::Disk { faults: e.faults }
    }
}

impl<D: Disk> Wal<D> {
    /// Makes all below an address durable, and answers how far it is, and since which moment. It
    /// waits for inserts that are still copying below the address, and for the turn to write. Where
    /// the flushed position has reached the address it makes no device call; else it writes all
    /// that it knows to be copied, the last page as it stands, and syncs.
    pub fn flush<R: Wait>(&self, rt: &R, pass: &mut Pass, upto: Lsn) -> Result<Hard, FlushErr>
        requires pass { IsPassOfLog self.now pass.old }
        // All below the address told is durable from the moment on. The two join the pass's log,
        // and are no less than those that it was promised before. Or it tells why not, and adds
        // nothing.
        ensures flushes { AnswersFlush upto.0 (view_of_pass pass.old) result
            (view_of_pass pass.new) }
        // Where the flushed address that it loads first has reached the address, that is told, with
        // the moment loaded behind it, and the view is else as it was: no lock was watched.
        ensures only_unflushed { FlushesOnlyUnflushed upto.0 (view_of_pass pass.old) result
            (view_of_pass pass.new) }
        // It is told as unreserved just where it is above the end of what is reserved by the
        // position that it loads first: a flush does not wait until somebody reserves.
        ensures unreserved { JudgesFlush upto.0 (view_of_pass pass.old) result }
        // However it ends, the pass is about nothing, with its numbers and all that it had seen.
        // A pass that knows of a failed disk is told of it, also if the address is durable.
        ensures leaves { LeavesPass self.now (λ faults. result ≡ flush_err_known_down faults)
            pass.old pass.new }
    {
        let mut seated = pass.seat(&self.table);
        let answer = flush_on(rt, &mut seated, upto);
        pass.put_back(seated);
        answer
    }

    /// One try of a flush, which does not wait: it tells which insertion lock or turn is in its
    /// way, and the caller may try again.
    pub fn try_flush(&self, pass: &mut Pass, upto: Lsn) -> Result<Hard, TryFlushErr>
        requires pass { IsPassOfLog self.now pass.old }
        // As a flush tells it, which makes such tries. Or it tells why not, and adds nothing.
        ensures tries { AnswersFlushTry upto.0 (view_of_pass pass.old) result
            (view_of_pass pass.new) }
        // Nor does it do more than a flush where the address is flushed already.
        ensures only_unflushed { TriesOnlyUnflushed upto.0 (view_of_pass pass.old) result
            (view_of_pass pass.new) }
        ensures unreserved { JudgesFlushTry upto.0 (view_of_pass pass.old) result }
        // However it ends, the pass is about nothing, with its numbers and all that it had seen.
        // A pass that knows of a failed disk is told of it, also if the address is durable.
        ensures leaves { LeavesPass self.now (λ faults. result ≡ try_flush_err_known_down faults)
            pass.old pass.new }
    {
        let mut seated = pass.seat(&self.table);
        let answer = try_flush(&mut seated, upto);
        pass.put_back(seated);
        answer
    }
}

// The flush of a commit. In company others are let come before it. But for that it leaves of the
// pass what `Wal::flush` says.
pub(crate) fn flush_in_company<'p, D: Disk, R: Wait>(
    rt: &R,
    seated: &mut SeatedPass<'p, D>,
    upto: Lsn,
    is_in_company: bool,
) -> Result<Hard, FlushErr>
    requires rests { StandsAtRest seated.old }
    ensures flushes { AnswersFlush upto.0 (view_of seated.old) result (view_of seated.new) }
    ensures async_met { (view_of seated.new).async_met ≡ (view_of seated.old).async_met }
    ensures rests { ComesToRest seated.old seated.new }
{
    gather(seated, is_in_company);
    flush_on(rt, seated, upto)
}

// The flush of a pass, by as many tries as it takes; between two of them nothing is held. It leaves
// of the pass what `Wal::flush` says. Behind a try that met the turn taken others are let come,
// where the flushed address that was looked at then is below the one asked for.
pub(crate) fn flush_on<'p, D: Disk, R: Wait>(
    rt: &R,
    seated: &mut SeatedPass<'p, D>,
    upto: Lsn,
) -> Result<Hard, FlushErr>
    requires rests { StandsAtRest seated.old }
    ensures flushes { AnswersFlush upto.0 (view_of seated.old) result (view_of seated.new) }
    ensures only_unflushed { FlushesOnlyUnflushed upto.0 (view_of seated.old) result
        (view_of seated.new) }
    ensures unreserved { JudgesFlush upto.0 (view_of seated.old) result }
    ensures down_again { (faults : _) → KnowsDown faults (view_of seated.old)
        → result ≡ flush_err_known_down faults }
    ensures async_met { (view_of seated.new).async_met ≡ (view_of seated.old).async_met }
    ensures rests { ComesToRest seated.old seated.new }
{
    let mut patience = Patience::new();
    let mut flushed = 0;
    for _ in rt.forever() {
        match try_flush(seated, upto) {
            Ok(hard) => return Ok(hard),
            Err(TryFlushErr::Disk { faults }) => return Err(FlushErr::Disk { faults }),
            Err(TryFlushErr::Down { faults }) => return Err(FlushErr::Down { faults }),
            Err(TryFlushErr::Unreserved { end }) => return Err(FlushErr::Unreserved { end }),
            Err(TryFlushErr::Behind { .. }) => patience.pause(rt),
            Err(TryFlushErr::Turn { .. }) => {
                await_flush(rt, seated, &mut flushed, &mut patience);
                gather(seated, flushed < upto.0);
            }
        }
    }
    unreachable!()
}

// Lets others come, where there are any, since one sync may make durable what all of them have
// inserted: yields until nobody has reserved in two yields in a row, but so many times at most
// (PostgreSQL's commit_delay, which sleeps). It does not spin: who is waited for may stand behind
// this thread on its processor.
fn gather<'p, D: Disk>(seated: &mut SeatedPass<'p, D>, is_in_company: bool)
    // The pass has seen what was reserved then, and is else as it was.
    ensures sees { SeesMore seated.old seated.new }
{
    if !is_in_company {
        return;
    }
    let mut end = see_reserved(seated);
    let mut still = 0u32;
    for _look in 0..GATHERS {
        thread::yield_now();
        let seen = see_reserved(seated);
        still = if seen == end {
            still.saturating_add(1)
        } else {
            0
        };
        if still == STILL {
            return;
        }
        end = seen;
    }
}

// Looks at the flushed address until it is another one than was known, but so many times at most,
// and pauses behind each look: who has the turn to write may be in the midst of a sync. A look
// loads one word; a try loads down, the position and the locks too, and exchanges the turn's word.
fn await_flush<'p, D: Disk, R: Wait>(
    rt: &R,
    seated: &mut SeatedPass<'p, D>,
    known: &mut u64,
    patience: &mut Patience,
)
    requires up { KnowsNoFault (view_of seated.old) }
    // It has what it had, with its log, and knows of no failed disk.
    ensures up { KnowsNoFault (view_of seated.new) }
    ensures log { log_of_pass (view_of seated.new) ≡ log_of_pass (view_of seated.old) }
    ensures stays { StaysAtWork seated.old seated.new }
{
    for _look in 0..LOOKS {
        let flushed = seated.load_flushed();
        if flushed != *known {
            *known = flushed;
            return;
        }
        patience.pause(rt);
    }
}

// One try, which does not wait. At Ok the pass was promised what is told; else its log is as it
// was. In both cases it is about nothing behind it.
pub(crate) fn try_flush<'p, D: Disk>(
    seated: &mut SeatedPass<'p, D>,
    upto: Lsn,
) -> Result<Hard, TryFlushErr>
    requires rests { StandsAtRest seated.old }
    ensures tries { AnswersFlushTry upto.0 (view_of seated.old) result (view_of seated.new) }
    ensures only_unflushed { TriesOnlyUnflushed upto.0 (view_of seated.old) result
        (view_of seated.new) }
    ensures unreserved { JudgesFlushTry upto.0 (view_of seated.old) result }
    ensures down_again { (faults : _) → KnowsDown faults (view_of seated.old)
        → result ≡ try_flush_err_known_down faults }
    ensures async_met { (view_of seated.new).async_met ≡ (view_of seated.old).async_met }
    ensures rests { ComesToRest seated.old seated.new }
{
    let faults = seated.load_down();
    if faults != 0 {
        return Err(TryFlushErr::Down { faults });
    }
    try_up(seated, upto)
}

// One try, where the disk has not failed. The reserved end is looked at first, then the flushed
// address, then the locks.
fn try_up<'p, D: Disk>(seated: &mut SeatedPass<'p, D>, upto: Lsn) -> Result<Hard, TryFlushErr>
    requires rests { HasNoTurn seated.old }
    requires up { KnowsNoFault (view_of seated.old) }
    ensures tries { AnswersFlushTry upto.0 (view_of seated.old) result (view_of seated.new) }
    ensures only_unflushed { TriesOnlyUnflushed upto.0 (view_of seated.old) result
        (view_of seated.new) }
    // The position is met by the view that it has before.
    ensures reserved { SeesWhether upto.0 (view_of seated.old) result }
    ensures works { WorksOn seated.old seated.new }
    ensures rests { HasNoTurn seated.new }
{
    let end = Lsn(see_end(seated, upto.0));
    if end < upto {
        return Err(TryFlushErr::Unreserved { end });
    }
    if let Some(hard) = told_already(seated, upto) {
        return Ok(hard);
    }
    harden_copied(seated, upto)
}

// Writes and syncs what is copied, where that reaches an address below which the pass has seen all
// reserved. The locks are visited before the turn to write is taken: what the watch told stays
// true, and all of it is written and promised, also above the address.
fn harden_copied<'p, D: Disk>(
    seated: &mut SeatedPass<'p, D>,
    upto: Lsn,
) -> Result<Hard, TryFlushErr>
    // The address is reserved, and the flushed address that the pass loaded is below it.
    requires reserved { upto.0 ≤ end_form (setup_of seated.old)
        (view_of seated.old).reserving.seen }
    requires above { (view_of seated.old).writing.flushed < upto.0 }
    requires rests { HasNoTurn seated.old }
    requires up { KnowsNoFault (view_of seated.old) }
    ensures tries { AnswersFlushTry upto.0 (view_of seated.old) result (view_of seated.new) }
    ensures works { WorksOn seated.old seated.new }
    ensures rests { HasNoTurn seated.new }
{
    let known = match watch(seated, upto) {
        Watched::Finished { upto } => upto.0,
        Watched::Behind { lock, word } => return Err(TryFlushErr::Behind { lock, word }),
    };
    take_ready(seated)?;
    harden_in_turn(seated, upto, known)
}

// With the turn had, looks at the flushed address again, since another flush may have passed the
// one asked for while this one was at the locks: then that is told, and no device call is made.
// Else writes what is known to be copied, and syncs.
fn harden_in_turn<'p, D: Disk>(
    seated: &mut SeatedPass<'p, D>,
    upto: Lsn,
    known: u64,
) -> Result<Hard, TryFlushErr>
    // The writer is in hand and has not failed, and `known` is what the watch told before it was
    // taken, which reaches the address.
    requires ready { IsReady D.tape D.moment D.faults seated.old }
    requires known { known ≡ known_copied (view_of seated.old) }
    requires reaches { upto.0 ≤ known }
    requires reserved { upto.0 ≤ end_form (setup_of seated.old)
        (view_of seated.old).reserving.seen }
    requires up { KnowsNoFault (view_of seated.old) }
    ensures tries { AnswersFlushTry upto.0 (view_of seated.old) result (view_of seated.new) }
    ensures works { WorksOn seated.old seated.new }
    ensures rests { HasNoTurn seated.new }
{
    if let Some(hard) = told_already(seated, upto) {
        // A writer goes back with all that it has written stored: so that is stored once more.
        store_written(seated);
        give_back(seated);
        return Ok(hard);
    }
    Ok(harden(seated, known)?)
}

// What was flushed already, where that is as far as an address: then the moment is loaded, and the
// pass was promised both. Else it has seen that the flushed address is below.
fn told_already<'p, D: Disk>(seated: &mut SeatedPass<'p, D>, upto: Lsn) -> Option<Hard>
    requires up { KnowsNoFault (view_of seated.old) }
    ensures told { MatchOption result
        ((log_of_pass (view_of seated.new) ≡ log_of_pass (view_of seated.old))
        × ((view_of seated.new).writing.flushed < upto.0) × KnowsNoFault (view_of seated.new))
        (λ hard. IsToldHard upto.0 hard.upto.0 hard.moment (view_of seated.old)
        (view_of seated.new) × (hard.upto.0 ≡ (view_of seated.new).writing.flushed)) }
    // The flushed address is loaded, and the moment only where that has reached the address; and
    // nothing else.
    ensures loads { MatchOption result (MeetsUnflushed upto.0 (view_of seated.old))
        (λ hard. LoadsHard hard (view_of seated.old) (view_of seated.new)) }
    ensures stays { StaysAtWork seated.old seated.new }
{
    let flushed = Lsn(seated.load_flushed());
    if flushed < upto {
        return None;
    }
    let moment = seated.load_moment();
    Some(Hard {
        upto: flushed,
        moment,
    })
}

// Writes what is known to be copied, and syncs it; tells since which moment all of it is durable,
// and gives writer and turn back. If the disk fails, sets it down and promises nothing: after a
// failed sync nobody knows which writes the system still holds.
fn harden<'p, D: Disk>(seated: &mut SeatedPass<'p, D>, known: u64) -> Result<Hard, DiskFault>
    // The writer is in hand and has not failed, and `known` is what the watch told before it was
    // taken.
    requires ready { IsReady D.tape D.moment D.faults seated.old }
    requires known { known ≡ known_copied (view_of seated.old) }
    requires up { KnowsNoFault (view_of seated.old) }
    // As much is promised at least. Or the down value is set, and nothing is promised.
    ensures told { MatchResult result
        (λ hard. (known ≤ hard.upto.0)
        × IsToldHard hard.upto.0 hard.upto.0 hard.moment (view_of seated.old)
        (view_of seated.new))
        (λ e. SetsDownItself e.faults (view_of seated.new)
        × (log_of_pass (view_of seated.new) ≡ log_of_pass (view_of seated.old))) }
    ensures flushed { (view_of seated.new).writing.flushed
        ≡ (view_of seated.old).writing.flushed }
    ensures works { WorksOn seated.old seated.new }
    ensures rests { HasNoTurn seated.new }
{
    match flush_in_hand(seated, known) {
        Ok(hard) => {
            give_back(seated);
            Ok(hard)
        }
        Err(fault) => {
            go_down(seated, fault);
            Err(fault)
        }
    }
}

// Calls the device: writes what is known to be copied, and syncs it. Then stores since which moment
// all of it is durable. The writer stays in hand, so what it was called for is told in whole.
fn flush_in_hand<'p, D: Disk>(seated: &mut SeatedPass<'p, D>, known: u64) -> Result<Hard, DiskFault>
    requires ready { IsReady D.tape D.moment D.faults seated.old }
    requires known { known ≡ known_copied (view_of seated.old) }
    requires up { KnowsNoFault (view_of seated.old) }
    // Just what is written then is promised, which reaches what was known. Or the writer keeps the
    // fault that is told, and nothing is promised.
    ensures told { MatchResult result
        (λ hard. (known ≤ hard.upto.0)
        × IsToldHard hard.upto.0 hard.upto.0 hard.moment (view_of seated.old)
        (view_of seated.new)
        × HasAllStored D.tape D.moment D.faults seated.new)
        (λ e. HasFailed D.tape D.moment D.faults e.faults seated.new
        × (log_of_pass (view_of seated.new) ≡ log_of_pass (view_of seated.old))) }
    // The device is called just as a flush of what is known takes it, or up to the call that
    // failed.
    ensures calls { FlushesAll (setup_of seated.old).seg_size known result
        (writer_in (view_of seated.old)) (writer_in (view_of seated.new)) }
    ensures flushed { (view_of seated.new).writing.flushed
        ≡ (view_of seated.old).writing.flushed }
    ensures works { WorksOn seated.old seated.new }
{
    let mut bytes = [0; PAGE_SIZE as usize];
    write_pages(seated, known, &mut bytes)?;
    sync_written(seated)?;
    Ok(store_hard(seated))
}

// Stores the moment, and then the address below which all is durable since. All that is written is
// synced, and stored as written. From the second store on any pass that loads the flushed address
// rests on it. The writer stays in hand.
fn store_hard<'p, D: Disk>(seated: &mut SeatedPass<'p, D>) -> Hard
    requires stored { HasAllStored D.tape D.moment D.faults seated.old }
    requires synced { (writer_in (view_of seated.old)).waiting ≡ none }
    ensures told { (result.upto.0 ≡ (writer_in (view_of seated.old)).written)
        × IsToldHard result.upto.0 result.upto.0 result.moment (view_of seated.old)
        (view_of seated.new) }
    ensures stored { HasAllStored D.tape D.moment D.faults seated.new
        × (result.upto.0 ≤ (writer_in (view_of seated.new)).written) }
    ensures writer { writer_in (view_of seated.new) ≡ writer_in (view_of seated.old) }
    ensures flushed { (view_of seated.new).writing.flushed
        ≡ (view_of seated.old).writing.flushed }
    ensures works { WorksOn seated.old seated.new }
{
    let now = writer_now(seated);
    seated.store_moment(now.moment);
    seated.store_flushed(now.written);
    Hard {
        upto: Lsn(now.written),
        moment: now.moment,
    }
}
