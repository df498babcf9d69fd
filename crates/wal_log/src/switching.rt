// A segment is ended (PostgreSQL's xlog.c, RequestXLogSwitch, WALInsertLockAcquireExclusive): a
// switch takes up the rest of it, so that the next record starts with the next segment. It stands
// under all insertion locks, which are taken from 0 up. At each the switch waits with those below
// it held, and tells there how far it has seen records reserved: its own starts there or above. If
// they told nothing, an insert that waits for a page to be written would wait for them, and the
// switch for that insert's lock. With all eight held nobody else reserves. The words up to the
// segment's end are copied as any record's (landing.rt).
ghost use Rattle.std.specs.Prelude.{◌≡◌, ◌+◌, ◌<◌, [], Err, None, Ok, IsErrOf, MatchBool, MatchOption, MatchResult};
ghost use Rattle.wal_spelling.specs.Record.{switch_record};
ghost use Rattle.wal_spelling.specs.Spelling.{assembled};
ghost use Rattle.insert_locks.specs.Holding.{lock_run};
ghost use Rattle.reserve_lock.specs.Reserved.{every_lock};
ghost use Rattle.wal_rule.specs.Downs.{KnowsDown};
ghost use Rattle.wal_rule.specs.Passes.{view_of_pass};
ghost use Rattle.wal_rule.specs.SeatedPasses.{StandsAtRest, setup_of, view_of};
ghost use Rattle.wal_log.specs.Downs.{KnowsNoFault};
ghost use Rattle.wal_log.specs.Logs.{IsPassOfLog, LeavesPass, setup_of_log};
ghost use Rattle.wal_log.specs.Standing.{ComesToRest, GoesOnSeated, HasLocks, HoldsLocks};
ghost use Rattle.wal_log.specs.Switching.{AnswersPlace, AnswersSwitch, HoldsOn, TellsDown};
ghost use Rattle.wal_log.specs.Waiting.{FindsUp, IsSeenTold};
ghost use Rattle.wal_log.specs.declared.inserting.InsertErr.TheVariants.{Down};

use crate::held_locks::Held;
use crate::inserting::InsertErr;
use crate::landing::land;
use crate::wal::Wal;
use crossbeam_utils::Backoff;
use insert_locks::{LockNo, advance_below, release_below, see_reserved, try_take_lock};
use machine_state::layout::LOCKS;
use reserve_lock::{ReserveErr, Reserved, SwitchTry, try_reserve_switch};
use segment_disk::Disk;
use std::sync::Wait;
use wal_rule::{Company, Pass, SeatedPass};
use wal_spelling::Body;
use wal_types::Lsn;

/// What a segment switch comes to.
#[derive(Clone, Copy, Debug, PartialEq, Eq)]
pub enum Switch {
    /// The switch is reserved and copied: where it starts, and where the next segment does.
    Done { start: Lsn, end: Lsn },
    /// Nothing was to be done: the log ends at this address, a segment's start.
    Stayed { end: Lsn },
}

impl<D: Disk> Wal<D> {
    /// Ends the segment: puts a switch behind all that is reserved, which takes up the rest of its
    /// segment, and copies it, zeros and all. It is not durable before a flush. Where the log
    /// stands at a segment's start it has nothing to do. It waits for each of the eight insertion
    /// locks and, as an insert, for buffers.
    pub fn switch<R: Wait>(&self, rt: &R, pass: &mut Pass, body: &Body) -> Result<Switch, InsertErr>
        requires pass { IsPassOfLog self.now pass.old }
        // The body is a segment switch's (`Body::switch`).
        requires switch { body.now ≡ assembled switch_record }
        // The pass's log has the switch's entry last, with the places that are told, or notes that
        // the log stood at a segment's start. Or it tells why not, and the start of the entry if
        // that stands in the order all the same.
        ensures switches { AnswersSwitch (setup_of_log self.now) body.now
            (view_of_pass pass.old) result (view_of_pass pass.new) }
        // However it ends, the pass is about nothing, with its numbers and all that it had seen.
        // A pass that knows of a failed disk is told of it, and reserves nothing.
        ensures leaves { LeavesPass self.now (λ faults. result ≡ Err (Down faults None))
            pass.old pass.new }
    {
        let mut seated = pass.seat(&self.table);
        let answer = switch_on(rt, &mut seated, body);
        note_switch(&mut pass.company, &answer);
        pass.put_back(seated);
        answer
    }
}

// Takes in where a switch was inserted.
fn note_switch(company: &mut Company, answer: &Result<Switch, InsertErr>) {
    if let Ok(Switch::Done { start, end }) = answer {
        company.note(*start, *end);
    }
}

// The switch of a pass, which is about nothing before it and behind it. It leaves of the pass what
// `Wal::switch` says.
fn switch_on<'p, D: Disk, R: Wait>(
    rt: &R,
    seated: &mut SeatedPass<'p, D>,
    body: &Body,
) -> Result<Switch, InsertErr>
    requires rests { StandsAtRest seated.old }
    requires switch { body.now ≡ assembled switch_record }
    ensures switches { AnswersSwitch (setup_of seated.old) body.now (view_of seated.old) result
        (view_of seated.new) }
    ensures down_again { (faults : _) → KnowsDown faults (view_of seated.old)
        → result ≡ Err (Down faults None) }
    ensures rests { ComesToRest seated.old seated.new }
{
    look_down(seated)?;
    take_all(rt, seated)?;
    switch_under(rt, seated, body)
}

// Loads down. If the disk has failed it tells so.
fn look_down<'p, D: Disk>(seated: &mut SeatedPass<'p, D>) -> Result<(), InsertErr>
    ensures looks { MatchResult result
        (λ _. KnowsNoFault (view_of seated.new) × FindsUp (view_of seated.old) (view_of seated.new))
        (λ e. TellsDown (view_of seated.old) (view_of seated.new) e) }
    ensures known { (faults : _) → KnowsDown faults (view_of seated.old)
        → IsErrOf result (Down faults None) }
    // The locks that it holds it holds still, with what was told under them.
    ensures holds { (locks : _) → HasLocks locks (view_of seated.old)
        → HoldsOn locks seated.old seated.new }
    ensures told { (locks : _) → IsSeenTold locks (view_of seated.old)
        → IsSeenTold locks (view_of seated.new) }
{
    let faults = seated.load_down();
    if faults != 0 {
        return Err(InsertErr::Down {
            faults,
            start: None,
        });
    }
    Ok(())
}

// Takes all insertion locks, from 0 up. Where the disk has failed none stays held.
fn take_all<'p, D: Disk, R: Wait>(rt: &R, seated: &mut SeatedPass<'p, D>) -> Result<(), InsertErr>
    requires has { HasLocks [] (view_of seated.old) }
    requires up { KnowsNoFault (view_of seated.old) }
    ensures takes { MatchResult result
        (λ _. HoldsOn every_lock seated.old seated.new × KnowsNoFault (view_of seated.new))
        (λ e. HoldsOn [] seated.old seated.new
        × TellsDown (view_of seated.old) (view_of seated.new) e) }
{
    for count in 0..LOCKS {
        if let Err(e) = take_next(rt, seated, count) {
            release_below(seated, count);
            return Err(e);
        }
    }
    Ok(())
}

// Takes a lock, by as many tries as it takes, where those below it are held. At an error, which is
// that the disk has failed, they are held still.
fn take_next<'p, D: Disk, R: Wait>(
    rt: &R,
    seated: &mut SeatedPass<'p, D>,
    lock: u32,
) -> Result<(), InsertErr>
    requires low { lock < 8 }
    requires has { HasLocks (lock_run 0 lock) (view_of seated.old) }
    requires up { KnowsNoFault (view_of seated.old) }
    ensures takes { MatchResult result
        (λ _. HoldsOn (lock_run 0 (lock + 1)) seated.old seated.new
        × KnowsNoFault (view_of seated.new))
        (λ e. HoldsOn (lock_run 0 lock) seated.old seated.new
        × TellsDown (view_of seated.old) (view_of seated.new) e) }
{
    let backoff = Backoff::new();
    for _ in rt.forever() {
        if take_or_wait(seated, lock, &backoff)? {
            return Ok(());
        }
    }
    unreachable!()
}

// Tries a lock once, where those below it are held. Where somebody has it, tells how far records
// are seen reserved, and pauses, unless the disk has failed. It tells whether it has the lock.
fn take_or_wait<'p, D: Disk>(
    seated: &mut SeatedPass<'p, D>,
    lock: u32,
    backoff: &Backoff,
) -> Result<bool, InsertErr>
    requires low { lock < 8 }
    requires has { HasLocks (lock_run 0 lock) (view_of seated.old) }
    requires up { KnowsNoFault (view_of seated.old) }
    // Where it has none more it has told under those that it has, and has looked whether the disk
    // has failed.
    ensures takes { MatchResult result
        (λ taken. KnowsNoFault (view_of seated.new)
        × MatchBool taken (HoldsOn (lock_run 0 (lock + 1)) seated.old seated.new)
        (HoldsOn (lock_run 0 lock) seated.old seated.new
        × (0 < lock → IsSeenTold (lock_run 0 lock) (view_of seated.new))
        × FindsUp (view_of seated.old) (view_of seated.new)))
        (λ e. HoldsOn (lock_run 0 lock) seated.old seated.new
        × TellsDown (view_of seated.old) (view_of seated.new) e) }
{
    if try_take_lock(seated, LockNo(lock as u8)) == 0 {
        return Ok(true);
    }
    tell_seen(seated, lock);
    look_down(seated)?;
    backoff.snooze();
    Ok(false)
}

// Tells under the locks below a number, which are held, how far records are reserved.
fn tell_seen<'p, D: Disk>(seated: &mut SeatedPass<'p, D>, count: u32)
    requires low { count < 8 }
    requires has { HasLocks (lock_run 0 count) (view_of seated.old) }
    ensures holds { HoldsOn (lock_run 0 count) seated.old seated.new }
    ensures told { 0 < count → IsSeenTold (lock_run 0 count) (view_of seated.new) }
    ensures up { KnowsNoFault (view_of seated.old) → KnowsNoFault (view_of seated.new) }
{
    if count > 0 {
        let end = see_reserved(seated);
        advance_below(seated, count, Lsn(end));
    }
}

// Reserves the switch under all locks, which are held, and copies it. However it ends none stays
// held.
fn switch_under<'p, D: Disk, R: Wait>(
    rt: &R,
    seated: &mut SeatedPass<'p, D>,
    body: &Body,
) -> Result<Switch, InsertErr>
    requires switch { body.now ≡ assembled switch_record }
    requires holds { HoldsLocks every_lock seated.old }
    requires up { KnowsNoFault (view_of seated.old) }
    ensures switches { AnswersSwitch (setup_of seated.old) body.now (view_of seated.old) result
        (view_of seated.new) }
    ensures rests { ComesToRest seated.old seated.new }
{
    let reserved = match reserve(rt, seated, body) {
        Ok(SwitchTry::Switched(reserved)) => reserved,
        Ok(SwitchTry::Stayed { end }) => {
            release_below(seated, LOCKS);
            return Ok(Switch::Stayed { end });
        }
        Err(e) => {
            release_below(seated, LOCKS);
            return Err(e);
        }
    };
    let Reserved {
        start,
        end,
        mut placed,
    } = reserved;
    match land(rt, seated, Held::All, end, &mut placed) {
        Ok(()) => Ok(Switch::Done { start, end }),
        Err(fault) => Err(InsertErr::at(start, fault)),
    }
}

// Reserves the switch's place, by as many tries as it takes. It leaves the locks held: with the
// switch in flight under them, or with nothing.
fn reserve<'p, 'a, D: Disk, R: Wait>(
    rt: &R,
    seated: &mut SeatedPass<'p, D>,
    body: &'a Body<'a>,
) -> Result<SwitchTry<'a>, InsertErr>
    requires switch { body.now ≡ assembled switch_record }
    requires has { HasLocks every_lock (view_of seated.old) }
    requires up { KnowsNoFault (view_of seated.old) }
    ensures reserves { AnswersPlace (setup_of seated.old) body.now (view_of seated.old) result
        (view_of seated.new) }
    ensures goes_on { GoesOnSeated seated.old seated.new }
{
    let backoff = Backoff::new();
    for _ in rt.forever() {
        if let Some(tried) = reserve_or_wait(seated, body, &backoff)? {
            return Ok(tried);
        }
    }
    unreachable!()
}

// Tries once to reserve the switch's place. Where somebody has the position locked it pauses,
// unless the disk has failed.
fn reserve_or_wait<'p, 'a, D: Disk>(
    seated: &mut SeatedPass<'p, D>,
    body: &'a Body<'a>,
    backoff: &Backoff,
) -> Result<Option<SwitchTry<'a>>, InsertErr>
    requires switch { body.now ≡ assembled switch_record }
    requires has { HasLocks every_lock (view_of seated.old) }
    requires up { KnowsNoFault (view_of seated.old) }
    // Where it pauses it has looked whether the disk has failed.
    ensures reserves { MatchResult result
        (λ tried. MatchOption tried
        (HoldsOn every_lock seated.old seated.new × KnowsNoFault (view_of seated.new)
        × FindsUp (view_of seated.old) (view_of seated.new))
        (λ t. AnswersPlace (setup_of seated.old) body.now (view_of seated.old) (Ok t)
        (view_of seated.new)))
        (λ e. AnswersPlace (setup_of seated.old) body.now (view_of seated.old) (Err e)
        (view_of seated.new)) }
    ensures goes_on { GoesOnSeated seated.old seated.new }
{
    match try_reserve_switch(seated, body) {
        Ok(tried) => return Ok(Some(tried)),
        Err(ReserveErr::Full { free }) => return Err(InsertErr::Full { free }),
        Err(ReserveErr::Busy { .. }) => look_down(seated)?,
    }
    backoff.snooze();
    Ok(None)
}
