// One try of a segment switch, for a caller who does not wait; switching.rt has the one that does.
// Each insertion lock is tried once, from 0 up, and under all eight the position. Where one of them
// is somebody else's, the locks below it are given back: so nothing has to be told under them, as
// by a switch that waits. Once it is reserved, the switch is in flight under all locks, and its
// caller copies it as a record (in_flight.rt), zeros up to its segment's end. Meanwhile nobody else
// reserves.
ghost use Rattle.std.specs.Prelude.{◌≡◌, [], IsErrAnd, IsErrOf, MatchResult};
ghost use Rattle.wal_spelling.specs.Record.{switch_record};
ghost use Rattle.wal_spelling.specs.Spelling.{assembled};
ghost use Rattle.machine_state.specs.Moves.{with_working};
ghost use Rattle.machine_state.specs.Views.{Landed};
ghost use Rattle.wal_rule.specs.Downs.{KnowsDown};
ghost use Rattle.wal_rule.specs.Passes.{view_of_pass};
ghost use Rattle.wal_rule.specs.SeatedPasses.{HasView, StandsAtRest, setup_of, view_of};
ghost use Rattle.reserve_lock.specs.Reserved.{every_lock};
ghost use Rattle.wal_log.specs.Downs.{KnowsNoFault};
ghost use Rattle.wal_log.specs.Logs.{IsPassOfLog};
ghost use Rattle.wal_log.specs.Standing.{GoesOnSeated, HasLocks};
ghost use Rattle.wal_log.specs.SwitchTries.{AnswersTrySwitch, FindsLockTaken, TriesSwitch, switch_err_of_reserve};
ghost use Rattle.wal_log.specs.declared.switch_tries.TrySwitchErr.TheVariants.{Down};

use crate::held_locks::Held;
use crate::in_flight::Inflight;
use crate::wal::Wal;
use insert_locks::{LockNo, release_below, try_take_lock};
use machine_state::layout::LOCKS;
use reserve_lock::{ReserveErr, SwitchTry, try_reserve_switch};
use segment_disk::Disk;
use wal_rule::{Pass, SeatedPass};
use wal_spelling::Body;
use wal_types::Lsn;

/// What one try of a segment switch comes to, where nothing was in its way.
pub enum SwitchBegun<'a> {
    /// The switch is reserved, up to the start of the next segment.
    Going(Inflight<'a>),
    /// Nothing was to be done: the log ends at this address, a segment's start.
    Stayed { end: Lsn, pass: Pass },
}

/// Why one try reserved no switch.
#[derive(Clone, Copy, Debug, PartialEq, Eq)]
pub enum TrySwitchErr {
    /// The position was locked, or was another one when it was to be locked: what was found.
    Busy { seen: u64 },
    /// This insertion lock was held: its word.
    Taken { lock: LockNo, word: u64 },
    /// So many bytes of the log are left, fewer than a switch's own 24.
    Full { free: u64 },
    /// The disk has failed before: its count of faults then.
    Down { faults: u64 },
}

impl<D: Disk> Wal<D> {
    /// Tries once to end the segment: to put a switch behind all that is reserved, which takes up
    /// the rest of its segment. It does not wait: where that cannot be done the pass comes back,
    /// and no lock stays held.
    pub fn try_switch<'a>(
        &self,
        mut pass: Pass,
        body: &'a Body<'a>,
    ) -> Result<SwitchBegun<'a>, (TrySwitchErr, Pass)>
        requires pass { IsPassOfLog self.now pass }
        // The body is a segment switch's (`Body::switch`).
        requires switch { body.now ≡ assembled switch_record }
        // The pass's log has the switch's entry last, which is in flight under all locks with all
        // its words left. Or the pass is about nothing: its log notes that it stood at a segment's
        // start, or it tells why not, and its log is as it was, but for a note if the log was full.
        ensures tries { AnswersTrySwitch self.now body.now (view_of_pass pass) result }
        // A pass that knows of a failed disk is told of it, and reserves nothing.
        ensures down_again { (faults : _) → KnowsDown faults (view_of_pass pass)
            → IsErrAnd result (λ e. e.0 ≡ Down faults) }
    {
        let mut seated = pass.seat(&self.table);
        let tried = try_switch_on(&mut seated, body);
        pass.put_back(seated);
        match tried {
            Ok(SwitchTry::Switched(begun)) => Ok(SwitchBegun::Going(Inflight {
                pass,
                held: Held::All,
                begun,
            })),
            Ok(SwitchTry::Stayed { end }) => Ok(SwitchBegun::Stayed { end, pass }),
            Err(e) => Err((e, pass)),
        }
    }
}

// The try of a pass, which is about nothing before it. Where it reserves nothing, no lock stays
// held.
fn try_switch_on<'p, 'a, D: Disk>(
    seated: &mut SeatedPass<'p, D>,
    body: &'a Body<'a>,
) -> Result<SwitchTry<'a>, TrySwitchErr>
    requires rests { StandsAtRest seated.old }
    requires switch { body.now ≡ assembled switch_record }
    ensures tries { TriesSwitch (setup_of seated.old) body.now (view_of seated.old) result
        (view_of seated.new) }
    ensures down_again { (faults : _) → KnowsDown faults (view_of seated.old)
        → IsErrOf result (Down faults) }
    ensures goes_on { GoesOnSeated seated.old seated.new }
{
    let faults = seated.load_down();
    if faults != 0 {
        return Err(TrySwitchErr::Down { faults });
    }
    match take_each(seated) {
        Ok(()) => switch_at_once(seated, body),
        Err((lock, word)) => Err(TrySwitchErr::Taken { lock, word }),
    }
}

// Takes all insertion locks, from 0 up, each by one try. Else it gives back what it took, and tells
// which one was held, and its word.
fn take_each<'p, D: Disk>(seated: &mut SeatedPass<'p, D>) -> Result<(), (LockNo, u64)>
    requires has { HasLocks [] (view_of seated.old) }
    ensures takes { MatchResult result
        (λ _. HasView (with_working every_lock Landed (view_of seated.old)) seated.old seated.new)
        (λ e. HasView (view_of seated.old) seated.old seated.new
        × FindsLockTaken e.0.0 e.1 (view_of seated.old)) }
{
    for count in 0..LOCKS {
        let lock = LockNo(count as u8);
        let word = try_take_lock(seated, lock);
        if word != 0 {
            release_below(seated, count);
            return Err((lock, word));
        }
    }
    Ok(())
}

// Reserves the switch by one try under all locks, which are held, or gives them back. It leaves
// what `try_switch_on` leaves.
fn switch_at_once<'p, 'a, D: Disk>(
    seated: &mut SeatedPass<'p, D>,
    body: &'a Body<'a>,
) -> Result<SwitchTry<'a>, TrySwitchErr>
    requires switch { body.now ≡ assembled switch_record }
    requires has { HasLocks every_lock (view_of seated.old) }
    requires up { KnowsNoFault (view_of seated.old) }
    ensures tries { TriesSwitch (setup_of seated.old) body.now (view_of seated.old) result
        (view_of seated.new) }
    ensures goes_on { GoesOnSeated seated.old seated.new }
{
    match try_reserve_switch(seated, body) {
        Ok(SwitchTry::Switched(begun)) => Ok(SwitchTry::Switched(begun)),
        Ok(SwitchTry::Stayed { end }) => {
            release_below(seated, LOCKS);
            Ok(SwitchTry::Stayed { end })
        }
        Err(e) => {
            release_below(seated, LOCKS);
            Err(TrySwitchErr::from(e))
        }
    }
}

impl From<ReserveErr> for TrySwitchErr {
    ghost from_gives = { λ e t. t ≡ switch_err_of_reserve e };

    fn from(e: ReserveErr) -> TrySwitchErr {
        match e {
            ReserveErr::Busy { seen } => TrySwitchErr::Busy { seen },
            ReserveErr::Full { free } => TrySwitchErr::Full { free },
        }
    }
}
