// A record is inserted (PostgreSQL's xlog.c, XLogInsertRecord): its place is reserved under an
// insertion lock (beginning.rt), its words are copied, and the lock is given back (landing.rt).
// From the reservation on it has its place, whatever fails: the record behind it names its start.
// Nothing is said here of what is durable.
ghost use Rattle.std.specs.Prelude.{◌≡◌, false, Err, IfOk, IsErrOf, MatchResult, None};
ghost use Rattle.wal_spelling.specs.Spelling.{is_assembled_switch};
ghost use Rattle.machine_state.specs.Steps.{IsResting};
ghost use Rattle.wal_rule.specs.Company.{IsAlone};
ghost use Rattle.wal_rule.specs.Downs.{KnowsDown};
ghost use Rattle.wal_rule.specs.Passes.{view_of_pass};
ghost use Rattle.wal_rule.specs.SeatedPasses.{StandsAtRest, setup_of, view_of};
ghost use Rattle.wal_log.specs.Beginning.{IsPlaceBegun};
ghost use Rattle.wal_log.specs.Inserting.{AnswersInsert, InsertsOnly, NotesPlace, RefusesInsert, insert_err_of_fault};
ghost use Rattle.wal_log.specs.Logs.{IsPassOfLog, LeavesPass, setup_of_log};
ghost use Rattle.wal_log.specs.Standing.{ComesToRest, GoesOnSeated, SeesMore};
ghost use Rattle.wal_log.specs.declared.inserting.InsertErr.TheVariants.{Down};

use crate::beginning::{Begun, TryErr, try_begin};
use crate::fault::Fault;
use crate::held_locks::Held;
use crate::landing::land_and_make_room;
use crate::wal::Wal;
use crossbeam_utils::Backoff;
use segment_disk::Disk;
use std::hint::spin_loop;
use std::sync::Wait;
use wal_rule::{Company, Pass, SeatedPass};
use wal_spelling::Body;
use wal_types::{Lsn, Receipt};

// How often a busy position is looked at before a pause.
const LOOKS: u32 = 20;

/// Why a record was not inserted, or a segment not switched. The record or the switch has its place
/// all the same where a start is told: what was reserved stays reserved.
#[derive(Clone, Copy, Debug, PartialEq, Eq)]
pub enum InsertErr {
    /// The log has fewer bytes left than the record takes up, or than a switch's own 24: how many.
    Full { free: u64 },
    /// A device call failed in this call, for the room that the record needed, or, by an insert in
    /// company, for room ahead of it, behind its copy: the disk's count of faults then.
    Disk { faults: u64, start: Lsn },
    /// The disk has failed before: its count of faults then.
    Down { faults: u64, start: Option<Lsn> },
}

impl InsertErr {
    // What is told where a record that starts here met a failed disk.
    pub(crate) fn at(start: Lsn, fault: Fault) -> InsertErr
        ensures { result ≡ insert_err_of_fault start fault }
    {
        match fault {
            Fault::Disk { faults } => InsertErr::Disk { faults, start },
            Fault::Down { faults } => InsertErr::Down {
                faults,
                start: Some(start),
            },
        }
    }
}

impl<D: Disk> Wal<D> {
    /// Puts a record behind all that is reserved, and copies it. It is not durable before a flush.
    /// It waits for a free insertion lock and, where a page's buffer is wanted, for the page that
    /// it holds to be written, which it does itself. A pass that has met another's record between
    /// two of its own makes room half a ring ahead, behind a record that came to a further page,
    /// and tells a fault of the disk that it meets there. One that is alone does nothing of that.
    pub fn insert<R: Wait>(
        &self,
        rt: &R,
        pass: &mut Pass,
        body: &Body,
    ) -> Result<Receipt, InsertErr>
        requires pass { IsPassOfLog self.now pass.old }
        // A segment switch is no record to insert: it closes its segment under all locks.
        requires inserted { is_assembled_switch body.now ≡ false }
        // The pass's log has the record's entry last, with the places that are told. Or it tells
        // why not, and the start of the entry if that stands in the order all the same.
        ensures inserts { AnswersInsert (setup_of_log self.now) body.now
            (view_of_pass pass.old) result (view_of_pass pass.new) }
        // A pass that is alone does nothing behind the copy, but that it gives its lock back.
        ensures alone { IsAlone pass.old.company → IfOk result (λ receipt.
            InsertsOnly (setup_of_log self.now) body.now (view_of_pass pass.old)
            (view_of_pass pass.new) receipt) }
        // It has met others from then on that a record stands between two of its own.
        ensures company { NotesPlace result pass.old.company pass.new.company }
        // It meets no async address: that is raised by `commit_async` alone.
        ensures async_met { (view_of_pass pass.new).async_met ≡ (view_of_pass pass.old).async_met }
        // However it ends, the pass is about nothing, with its numbers and all that it had seen.
        // A pass that knows of a failed disk is told of it, and reserves nothing.
        ensures leaves { LeavesPass self.now (λ faults. result ≡ Err (Down faults None))
            pass.old pass.new }
    {
        let mut seated = pass.seat(&self.table);
        let answer = insert_on(rt, &mut seated, &pass.company, body);
        note_place(&mut pass.company, &answer);
        pass.put_back(seated);
        answer
    }
}

// Takes in where a record was inserted.
#[inline(always)]
pub(crate) fn note_place(company: &mut Company, answer: &Result<Receipt, InsertErr>)
    ensures { NotesPlace answer.now company.old company.new }
{
    if let Ok(receipt) = answer {
        company.note(receipt.start, receipt.end);
    }
}

// The insert of a pass, which is about nothing before it and behind it. It leaves of the pass what
// `Wal::insert` says.
pub(crate) fn insert_on<'p, D: Disk, R: Wait>(
    rt: &R,
    seated: &mut SeatedPass<'p, D>,
    company: &Company,
    body: &Body,
) -> Result<Receipt, InsertErr>
    requires rests { StandsAtRest seated.old }
    requires inserted { is_assembled_switch body.now ≡ false }
    ensures inserts { AnswersInsert (setup_of seated.old) body.now (view_of seated.old) result
        (view_of seated.new) }
    ensures alone { IsAlone company.now → IfOk result (λ receipt.
        InsertsOnly (setup_of seated.old) body.now (view_of seated.old) (view_of seated.new)
        receipt) }
    ensures down_again { (faults : _) → KnowsDown faults (view_of seated.old)
        → result ≡ Err (Down faults None) }
    ensures async_met { (view_of seated.new).async_met ≡ (view_of seated.old).async_met }
    ensures rests { ComesToRest seated.old seated.new }
{
    let mut begun = begin(rt, seated, body)?;
    let held = Held::One(begun.lock);
    match land_and_make_room(rt, seated, company, held, begun.end, &mut begun.placed) {
        Ok(()) => Ok(Receipt {
            start: begun.start,
            end: begun.end,
        }),
        Err(fault) => Err(InsertErr::at(begun.start, fault)),
    }
}

// Reserves the record's place, by as many tries as it takes. At Ok one lock is held, with the
// record in flight under it; else nothing is, as between two tries.
fn begin<'p, 'a, D: Disk, R: Wait>(
    rt: &R,
    seated: &mut SeatedPass<'p, D>,
    body: &'a Body<'a>,
) -> Result<Begun<'a>, InsertErr>
    requires rests { StandsAtRest seated.old }
    requires inserted { is_assembled_switch body.now ≡ false }
    ensures begins { MatchResult result
        (λ b. IsPlaceBegun (setup_of seated.old) body.now (view_of seated.old)
        (view_of seated.new) b)
        (λ e. RefusesInsert (setup_of seated.old) body.now (view_of seated.old)
        (view_of seated.new) e × IsResting (view_of seated.new)) }
    ensures down_again { (faults : _) → KnowsDown faults (view_of seated.old)
        → IsErrOf result (Down faults None) }
    ensures goes_on { GoesOnSeated seated.old seated.new }
{
    let backoff = Backoff::new();
    for _ in rt.forever() {
        match try_begin(seated, body) {
            Ok(begun) => return Ok(begun),
            Err(TryErr::Full { free }) => return Err(InsertErr::Full { free }),
            Err(TryErr::Down { faults }) => {
                return Err(InsertErr::Down {
                    faults,
                    start: None,
                });
            }
            Err(TryErr::Busy { .. }) => await_position(seated, &backoff),
            Err(TryErr::AllHeld { .. }) => backoff.snooze(),
        }
    }
    unreachable!()
}

// Looks at the position until nobody has it locked, or pauses if it is locked after so many looks:
// who has it locked makes three steps more.
#[inline(never)]
fn await_position<'p, D: Disk>(seated: &mut SeatedPass<'p, D>, backoff: &Backoff)
    // The pass has seen what was reserved then, and is else as it was.
    ensures sees { SeesMore seated.old seated.new }
{
    for _look in 0..LOOKS {
        if seated.load_position() % 2 == 0 {
            return;
        }
        spin_loop();
    }
    backoff.snooze();
}
