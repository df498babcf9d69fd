// A commit is answered before it is durable (PostgreSQL's xact.c, RecordTransactionCommit with
// synchronous_commit off; xlog.c, XLogSetAsyncXactLSN): an insert, then the last word, the async
// address, is raised to the record's end. It is raised behind the copy: who flushes behind takes
// the address as its goal, and what it is told to flush is whole. Nothing is held meanwhile, and
// others may raise it further in between: then nothing is stored. It makes no device call for it.
// What is answered so may be lost in a crash, until a flush by anybody has passed its end.
ghost use Rattle.std.specs.Prelude.{◌≡◌, ◌%◌, ◌≤◌, false, Err, IfOk, None};
ghost use Rattle.wal_spelling.specs.Spelling.{is_assembled_switch};
ghost use Rattle.machine_state.specs.Moves.{with_async};
ghost use Rattle.machine_state.specs.Words.{end_form};
ghost use Rattle.wal_rule.specs.Company.{IsAlone};
ghost use Rattle.wal_rule.specs.Downs.{KnowsDown};
ghost use Rattle.wal_rule.specs.Passes.{view_of_pass};
ghost use Rattle.wal_rule.specs.SeatedPasses.{StandsAtRest, setup_of, view_of};
ghost use Rattle.wal_log.specs.Behind.{AnswersRaise, InsertsAndRaises, RaisesAsync};
ghost use Rattle.wal_log.specs.Inserting.{AnswersInsert, NotesPlace};
ghost use Rattle.wal_log.specs.Logs.{IsPassOfLog, LeavesPass, setup_of_log};
ghost use Rattle.wal_log.specs.Standing.{ComesToRest};
ghost use Rattle.wal_log.specs.declared.inserting.InsertErr.TheVariants.{Down};

use crate::inserting::{InsertErr, insert_on, note_place};
use crate::wal::Wal;
use crossbeam_utils::Backoff;
use segment_disk::Disk;
use std::sync::Wait;
use wal_rule::{Company, Pass, SeatedPass};
use wal_spelling::Body;
use wal_types::{Lsn, Receipt};

impl<D: Disk> Wal<D> {
    /// Puts a record behind all that is reserved, copies it, and counts it as answered: an insert,
    /// behind which `write_behind` flushes up to the record's end or further. It is not durable
    /// before a flush.
    pub fn commit_async<R: Wait>(
        &self,
        rt: &R,
        pass: &mut Pass,
        body: &Body,
    ) -> Result<Receipt, InsertErr>
        requires pass { IsPassOfLog self.now pass.old }
        // A segment switch is no record to insert: it closes its segment under all locks.
        requires inserted { is_assembled_switch body.now ≡ false }
        // As an insert tells it, and refuses it.
        ensures inserts { AnswersInsert (setup_of_log self.now) body.now
            (view_of_pass pass.old) result (view_of_pass pass.new) }
        // The pass has met or stored an async address that is no less than the record's end: who
        // flushes behind reaches it.
        ensures counts { IfOk result (λ receipt.
            receipt.end.0 ≤ (view_of_pass pass.new).async_met) }
        // A pass that is alone does nothing behind the copy, but that it gives its lock back and
        // raises that address. And it notes its place as by an insert.
        ensures alone { IsAlone pass.old.company → IfOk result (λ receipt.
            InsertsAndRaises (setup_of_log self.now) body.now (view_of_pass pass.old)
            (view_of_pass pass.new) receipt) }
        ensures company { NotesPlace result pass.old.company pass.new.company }
        // However it ends, the pass is about nothing, with its numbers and all that it had seen.
        // A pass that knows of a failed disk is told of it, and reserves nothing.
        ensures leaves { LeavesPass self.now (λ faults. result ≡ Err (Down faults None))
            pass.old pass.new }
    {
        let mut seated = pass.seat(&self.table);
        let answer = commit_async_on(rt, &mut seated, &pass.company, body);
        note_place(&mut pass.company, &answer);
        pass.put_back(seated);
        answer
    }

    /// One try to raise the async address to the end of a record, or of all that the pass has seen
    /// reserved: behind an insert it is what `commit_async` does further. It does not wait. At Err
    /// somebody has raised it in between, to this lower address: the caller may try again.
    pub fn try_raise_async(&self, pass: &mut Pass, upto: Lsn) -> Result<(), Lsn>
        requires pass { IsPassOfLog self.now pass.old }
        requires reserved { upto.0 ≤ end_form (setup_of_log self.now)
            (view_of_pass pass.old).reserving.seen }
        // As each record's end.
        requires whole { upto.0 % 8 ≡ 0 }
        // The pass has met or stored an async address that is no less. Or it met the one told.
        ensures raises { AnswersRaise upto.0 (view_of_pass pass.old) result
            (view_of_pass pass.new) }
        // Nothing else has changed for the pass.
        ensures view { view_of_pass pass.new
            ≡ with_async (view_of_pass pass.new).async_met (view_of_pass pass.old) }
        // However it ends, the pass is about nothing, with its numbers and all that it had seen.
        // Of a failed disk it tells nothing.
        ensures leaves { LeavesPass self.now (λ faults. Unit {0}) pass.old pass.new }
    {
        let mut seated = pass.seat(&self.table);
        let answer = try_raise(&mut seated, upto);
        pass.put_back(seated);
        answer
    }
}

// The commit of a pass, which is about nothing before it and behind it. It leaves of the pass what
// `Wal::commit_async` says.
fn commit_async_on<'p, D: Disk, R: Wait>(
    rt: &R,
    seated: &mut SeatedPass<'p, D>,
    company: &Company,
    body: &Body,
) -> Result<Receipt, InsertErr>
    requires rests { StandsAtRest seated.old }
    requires inserted { is_assembled_switch body.now ≡ false }
    ensures inserts { AnswersInsert (setup_of seated.old) body.now (view_of seated.old) result
        (view_of seated.new) }
    ensures counts { IfOk result (λ receipt. receipt.end.0 ≤ (view_of seated.new).async_met) }
    ensures alone { IsAlone company.now → IfOk result (λ receipt.
        InsertsAndRaises (setup_of seated.old) body.now (view_of seated.old) (view_of seated.new)
        receipt) }
    ensures down_again { (faults : _) → KnowsDown faults (view_of seated.old)
        → result ≡ Err (Down faults None) }
    ensures rests { ComesToRest seated.old seated.new }
{
    let receipt = insert_on(rt, seated, company, body)?;
    raise(rt, seated, receipt.end);
    Ok(receipt)
}

// Raises the async address to an address at least, by as many tries as it takes.
fn raise<'p, D: Disk, R: Wait>(rt: &R, seated: &mut SeatedPass<'p, D>, upto: Lsn)
    requires rests { StandsAtRest seated.old }
    // The pass has seen so much reserved.
    requires reserved { upto.0 ≤ end_form (setup_of seated.old)
        (view_of seated.old).reserving.seen }
    requires whole { upto.0 % 8 ≡ 0 }
    ensures reached { upto.0 ≤ (view_of seated.new).async_met }
    ensures raises { RaisesAsync seated.old seated.new }
{
    let backoff = Backoff::new();
    for _ in rt.forever() {
        if try_raise(seated, upto).is_ok() {
            return;
        }
        backoff.snooze();
    }
    unreachable!()
}

// Raises it by one try. At Err somebody else raised it in between, to this lower address.
fn try_raise<'p, D: Disk>(seated: &mut SeatedPass<'p, D>, upto: Lsn) -> Result<(), Lsn>
    requires rests { StandsAtRest seated.old }
    requires reserved { upto.0 ≤ end_form (setup_of seated.old)
        (view_of seated.old).reserving.seen }
    requires whole { upto.0 % 8 ≡ 0 }
    ensures raised { AnswersRaise upto.0 (view_of seated.old) result (view_of seated.new) }
    ensures raises { RaisesAsync seated.old seated.new }
{
    let met = seated.load_async();
    if met >= upto.0 {
        return Ok(());
    }
    let found = seated.raise_async(met, upto.0);
    if found == met || found >= upto.0 {
        return Ok(());
    }
    Err(Lsn(found))
}
