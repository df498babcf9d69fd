// A record is inserted and made durable (PostgreSQL's xact.c, RecordTransactionCommit, which calls
// XLogFlush): an insert, then a flush to the record's end. Nothing is held between the two. Others
// may flush in between, and make this record durable too: then the flush tells what it finds as
// flushed. If the flush is refused the record keeps its place, and nothing is promised of it.
ghost use Rattle.std.specs.Prelude.{◌≡◌, false, IfOk};
ghost use Rattle.wal_spelling.specs.Spelling.{is_assembled_switch};
ghost use Rattle.wal_rule.specs.Company.{HasNoted, IsAlone};
ghost use Rattle.wal_rule.specs.Downs.{KnowsDown};
ghost use Rattle.wal_rule.specs.Passes.{view_of_pass};
ghost use Rattle.wal_rule.specs.SeatedPasses.{StandsAtRest, setup_of, view_of};
ghost use Rattle.wal_log.specs.Committing.{AnswersCommit, InsertsAndFlushes, commit_known_down, refused_of_insert};
ghost use Rattle.wal_log.specs.Logs.{IsPassOfLog, LeavesPass, setup_of_log};
ghost use Rattle.wal_log.specs.Standing.{ComesToRest};

use crate::flushing::{FlushErr, flush_in_company};
use crate::inserting::{InsertErr, insert_on};
use crate::wal::Wal;
use segment_disk::Disk;
use std::sync::Wait;
use wal_rule::{Company, Pass, SeatedPass};
use wal_spelling::Body;
use wal_types::{Cause, Receipt, Refused, Sealed};

impl From<InsertErr> for Refused {
    ghost from_gives = { λ e refused. refused ≡ refused_of_insert e };

    fn from(e: InsertErr) -> Refused {
        match e {
            InsertErr::Full { free } => Refused {
                cause: Cause::Full { free },
                reserved: None,
            },
            InsertErr::Disk { faults, start } => Refused {
                cause: Cause::Disk { faults },
                reserved: Some(start),
            },
            InsertErr::Down { faults, start } => Refused {
                cause: Cause::Down { faults },
                reserved: start,
            },
        }
    }
}

impl<D: Disk> Wal<D> {
    /// Puts a record behind all that is reserved, and makes it durable: an insert, then a flush to
    /// the record's end. Where the flush is refused, the record's start is told.
    pub fn commit<R: Wait>(&self, rt: &R, pass: &mut Pass, body: &Body) -> Result<Sealed, Refused>
        requires pass { IsPassOfLog self.now pass.old }
        // A segment switch is no record to insert: it closes its segment under all locks.
        requires inserted { is_assembled_switch body.now ≡ false }
        // The pass's log has the record's entry and then a promise that reaches its end, with the
        // places and the moment that are told. Or it tells why not.
        ensures commits { AnswersCommit (setup_of_log self.now) body.now
            (view_of_pass pass.old) result (view_of_pass pass.new) }
        // A pass that is alone does nothing between the copy and the flush, but that it gives its
        // lock back. And it notes its place as by an insert.
        ensures alone { IsAlone pass.old.company → IfOk result (λ sealed.
            InsertsAndFlushes (setup_of_log self.now) body.now (view_of_pass pass.old)
            (view_of_pass pass.new) sealed) }
        ensures company { IfOk result (λ sealed.
            HasNoted sealed.start.0 sealed.end pass.old.company pass.new.company) }
        // It meets no async address: that is raised by `commit_async` alone.
        ensures async_met { (view_of_pass pass.new).async_met ≡ (view_of_pass pass.old).async_met }
        // However it ends, the pass is about nothing, with its numbers and all that it had seen.
        // A pass that knows of a failed disk is told of it, and reserves nothing.
        ensures leaves { LeavesPass self.now (λ faults. result ≡ commit_known_down faults)
            pass.old pass.new }
    {
        let mut seated = pass.seat(&self.table);
        let answer = commit_on(rt, &mut seated, &mut pass.company, body);
        pass.put_back(seated);
        answer
    }
}

// The commit of a pass, which is about nothing before it and behind it. It leaves of the pass what
// `Wal::commit` says. Where others inserted lately the flush lets them come first (PostgreSQL's
// commit_siblings).
fn commit_on<'p, D: Disk, R: Wait>(
    rt: &R,
    seated: &mut SeatedPass<'p, D>,
    company: &mut Company,
    body: &Body,
) -> Result<Sealed, Refused>
    requires rests { StandsAtRest seated.old }
    requires inserted { is_assembled_switch body.now ≡ false }
    ensures commits { AnswersCommit (setup_of seated.old) body.now (view_of seated.old) result
        (view_of seated.new) }
    ensures alone { IsAlone company.old → IfOk result (λ sealed.
        InsertsAndFlushes (setup_of seated.old) body.now (view_of seated.old) (view_of seated.new)
        sealed) }
    ensures company { IfOk result (λ sealed.
        HasNoted sealed.start.0 sealed.end company.old company.new) }
    ensures down_again { (faults : _) → KnowsDown faults (view_of seated.old)
        → result ≡ commit_known_down faults }
    ensures async_met { (view_of seated.new).async_met ≡ (view_of seated.old).async_met }
    ensures rests { ComesToRest seated.old seated.new }
{
    let Receipt { start, end } = insert_on(rt, seated, company, body)?;
    company.note(start, end);
    match flush_in_company(rt, seated, end, company.is_there()) {
        Ok(hard) => Ok(Sealed {
            start,
            end,
            moment: hard.moment,
        }),
        Err(FlushErr::Disk { faults }) => Err(InsertErr::Disk { faults, start }.into()),
        Err(FlushErr::Down { faults }) => Err(InsertErr::Down {
            faults,
            start: Some(start),
        }
        .into()),
        // The pass has seen its own record reserved, up to its end.
        Err(FlushErr::Unreserved { .. }) => unreachable!(),
    }
}
