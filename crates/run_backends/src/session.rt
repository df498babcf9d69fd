// A backend's pass, and what it does of a line: one call of the log. Beside the pass the greatest
// end that a line was told is kept (as PostgreSQL's XactLastRecEnd), since the pass's own log is
// there for the proofs alone. A flush goes up to it. It is at or behind the end of the backend's
// own last record, unless the pass knows of a failed disk, and it is reserved, as the pass has
// seen: so no flush asks for what nobody reserved.
ghost use Rattle.std.specs.Prelude.{◌≡◌, ◌-◌, max};
ghost use Rattle.wal_types.specs.declared.record.Record.{Record};
ghost use Rattle.wal_spelling.specs.Record.{switch_record};
ghost use Rattle.wal_spelling.specs.Spelling.{assembled};
ghost use Rattle.run_script.specs.Asked.{Asked, Commit, CommitAsync, Flush, Insert, Switch, WriteBehind};
ghost use Rattle.run_script.specs.Bodies.{IsActionOf, IsBodyOf};
ghost use Rattle.run_backends.specs.Sessions.{IsSessionOf, LeavesSession, PlaysAnswer, told_of_flush_err};

use run_laws::Told;
use run_script::Action;
use segment_disk::Disk;
use std::sync::Wait;
use wal_log::{Caught, Cause, CommitErr, FlushErr, Pass, Wal};
use wal_record::laws::body_knows_its_record;
use wal_spelling::KeptBody;
use wal_types::Lsn;

/// A backend's pass of the log, and the greatest end of a record that its lines were told; the
/// log's start before they were told any.
#[derive(Drop)]
pub(crate) struct Session {
    pub pass: Pass,
    pub end: Lsn,
}

impl Session {
    // The number of its backend, from 0; pass 0 opened the log.
    pub(crate) fn backend(&self) -> u32
        ensures { result ≡ self.now.pass.number - 1 }
    {
        self.pass.number().saturating_sub(1)
    }

    // Does what a line asks for.
    pub(crate) fn answer<R: Wait, D: Disk>(&mut self, rt: &R, log: &Wal<D>, action: &Action) -> Told
        requires session { IsSessionOf log.now self.old }
        requires asked { (asked : Asked) × IsActionOf asked action.now }
        ensures plays { (asked : Asked) → IsActionOf asked action.now
            → PlaysAnswer log.now asked result self.old self.new }
        ensures leaves { LeavesSession log.now result self.old self.new }
    {
        match action {
            Action::Insert(body) => self.insert(rt, log, body),
            Action::Commit(body) => self.commit(rt, log, body),
            Action::Flush => self.flush(rt, log),
            Action::CommitAsync(body) => self.commit_async(rt, log, body),
            Action::WriteBehind => self.write_behind(rt, log),
            Action::Switch(body) => self.switch(rt, log, body),
        }
    }

    fn insert<R: Wait, D: Disk>(&mut self, rt: &R, log: &Wal<D>, body: &KeptBody) -> Told
        requires session { IsSessionOf log.now self.old }
        requires record { (value : Record) × IsBodyOf value body.now }
        ensures plays { (value : Record) → IsBodyOf value body.now
            → PlaysAnswer log.now (Insert value) result self.old self.new }
        ensures leaves { LeavesSession log.now result self.old self.new }
    {
        body_knows_its_record();
        let lent = body.as_body();
        match log.insert(rt, &mut self.pass, &lent) {
            Ok(receipt) => {
                self.note(receipt.end);
                Told::of_insert(Ok(receipt))
            }
            Err(e) => Told::of_insert(Err(e.into())),
        }
    }

    fn commit<R: Wait, D: Disk>(&mut self, rt: &R, log: &Wal<D>, body: &KeptBody) -> Told
        requires session { IsSessionOf log.now self.old }
        requires record { (value : Record) × IsBodyOf value body.now }
        ensures plays { (value : Record) → IsBodyOf value body.now
            → PlaysAnswer log.now (Commit value) result self.old self.new }
        ensures leaves { LeavesSession log.now result self.old self.new }
    {
        body_knows_its_record();
        let lent = body.as_body();
        match log.commit(rt, &mut self.pass, &lent) {
            Ok(sealed) => {
                self.note(sealed.end);
                Told::of_commit(Ok(sealed))
            }
            Err(refused) => Told::of_commit(Err(refused)),
        }
    }

    // Flushes up to the end of the backend's own last record.
    fn flush<R: Wait, D: Disk>(&mut self, rt: &R, log: &Wal<D>) -> Told
        requires { IsSessionOf log.now self.old }
        ensures plays { PlaysAnswer log.now Flush result self.old self.new }
        ensures leaves { LeavesSession log.now result self.old self.new }
    {
        match log.flush(rt, &mut self.pass, self.end) {
            Ok(hard) => Told::of_flush(Ok(hard)),
            // The pass has seen its own records reserved.
            Err(e) => refused_flush(e),
        }
    }

    fn commit_async<R: Wait, D: Disk>(&mut self, rt: &R, log: &Wal<D>, body: &KeptBody) -> Told
        requires session { IsSessionOf log.now self.old }
        requires record { (value : Record) × IsBodyOf value body.now }
        ensures plays { (value : Record) → IsBodyOf value body.now
            → PlaysAnswer log.now (CommitAsync value) result self.old self.new }
        ensures leaves { LeavesSession log.now result self.old self.new }
    {
        body_knows_its_record();
        let lent = body.as_body();
        match log.commit_async(rt, &mut self.pass, &lent) {
            Ok(receipt) => {
                self.note(receipt.end);
                Told::of_commit_async(Ok(receipt))
            }
            Err(e) => Told::of_commit_async(Err(e.into())),
        }
    }

    fn write_behind<R: Wait, D: Disk>(&mut self, rt: &R, log: &Wal<D>) -> Told
        requires { IsSessionOf log.now self.old }
        ensures plays { PlaysAnswer log.now WriteBehind result self.old self.new }
        ensures leaves { LeavesSession log.now result self.old self.new }
    {
        match log.write_behind(rt, &mut self.pass) {
            Ok(Caught::Flushed(hard)) => Told::of_flush(Ok(hard)),
            Ok(Caught::Idle { upto }) => Told::Idle { upto },
            // What it flushes is reserved.
            Err(e) => refused_flush(e),
        }
    }

    // Closes the segment. Where the log ends at a segment's start, no record of this backend does
    // so for it: the end kept stays.
    fn switch<R: Wait, D: Disk>(&mut self, rt: &R, log: &Wal<D>, body: &KeptBody) -> Told
        requires session { IsSessionOf log.now self.old }
        requires record { body.now ≡ assembled switch_record }
        ensures plays { PlaysAnswer log.now Switch result self.old self.new }
        ensures leaves { LeavesSession log.now result self.old self.new }
    {
        let lent = body.as_body();
        match log.switch(rt, &mut self.pass, &lent) {
            Ok(wal_log::Switch::Done { start, end }) => {
                self.note(end);
                Told::Switched { start, end }
            }
            Ok(wal_log::Switch::Stayed { end }) => Told::Stayed { end },
            Err(e) => Told::of_refusal(e.into()),
        }
    }

    // A record's end was told.
    fn note(&mut self, end: Lsn)
        ensures pass { self.new.pass ≡ self.old.pass }
        ensures end { self.new.end.0 ≡ max self.old.end.0 end.0 }
    {
        self.end = Lsn(self.end.0.max(end.0));
    }
}

// What a line is told whose flush was refused. It was reserved what it asked for.
fn refused_flush(e: FlushErr) -> Told
    requires { (end : Lsn) → e ≡ FlushErr.Unreserved end → ⊥ }
    ensures { result ≡ told_of_flush_err e }
{
    let cause = match e {
        FlushErr::Disk { faults } => Cause::Disk { faults },
        FlushErr::Down { faults } => Cause::Down { faults },
        FlushErr::Unreserved { .. } => unreachable!(),
    };
    Told::of_flush(Err(CommitErr {
        cause,
        reserved: None,
    }))
}
