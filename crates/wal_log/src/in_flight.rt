// A record is inserted step by step by its caller, who need not wait (PostgreSQL's xlog.c,
// XLogInsertRecord): its place is reserved (`try_begin`), its words are copied, as many at a time
// as the caller likes (`copy`), and its lock is given back (`finish`). `Wal::insert` is a loop over
// the same steps. Meanwhile the pass has one insertion lock, with the record in flight under it:
// other passes insert and flush beside it. While the lock tells nothing, each flush of an address
// that is not flushed yet ends at it, also one below the record; once it tells an address, flushes
// pass up to there. Behind a failed disk the copy may be given up, as an insert does it. A segment
// switch goes on by the same calls, under all eight locks (switch_tries.rt).
ghost use Rattle.std.specs.Prelude.{◌≡◌, false, IsErrAnd};
ghost use Rattle.wal_spelling.specs.Spelling.{is_assembled_switch};
ghost use Rattle.wal_rule.specs.Downs.{KnowsDown};
ghost use Rattle.wal_rule.specs.Passes.{view_of_pass};
ghost use Rattle.wal_log.specs.Beginning.{try_err_known_down};
ghost use Rattle.wal_log.specs.Copying.{CopiesFront};
ghost use Rattle.wal_log.specs.Flights.{AnswersFinish, AnswersGiveUp, AnswersTryBegin, IsInFlightOf, StaysInFlight, view_of_flight};
ghost use Rattle.wal_log.specs.Logs.{IsPassOfLog, setup_of_log};

use crate::beginning::{TryErr, try_begin};
use crate::copying::{Copied, copy_front};
use crate::held_locks::{Held, release_held};
use crate::wal::Wal;
use reserve_lock::Reserved;
use segment_disk::Disk;
use wal_rule::Pass;
use wal_spelling::Body;
use wal_types::Receipt;

/// A record whose place is reserved, with the pass that copies it under an insertion lock, or a
/// segment switch under all eight. Who has it spends it by `finish`, or behind a failed disk by
/// `give_up`: it cannot be dropped.
pub struct Inflight<'a> {
    pub(crate) pass: Pass,
    pub(crate) held: Held,
    pub(crate) begun: Reserved<'a>,
}

impl<D: Disk> Wal<D> {
    /// Tries once to reserve a record's place behind all that is reserved, under a free insertion
    /// lock. It does not wait: where that cannot be done the pass comes back, and no lock stays
    /// held.
    pub fn try_begin<'a>(
        &self,
        mut pass: Pass,
        body: &'a Body<'a>,
    ) -> Result<Inflight<'a>, (TryErr, Pass)>
        requires pass { IsPassOfLog self.now pass }
        // A segment switch is no record to insert: it closes its segment under all locks.
        requires inserted { is_assembled_switch body.now ≡ false }
        // The pass's log has the record's entry last, which is in flight with all its words left.
        // Or it tells why not: the pass is about nothing, and its log is as it was, but for a note
        // if the log was full.
        ensures begins { AnswersTryBegin self.now body.now (view_of_pass pass) result }
        // A pass that knows of a failed disk is told of it, and reserves nothing.
        ensures down_again { (faults : _) → KnowsDown faults (view_of_pass pass)
            → IsErrAnd result (λ e. e.0 ≡ try_err_known_down faults) }
    {
        let mut seated = pass.seat(&self.table);
        let tried = try_begin(&mut seated, body);
        pass.put_back(seated);
        match tried {
            Ok(begun) => Ok(Inflight {
                pass,
                held: Held::One(begun.lock),
                begun: Reserved {
                    start: begun.start,
                    end: begun.end,
                    placed: begun.placed,
                },
            }),
            Err(e) => Err((e, pass)),
        }
    }
}

impl<'a> Inflight<'a> {
    /// Copies the record's next words, at most `n`, and maps pages for them where that can be done.
    /// It does not wait. Where words are left it tells under its locks how far it came, unless `n`
    /// is 0.
    pub fn copy<D: Disk>(&mut self, wal: &Wal<D>, n: u32) -> Copied
        requires flight { IsInFlightOf wal.now self.old }
        ensures flight { IsInFlightOf wal.now self.new }
        // How many words were copied, and why it stopped there; and it has told how far it came.
        // Nothing else of the record has changed.
        ensures copies { CopiesFront (setup_of_log wal.now) n self.old.begun.placed
            self.new.begun.placed (view_of_flight self.old) (view_of_flight self.new) result }
        ensures stays { StaysInFlight self.old self.new }
    {
        let mut seated = self.pass.seat(&wal.table);
        let held = self.held;
        let Reserved { end, .. } = self.begun;
        let copied = copy_front(&mut seated, held, end, &mut self.begun.placed, n);
        self.pass.put_back(seated);
        copied
    }

    /// Gives the record's locks back, where no word of it is left, and tells its place.
    pub fn finish<D: Disk>(self, wal: &Wal<D>) -> Result<(Receipt, Pass), Inflight<'a>>
        requires flight { IsInFlightOf wal.now self }
        // Each word of the record was copied, and the pass is about nothing. Or words are left, and
        // it is handed back as it was.
        ensures finishes { AnswersFinish wal.now self.entry result }
    {
        if self.begun.placed.next_lsn().0 < self.begun.end.0 {
            return Err(self);
        }
        let Inflight {
            mut pass,
            held,
            begun,
        } = self;
        let mut seated = pass.seat(&wal.table);
        release_held(&mut seated, held);
        pass.company.note(begun.start, begun.end);
        pass.put_back(seated);
        let receipt = Receipt {
            start: begun.start,
            end: begun.end,
        };
        Ok((receipt, pass))
    }

    /// Loads down, and behind a failed disk gives the copy up: the record keeps its place, and its
    /// locks stay held for good.
    pub fn give_up<D: Disk>(self, wal: &Wal<D>) -> Result<Pass, Inflight<'a>>
        requires flight { IsInFlightOf wal.now self }
        // The down value was met, and the pass is about nothing. Or none was, and it is handed
        // back, the record as it was.
        ensures gives_up { AnswersGiveUp wal.now self.entry result }
    {
        let Inflight {
            mut pass,
            held,
            begun,
        } = self;
        let mut seated = pass.seat(&wal.table);
        let faults = seated.load_down();
        if faults == 0 {
            pass.put_back(seated);
            return Err(Inflight { pass, held, begun });
        }
        seated.give_up();
        pass.put_back(seated);
        Ok(pass)
    }
}
