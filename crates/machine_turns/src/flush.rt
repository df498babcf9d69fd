//! The turns of a flush but for those with the writer in hand (PostgreSQL's xlog.c, XLogFlush,
//! WaitXLogInsertionsToFinish). In order: down, the position, the flushed address; where that
//! suffices the moment, and the line is answered. Else the eight locks are visited, the turn to
//! write is taken, and down is loaded again, since nobody else sets it while the turn is had.
//! Behind the writing the writer is put back, and then the turn. The end has to be seen before the
//! locks: a record that is reserved between would be missed otherwise.

ghost use Rattle.std.specs.Prelude.{◌≡◌, ◌<◌, ◌^◌};
ghost use Rattle.machine_turns.specs.Left.{Leaves};
ghost use Rattle.machine_turns.specs.Flushing.{at_flush_begins, at_gives_write_turn, at_loads_down, at_loads_flushed, at_loads_moment, at_loads_position, at_puts_back, at_takes_turn, at_visits, behind_writing, seen_too};

use crate::doing::{Made, PlainDoing, PlainNext, PlainPurpose};
use crate::event::Event;
use crate::view::{PlainHold, PlainView};
use machine_state::layout::LOCKS;
use machine_state::{LogShape, MachineWords, Word};
use wal_types::Lsn;

impl PlainView {
    // A byte position is seen reserved.
    pub(crate) fn see(&mut self, position: u64)
        ensures { self.new ≡ seen_too position self.old }
    {
        self.seen = self.seen.max(position);
    }

    /// Loads the down word.
    pub(crate) fn flush_begins(&self, shape: &LogShape, words: &MachineWords) -> Made
        ensures { Leaves result self.now words.now words.now
            (at_flush_begins shape.now words.now.words self.now) }
    {
        Made::then(Event::LoadDown, PlainDoing::LoadsPosition)
    }

    /// Loads the position, and has seen reserved what is below it.
    pub(crate) fn loads_position(&mut self, shape: &LogShape, words: &MachineWords) -> Made
        ensures { Leaves result self.new words.now words.now
            (at_loads_position shape.now words.now.words self.old) }
    {
        let met = words.get(Word::Position);
        // Without the lock bit.
        self.see(met - met % 2);
        Made::then(Event::LoadPosition, PlainDoing::LoadsFlushed)
    }

    /// Loads the flushed address: where the backend's last record ends at or below it, only the
    /// moment is left to load.
    pub(crate) fn loads_flushed(&mut self, shape: &LogShape, words: &MachineWords) -> Made
        ensures { Leaves result self.new words.now words.now
            (at_loads_flushed shape.now words.now.words self.old) }
    {
        let met = words.get(Word::Flushed);
        self.see(shape.geometry().position_of(Lsn(met)));
        let next = if self.last_end <= met {
            PlainDoing::LoadsMoment
        } else {
            PlainDoing::Visits {
                purpose: PlainPurpose::Line,
                lock: 0,
            }
        };
        Made::then(Event::LoadFlushed, next)
    }

    /// Loads the moment, from which on all below the flushed address that was loaded is durable.
    pub(crate) fn loads_moment(&self, shape: &LogShape, words: &MachineWords) -> Made
        ensures { Leaves result self.now words.now words.now
            (at_loads_moment shape.now words.now.words self.now) }
    {
        Made {
            event: Event::LoadMoment,
            next: PlainNext::Answers { full: false },
        }
    }

    /// Loads the next lock, which tells enough now; with the first one a watch begins, for the end
    /// that was seen.
    pub(crate) fn visits(
        &mut self,
        shape: &LogShape,
        words: &MachineWords,
        purpose: PlainPurpose,
        lock: u32,
    ) -> Made
        requires lock { lock < 8 }
        requires seen { self.old.seen < 2 ^ 60 }
        ensures { Leaves result self.new words.now words.now
            (at_visits shape.now words.now.words self.old purpose lock) }
    {
        let met = words.get(Word::Lock(lock));
        let end = shape.geometry().to_end_lsn(self.seen).0;
        self.watch(lock, end, met);
        let next = if lock + 1 == LOCKS {
            PlainDoing::TakesTurn { purpose }
        } else {
            PlainDoing::Visits {
                purpose,
                lock: lock + 1,
            }
        };
        Made::then(Event::LoadLock { lock }, next)
    }

    /// Takes the turn to write, which is free now.
    pub(crate) fn takes_turn(
        &mut self,
        shape: &LogShape,
        words: &mut MachineWords,
        purpose: PlainPurpose,
    ) -> Made
        requires { self.old.number < 65536 }
        ensures { Leaves result self.new words.old words.new
            (at_takes_turn shape.now words.old.words self.old purpose) }
    {
        words.set(Word::WriteTurn, u64::from(self.number) + 1);
        self.hold = PlainHold::Turned;
        Made::then(Event::TakeWriteTurn, PlainDoing::LoadsDown { purpose })
    }

    /// Loads the down word, with the turn to write had.
    pub(crate) fn loads_down(
        &self,
        shape: &LogShape,
        words: &MachineWords,
        purpose: PlainPurpose,
    ) -> Made
        ensures { Leaves result self.now words.now words.now
            (at_loads_down shape.now words.now.words self.now purpose) }
    {
        Made::then(Event::LoadDown, PlainDoing::TakesOut { purpose })
    }

    /// Puts the writer back: what it has written is stored, or down is set.
    pub(crate) fn puts_back(
        &mut self,
        shape: &LogShape,
        words: &MachineWords,
        purpose: PlainPurpose,
        failed: bool,
    ) -> Made
        ensures { Leaves result self.new words.now words.now
            (at_puts_back shape.now words.now.words self.old purpose failed) }
    {
        self.hold = PlainHold::Turned;
        Made::then(
            Event::PutWriterBack,
            PlainDoing::GivesWriteTurn { purpose, failed },
        )
    }

    /// Gives the turn to write back, with the writer at home.
    pub(crate) fn gives_write_turn(
        &mut self,
        shape: &LogShape,
        words: &mut MachineWords,
        purpose: PlainPurpose,
        failed: bool,
    ) -> Made
        ensures { Leaves result self.new words.old words.new
            (at_gives_write_turn shape.now words.old.words self.old purpose failed) }
    {
        words.set(Word::WriteTurn, 0);
        self.hold = PlainHold::Idle;
        Made {
            event: Event::ReleaseWriteTurn,
            next: behind_writing(purpose, failed),
        }
    }
}

// Behind the writing the line is answered, or an insert goes on with its page.
fn behind_writing(purpose: PlainPurpose, failed: bool) -> PlainNext
    ensures { result ≡ behind_writing purpose failed }
{
    match purpose {
        PlainPurpose::Page { lock, .. } if !failed => PlainNext::GoesOn(PlainDoing::Looks { lock }),
        _ => PlainNext::Answers { full: false },
    }
}
