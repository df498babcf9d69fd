//! One backend's lines, and its turns. A turn names the step by the backend's place and makes it,
//! if the word that it needs allows that now: the position where it is to be locked, a turn to map
//! or to write, a lock that is visited. Else it waits, and nothing is changed; it is asked again
//! with the backend's next turn. Once the down word is not 0, a line is answered where its step
//! looks at that word or would wait: what the backend holds then stays with it.

ghost use Rattle.std.specs.Prelude.{◌≡◌, ◌+◌, ◌%◌, ◌<◌, ◌^◌, ◌&&◌, ◌||◌, ◌==◌, not, length, slice_get, is_some, option_map, Some, IfSome};
ghost use Rattle.machine_state.specs.Words.{lock_word, mapping_turn, position_word, mapping_turn_number, lock_number};
ghost use Rattle.machine_state.specs.Numbers.{IsWord, number_of_word};
ghost use Rattle.machine_turns.specs.Writer.{KeepsDisk, state_of};
ghost use Rattle.machine_turns.specs.Lanes.{IsLockAwaited, IsOfFlush, LeavesLane, MayPlay, asked_by, finds_full, holds_back, is_away, is_free, lane_answered, lane_behind, loads_down, played, stepped, waits_if, word_awaited};

use crate::doing::{Made, PlainDoing, PlainNext, PlainPurpose};
use crate::event::Turn;
use crate::script::{PlainLine, Script};
use crate::view::{PlainPlace, PlainStage, PlainView};
use crate::writer::MachineWriter;
use machine_state::{LogShape, MachineWords, Word};

/// A backend: its lines, how many are answered, its next step, what it knows, and which line's
/// record it copies.
#[derive(Debug, Drop)]
pub struct PlainBackend {
    pub view: PlainView,
    pub script: Script,
    pub copied: usize,
    pub answered: usize,
    pub doing: PlainDoing,
}

impl PlainBackend {
    /// One turn: the step that the order names, by this backend's pass. What it may wait for is one
    /// word; where the disk has failed, its line is answered by that. A line that is answered that
    /// the log is full sets `full`.
    pub fn turn(
        &mut self,
        shape: &LogShape,
        words: &mut MachineWords,
        writer: &mut MachineWriter,
        full: &mut bool,
    ) -> Turn
        // The words are the log's, the disk has just the segments that were made, and the place is
        // ready: its numbers are low, a copy has a next word, a call is due, with room for it.
        requires pages { words.old.pages ≡ shape.now.ring_pages }
        requires kept { KeepsDisk writer.old }
        requires may { MayPlay shape.now words.old.words (state_of writer.old) self.old }
        ensures kept { KeepsDisk writer.new }
        // Answer, lane, words, writer and flag are what the definition of a turn says.
        ensures turn { result
            ≡ (played shape.now words.old.words (state_of writer.old) self.old).turn }
        ensures lane { self.new
            ≡ (played shape.now words.old.words (state_of writer.old) self.old).lane }
        ensures words { words.new ≡ record words.old {
          words = (played shape.now words.old.words (state_of writer.old) self.old).words;
        } }
        ensures writer { state_of writer.new
            ≡ (played shape.now words.old.words (state_of writer.old) self.old).writer }
        ensures full { full.new
            ≡ full.old || (played shape.now words.old.words (state_of writer.old) self.old).full }
    {
        if !self.has_line() {
            return Turn::Done;
        }
        let down = words.get(Word::Down);
        let awaited = self.word_awaited(words);
        if down != 0 && (self.doing.loads_down() || awaited.is_some()) {
            self.answer();
            return Turn::Down { faults: down };
        }
        match awaited {
            Some(word) => Turn::Waits {
                on: words.number_of(word) as u32,
                value: words.get(word),
            },
            None => {
                let made = self.step(shape, words, writer);
                self.follow(made.next, full);
                Turn::Moved { event: made.event }
            }
        }
    }

    // Makes the step that the order names: an insert's here.
    fn step(
        &mut self,
        shape: &LogShape,
        words: &mut MachineWords,
        writer: &mut MachineWriter,
    ) -> Made
        // The words are the log's, the disk has just the segments that were made, a line is left,
        // and its place is ready.
        requires pages { words.old.pages ≡ shape.now.ring_pages }
        requires line { self.old.answered < length self.old.script }
        requires kept { KeepsDisk writer.old }
        requires may { MayPlay shape.now words.old.words (state_of writer.old) self.old }
        // The step of the place is made: view, words and writer are as its definition says. Lines
        // and place are as before; what comes behind is told (`follow`).
        ensures kept { KeepsDisk writer.new }
        ensures script { self.new.script ≡ self.old.script }
        ensures answered { self.new.answered ≡ self.old.answered }
        ensures left { (line : PlainLine) → slice_get self.old.script self.old.answered ≡ Some line
            → LeavesLane result self.old self.new words.old words.new (state_of writer.new)
            (stepped shape.now words.old.words (state_of writer.old) self.old.view line
            (slice_get self.old.script self.old.copied) self.old.doing) }
    {
        let line = &self.script.lines()[self.answered];
        let copied = self.script.lines().get(self.copied);
        let view = &mut self.view;
        match self.doing {
            PlainDoing::Begins => view.begins(shape, words),
            PlainDoing::Tries { taken } => view.tries(shape, words, taken),
            PlainDoing::Reserves { lock } => {
                self.copied = self.answered;
                view.reserves(shape, words, lock, line.room())
            }
            PlainDoing::Looks { lock } => view.looks(shape, words, lock),
            PlainDoing::Copies { lock } => view.copies(shape, words, lock, copied),
            PlainDoing::Maps { lock } => view.maps(shape, words, lock),
            PlainDoing::GivesTurn { lock, end } => view.gives_turn(shape, words, lock, end),
            PlainDoing::Tells { lock, end } => view.tells(shape, words, lock, end),
            PlainDoing::Releases { lock, full } => {
                view.releases(shape, words, lock, full, line.is_commit())
            }
            _ => self.step_of_flush(shape, words, writer),
        }
    }

    // Makes the step of a flush that the order names, the writer's among them.
    fn step_of_flush(
        &mut self,
        shape: &LogShape,
        words: &mut MachineWords,
        writer: &mut MachineWriter,
    ) -> Made
        // What `step` asks, at a place of a flush, or of the writing for an insert.
        requires pages { words.old.pages ≡ shape.now.ring_pages }
        requires place { IsOfFlush self.old.doing }
        requires kept { KeepsDisk writer.old }
        requires may { MayPlay shape.now words.old.words (state_of writer.old) self.old }
        ensures kept { KeepsDisk writer.new }
        ensures script { self.new.script ≡ self.old.script }
        ensures answered { self.new.answered ≡ self.old.answered }
        ensures left { (line : PlainLine) → slice_get self.old.script self.old.answered ≡ Some line
            → LeavesLane result self.old self.new words.old words.new (state_of writer.new)
            (stepped shape.now words.old.words (state_of writer.old) self.old.view line
            (slice_get self.old.script self.old.copied) self.old.doing) }
    {
        let view = &mut self.view;
        match self.doing {
            PlainDoing::FlushBegins => view.flush_begins(shape, words),
            PlainDoing::LoadsPosition => view.loads_position(shape, words),
            PlainDoing::LoadsFlushed => view.loads_flushed(shape, words),
            PlainDoing::LoadsMoment => view.loads_moment(shape, words),
            PlainDoing::Visits { purpose, lock } => view.visits(shape, words, purpose, lock),
            PlainDoing::TakesTurn { purpose } => view.takes_turn(shape, words, purpose),
            PlainDoing::LoadsDown { purpose } => view.loads_down(shape, words, purpose),
            PlainDoing::PutsBack { purpose, failed } => view.puts_back(
                shape, words, purpose, failed,
            ),
            PlainDoing::GivesWriteTurn { purpose, failed } => {
                view.gives_write_turn(shape, words, purpose, failed)
            }
            PlainDoing::TakesOut { purpose } => view.takes_out(shape, words, writer, purpose),
            PlainDoing::LoadsPage { purpose, loaded } => {
                view.loads_page(shape, words, writer, purpose, loaded)
            }
            PlainDoing::Creates { purpose } => view.creates(shape, words, writer, purpose),
            PlainDoing::Writes { purpose } => view.writes(shape, words, writer, purpose),
            PlainDoing::SyncsFull { purpose } => view.syncs_full(shape, words, writer, purpose),
            PlainDoing::SyncsLast => view.syncs_last(shape, words, writer),
            PlainDoing::StoresWritten { purpose } => view.stores_written(
                shape, words, writer, purpose,
            ),
            PlainDoing::StoresMoment => view.stores_moment(shape, words, writer),
            PlainDoing::StoresFlushed => view.stores_flushed(shape, words, writer),
            PlainDoing::SetsDown { purpose } => view.sets_down(shape, words, writer, purpose),
            _ => unreachable!(),
        }
    }

    // Whether a line is left.
    fn has_line(&self) -> bool
        ensures { result ≡ is_some (slice_get self.now.script self.now.answered) }
    {
        self.answered < self.script.lines().len()
    }

    // The word that holds the step up.
    fn word_awaited(&self, words: &MachineWords) -> Option<Word>
        requires ready { IsLockAwaited self.now.doing }
        ensures number { option_map (number_of_word words.now.pages) result
            ≡ word_awaited words.now.words self.now.view self.now.doing }
        ensures there { IfSome result (IsWord words.now.pages) }
    {
        match self.doing {
            PlainDoing::Reserves { .. } => self.view.place_awaited(words),
            PlainDoing::Maps { .. } => self.view.mapping_turn_awaited(words),
            PlainDoing::TakesTurn { .. } => {
                (words.get(Word::WriteTurn) != 0).then_some(Word::WriteTurn)
            }
            PlainDoing::Visits { purpose, lock } => self.view.lock_awaited(words, purpose, lock),
            _ => None,
        }
    }

    // The line is answered, and the next one begins.
    fn answer(&mut self)
        requires { self.old.answered < length self.old.script }
        ensures { self.new ≡ lane_answered self.old }
    {
        let lines = self.script.lines();
        let next = next_number(self.answered, lines);
        self.doing = match lines.get(next) {
            Some(PlainLine::Flush) => PlainDoing::FlushBegins,
            _ => PlainDoing::Begins,
        };
        self.answered = next;
    }

    // What comes behind a step.
    fn follow(&mut self, next: PlainNext, full: &mut bool)
        requires line { self.old.answered < length self.old.script }
        ensures lane { self.new ≡ lane_behind next self.old }
        ensures full { full.new ≡ full.old || finds_full next }
    {
        match next {
            PlainNext::GoesOn(doing) => self.doing = doing,
            PlainNext::Answers { full: found } => {
                *full = *full || found;
                self.answer();
            }
        }
    }
}

impl PlainDoing {
    // Whether the step itself looks at the down word.
    fn loads_down(&self) -> bool
        ensures { result ≡ loads_down self.now }
    {
        matches!(
            self,
            PlainDoing::Begins | PlainDoing::FlushBegins | PlainDoing::LoadsDown { .. }
        )
    }
}

impl PlainView {
    // A position that it is to lock is locked.
    fn place_awaited(&self, words: &MachineWords) -> Option<Word>
        ensures number { option_map (number_of_word words.now.pages) result
            ≡ waits_if (is_free self.now.place && not (position_word words.now.words % 2 == 0)) 0 }
        ensures there { IfSome result (IsWord words.now.pages) }
    {
        let is_free = matches!(self.place, PlainPlace::Free);
        (is_free && words.get(Word::Position) % 2 != 0).then_some(Word::Position)
    }

    // Another backend has the turn to map.
    fn mapping_turn_awaited(&self, words: &MachineWords) -> Option<Word>
        ensures number { option_map (number_of_word words.now.pages) result
            ≡ waits_if (is_away self.now.stage && not (mapping_turn words.now.words == 0))
            mapping_turn_number }
        ensures there { IfSome result (IsWord words.now.pages) }
    {
        let is_away = matches!(self.stage, PlainStage::Away);
        (is_away && words.get(Word::MappingTurn) != 0).then_some(Word::MappingTurn)
    }

    // A lock's holder tells nothing, or less than the address asked for.
    fn lock_awaited(&self, words: &MachineWords, purpose: PlainPurpose, lock: u32) -> Option<Word>
        requires { lock < 8 }
        ensures number { option_map (number_of_word words.now.pages) result
            ≡ waits_if (holds_back (asked_by purpose self.now) (lock_word words.now.words lock))
            (lock_number lock) }
        ensures there { IfSome result (IsWord words.now.pages) }
    {
        let asked = match purpose {
            PlainPurpose::Line => self.last_end,
            PlainPurpose::Page { end, .. } => end,
        };
        let met = words.get(Word::Lock(lock));
        (met != 0 && met <= asked).then_some(Word::Lock(lock))
    }
}

// The number of the line behind one that is there.
fn next_number(answered: usize, lines: &[PlainLine]) -> usize
    requires { answered < length lines.now }
    ensures { result ≡ answered + 1 }
{
    let count = lines.len();
    prove!(answered < count);
    answered + 1
}
