//! The turns that map a page, and those before pages are written for it (PostgreSQL's xlog.c,
//! AdvanceXLInsertBuffer). A backend that needs a page maps the one at the initialised end, with
//! the turn to map: it loads that end and the written address, clears the buffer's end word, zeroes
//! the words, stores the new end, and then the initialised end. Where its own page is mapped
//! already, or the page that the buffer holds is not written, it gives the turn back before
//! anything is changed. In the latter case it tells its progress under its lock, which would hold
//! its own watch back else, and writes pages first.

ghost use Rattle.machine_state.specs.Words.{written_number};
ghost use Rattle.std.specs.Prelude.{◌≡◌, ◌+◌, ◌*◌, ◌/◌, ◌%◌, ◌<◌, ◌≤◌, ◌^◌, slice_index};
ghost use Rattle.machine_turns.specs.Left.{Leaves, next_in};
ghost use Rattle.machine_turns.specs.Mapping.{at_gives_turn, at_maps, at_tells, behind_turn, behind_written};
ghost use Rattle.machine_turns.specs.Lanes.{IsLowStage};

use crate::doing::{Made, PlainDoing, PlainPurpose};
use crate::event::Event;
use crate::view::{PlainStage, PlainView};
use byte_position::PAGE_SIZE;
use machine_state::{LogShape, MachineWords, Word};

const PAGE_WORDS: u32 = byte_position::PAGE_WORDS as u32;

impl PlainView {
    /// The next step of mapping, by how far the view is. The turn to map is free where it is taken.
    pub(crate) fn maps(&mut self, shape: &LogShape, words: &mut MachineWords, lock: u32) -> Made
        // The pass has a number that fits, and what the view and the written word say is low.
        requires pages { words.old.pages ≡ shape.now.ring_pages }
        requires number { self.old.number < 65536 }
        requires stage { IsLowStage self.old.stage }
        requires next { next_in self.old.flight < 2 ^ 60 }
        requires written { slice_index words.old.words written_number < 2 ^ 60 }
        ensures { Leaves result self.new words.old words.new
            (at_maps shape.now words.old.words self.old lock) }
    {
        match self.stage {
            PlainStage::Away => {
                words.set(Word::MappingTurn, u64::from(self.number) + 1);
                self.stage = PlainStage::Taken;
                Made::then(Event::TakeMappingTurn, PlainDoing::Maps { lock })
            }
            PlainStage::Taken => {
                let at = words.get(Word::InitialisedEnd);
                self.stage = PlainStage::Looked { at };
                Made::then(Event::LoadInitialisedEnd, PlainDoing::Maps { lock })
            }
            PlainStage::Looked { at } => {
                let written = words.get(Word::Written);
                self.stage = PlainStage::Ready { at };
                Made::then(
                    Event::LoadWritten,
                    self.behind_written(shape, lock, at, written),
                )
            }
            PlainStage::Ready { at } => {
                words.set(Word::BufferEnd(buffer_at(shape, at)), 0);
                self.stage = PlainStage::Zeroing { at, count: 0 };
                Made::then(Event::ClearEnd, PlainDoing::Maps { lock })
            }
            PlainStage::Zeroing { at, count } => self.zeroes(shape, words, lock, at, count),
            PlainStage::Published { at } => {
                words.set(Word::InitialisedEnd, at + PAGE_SIZE);
                self.stage = PlainStage::Taken;
                let next = PlainDoing::GivesTurn { lock, end: None };
                Made::then(Event::PublishInitialisedEnd, next)
            }
        }
    }

    // The page's next word is zeroed; behind the last one its end is published.
    fn zeroes(
        &mut self,
        shape: &LogShape,
        words: &mut MachineWords,
        lock: u32,
        at: u64,
        count: u32,
    ) -> Made
        // The buffer's end word is cleared, and so many of its words are zeroed.
        requires pages { words.old.pages ≡ shape.now.ring_pages }
        requires stage { self.old.stage ≡ PlainStage.Zeroing at count }
        requires low { at < 2 ^ 60 }
        requires few { count ≤ 1024 }
        ensures { Leaves result self.new words.old words.new
            (at_maps shape.now words.old.words self.old lock) }
    {
        let buffer = buffer_at(shape, at);
        if count < PAGE_WORDS {
            words.set(Word::Ring(buffer * PAGE_WORDS + count), 0);
            self.stage = PlainStage::Zeroing {
                at,
                count: count + 1,
            };
            return Made::then(Event::ZeroRingWord, PlainDoing::Maps { lock });
        }
        words.set(Word::BufferEnd(buffer), at + PAGE_SIZE);
        self.stage = PlainStage::Published { at };
        Made::then(Event::PublishEnd, PlainDoing::Maps { lock })
    }

    // The page at an address is to be mapped, and so far the log is written.
    fn behind_written(&self, shape: &LogShape, lock: u32, at: u64, written: u64) -> PlainDoing
        requires at { at < 2 ^ 60 }
        requires written { written < 2 ^ 60 }
        requires next { next_in self.now.flight < 2 ^ 60 }
        ensures { result ≡ behind_written shape.now self.now lock at written }
    {
        let ring = u64::from(shape.ring_pages()) * PAGE_SIZE;
        if self.page_end() <= at {
            PlainDoing::GivesTurn { lock, end: None }
        } else if written + ring < at + PAGE_SIZE {
            PlainDoing::GivesTurn {
                lock,
                end: Some(at + PAGE_SIZE - ring),
            }
        } else {
            PlainDoing::Maps { lock }
        }
    }

    /// Gives the turn to map back: no page is half replaced. Then the page is looked up again, or
    /// pages are written up to `end` first.
    pub(crate) fn gives_turn(
        &mut self,
        shape: &LogShape,
        words: &mut MachineWords,
        lock: u32,
        end: Option<u64>,
    ) -> Made
        ensures { Leaves result self.new words.old words.new
            (at_gives_turn shape.now words.old.words self.old lock end) }
    {
        words.set(Word::MappingTurn, 0);
        self.stage = PlainStage::Away;
        Made::then(Event::ReleaseMappingTurn, behind_turn(lock, end))
    }

    // Tells under the lock that all below the next word to copy is copied, and visits the locks
    // then.
    pub(crate) fn tells(
        &self,
        shape: &LogShape,
        words: &mut MachineWords,
        lock: u32,
        end: u64,
    ) -> Made
        requires lock { lock < 8 }
        requires next { next_in self.now.flight < 2 ^ 60 }
        ensures { Leaves result self.now words.old words.new
            (at_tells shape.now words.old.words self.now lock end) }
    {
        let upto = self.flight.next();
        words.set(Word::Lock(lock), upto + 1);
        let purpose = PlainPurpose::Page { lock, end };
        Made::then(
            Event::Advance { lock, upto },
            PlainDoing::Visits { purpose, lock: 0 },
        )
    }
}

// The buffer of the page at an address.
fn buffer_at(shape: &LogShape, at: u64) -> u32
    ensures value { result ≡ at / 8192 % shape.now.ring_pages }
    ensures within { result < shape.now.ring_pages }
    ensures low { result < 64 }
{
    (at / PAGE_SIZE % u64::from(shape.ring_pages())) as u32
}

// What comes behind the turn to map a page.
fn behind_turn(lock: u32, end: Option<u64>) -> PlainDoing
    ensures { result ≡ behind_turn lock end }
{
    match end {
        None => PlainDoing::Looks { lock },
        Some(end) => PlainDoing::Tells { lock, end },
    }
}
