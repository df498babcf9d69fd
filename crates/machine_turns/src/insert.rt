//! The turns of an insert but for those that map a page (PostgreSQL's xlog.c, XLogInsertRecord,
//! WALInsertLockAcquire, ReserveXLogInsertLocation, CopyXLogRecordToWAL, WALInsertLockRelease).
//! Each function named for a place makes the step of that place on words and view, and tells it
//! with the place behind it (`Leaves`). `PlainBackend::turn` calls it only where the step can be
//! made now. In order: down, a lock that is free, the position and the last start, the position
//! behind the record; then under that lock word by word, each page looked up before its first word;
//! then the lock is given back. Nobody else stores into the lock, nor into words 0 and 1 while this
//! backend has word 0 locked.

ghost use Rattle.std.specs.Prelude.{◌≡◌, ◌+◌, ◌*◌, ◌%◌, ◌<◌, ◌≤◌, ◌^◌, ◌==◌, false, if◌then◌else◌};
ghost use Rattle.wal_page.specs.Placed.{placed_end, placed_word};
ghost use Rattle.machine_state.specs.Words.{position_word};
ghost use Rattle.machine_state.specs.Steps.{ring_place};
ghost use Rattle.machine_turns.specs.Left.{Leaves, next_in, page_end_in};
ghost use Rattle.machine_turns.specs.Inserting.{at_begins, at_copies, at_looks, at_releases, at_reserves, at_tries, has_no_word_left, reserved, watch_visited, watched, with_one_more};
ghost use Rattle.machine_turns.specs.Lanes.{HasNextOf, HasNextWord, IsLowPlace, line_behind, word_of_body, word_to_copy};

use crate::doing::{Made, PlainDoing, PlainNext};
use crate::event::Event;
use crate::script::PlainLine;
use crate::view::{PlainFlight, PlainPlace, PlainView, PlainWatching};
use byte_position::{PAGE_SIZE, PAGE_WORDS, WORD};
use machine_state::layout::LOCKS;
use machine_state::{LogShape, MachineWords, Word};
use wal_page::Placed;
use wal_spelling::Body;
use wal_types::Lsn;

impl PlainFlight {
    /// The address of the next word to copy, 0 where nothing is copied.
    pub(crate) fn next(&self) -> u64
        ensures { result ≡ next_in self.now }
    {
        match *self {
            PlainFlight::Landed => 0,
            PlainFlight::Copying { next, .. } => next,
        }
    }
}

impl PlainView {
    /// Where the page of the next word to copy ends.
    pub(crate) fn page_end(&self) -> u64
        requires { next_in self.now.flight < 2 ^ 60 }
        ensures value { result ≡ page_end_in self.now.flight }
        ensures low { result < 2 ^ 61 }
    {
        (self.flight.next() / PAGE_SIZE + 1) * PAGE_SIZE
    }

    // Loads a lock, to learn of what lies below an address (`WaitXLogInsertionsToFinish`).
    pub(crate) fn watch(&mut self, lock: u32, end: u64, met: u64)
        requires { lock < 8 }
        ensures { self.new ≡ watched lock end met self.old }
    {
        if lock == 0 {
            self.watching = PlainWatching {
                end,
                visited: 0,
                bound: end,
            };
        }
        self.visit(lock, met);
    }

    // A lock that is visited next, unless its holder tells nothing yet.
    fn visit(&mut self, lock: u32, met: u64)
        requires { lock < 8 }
        ensures { self.new ≡ record self.old {
          watching = watch_visited lock met self.old.watching;
        } }
    {
        if lock == self.watching.visited && met != 1 {
            self.watching.visited += 1;
            if met != 0 {
                self.watching.bound = self.watching.bound.min(met - 1);
            }
        }
    }

    /// Loads the down word, before anything is taken.
    pub(crate) fn begins(&self, shape: &LogShape, words: &MachineWords) -> Made
        ensures { Leaves result self.now words.now words.now
            (at_begins shape.now words.now.words self.now) }
    {
        Made::then(Event::LoadDown, PlainDoing::Tries { taken: 0 })
    }

    /// Takes the next lock where it is free: the first one tried is that of the pass's number. Else
    /// loads it, and passes to the next one; behind the eighth it begins again.
    pub(crate) fn tries(&mut self, shape: &LogShape, words: &mut MachineWords, taken: u32) -> Made
        requires number { self.old.number < 65536 }
        requires few { taken < 8 }
        ensures { Leaves result self.new words.old words.new
            (at_tries shape.now words.old.words self.old taken) }
    {
        let lock = (self.number + taken) % LOCKS;
        let met = words.get(Word::Lock(lock));
        if met == 0 {
            words.set(Word::Lock(lock), 1);
            return Made::then(Event::TakeLock { lock }, PlainDoing::Reserves { lock });
        }
        self.watch(lock, 0, met);
        Made::then(Event::LoadLock { lock }, behind_taken(taken))
    }

    /// The next step of the reservation, by how far the view is: the position is locked, which is
    /// not locked now; the last start is loaded, or the position given back where the record does
    /// not fit; the record's start is stored; the position behind it is stored, and the record is
    /// in flight.
    pub(crate) fn reserves(
        &mut self,
        shape: &LogShape,
        words: &mut MachineWords,
        lock: u32,
        room: u64,
    ) -> Made
        requires position { position_word words.old.words < 2 ^ 59 }
        requires place { IsLowPlace self.old.place }
        requires room { room ≤ 1048576 }
        ensures { Leaves result self.new words.old words.new
            (at_reserves shape.now words.old.words self.old lock room) }
    {
        match self.place {
            PlainPlace::Free => {
                let at = words.get(Word::Position);
                words.set(Word::Position, at + 1);
                self.place = PlainPlace::Locked { at };
                Made::then(Event::LockPosition, PlainDoing::Reserves { lock })
            }
            PlainPlace::Locked { at } => self.reserves_if_fits(shape, words, lock, at, room),
            PlainPlace::Loaded { at, prev } => {
                words.set(Word::LastStart, shape.geometry().to_lsn(at).0);
                self.place = PlainPlace::Stored { at, prev };
                Made::then(Event::StorePrev, PlainDoing::Reserves { lock })
            }
            PlainPlace::Stored { at, prev } => {
                words.set(Word::Position, at + room);
                self.reserve(shape, at, prev, room);
                Made::then(Event::StorePosition, PlainDoing::Looks { lock })
            }
        }
    }

    // Behind a position that it locked: it goes on where the record fits, and else gives the
    // position back.
    fn reserves_if_fits(
        &mut self,
        shape: &LogShape,
        words: &mut MachineWords,
        lock: u32,
        at: u64,
        room: u64,
    ) -> Made
        requires place { self.old.place ≡ PlainPlace.Locked at }
        requires low { at < 2 ^ 59 }
        requires room { room ≤ 1048576 }
        ensures { Leaves result self.new words.old words.new
            (at_reserves shape.now words.old.words self.old lock room) }
    {
        if at + room > shape.limit() {
            words.set(Word::Position, at);
            self.place = PlainPlace::Free;
            return Made::then(
                Event::GivePositionBack,
                PlainDoing::Releases { lock, full: true },
            );
        }
        let prev = words.get(Word::LastStart);
        self.place = PlainPlace::Loaded { at, prev };
        Made::then(Event::LoadPrev, PlainDoing::Reserves { lock })
    }

    // A record of so many bytes is reserved at a byte position.
    fn reserve(&mut self, shape: &LogShape, at: u64, prev: u64, room: u64)
        requires low { at < 2 ^ 59 }
        requires room { room ≤ 1048576 }
        ensures { self.new ≡ reserved shape.now self.old at prev room }
    {
        let geometry = shape.geometry();
        let end = geometry.to_end_lsn(at + room).0;
        self.place = PlainPlace::Free;
        self.seen = at + room;
        self.last_end = end;
        self.flight = PlainFlight::Copying {
            start: at,
            prev,
            next: geometry.to_end_lsn(at).0,
            end,
        };
    }

    /// Loads the end of the buffer in which the next word's page lies, if that is there: then words
    /// are copied to it, and else a page is mapped.
    pub(crate) fn looks(&self, shape: &LogShape, words: &MachineWords, lock: u32) -> Made
        requires pages { words.now.pages ≡ shape.now.ring_pages }
        requires low { next_in self.now.flight < 2 ^ 60 }
        ensures { Leaves result self.now words.now words.now
            (at_looks shape.now words.now.words self.now lock) }
    {
        let buffer = (self.flight.next() / PAGE_SIZE % u64::from(shape.ring_pages())) as u32;
        let met = words.get(Word::BufferEnd(buffer));
        let event = Event::LoadBufferEnd { buffer };
        if met == self.page_end() {
            Made::then(event, PlainDoing::Copies { lock })
        } else {
            Made::then(event, PlainDoing::Maps { lock })
        }
    }

    /// Stores the record's next word, on a page whose end was met. `copied` is the line whose
    /// record it is.
    pub(crate) fn copies(
        &mut self,
        shape: &LogShape,
        words: &mut MachineWords,
        lock: u32,
        copied: Option<&PlainLine>,
    ) -> Made
        // The record in flight has a next word.
        requires pages { words.old.pages ≡ shape.now.ring_pages }
        requires next { HasNextWord shape.now (line_behind copied) self.old.flight }
        requires low { next_in self.old.flight < 2 ^ 60 }
        ensures { Leaves result self.new words.old words.new
            (at_copies shape.now words.old.words self.old lock
            (word_to_copy shape.now (line_behind copied.entry) self.old.flight)) }
    {
        let word = self.flight.word(shape, copied);
        let place = ring_place(shape, self.flight.next() / WORD);
        words.set(Word::Ring(place), word);
        self.flight.pass_word();
        Made::then(Event::StoreRingWord, self.flight.behind_word(lock))
    }

    /// Gives the lock back, under which nothing is left to copy. The line is answered by it, but
    /// for a commit's that was reserved, which flushes then.
    pub(crate) fn releases(
        &mut self,
        shape: &LogShape,
        words: &mut MachineWords,
        lock: u32,
        full: bool,
        commits: bool,
    ) -> Made
        requires { lock < 8 }
        ensures { Leaves result self.new words.old words.new
            (at_releases shape.now words.old.words self.old lock full commits) }
    {
        words.set(Word::Lock(lock), 0);
        self.flight = PlainFlight::Landed;
        let next = if full || !commits {
            PlainNext::Answers { full }
        } else {
            PlainNext::GoesOn(PlainDoing::FlushBegins)
        };
        Made {
            event: Event::ReleaseLock { lock },
            next,
        }
    }
}

impl PlainFlight {
    // The record's next word.
    fn word(&self, shape: &LogShape, copied: Option<&PlainLine>) -> u64
        requires { HasNextWord shape.now (line_behind copied) self.now }
        ensures { result ≡ word_to_copy shape.now (line_behind copied.entry) self.now }
    {
        let Some(line) = copied else {
            return 0;
        };
        match line.body() {
            Some(body) => self.word_of(shape, body),
            None => 0,
        }
    }

    fn word_of(&self, shape: &LogShape, body: &Body) -> u64
        requires { HasNextOf shape.now body.now self.now }
        ensures { result ≡ word_of_body shape.now body.now self.now }
    {
        match *self {
            PlainFlight::Landed => 0,
            PlainFlight::Copying {
                start,
                prev,
                next,
                ..
            } => {
                let mut placed = Placed::at(
                    shape.geometry(),
                    shape.sysid(),
                    body,
                    start,
                    Lsn(prev),
                    Lsn(next),
                );
                word_due(&mut placed)
            }
        }
    }

    // One word more is copied.
    fn pass_word(&mut self)
        requires { next_in self.old < 2 ^ 60 }
        ensures { self.new ≡ with_one_more self.old }
    {
        if let PlainFlight::Copying { next, .. } = self {
            *next += WORD;
        }
    }

    // What comes behind a word that was copied.
    fn behind_word(&self, lock: u32) -> PlainDoing
        ensures { result ≡ (if has_no_word_left self.now then PlainDoing.Releases lock false
            else (if next_in self.now % 8192 == 0 then PlainDoing.Looks lock else PlainDoing.Copies
            lock)) }
    {
        match *self {
            PlainFlight::Copying { next, end, .. } if next != end => {
                if next % PAGE_SIZE == 0 {
                    PlainDoing::Looks { lock }
                } else {
                    PlainDoing::Copies { lock }
                }
            }
            _ => PlainDoing::Releases { lock, full: false },
        }
    }
}

// The next word of a record at its place, where it has one.
fn word_due(placed: &mut Placed) -> u64
    requires { placed.old.next < placed_end placed.old }
    ensures { result ≡ placed_word placed.old placed.old.next }
{
    match placed.next_word() {
        Some((_, word)) => word,
        None => 0,
    }
}

/// The place in the ring of a word of the log, by its number from the log's address 0.
pub(crate) fn ring_place(shape: &LogShape, number: u64) -> u32
    ensures place { result ≡ ring_place shape.now number }
    ensures within { result < shape.now.ring_pages * 1024 }
{
    let pages = u64::from(shape.ring_pages());
    (number / PAGE_WORDS % pages * PAGE_WORDS + number % PAGE_WORDS) as u32
}

// What comes behind so many locks that were found taken, and one more.
fn behind_taken(taken: u32) -> PlainDoing
    requires { taken < 8 }
    ensures { result ≡ (if taken + 1 == 8 then PlainDoing.Begins else PlainDoing.Tries
        (taken + 1)) }
{
    if taken + 1 == LOCKS {
        PlainDoing::Begins
    } else {
        PlainDoing::Tries { taken: taken + 1 }
    }
}
