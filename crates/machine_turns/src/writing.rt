//! The turns with the writer in hand: page by page the words are loaded, the segment is made where
//! it is new, the page is written, and a segment that is full is synced (PostgreSQL's xlog.c,
//! XLogWrite, XLogFileInit, issue_xlog_fsync). All of it goes up to the address below which all is
//! known to be copied. A flush then syncs the segment under way, and stores what is written, the
//! moment and the flushed address, in this order; an insert that needs a buffer stores what is
//! written alone. Behind a call that failed, down is set and no further call made. Nobody else
//! calls the device, or stores into these words, while the writer is in hand.

ghost use Rattle.std.specs.Prelude.{◌≡◌, ◌<◌, if◌then◌else◌};
ghost use Rattle.machine_turns.specs.Left.{Leaves};
ghost use Rattle.machine_turns.specs.Writer.{IsCreateDue, KeepsDisk, IsSyncDue, IsWriteDue, created, page_written, state_of, synced};
ghost use Rattle.machine_turns.specs.Writing.{at_creates, at_loads_page, at_sets_down, at_stores_flushed, at_stores_moment, at_stores_written, at_syncs_full, at_syncs_last, at_takes_out, at_writes, known_in, on_the_way, page_or_end, segment_waiting, upto_next, writer_at_loads_page};

use crate::doing::{Made, PlainDoing, PlainPurpose};
use crate::event::Event;
use crate::insert::ring_place;
use crate::view::{PlainHold, PlainView};
use crate::writer::MachineWriter;
use byte_position::{PAGE_SIZE, PAGE_WORDS};
use flush_core::{next_behind, next_call};
use machine_state::layout::LOCKS;
use machine_state::{LogShape, MachineWords, Word};
use wal_types::Lsn;

impl PlainHold {
    // Below this address all is known to be copied.
    fn known(&self) -> u64
        ensures { result ≡ known_in self.now }
    {
        match *self {
            PlainHold::Out { known } => known,
            PlainHold::Idle | PlainHold::Turned => 0,
        }
    }
}

impl PlainView {
    /// Takes the writer out of its slot. What is known to be copied is what the watch has found
    /// that visited all eight locks.
    pub(crate) fn takes_out(
        &mut self,
        shape: &LogShape,
        words: &MachineWords,
        writer: &MachineWriter,
        purpose: PlainPurpose,
    ) -> Made
        ensures { Leaves result self.new words.now words.now
            (at_takes_out shape.now words.now.words self.old (state_of writer.now) purpose) }
    {
        let known = if self.watching.visited == LOCKS {
            self.watching.bound
        } else {
            0
        };
        self.hold = PlainHold::Out { known };
        Made::then(Event::TakeWriterOut, page_or_end(purpose, known, writer))
    }

    /// Loads the next word of the page under way into the writer's page. Behind the last one the
    /// page is written, or its segment made first.
    pub(crate) fn loads_page(
        &self,
        shape: &LogShape,
        words: &MachineWords,
        writer: &mut MachineWriter,
        purpose: PlainPurpose,
        loaded: u32,
    ) -> Made
        requires pages { words.now.pages ≡ shape.now.ring_pages }
        requires loaded { loaded < 1024 }
        requires kept { KeepsDisk writer.old }
        ensures left { Leaves result self.now words.now words.now
            (at_loads_page shape.now words.now.words self.now (state_of writer.old) purpose
            loaded) }
        ensures writer { state_of writer.new ≡ writer_at_loads_page shape.now words.now.words
            self.now (state_of writer.old) loaded }
        ensures kept { KeepsDisk writer.new }
    {
        let number = writer.page() * PAGE_WORDS + u64::from(loaded);
        let word = words.get(Word::Ring(ring_place(shape, number)));
        writer.load(loaded, word);
        let next = if u64::from(loaded) + 1 < PAGE_WORDS {
            PlainDoing::LoadsPage {
                purpose,
                loaded: loaded + 1,
            }
        } else {
            on_the_way(purpose, writer)
        };
        Made::then(Event::LoadRingWord { number }, next)
    }

    /// Makes the segment of the page that is loaded, the one behind the last that was made.
    pub(crate) fn creates(
        &self,
        shape: &LogShape,
        words: &MachineWords,
        writer: &mut MachineWriter,
        purpose: PlainPurpose,
    ) -> Made
        requires due { IsCreateDue (state_of writer.old) }
        requires kept { KeepsDisk writer.old }
        ensures left { Leaves result self.now words.now words.now
            (at_creates shape.now words.now.words self.now (state_of writer.old) purpose) }
        ensures writer { state_of writer.new ≡ created (state_of writer.old) }
        ensures kept { KeepsDisk writer.new }
    {
        let segment = writer.made() + 1;
        let done = writer.create();
        let next = behind_call(done, purpose, PlainDoing::Writes { purpose });
        Made::then(Event::Create { segment, done }, next)
    }

    /// Writes the page that is loaded, up to its end or to where all is known to be copied.
    pub(crate) fn writes(
        &self,
        shape: &LogShape,
        words: &MachineWords,
        writer: &mut MachineWriter,
        purpose: PlainPurpose,
    ) -> Made
        // The written address is to rise, in a segment that is made, and no call has failed.
        requires size { (state_of writer.old).size ≡ shape.now.seg_size }
        requires due { IsWriteDue (state_of writer.old)
            (upto_next shape.now words.now.words self.now (state_of writer.old)) }
        requires kept { KeepsDisk writer.old }
        // The page is written as far as it is known to be copied, or the call failed.
        ensures left { Leaves result self.now words.now words.now
            (at_writes shape.now words.now.words self.now (state_of writer.old) purpose) }
        ensures writer { state_of writer.new ≡ page_written (state_of writer.old)
            (upto_next shape.now words.now.words self.now (state_of writer.old)) }
        ensures kept { KeepsDisk writer.new }
    {
        let known = self.hold.known();
        let segment = writer.segment();
        let page = writer.page();
        let upto = known.min(page * PAGE_SIZE + PAGE_SIZE);
        let done = writer.write_page(upto);
        let next = match next_behind(shape.geometry(), page, upto).to_sync() {
            Some(_) => PlainDoing::SyncsFull { purpose },
            None => page_or_end(purpose, known, writer),
        };
        let event = Event::Write {
            segment,
            page: (page % u64::from(shape.geometry().pages())) as u32,
            upto,
            done,
        };
        Made::then(event, behind_call(done, purpose, next))
    }

    /// Syncs a segment whose last page was written, before the next one is made.
    pub(crate) fn syncs_full(
        &self,
        shape: &LogShape,
        words: &MachineWords,
        writer: &mut MachineWriter,
        purpose: PlainPurpose,
    ) -> Made
        // Writes to that segment wait for it, and no call has failed.
        requires due { IsSyncDue (state_of writer.old)
            (segment_waiting (state_of writer.old).plain.waiting) }
        requires kept { KeepsDisk writer.old }
        ensures left { Leaves result self.now words.now words.now
            (at_syncs_full shape.now words.now.words self.now (state_of writer.old) purpose) }
        ensures writer { state_of writer.new
            ≡ synced (state_of writer.old) (segment_waiting (state_of writer.old).plain.waiting) }
        ensures kept { KeepsDisk writer.new }
    {
        let segment = writer.segment_waiting();
        let done = writer.sync(segment);
        let next = page_or_end(purpose, self.hold.known(), writer);
        Made::then(
            Event::Sync { segment, done },
            behind_call(done, purpose, next),
        )
    }

    /// Syncs the segment under way, for a flush.
    pub(crate) fn syncs_last(
        &self,
        shape: &LogShape,
        words: &MachineWords,
        writer: &mut MachineWriter,
    ) -> Made
        // Writes to that segment wait for it, and no call has failed.
        requires due { IsSyncDue (state_of writer.old)
            (segment_waiting (state_of writer.old).plain.waiting) }
        requires kept { KeepsDisk writer.old }
        ensures left { Leaves result self.now words.now words.now
            (at_syncs_last shape.now words.now.words self.now (state_of writer.old)) }
        ensures writer { state_of writer.new
            ≡ synced (state_of writer.old) (segment_waiting (state_of writer.old).plain.waiting) }
        ensures kept { KeepsDisk writer.new }
    {
        let purpose = PlainPurpose::Line;
        let segment = writer.segment_waiting();
        let done = writer.sync(segment);
        let next = behind_call(done, purpose, PlainDoing::StoresWritten { purpose });
        Made::then(Event::Sync { segment, done }, next)
    }

    /// Stores how far the log is written; an insert puts the writer back then.
    pub(crate) fn stores_written(
        &self,
        shape: &LogShape,
        words: &mut MachineWords,
        writer: &MachineWriter,
        purpose: PlainPurpose,
    ) -> Made
        ensures { Leaves result self.now words.old words.new
            (at_stores_written shape.now words.old.words self.now (state_of writer.now) purpose) }
    {
        words.set(Word::Written, writer.written());
        let next = match purpose {
            PlainPurpose::Line => PlainDoing::StoresMoment,
            PlainPurpose::Page { .. } => PlainDoing::PutsBack {
                purpose,
                failed: false,
            },
        };
        Made::then(Event::StoreWritten, next)
    }

    /// Stores the disk's moment, at which all that is written is synced.
    pub(crate) fn stores_moment(
        &self,
        shape: &LogShape,
        words: &mut MachineWords,
        writer: &MachineWriter,
    ) -> Made
        ensures { Leaves result self.now words.old words.new
            (at_stores_moment shape.now words.old.words self.now (state_of writer.now)) }
    {
        words.set(Word::Moment, writer.moment());
        Made::then(Event::StoreMoment, PlainDoing::StoresFlushed)
    }

    /// Stores as flushed what is written, behind the moment from which on it is durable.
    pub(crate) fn stores_flushed(
        &mut self,
        shape: &LogShape,
        words: &mut MachineWords,
        writer: &MachineWriter,
    ) -> Made
        ensures { Leaves result self.new words.old words.new
            (at_stores_flushed shape.now words.old.words self.old (state_of writer.now)) }
    {
        let written = writer.written();
        words.set(Word::Flushed, written);
        self.see(shape.geometry().position_of(Lsn(written)));
        let next = PlainDoing::PutsBack {
            purpose: PlainPurpose::Line,
            failed: false,
        };
        Made::then(Event::StoreFlushed, next)
    }

    /// Stores the disk's count of faults, behind a call that failed.
    pub(crate) fn sets_down(
        &self,
        shape: &LogShape,
        words: &mut MachineWords,
        writer: &MachineWriter,
        purpose: PlainPurpose,
    ) -> Made
        ensures { Leaves result self.now words.old words.new
            (at_sets_down shape.now words.old.words self.now (state_of writer.now) purpose) }
    {
        words.set(Word::Down, writer.fault().unwrap_or(0));
        let next = PlainDoing::PutsBack {
            purpose,
            failed: true,
        };
        Made::then(Event::SetDown, next)
    }
}

// With the page loaded: what waited was synced behind the last page of its segment, so either the
// page's own is made or the page is written.
fn on_the_way(purpose: PlainPurpose, writer: &MachineWriter) -> PlainDoing
    ensures { result ≡ on_the_way purpose (state_of writer.now) }
{
    if next_call(writer.made(), None, writer.segment()).creates() {
        PlainDoing::Creates { purpose }
    } else {
        PlainDoing::Writes { purpose }
    }
}

// Behind the page written last: the next one, or the end of the writing.
fn page_or_end(purpose: PlainPurpose, known: u64, writer: &MachineWriter) -> PlainDoing
    ensures { result ≡ page_or_end purpose known (state_of writer.now) }
{
    if writer.written() < known {
        return PlainDoing::LoadsPage { purpose, loaded: 0 };
    }
    match purpose {
        PlainPurpose::Line if writer.waiting().is_some() => PlainDoing::SyncsLast,
        _ => PlainDoing::StoresWritten { purpose },
    }
}

// Behind a call of the device: what comes next, or the disk has failed.
fn behind_call(done: bool, purpose: PlainPurpose, next: PlainDoing) -> PlainDoing
    ensures { result ≡ (if done then next else PlainDoing.SetsDown purpose) }
{
    if done {
        next
    } else {
        PlainDoing::SetsDown { purpose }
    }
}
