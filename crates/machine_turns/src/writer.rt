//! The machine's writer: what is written of the log, on a disk in memory. Who has it in hand makes
//! its calls when they are due: a segment while none waits for a sync, a page in a segment that is
//! made, a sync where writes wait; and none behind one that failed. A call fails just where its
//! number is listed, and is counted then: a create that failed has made nothing, a page that was
//! not written is not counted as written, though its segment waits for a sync. The disk has just
//! the segments that were made, and room for those that the log can still need (`KeepsDisk`), which
//! each call keeps. That it has room for the call too is what a caller knows who makes it.

ghost use Rattle.std.specs.Prelude.{◌≡◌, ◌+◌, ◌-◌, ◌*◌, ◌/◌, ◌<◌, ◌≤◌, ◌^◌, [], IfOk, IfSome, Some};
ghost use Rattle.segment_disk.specs.First.{first_state};
ghost use Rattle.segment_disk.specs.MemDisk.{first_image, tape_of};
ghost use Rattle.segment_disk.specs.DiskImage.{LeftAt};
ghost use Rattle.segment_disk.specs.Picks.{IsPicked, choice_of};
ghost use Rattle.segment_disk.specs.Tape.{state_at};
ghost use Rattle.machine_state.specs.Suited.{tape_from};
ghost use Rattle.machine_turns.specs.Writer.{IsCreateDue, IsFreshWriter, KeepsDisk, IsSyncDue, IsWriteDue, calls_for, created, page_at, page_written, segment_at, state_of, succeeds, synced, with_word};
ghost use Rattle.flush_core.specs.Calls.{maybe};
ghost use Rattle.machine_turns.specs.Writing.{segment_waiting};

use byte_position::{Geometry, PAGE_SIZE, Page};
use machine_state::LogShape;
use segment_disk::{Disk, MemDisk, Memory, Pick};
use std::alloc::Global;

const WORD: usize = byte_position::WORD as usize;

/// What is written of a log, on a disk in memory that has room for all calls which the log can
/// need, and the page that is loaded for a write (PostgreSQL's xlog.c, XLogWrite).
///
/// `end` is the address that the log will not pass. Each write raises the written address to the
/// end of a page or of a line's record. A segment that is full is synced once, and the one under
/// way at a flush. So there is at most one call for each page and each line, one more for each line
/// that flushes, and two for each segment.
#[derive(Drop)]
pub struct MachineWriter {
    disk: MemDisk,
    geometry: Geometry,
    end: u64,
    written: u64,
    made: u64,
    waiting: Option<u64>,
    fault: Option<u64>,
    page: Page,
}

impl MachineWriter {
    /// A writer of a log that holds nothing yet, and will have records of so many lines at most,
    /// and so many flushes. `fail` lists the counted calls that fail, by their numbers from 1.
    pub fn new(
        alloc: Global,
        shape: &LogShape,
        end: u64,
        lines: u64,
        flushes: u64,
        fail: Vec<u64>,
    ) -> Result<MachineWriter, Memory>
        requires begun { shape.now.seg_size ≤ end }
        requires low { end < 2 ^ 45 }
        requires few_lines { lines ≤ 2 ^ 32 }
        requires few_flushes { flushes ≤ 2 ^ 32 }
        ensures first { IfOk result (λ w.
            IsFreshWriter shape.now.seg_size end lines flushes fail.items (state_of w)) }
        ensures few { IfOk result (λ w. (lines < 2 ^ 32) × (flushes < 2 ^ 32)) }
        ensures kept { IfOk result (λ w. KeepsDisk w) }
    {
        let geometry = shape.geometry();
        let (segments, calls) = room_for(geometry, end, lines, flushes)?;
        Ok(MachineWriter {
            disk: MemDisk::new(alloc, segments, calls, fail, Vec::new(alloc))?,
            geometry,
            end,
            written: geometry.segment_size(),
            made: 0,
            waiting: None,
            fault: None,
            page: [0; 8192],
        })
    }

    /// Up to where the log is written.
    pub fn written(&self) -> u64
        ensures { result ≡ (state_of self.now).plain.written }
    {
        self.written
    }

    /// The last segment made, 0 where none is.
    pub fn made(&self) -> u64
        ensures { result ≡ (state_of self.now).plain.made }
    {
        self.made
    }

    /// How many calls of the disk were counted.
    pub fn moment(&self) -> u64
        ensures { result ≡ (state_of self.now).plain.moment }
    {
        self.disk.moment()
    }

    /// The segment of which writes wait for a sync.
    pub fn waiting(&self) -> Option<u64>
        ensures { maybe result ≡ (state_of self.now).plain.waiting }
    {
        self.waiting
    }

    /// The segment of which writes wait for a sync, 0 where no writes wait.
    pub fn segment_waiting(&self) -> u64
        ensures { result ≡ segment_waiting (state_of self.now).plain.waiting }
    {
        self.waiting.unwrap_or(0)
    }

    /// The disk's count of faults when it failed.
    pub fn fault(&self) -> Option<u64>
        ensures { maybe result ≡ (state_of self.now).plain.fault }
    {
        self.fault
    }

    /// The page under way, by its number from the log's address 0.
    pub fn page(&self) -> u64
        ensures { result ≡ page_at (state_of self.now) }
    {
        self.written / PAGE_SIZE
    }

    /// The segment of the page under way.
    pub fn segment(&self) -> u64
        ensures { result ≡ segment_at (state_of self.now) }
    {
        self.page() / u64::from(self.geometry.pages())
    }

    /// A word of the page under way is loaded.
    pub fn load(&mut self, k: u32, word: u64)
        requires few { k < 1024 }
        requires kept { KeepsDisk self.old }
        ensures writer { state_of self.new ≡ with_word (state_of self.old) k word }
        ensures kept { KeepsDisk self.new }
    {
        let at = WORD * k as usize;
        self.page[at..at + WORD].copy_from_slice(&word.to_le_bytes());
    }

    /// Makes the next segment. Answers whether the call succeeded.
    pub fn create(&mut self) -> bool
        // It is due, and the disk has room for it; the answer is the listed outcome.
        requires due { IsCreateDue (state_of self.old) }
        requires kept { KeepsDisk self.old }
        ensures done { result ≡ succeeds (state_of self.old) }
        ensures writer { state_of self.new ≡ created (state_of self.old) }
        ensures kept { KeepsDisk self.new }
    {
        let segment = self.made + 1;
        let done = self.disk.create(self.geometry, segment).is_ok();
        if done {
            self.made = segment;
        } else {
            self.fault = Some(self.disk.faults());
        }
        done
    }

    /// Writes the page that is loaded, which is whole up to an address. Answers whether the call
    /// succeeded.
    pub fn write_page(&mut self, upto: u64) -> bool
        // It is due, and the disk has room for it; the answer is the listed outcome.
        requires due { IsWriteDue (state_of self.old) upto }
        requires kept { KeepsDisk self.old }
        ensures done { result ≡ succeeds (state_of self.old) }
        ensures writer { state_of self.new ≡ page_written (state_of self.old) upto }
        ensures kept { KeepsDisk self.new }
    {
        let segment = self.segment();
        let page = (self.page() % u64::from(self.geometry.pages())) as u32;
        let done = self
            .disk
            .write_page(self.geometry, segment, page, &self.page)
            .is_ok();
        self.waiting = Some(segment);
        if done {
            self.written = upto;
        } else {
            self.fault = Some(self.disk.faults());
        }
        done
    }

    /// Syncs the segment of which writes wait for it. Answers whether the call succeeded.
    pub fn sync(&mut self, segment: u64) -> bool
        // It is due, and the disk has room for it; the answer is the listed outcome.
        requires due { IsSyncDue (state_of self.old) segment }
        requires kept { KeepsDisk self.old }
        ensures done { result ≡ succeeds (state_of self.old) }
        ensures writer { state_of self.new ≡ synced (state_of self.old) segment }
        ensures kept { KeepsDisk self.new }
    {
        let done = self.disk.sync(self.geometry, segment).is_ok();
        if done {
            self.waiting = None;
        } else {
            self.fault = Some(self.disk.faults());
        }
        done
    }

    /// The disk that a crash leaves now, with the words that the pick says. It is there to be read,
    /// and has no room for a counted call.
    pub fn crash(&self, alloc: Global, pick: Pick) -> Result<MemDisk, Memory>
        ensures left { IfOk result (λ disk. IfSome (tape_from (state_of self.now).first
            (state_of self.now).plain.calls) (λ tape. LeftAt tape (state_of self.now).plain.moment
            (first_image disk))) }
        ensures picked { IfOk result (λ disk. IfSome (tape_from (state_of self.now).first
            (state_of self.now).plain.calls) (λ tape. IsPicked (choice_of pick) (state_at tape
            (state_of self.now).plain.moment)
            (first_image disk))) }
        ensures tape { IfOk result (λ disk. tape_of disk
            ≡ Some (record { at_first = first_state disk.first.items; calls = [] })) }
    {
        self.disk
            .crash_with_room(alloc, self.disk.moment(), pick, 0)
    }
}

// How many segments and calls a log can need that does not pass this address.
fn room_for(geometry: Geometry, end: u64, lines: u64, flushes: u64) -> Result<(u32, u32), Memory>
    requires begun { geometry ≤ end }
    requires low { end < 2 ^ 45 }
    requires few_lines { lines ≤ 2 ^ 32 }
    requires few_flushes { flushes ≤ 2 ^ 32 }
    ensures segments { IfOk result (λ room. end ≤ geometry * (room.0 + 1)) }
    ensures calls { IfOk result (λ room.
        room.1 ≡ calls_for (end / geometry) (end / 8192 - geometry / 8192 + lines) flushes) }
    ensures few { IfOk result (λ room. (lines < 2 ^ 32) × (flushes < 2 ^ 32)) }
{
    let size = geometry.segment_size();
    let segments = end / size;
    let pages = end / PAGE_SIZE - size / PAGE_SIZE;
    let calls = 2 * segments + pages + lines + flushes;
    if calls > u64::from(u32::MAX) {
        return Err(Memory);
    }
    Ok((segments as u32, calls as u32))
}
