// The disk in memory: a record of its counted calls, and what was there at first. What it holds is
// computed from these at each read (`read_back`), as the definitions say it of a tape; a list of
// the segments that are there is kept beside, for the room that they take up. A call within its
// room is counted, and fails where its number is listed, a create also where there is no room for
// its segment, a write or a sync where its segment is not there; one beyond the room is not
// counted. A read is not counted, and fails at its own list.
ghost use Rattle.std.specs.Prelude.{◌≡◌, ℕ, ◌<◌, ◌≤◌, ◌/◌, ◌^◌, ◌&&◌, true, [], Some, IfOk, IfSome, OnErr, is_ok, is_err, length};
ghost use Rattle.byte_position.specs.Geometry.{pages_of};
ghost use Rattle.segment_disk.specs.Cause.{HasCause};
ghost use Rattle.segment_disk.specs.Failing.{fails_next, after_next};
ghost use Rattle.segment_disk.specs.First.{first_state};
ghost use Rattle.segment_disk.specs.Present.{ListsPresent, MakesNone};
ghost use Rattle.segment_disk.specs.Tape.{Answers, IsPageRead, IsUncalled, create_call, empty_state, page_of_segment, state_now, sync_call, write_call};

use crate::disk::{Call, CallKind, Disk, PageBytes};
use crate::failed::{Failed, count_fault};
use crate::memory::Memory;
use crate::memory::crash::image_left;
use crate::memory::first::FirstSegment;
use crate::memory::pick::Pick;
use crate::memory::reading::read_back;
use crate::memory::record::CallRecord;
use crate::memory::schedule::FailingCalls;
use crate::memory::segments::SegmentList;
use byte_position::{Geometry, Page};
use std::alloc::Global;

/// A disk in memory, which keeps a record of its counted calls.
#[derive(Debug, Drop)]
pub struct MemDisk {
    calls: CallRecord,
    segments: SegmentList,
    reads: FailingCalls,
    first: Vec<FirstSegment>,
    ghost present: { ListsPresent segments.numbers.items (first_state first.items)
        calls.made.items },
}

impl MemDisk {
    ghost use Rattle.segment_disk.specs.MemDisk.{failing_reads, limits_of, segment_count};

    /// A disk with room for this many segments and counted calls, with nothing on it. `fail` lists
    /// the counted calls that fail, and `fail_reads` the reads, each by its number from 1.
    pub fn new(
        alloc: Global,
        segments: u32,
        calls: u32,
        fail: Vec<u64>,
        fail_reads: Vec<u64>,
    ) -> Result<MemDisk, Memory>
        ensures tape { IfOk result (λ disk. ⟦<MemDisk as Disk>⟧.tape disk
            ≡ Some (record { at_first = empty_state; calls = [] })) }
        ensures moment { IfOk result (λ disk. ⟦<MemDisk as Disk>⟧.moment disk ≡ 0) }
        ensures faults { IfOk result (λ disk. ⟦<MemDisk as Disk>⟧.faults disk ≡ 0) }
        ensures segments { IfOk result (λ disk. segment_count disk ≡ 0) }
        ensures limits { IfOk result (λ disk. limits_of disk
            ≡ record { segments = segments; calls = calls; failing = fail.items }) }
        ensures failing_reads { IfOk result (λ disk. failing_reads disk
            ≡ record { numbers = fail_reads.items; made = 0 }) }
    {
        Ok(MemDisk {
            calls: CallRecord::new(alloc, calls as usize, fail)?,
            segments: SegmentList::new(alloc, segments as usize)?,
            reads: FailingCalls::new(fail_reads),
            first: Vec::new(alloc),
        })
    }
}

impl MemDisk {
    ghost use Rattle.std.specs.Prelude.{All, List, [], Some, min};
    ghost use Rattle.segment_disk.specs.DiskImage.{DiskImage, LeftAt, MayLeave};
    ghost use Rattle.segment_disk.specs.MemDisk.{failing_reads, faults_of, first_image, limits_of, moment_of, segment_count, state_behind, tape_of};
    ghost use Rattle.segment_disk.specs.Picks.{IsPicked, by_list, choice_of};
    ghost use Rattle.segment_disk.specs.Present.{HasSegments};

    /// A law: every image that the state at a moment leaves is that of some list, whose numbers are
    /// at most the count of calls. So a pick lists them where fewer than 2^32 calls were counted.
    pub fn images_left_are_those_of_lists(&self)
        ensures { (moment : ℕ) (image : DiskImage) → MayLeave (state_behind self.now moment) image
            → (numbers : List ℕ) × All (λ n. n ≤ moment_of self.now) numbers
            × IsPicked (by_list numbers) (state_behind self.now moment) image }
    {}

    /// The disk that a crash leaves behind this many counted calls (behind all where there are
    /// fewer), with the words that the pick says. It has the same room, and nothing on it fails.
    pub fn crash(&self, alloc: Global, moment: u64, pick: Pick) -> Result<MemDisk, Memory>
        // What was there at first on the new disk is the one image that the pick names, and one
        // that a crash may leave then.
        ensures picked { IfOk result (λ disk. IsPicked (choice_of pick)
            (state_behind self.now (min moment (moment_of self.now))) (first_image disk)) }
        ensures left { IfOk result (λ disk. IfSome (tape_of self.now) (λ tape.
            LeftAt tape (min moment (moment_of self.now)) (first_image disk))) }
        // No call was counted on it, none is to fail, and it has just the segments that were there.
        ensures tape { IfOk result (λ disk. tape_of disk
            ≡ Some (record { at_first = first_state disk.first.items; calls = [] })) }
        ensures moment { IfOk result (λ disk. moment_of disk ≡ 0) }
        ensures faults { IfOk result (λ disk. faults_of disk ≡ 0) }
        ensures limits { IfOk result (λ disk. limits_of disk
            ≡ record (limits_of self.now) { failing = [] }) }
        ensures segments { IfOk result (λ disk. HasSegments
            (state_behind self.now (min moment (moment_of self.now))) (segment_count disk)) }
        ensures failing_reads { IfOk result (λ disk. failing_reads disk
            ≡ record { numbers = []; made = 0 }) }
    {
        self.crash_with_room(alloc, moment, pick, self.calls.limit)
    }

    /// The disk that `crash` makes, with room for so many counted calls as are asked for. Who only
    /// reads what is left asks for none, and takes no memory for any.
    pub fn crash_with_room(
        &self,
        alloc: Global,
        moment: u64,
        pick: Pick,
        calls: usize,
    ) -> Result<MemDisk, Memory>
        // What was there at first on the new disk is the one image that the pick names, and one
        // that a crash may leave then.
        ensures picked { IfOk result (λ disk. IsPicked (choice_of pick)
            (state_behind self.now (min moment (moment_of self.now))) (first_image disk)) }
        ensures left { IfOk result (λ disk. IfSome (tape_of self.now) (λ tape.
            LeftAt tape (min moment (moment_of self.now)) (first_image disk))) }
        // No call was counted on it, none is to fail, and it has just the segments that were there.
        ensures tape { IfOk result (λ disk. tape_of disk
            ≡ Some (record { at_first = first_state disk.first.items; calls = [] })) }
        ensures moment { IfOk result (λ disk. moment_of disk ≡ 0) }
        ensures faults { IfOk result (λ disk. faults_of disk ≡ 0) }
        ensures limits { IfOk result (λ disk. limits_of disk
            ≡ record (limits_of self.now) { calls = calls; failing = [] }) }
        ensures segments { IfOk result (λ disk. HasSegments
            (state_behind self.now (min moment (moment_of self.now))) (segment_count disk)) }
        ensures failing_reads { IfOk result (λ disk. failing_reads disk
            ≡ record { numbers = []; made = 0 }) }
    {
        let made = self.calls.front(moment);
        let first = image_left(alloc, &self.first, made, &self.segments, &pick)?;
        Ok(MemDisk {
            calls: CallRecord::unfailing(alloc, calls)?,
            segments: self.segments.list_of(alloc, &first)?,
            reads: FailingCalls::new(Vec::new(alloc)),
            first,
        })
    }
}

impl MemDisk {
    ghost use Rattle.segment_disk.specs.MemDisk.{IsCounted, faults_of, has_segment, is_next_sound, moment_of, segment_count, tape_of};

    // A call that makes no segment: a write of a page, or a sync.
    fn call_segment(
        &mut self,
        geometry: Geometry,
        segment: u64,
        kind: CallKind,
    ) -> Result<(), Failed>
        requires { MakesNone kind }
        ensures answers { Answers tape_of moment_of self.old self.new
            (record { geometry = geometry; segment = segment; kind = kind; done = true }) result }
        ensures cause { HasCause (faults_of self.old) (faults_of self.new) result }
        // It succeeds where the call is counted, is not to fail, and the segment is there.
        ensures exact { is_ok result ≡ (is_next_sound self.old && has_segment self.old segment) }
        ensures counted { IsCounted self.old self.new }
        ensures segments { segment_count self.new ≡ segment_count self.old }
    {
        if self.calls.is_full() {
            return self.calls.refuse();
        }
        let done = self.segments.has(segment) && !self.calls.next_fails();
        self.calls.count(Call {
            geometry,
            segment,
            kind,
            done,
        })
    }
}

impl Disk for MemDisk {
    ghost use Rattle.std.specs.Prelude.{refl};
    ghost use Rattle.segment_disk.specs.MemDisk.{IsCounted, count_behind_create, tape_of, moment_of, faults_of, limits_of, failing_reads, segment_count, disk_state_of, is_next_sound, has_segment, can_create};

    ghost tape = { tape_of };

    ghost moment = { moment_of };

    ghost faults = { faults_of };

    ghost counts = { λ d. refl };

    fn create(&mut self, geometry: Geometry, segment: u64) -> Result<(), Failed>
        ensures answers { Answers tape_of moment_of self.old self.new
            (create_call geometry segment) result }
        ensures cause { HasCause (faults_of self.old) (faults_of self.new) result }

        // When it succeeds, and when it is counted. A failed one leaves the segments as they were.
        ensures exact { is_ok result ≡ (is_next_sound self.old && can_create self.old segment) }
        ensures counted { IsCounted self.old self.new }
        ensures unmade { OnErr result ((number : ℕ)
            → disk_state_of self.new number ≡ disk_state_of self.old number) }
        ensures segments { segment_count self.new
            ≡ count_behind_create self.old segment (is_ok result) }
    {
        if self.calls.is_full() {
            return self.calls.refuse();
        }
        if self.calls.next_fails() || !self.segments.can_hold(segment) {
            return self.calls.count(Call {
                geometry,
                segment,
                kind: CallKind::Create { made: false },
                done: false,
            });
        }
        self.segments.insert(segment);
        self.calls.count(Call {
            geometry,
            segment,
            kind: CallKind::Create { made: true },
            done: true,
        })
    }

    fn write_page(
        &mut self,
        geometry: Geometry,
        segment: u64,
        page: u32,
        bytes: &Page,
    ) -> Result<(), Failed>
        ensures answers { Answers tape_of moment_of self.old self.new
            (write_call geometry segment page bytes.now) result }
        ensures cause { HasCause (faults_of self.old) (faults_of self.new) result }

        // It succeeds where the call is counted, is not to fail, and the segment is there.
        ensures exact { is_ok result ≡ (is_next_sound self.old && has_segment self.old segment) }
        ensures counted { IsCounted self.old self.new }
        ensures segments { segment_count self.new ≡ segment_count self.old }
    {
        let bytes = PageBytes { bytes: *bytes };
        self.call_segment(geometry, segment, CallKind::Write { page, bytes })
    }

    fn sync(&mut self, geometry: Geometry, segment: u64) -> Result<(), Failed>
        ensures answers { Answers tape_of moment_of self.old self.new
            (sync_call geometry segment) result }
        ensures cause { HasCause (faults_of self.old) (faults_of self.new) result }

        // It succeeds where the call is counted, is not to fail, and the segment is there.
        ensures exact { is_ok result ≡ (is_next_sound self.old && has_segment self.old segment) }
        ensures counted { IsCounted self.old self.new }
        ensures segments { segment_count self.new ≡ segment_count self.old }
    {
        self.call_segment(geometry, segment, CallKind::Sync)
    }

    fn read_page(
        &mut self,
        _geometry: Geometry,
        segment: u64,
        page: u32,
        bytes: &mut Page,
    ) -> Result<bool, Failed>
        ensures reads { IfOk result (λ there. IfSome (tape_of self.old)
            (λ t. IsPageRead (page_of_segment (state_now t segment) page) there bytes.new)) }
        ensures length { length bytes.new ≡ 8192 }
        ensures uncalled { IsUncalled tape_of moment_of self.old self.new }
        ensures cause { HasCause (faults_of self.old) (faults_of self.new) result }

        // It fails at the listed reads alone.
        ensures fails { is_err result ≡ fails_next (failing_reads self.old) }
        ensures failing_reads { failing_reads self.new ≡ after_next (failing_reads self.old) }

        ensures segments { segment_count self.new ≡ segment_count self.old }
        ensures limits { limits_of self.new ≡ limits_of self.old }
    {
        if self.reads.next_fails() {
            return Err(count_fault(&mut self.calls.faults));
        }
        Ok(read_back(&self.first, &self.calls.made, segment, page as usize, bytes))
    }

    fn moment(&self) -> u64 {
        self.calls.made.len() as u64
    }

    fn faults(&self) -> u64 {
        self.calls.faults
    }
}
