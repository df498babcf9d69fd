// The writer in the table's slot (PostgreSQL's xlog.c, XLogWrite, with its openLogSegNo and
// LogwrtResult). Who has it in hand makes one call of the device at a time; each leaves the fields
// as the machine's call with that outcome leaves its writer (`CallEnds`). A write that is done
// raises `written`; one that failed does not, but where it was counted its segment waits for a
// sync, since the disk may have any word of it. A sync that failed leaves the segment waiting.
// Behind a fault nothing more may be called: this is not checked here but asked by the table's
// calls (`may`). Before the table is begun the writer may be called otherwise: page 0 of segment 1
// is read, or the log is settled.
ghost use Rattle.std.specs.Prelude.{◌≡◌, ◌↔◌, ℕ, ◌+◌, ◌*◌, ◌/◌, ◌<◌, ◌≤◌, ◌^◌, length, IfOk, IfSome, IsSome, IsTrue, OnErr, OnOk, Some};
ghost use Rattle.byte_position.specs.Geometry.{pages_of};
ghost use Rattle.flush_core.specs.Planned.{IsPlanOf, call_count};
ghost use Rattle.flush_core.specs.Settled.{HasNotSettled, HasSettled};
ghost use Rattle.segment_disk.specs.Cause.{HasCause};
ghost use Rattle.segment_disk.specs.Tape.{IsUncalled, create_call, page_of_segment, state_now, sync_call, write_call};
ghost use Rattle.machine_state.specs.declared.setup.Setup.{Setup};
ghost use Rattle.machine_state.specs.Moves.{after_create, after_sync, after_write};
ghost use Rattle.machine_state.specs.Opened.{IsFirstWriter};
ghost use Rattle.wal_rule.specs.Founded.{empty_log_opening};
ghost use Rattle.wal_rule.specs.Slotted.{calls_of, CallEnds, resting_plain, slot_disk, slot_plain, slot_segment_size};
ghost use Rattle.flush_core.specs.Calls.{maybe};

use byte_position::{Geometry, PAGE_SIZE, Page};
use flush_core::{DiskFault, SettlePlan};
use segment_disk::{Disk, Failed};

/// What is written of a log, on its disk, by one device call at a time (PostgreSQL's xlog.c,
/// XLogWrite). Whoever has it in hand calls in the protocol of `Disk`, and nothing more once a call
/// has failed.
#[derive(Drop)]
pub struct LogWriter<D> {
    disk: D,
    geometry: Geometry,
    /// The address up to which the log is written.
    written: u64,
    /// The last segment made, 0 where none is.
    made: u64,
    /// The segment of which writes wait for a sync.
    waiting: Option<u64>,
    /// The disk's count of faults when it failed.
    fault: Option<u64>,
}

impl<D: Disk> LogWriter<D> {
    /// A writer of a new log, which begins with segment 1. It makes no device call.
    pub fn new(disk: D, geometry: Geometry) -> LogWriter<D>
        ensures disk { slot_disk result ≡ disk }
        ensures size { slot_segment_size result ≡ geometry }
        ensures first { (setup : Setup) → setup.seg_size ≡ geometry
            → IsFirstWriter (empty_log_opening setup (D.moment disk) (D.faults disk))
            (slot_plain D.tape D.moment result) }
    {
        moments_count_calls(&disk);
        let start = geometry.segment_size();
        LogWriter::resume(disk, geometry, start, 0)
    }

    /// A writer that goes on behind a log that was found: the log ends at the address `written`,
    /// and the disk has the segments from 1 up to `made`. It makes no device call.
    pub fn resume(disk: D, geometry: Geometry, written: u64, made: u64) -> LogWriter<D>
        ensures disk { slot_disk result ≡ disk }
        ensures size { slot_segment_size result ≡ geometry }
        // Nothing waits for a sync, and no fault was met.
        ensures plain { slot_plain D.tape D.moment result
            ≡ resting_plain (D.tape disk) (D.moment disk) written made }
    {
        LogWriter {
            disk,
            geometry,
            written,
            made,
            waiting: None,
            fault: None,
        }
    }

    pub fn into_disk(self) -> D
        ensures { result ≡ slot_disk self }
    {
        self.disk
    }

    pub fn written(&self) -> u64
        ensures { result ≡ (slot_plain D.tape D.moment self.now).written }
    {
        self.written
    }

    /// The last segment made, 0 where none is.
    pub fn made(&self) -> u64
        ensures { result ≡ (slot_plain D.tape D.moment self.now).made }
    {
        self.made
    }

    /// How many calls of the disk were counted.
    pub fn moment(&self) -> u64
        ensures { result ≡ (slot_plain D.tape D.moment self.now).moment }
    {
        self.disk.moment()
    }

    /// The segment of which writes wait for a sync.
    pub fn waiting(&self) -> Option<u64>
        ensures { maybe result ≡ (slot_plain D.tape D.moment self.now).waiting }
    {
        self.waiting
    }

    /// The disk's count of faults when it failed.
    pub fn fault(&self) -> Option<u64>
        ensures { maybe result ≡ (slot_plain D.tape D.moment self.now).fault }
    {
        self.fault
    }

    // A law: a segment whose start is written, or is to be written next, has an address.
    pub(crate) fn reaches(&self, segment: u64)
        requires { segment * pages_of (slot_segment_size self.now)
            ≤ (slot_plain D.tape D.moment self.now).written / 8192 }
        ensures { segment < 2 ^ 64 / slot_segment_size self.now }
    {
        has_address(self.geometry, self.written, segment);
    }

    /// Makes a segment, which is the one behind the last.
    pub(crate) fn create(&mut self, segment: u64) -> Result<(), DiskFault>
        requires { segment < 2 ^ 64 / slot_segment_size self.old }
        ensures { CallEnds D.tape D.moment D.faults self.old self.new result
            (after_create segment (create_call (slot_segment_size self.old) segment)) }
    {
        match self.disk.create(self.geometry, segment) {
            Ok(()) => {
                self.made = segment;
                Ok(())
            }
            Err(failed) => Err(self.fail(failed)),
        }
    }

    /// Writes a page in place, which is whole up to an address.
    pub(crate) fn write_page(
        &mut self,
        segment: u64,
        page: u32,
        upto: u64,
        bytes: &Page,
    ) -> Result<(), DiskFault>
        requires segment { segment < 2 ^ 64 / slot_segment_size self.old }
        requires page { page < pages_of (slot_segment_size self.old) }
        ensures { CallEnds D.tape D.moment D.faults self.old self.new result
            (after_write segment upto
            (write_call (slot_segment_size self.old) segment page bytes.now)) }
    {
        let counted = self.disk.moment();
        match self.disk.write_page(self.geometry, segment, page, bytes) {
            Ok(()) => {
                self.written = upto;
                self.waiting = Some(segment);
                Ok(())
            }
            Err(failed) => {
                if self.disk.moment() != counted {
                    self.waiting = Some(segment);
                }
                Err(self.fail(failed))
            }
        }
    }

    /// Makes the writes to a segment durable.
    pub(crate) fn sync(&mut self, segment: u64) -> Result<(), DiskFault>
        requires { segment < 2 ^ 64 / slot_segment_size self.old }
        ensures { CallEnds D.tape D.moment D.faults self.old self.new result
            (after_sync (sync_call (slot_segment_size self.old) segment)) }
    {
        match self.disk.sync(self.geometry, segment) {
            Ok(()) => {
                self.waiting = None;
                Ok(())
            }
            Err(failed) => Err(self.fail(failed)),
        }
    }

    /// Whether page 0 of segment 1 is there.
    pub(crate) fn has_first_page(&mut self) -> Result<bool, Failed>
        // Only the disk has changed, by a read: how far the log is written, the tape and the moment
        // are as before.
        ensures there { IfOk result (λ there. IfSome (D.tape (slot_disk self.old)) (λ t.
            IsTrue there ↔ IsSome (page_of_segment (state_now t 1) 0))) }
        ensures same { slot_plain D.tape D.moment self.new ≡ slot_plain D.tape D.moment self.old }
        ensures tape { D.tape (slot_disk self.new) ≡ D.tape (slot_disk self.old) }
        ensures size { slot_segment_size self.new ≡ slot_segment_size self.old }
        ensures cause { HasCause (D.faults (slot_disk self.old)) (D.faults (slot_disk self.new))
            result }
    {
        read_first_page(&mut self.disk, self.geometry)
    }

    /// Settles the log on its disk: makes the planned calls, and no other.
    pub(crate) fn settle(&mut self, plan: &SettlePlan) -> Result<(), Failed>
        // Of a plan for the disk as it is now.
        ensures settled { (size end count : ℕ)
            → IsPlanOf size end count (D.tape (slot_disk self.old)) plan.now
            → OnOk result (HasSettled size end count (D.tape (slot_disk self.old))
            (D.tape (slot_disk self.new)) (D.moment (slot_disk self.old))
            (D.moment (slot_disk self.new))) }
        ensures stopped { (size end count : ℕ)
            → IsPlanOf size end count (D.tape (slot_disk self.old)) plan.now
            → OnErr result (HasNotSettled size end (D.tape (slot_disk self.old))
            (D.tape (slot_disk self.new)) (D.moment (slot_disk self.old))
            (D.moment (slot_disk self.new))) }
        ensures counted { OnOk result (D.moment (slot_disk self.new)
            ≡ D.moment (slot_disk self.old) + call_count plan.now) }
        ensures low { D.moment (slot_disk self.new) < 2 ^ 64 }
        // Only the disk has changed.
        ensures plain { slot_plain D.tape D.moment self.new
            ≡ record (slot_plain D.tape D.moment self.old) {
              calls = calls_of (D.tape (slot_disk self.new));
              moment = D.moment (slot_disk self.new);
            } }
        ensures size { slot_segment_size self.new ≡ slot_segment_size self.old }
        ensures cause { HasCause (D.faults (slot_disk self.old)) (D.faults (slot_disk self.new))
            result }
    {
        let mut page = [0; PAGE_SIZE as usize];
        let result = plan.settle(&mut self.disk, &mut page);
        moment_of(&self.disk);
        result
    }

    // Keeps the disk's count of faults.
    fn fail(&mut self, _failed: Failed) -> DiskFault
        ensures told { result.faults ≡ D.faults self.old.disk }
        ensures kept { self.new ≡ record self.old { fault = Some result.faults } }
    {
        let faults = self.disk.faults();
        self.fault = Some(faults);
        DiskFault { faults }
    }
}

// Whether page 0 of segment 1 is there.
fn read_first_page<D: Disk>(disk: &mut D, geometry: Geometry) -> Result<bool, Failed>
    ensures there { IfOk result (λ there. IfSome (D.tape disk.old) (λ t.
        IsTrue there ↔ IsSome (page_of_segment (state_now t 1) 0))) }
    ensures uncalled { IsUncalled D.tape D.moment disk.old disk.new }
    ensures cause { HasCause (D.faults disk.old) (D.faults disk.new) result }
{
    let mut page = [0; PAGE_SIZE as usize];
    disk.read_page(geometry, 1, 0, &mut page)
}

// The law of plain numbers.
fn has_address(geometry: Geometry, address: u64, segment: u64)
    requires { segment * pages_of geometry ≤ address / 8192 }
    ensures { segment < 2 ^ 64 / geometry }
{
    prove!(segment <= address / geometry.segment_size());
}

// A disk's moment is a number of 64 bits: what tells it answers one.
fn moment_of<D: Disk>(disk: &D) -> u64
    ensures value { result ≡ D.moment disk.now }
    ensures low { D.moment disk.now < 2 ^ 64 }
{
    disk.moment()
}

// A disk's moment is the number of its counted calls: a law of its trait.
fn moments_count_calls<D: Disk>(disk: &D)
    ensures { IfSome (D.tape disk.now) (λ t. D.moment disk.now ≡ length t.calls) }
{}
