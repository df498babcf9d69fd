//! A log that is on a disk, found and settled.

ghost use Rattle.std.specs.Prelude.{◌≡◌, ℕ, ◌+◌, ◌*◌, ◌^◌, ◌<◌, ◌≤◌, IfErr, IfOk, IfSome, OnErr, OnOk};
ghost use Rattle.wal_spelling.specs.Spelling.{word_at};
ghost use Rattle.segment_disk.specs.Tape.{IsUncalled};
ghost use Rattle.flush_core.specs.Settled.{HasSettled};
ghost use Rattle.wal_reader.specs.Cache.{log_of};
ghost use Rattle.found_log.specs.Found.{CountsSegments, FindsLog, HasFindCause, LeavesUnsettled, RefusesLog};
ghost use Rattle.found_log.specs.Words.{start_of_page, word_in};
ghost use Rattle.found_log.specs.declared.fault.FindFault.TheVariants as faults;

use crate::fault::FindFault;
use crate::reading::read_records;
use crate::words_below::WordsBelow;
use byte_position::{Geometry, PAGE_SIZE, Page};
use flush_core::{SettleFault, SettlePlan, count_segments};
use segment_disk::Disk;
use std::alloc::Global;
use wal_types::Lsn;

/// A log that was found on a disk, and may be gone on with.
#[derive(Drop)]
pub struct FoundLog {
    /// How many records it has.
    pub count: u64,
    /// The address behind the last one, or where the log starts.
    pub end: Lsn,
    /// The byte position behind the last one.
    pub position: u64,
    /// Where the last one starts; 0 where there is none.
    pub last_start: Lsn,
    /// The page that holds the end, as it was read: what lies in it below the end is the log's.
    /// Where the end is a page's start nothing does, and it is zeros.
    pub page: Box<Page>,
    /// The last segment that is there, 0 where none is.
    pub made: u64,
    /// The words below the end, for clauses alone.
    pub below: WordsBelow,
}

impl FoundLog {
    ghost use Rattle.segment_disk.specs.Tape.{state_now};
    ghost use Rattle.flush_core.specs.Settled.{AreAllThere, TellsSettleFault};
    ghost use Rattle.flush_core.specs.Planned.{IsPlanOf};

    /// Plans what settles the log on the disk on which it was found: makes durable what was read,
    /// and zeroes what a crash left behind the end. The disk is only read, and all memory that
    /// settling needs is taken here.
    pub fn plan<D: Disk>(
        &self,
        alloc: Global,
        disk: &mut D,
        geometry: Geometry,
    ) -> Result<SettlePlan, SettleFault>
        // As many segments are there as were found.
        requires there { IfSome (D.tape disk.old)
            (λ t. AreAllThere geometry (state_now t) self.now.made) }
        requires few { self.now.made ≤ 4096 }
        ensures planned { IfOk result
            (IsPlanOf geometry self.now.end.0 self.now.made (D.tape disk.old)) }
        ensures uncalled { IsUncalled D.tape D.moment disk.old disk.new }
        ensures fault { IfErr result (λ fault. TellsSettleFault (D.tape disk.old)
            (D.tape disk.new) (D.moment disk.old) (D.moment disk.new) (D.faults disk.old)
            (D.faults disk.new) fault) }
        ensures no_fault { OnOk result (D.faults disk.new ≡ D.faults disk.old) }
    {
        let mut page = [0; 8192];
        SettlePlan::of(alloc, disk, geometry, self.end, self.made, &mut page)
    }
}

/// Reads and judges a disk's log, from the start of segment 1 to its end. `cap` is how many
/// segments it may have. The disk is only read.
///
/// The log is refused if the segment behind the last one allowed is there, and if it stops as no
/// crash of this program lets one stop. Words that are zeros and a wrong CRC are no reason: a crash
/// leaves them, so the log ends there. Who wrote it is no matter, and how its records are spelled:
/// it goes on behind them, and what lies below its end is left as it is.
///
/// What is read may come from the system's memory, and not be on the disk yet.
pub fn find<D: Disk>(
    alloc: Global,
    disk: &mut D,
    geometry: Geometry,
    cap: u32,
) -> Result<FoundLog, FindFault>
    requires few { cap ≤ 4096 }
    ensures found { IfOk result (FindsLog geometry cap (D.tape disk.old)) }
    ensures refused { IfErr result (λ fault. IfSome (D.tape disk.old)
        (RefusesLog geometry cap fault)) }
    ensures uncalled { IsUncalled D.tape D.moment disk.old disk.new }
    ensures cause { HasFindCause (D.faults disk.old) (D.faults disk.new) result }
{
    let Ok(mut page) = Box::new(alloc, [0; 8192]) else {
        return Err(FindFault::Memory);
    };
    let made = count_allowed(disk, geometry, cap, &mut page)?;
    let read = read_records(alloc, disk, geometry, made)?;
    read_end_page(disk, geometry, read.end, &mut page)?;
    let below = WordsBelow::upto(disk, geometry, read.end, &page);
    Ok(FoundLog {
        count: read.count,
        end: read.end,
        position: geometry.position_of(read.end),
        last_start: read.last_start,
        page,
        made,
        below,
    })
}

/// Finds a log, and settles it up to its end: makes durable what was read, and zeroes what a crash
/// left behind the end. Want of memory, and each reason to refuse the log, comes before the first
/// counted call of the disk; the first that fails ends it.
///
/// A crash in between leaves a log that may be found and settled again, as often as it takes.
pub fn find_and_settle<D: Disk>(
    alloc: Global,
    disk: &mut D,
    geometry: Geometry,
    cap: u32,
) -> Result<FoundLog, FindFault>
    requires few { cap ≤ 4096 }
    ensures found { IfOk result (FindsLog geometry cap (D.tape disk.old)) }
    ensures refused { IfErr result (λ fault. IfSome (D.tape disk.old)
        (RefusesLog geometry cap fault)) }
    ensures settled { IfOk result (λ log. HasSettled geometry log.end.0 log.made
        (D.tape disk.old) (D.tape disk.new) (D.moment disk.old) (D.moment disk.new)) }
    ensures unsettled { IfErr result (LeavesUnsettled geometry cap
        (D.tape disk.old) (D.tape disk.new) (D.moment disk.old) (D.moment disk.new)) }
    ensures cause { HasFindCause (D.faults disk.old) (D.faults disk.new) result }
{
    let log = find(alloc, disk, geometry, cap)?;
    let plan = match log.plan(alloc, disk, geometry) {
        Ok(plan) => plan,
        Err(SettleFault::Memory) => return Err(FindFault::Memory),
        Err(SettleFault::Disk { faults }) => return Err(FindFault::Disk { faults }),
    };
    let mut page = [0; 8192];
    match plan.settle(disk, &mut page) {
        Ok(()) => Ok(log),
        Err(_) => Err(FindFault::Disk {
            faults: disk.faults(),
        }),
    }
}

// How many segments are there. The read of the one that may not be there comes first.
fn count_allowed<D: Disk>(
    disk: &mut D,
    geometry: Geometry,
    cap: u32,
    page: &mut Page,
) -> Result<u64, FindFault>
    ensures counted { IfOk result (λ made. IfSome (D.tape disk.old)
        (CountsSegments geometry cap made)) }
    ensures refused { IfErr result (λ fault. IfSome (D.tape disk.old)
        (RefusesLog geometry cap fault)) }
    ensures within { IfOk result (λ made. made ≤ cap) }
    ensures uncalled { IsUncalled D.tape D.moment disk.old disk.new }
    ensures cause { HasFindCause (D.faults disk.old) (D.faults disk.new) result }
{
    let segment = u64::from(cap) + 1;
    match disk.read_page(geometry, segment, 0, page) {
        Ok(true) => return Err(FindFault::Beyond { segment }),
        Ok(false) => {}
        Err(_) => {
            return Err(FindFault::Disk {
                faults: disk.faults(),
            });
        }
    }
    match count_segments(disk, geometry, page) {
        Ok(made) if made >= segment => Err(FindFault::Beyond { segment }),
        Ok(made) => Ok(made),
        Err(_) => Err(FindFault::Disk {
            faults: disk.faults(),
        }),
    }
}

// Reads the page that holds an end, below which the log lies. Where the end is a page's start, or
// its page is not there, it is zeros.
fn read_end_page<D: Disk>(
    disk: &mut D,
    geometry: Geometry,
    end: Lsn,
    page: &mut Page,
) -> Result<(), FindFault>
    requires low { end.0 ≤ 2 ^ 44 }
    ensures read { OnOk result (IfSome (D.tape disk.old) (λ t. (j : ℕ)
        → start_of_page end.0 + 8 * j < end.0
        → word_at page.new j ≡ word_in (log_of t geometry) (start_of_page end.0 + 8 * j))) }
    ensures failed { IfErr result (λ fault. fault ≡ faults.Disk (D.faults disk.new)) }
    ensures uncalled { IsUncalled D.tape D.moment disk.old disk.new }
    ensures cause { HasFindCause (D.faults disk.old) (D.faults disk.new) result }
{
    let size = geometry.segment_size();
    let within = end.0 % size;
    if within % PAGE_SIZE != 0 {
        match disk.read_page(geometry, end.0 / size, (within / PAGE_SIZE) as u32, page) {
            Ok(true) => return Ok(()),
            Ok(false) => {}
            Err(_) => {
                return Err(FindFault::Disk {
                    faults: disk.faults(),
                });
            }
        }
    }
    page.fill(0);
    Ok(())
}
