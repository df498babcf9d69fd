// A log that a crash left is settled before it is gone on with. (PostgreSQL's xlog.c, StartupXLOG,
// zeroes the rest of the log's last page alone, in its buffer.) What is read may come from the
// system's memory, and not be on the disk yet: so each segment that is there is synced first, and
// only behind that is anything cleared. Whatever stands at or above the end becomes zeros: else a
// later crash could mix it with words of the log that goes on.
ghost use Rattle.std.specs.Prelude.{◌≡◌, ℕ, ◌+◌, ◌/◌, ◌^◌, ◌<◌, ◌≤◌, All, IfOk, IfErr, IfSome, OnErr, OnOk, length, true};
ghost use Rattle.std.specs.List.{flat_map, range_with_len};
ghost use Rattle.segment_disk.specs.Cause.{HasCause};
ghost use Rattle.segment_disk.specs.Tape.{state_now};
ghost use Rattle.flush_core.specs.PlannedPages.{ArePlanned, AreToClear, IsPageOf, is_to_clear, planned_clears};
ghost use Rattle.flush_core.specs.Settled.{HasNotSettled, HasSettled, MakesCalls, StopsCalls, TellsSettleFault, cleared, settle_calls, sync_calls};

use crate::planning::{PlannedPage, SettlePlan, count_segments};
use byte_position::{Geometry, Page};
use segment_disk::{Disk, Failed};
use std::alloc::Global;
use wal_types::Lsn;

/// Why a log could not be settled.
#[derive(Clone, Copy, Debug, PartialEq, Eq)]
pub enum SettleFault {
    /// There was no memory for what is planned.
    Memory,
    /// The disk failed: its count of faults then.
    Disk { faults: u64 },
}

/// Settles a log that was found to end at an address: syncs each segment that is there, from 1 up
/// to the first that is not; zeroes each word at or above the end in the pages of these; and syncs
/// the segments that it wrote to. It answers the last segment that is there, 0 where none is.
///
/// A crash in between leaves below the end what it might have left before, and from the end of the
/// first syncs on just what was read. So the log may be found and settled again, as often as it
/// takes.
///
/// `page` is room for a page. The first call of the disk that fails ends it.
pub fn settle<D: Disk>(
    alloc: Global,
    disk: &mut D,
    geometry: Geometry,
    end: Lsn,
    page: &mut Page,
) -> Result<u64, SettleFault>
    ensures settled { IfOk result (λ count. HasSettled geometry end.0 count
        (D.tape disk.old) (D.tape disk.new) (D.moment disk.old) (D.moment disk.new)) }
    ensures fault { IfErr result (λ fault. TellsSettleFault (D.tape disk.old) (D.tape disk.new)
        (D.moment disk.old) (D.moment disk.new) (D.faults disk.old) (D.faults disk.new) fault) }
    ensures no_fault { OnOk result (D.faults disk.new ≡ D.faults disk.old) }
    ensures stopped { OnErr result (HasNotSettled geometry end.0
        (D.tape disk.old) (D.tape disk.new) (D.moment disk.old) (D.moment disk.new)) }
{
    let count = match count_segments(disk, geometry, page) {
        Ok(count) => count,
        Err(_) => {
            return Err(SettleFault::Disk {
                faults: disk.faults(),
            });
        }
    };
    let plan = SettlePlan::of(alloc, disk, geometry, end, count, page)?;
    match plan.settle(disk, page) {
        Ok(()) => Ok(count),
        Err(_) => Err(SettleFault::Disk {
            faults: disk.faults(),
        }),
    }
}

/// Makes the calls that were planned: syncs the segments that are there, clears pages behind the
/// end, and syncs the segments of these.
pub(crate) fn settle_planned<D: Disk>(
    disk: &mut D,
    geometry: Geometry,
    count: u64,
    pages: &[PlannedPage],
    segments: &[u64],
    bytes: &mut Page,
) -> Result<(), Failed>
    requires count { count < 2 ^ 64 / geometry }
    requires pages { All (IsPageOf geometry) pages.now }
    requires segments { All (λ segment. segment < 2 ^ 64 / geometry) segments.now }
    ensures ok { (end : ℕ) → ArePlanned geometry end count (D.tape disk.old) pages.now segments.now
        → OnOk result (MakesCalls (D.tape disk.old) (D.tape disk.new)
        (D.moment disk.old) (D.moment disk.new) (settle_calls geometry end count)) }
    ensures err { (end : ℕ) → ArePlanned geometry end count (D.tape disk.old) pages.now segments.now
        → OnErr result (StopsCalls (D.tape disk.old) (D.tape disk.new)
        (D.moment disk.old) (D.moment disk.new) (settle_calls geometry end count)) }
    ensures counted { OnOk result (D.moment disk.new
        ≡ D.moment disk.old + count + length pages.now + length segments.now) }
    ensures cause { HasCause (D.faults disk.old) (D.faults disk.new) result }
{
    sync_first(disk, geometry, count)?;
    clear_pages(disk, geometry, pages, bytes)?;
    sync_listed(disk, geometry, segments)
}

/// Syncs the segments from 1 to `count`, one behind another.
pub fn sync_first<D: Disk>(disk: &mut D, geometry: Geometry, count: u64) -> Result<(), Failed>
    requires { count < 2 ^ 64 / geometry }
    ensures ok { OnOk result (MakesCalls (D.tape disk.old) (D.tape disk.new)
        (D.moment disk.old) (D.moment disk.new)
        (λ _. sync_calls geometry (range_with_len 1 count))) }
    ensures err { OnErr result (StopsCalls (D.tape disk.old) (D.tape disk.new)
        (D.moment disk.old) (D.moment disk.new)
        (λ _. sync_calls geometry (range_with_len 1 count))) }
    ensures counted { OnOk result (D.moment disk.new ≡ D.moment disk.old + count) }
    ensures cause { HasCause (D.faults disk.old) (D.faults disk.new) result }
{
    for before in 0..count {
        disk.sync(geometry, before + 1)?;
    }
    Ok(())
}

// Syncs the segments of these numbers.
fn sync_listed<D: Disk>(disk: &mut D, geometry: Geometry, segments: &[u64]) -> Result<(), Failed>
    requires { All (λ segment. segment < 2 ^ 64 / geometry) segments.now }
    ensures ok { OnOk result (MakesCalls (D.tape disk.old) (D.tape disk.new)
        (D.moment disk.old) (D.moment disk.new) (λ _. sync_calls geometry segments.now)) }
    ensures err { OnErr result (StopsCalls (D.tape disk.old) (D.tape disk.new)
        (D.moment disk.old) (D.moment disk.new) (λ _. sync_calls geometry segments.now)) }
    ensures counted { OnOk result (D.moment disk.new ≡ D.moment disk.old + length segments.now) }
    ensures cause { HasCause (D.faults disk.old) (D.faults disk.new) result }
{
    for &segment in segments {
        disk.sync(geometry, segment)?;
    }
    Ok(())
}

// Clears these pages, one behind another.
fn clear_pages<D: Disk>(
    disk: &mut D,
    geometry: Geometry,
    pages: &[PlannedPage],
    bytes: &mut Page,
) -> Result<(), Failed>
    requires { All (IsPageOf geometry) pages.now }
    // Where each of them is to be cleared, and none stands twice in the list.
    ensures ok { IfSome (D.tape disk.old) (λ t. AreToClear geometry (state_now t) pages.now)
        → OnOk result (MakesCalls (D.tape disk.old) (D.tape disk.new)
        (D.moment disk.old) (D.moment disk.new)
        (λ state. flat_map (planned_clears geometry state) pages.now)) }
    ensures err { IfSome (D.tape disk.old) (λ t. AreToClear geometry (state_now t) pages.now)
        → OnErr result (StopsCalls (D.tape disk.old) (D.tape disk.new)
        (D.moment disk.old) (D.moment disk.new)
        (λ state. flat_map (planned_clears geometry state) pages.now)) }
    ensures counted { OnOk result (D.moment disk.new ≡ D.moment disk.old + length pages.now) }
    ensures cause { HasCause (D.faults disk.old) (D.faults disk.new) result }
{
    for &page in pages {
        clear_page(disk, geometry, page, bytes)?;
    }
    Ok(())
}

// Clears a page: reads it, and writes it with zeros from its byte on, whether or not it is there.
fn clear_page<D: Disk>(
    disk: &mut D,
    geometry: Geometry,
    page: PlannedPage,
    bytes: &mut Page,
) -> Result<(), Failed>
    requires { IsPageOf geometry page }
    // Where it is to be cleared.
    ensures ok { IfSome (D.tape disk.old) (λ t. is_to_clear geometry (state_now t) page ≡ true)
        → OnOk result (MakesCalls (D.tape disk.old) (D.tape disk.new)
        (D.moment disk.old) (D.moment disk.new) (λ state. planned_clears geometry state page)) }
    ensures err { IfSome (D.tape disk.old) (λ t. is_to_clear geometry (state_now t) page ≡ true)
        → OnErr result (StopsCalls (D.tape disk.old) (D.tape disk.new)
        (D.moment disk.old) (D.moment disk.new) (λ state. planned_clears geometry state page)) }
    ensures counted { OnOk result (D.moment disk.new ≡ D.moment disk.old + 1) }
    ensures cause { HasCause (D.faults disk.old) (D.faults disk.new) result }
{
    disk.read_page(geometry, page.segment, page.page, bytes)?;
    clear_bytes(bytes, page.from);
    disk.write_page(geometry, page.segment, page.page, bytes)
}

// Zeroes a page's bytes from one on.
fn clear_bytes(bytes: &mut Page, from: usize)
    requires { from ≤ 8192 }
    ensures { bytes.new ≡ cleared from bytes.old }
{
    bytes[from..].fill(0);
}
