//! Tables of logs that hold nothing, new ones and one that was found, on disks in memory.

ghost use Rattle.std.specs.Prelude.{◌≡◌, ℕ, ◌≤◌, IfOk};
ghost use Rattle.flush_core.specs.Planned.{IsPlanOf};
ghost use Rattle.wal_page.specs.LogPlace.{new_place};
ghost use Rattle.machine_state.specs.Opened.{first_view};
ghost use Rattle.wal_rule.specs.Founded.{empty_log_opening};
ghost use Rattle.wal_rule.specs.Passes.{view_of_pass};
ghost use Rattle.wal_rule.specs.Tables.{IsPassOn};

use byte_position::Geometry;
use flush_core::{SettlePlan, count_segments};
use machine_state::{LogShape, MachineWords, Setup};
use segment_disk::{Disk, MemDisk};
use std::alloc::Global;
use std::marker::Brand;
use std::test::Fail;
use wal_rule::{Founding, LogTable, LogWriter, OrderPlace, Pass};
use wal_types::Lsn;

pub type Table = LogTable<MemDisk>;

/// Segments of 1 MiB, of which the log may fill two, a ring of four pages, and four passes.
pub const SETUP: Setup = Setup {
    seg_size: 1_048_576,
    ring_pages: 4,
    cap_segments: 2,
    sysid: 1,
    passes: 4,
};

fn shape() -> Result<LogShape, Fail>
    ensures { IfOk result (λ s. s ≡ SETUP) }
{
    Ok(LogShape::new(SETUP).ok_or("a log's setup")?)
}

/// A table on a disk that holds nothing, with its first pass, whose number is 0.
pub fn open(alloc: Global) -> Result<(Table, Pass), Fail>
    ensures pass { IfOk result (λ t. IsPassOn t.0 t.1) }
    ensures view { IfOk result (λ t. view_of_pass t.1
        ≡ first_view (empty_log_opening SETUP 0 0)) }
{
    let shape = shape()?;
    let disk = MemDisk::new(alloc, 4, 100, Vec::new(alloc), Vec::new(alloc))?;
    let founding = Founding::of(SETUP, &disk);
    let words = MachineWords::first(alloc, SETUP, founding.moment)?;
    let writer = LogWriter::new(disk, shape.geometry());
    match LogTable::open(alloc, words.as_slice(), writer, shape, &founding) {
        Ok((table, seat)) => Ok((table, Pass::of_seat(seat, 0, 1, SETUP.passes))),
        Err(_) => Err(Fail::from("memory for a table")),
    }
}

/// A table behind a log that was found to hold nothing, with its first pass. It is settled by a
/// plan, on a disk without a segment.
pub fn resume(alloc: Global) -> Result<(Table, Pass), Fail>
    ensures pass { IfOk result (λ t. IsPassOn t.0 t.1) }
{
    let shape = shape()?;
    let mut disk = MemDisk::new(alloc, 4, 100, Vec::new(alloc), Vec::new(alloc))?;
    let plan = planned(alloc, &mut disk, shape.geometry(), Lsn(SETUP.seg_size))?;
    let made = plan.count();
    let founding = Founding::of_found(SETUP, &disk, first_place(), made, &plan);
    let words = MachineWords::first(alloc, SETUP, founding.moment)?;
    let writer = LogWriter::resume(disk, shape.geometry(), SETUP.seg_size, made);
    match LogTable::resume(alloc, words.as_slice(), writer, shape, &founding, &plan) {
        Ok((table, seat)) => Ok((table, Pass::of_seat(seat, 0, 1, SETUP.passes))),
        Err(_) => Err(Fail::from("memory for a table")),
    }
}

// The place at which a log begins that holds nothing.
fn first_place() -> OrderPlace
    ensures { result.place ≡ new_place SETUP.seg_size }
{
    OrderPlace::of::<Brand>()
}

// What settles a log that ends at an address, on a disk with two segments at most.
fn planned<D: Disk>(
    alloc: Global,
    disk: &mut D,
    geometry: Geometry,
    end: Lsn,
) -> Result<SettlePlan, Fail>
    ensures { IfOk result (λ plan. (count : ℕ) × (count ≤ 2)
        × IsPlanOf geometry end.0 count (D.tape disk.new) plan) }
{
    let mut page = [0; 8192];
    let Ok(count) = count_segments(disk, geometry, &mut page) else {
        return Err(Fail::from("a disk that is read"));
    };
    if count > 2 {
        return Err(Fail::from("two segments at most"));
    }
    let Ok(plan) = SettlePlan::of(alloc, disk, geometry, end, count, &mut page) else {
        return Err(Fail::from("memory for a plan"));
    };
    Ok(plan)
}
