//! Disks on which no log is opened.

use crate::filled::SETUP;
use byte_position::Geometry;
use segment_disk::{Disk, MemDisk};
use std::alloc::Global;
use std::process::Abort;
use std::test::Fail;
use wal_log::{OpenFault, OpenFaultKind, Setup, Wal};

// A disk, of which segment 1 is made, or whose first read fails.
fn disk(alloc: Global, is_made: bool, fails: bool) -> Result<MemDisk, Fail> {
    let geometry = Geometry::new(1_048_576).ok_or("a segment's size")?;
    let mut fail_reads = Vec::new(alloc);
    if fails {
        fail_reads.push(1)?;
    }
    let mut disk = MemDisk::new(alloc, 4, 100, Vec::new(alloc), fail_reads)?;
    if is_made && disk.create(geometry, 1).is_err() {
        return Err(Fail::from("a segment"));
    }
    Ok(disk)
}

// A ring of three pages is told before the disk is read.
#[test]
fn a_log_is_opened_on_no_such_disk(rt: HostRuntime) -> Result<(), Fail> {
    let alloc = rt.alloc();
    for (ring_pages, is_made, fails, wanted) in [
        (3, true, true, (OpenFaultKind::BadSetup, 1, 0)),
        (4, true, false, (OpenFaultKind::NotEmpty, 1, 0)),
        (4, false, true, (OpenFaultKind::Disk { faults: 1 }, 0, 1)),
    ] {
        let setup = Setup {
            ring_pages,
            ..SETUP
        };
        let Err(fault) = Wal::open(alloc, disk(alloc, is_made, fails)?, setup) else {
            panic!(rt; "a ring of {ring_pages} pages");
        };
        let OpenFault { disk, kind } = fault;
        assert_eq!(rt; (kind, disk.moment(), disk.faults()), wanted);
    }
    Ok(())
}
