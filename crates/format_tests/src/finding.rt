//! Logs that are found and judged, and settled.
use crate::calls::smallest;
use crate::pages::FIRST_HEADER;
use crate::reading::{Scene, TORN, TWO_COMMITS, disk_of};
use byte_position::Geometry;
use found_log::{FindFault, FoundLog, find, find_and_settle};
use segment_disk::{Disk, MemDisk};
use std::alloc::Global;
use std::test::Fail;
use wal_crc32c::Crc;
use wal_page::PageErr;
use wal_reader::{DamageKind, Stopped};
use wal_types::Lsn;

/// A log, whether it is read as one of segments of 2 MiB, and how many segments it may have; what
/// is found: how many records, where the last one ends and starts, and the last segment; and the
/// disk's moment behind the settling, three calls after those that made it.
#[derive(Drop)]
struct Finding {
    scene: Scene,
    wide: bool,
    cap: u32,
    found: Result<[u64; 4], FindFault>,
    moment: u64,
}

const COMMITS: Finding = Finding {
    scene: TWO_COMMITS,
    wide: false,
    cap: 1,
    found: Ok([2, 0x10_0078, 0x10_0050, 1]),
    moment: 4,
};

static FINDINGS: &[Finding] = &[
    COMMITS,
    // Behind a crash that tore the only record all is cleared. So it is where its CRC is wrong.
    Finding {
        scene: TORN,
        found: Ok([0, 0x10_0000, 0, 1]),
        moment: 5,
        ..COMMITS
    },
    Finding {
        scene: Scene {
            changed: Some((70, 1)),
            ..TWO_COMMITS
        },
        found: Ok([0, 0x10_0000, 0, 1]),
        moment: 6,
        ..COMMITS
    },
    Finding {
        cap: 0,
        found: Err(FindFault::Beyond { segment: 1 }),
        moment: 3,
        ..COMMITS
    },
    Finding {
        wide: true,
        found: Err(FindFault::Foreign(Stopped::Damaged {
            at: Lsn(0x20_0000),
            kind: DamageKind::Page(PageErr::SegSize { found: 0x10_0000 }),
        })),
        moment: 3,
        ..COMMITS
    },
    // There is no log.
    Finding {
        scene: Scene {
            pages: 0,
            ..TWO_COMMITS
        },
        found: Ok([0, 0x10_0000, 0, 0]),
        moment: 0,
        ..COMMITS
    },
    // The third read is the first of the log itself.
    Finding {
        scene: Scene {
            failing: &[3],
            ..TWO_COMMITS
        },
        found: Err(FindFault::Disk { faults: 1 }),
        moment: 3,
        ..COMMITS
    },
];

// The page that holds a log's end is handed on as it was read, with what lies behind the end.
#[test]
fn a_logs_end_is_handed_on_as_it_was_read(rt: HostRuntime) -> Result<(), Fail> {
    let alloc = rt.alloc();
    let mut disk = disk_of(alloc, &TWO_COMMITS)?;
    let Ok(log) = find(alloc, &mut disk, smallest(), 1) else {
        return Err(Fail::from("no log was found"));
    };
    let mut page = [0; 8192];
    let Ok(true) = disk.read_page(smallest(), 1, 0, &mut page) else {
        return Err(Fail::from("no page was read"));
    };
    assert!(rt; *log.page == page);
    assert_eq!(rt; log.position, smallest().position_of(Lsn(0x10_0078)));
    Ok(())
}

fn numbers_of(found: Result<FoundLog, FindFault>) -> Result<[u64; 4], FindFault> {
    let log = found?;
    Ok([log.count, log.end.0, log.last_start.0, log.made])
}

#[test]
fn logs_are_found_and_settled(rt: HostRuntime) -> Result<(), Fail> {
    let alloc = rt.alloc();
    let wide = Geometry::new(2 << 20).unwrap_or(smallest());
    for row in FINDINGS {
        let geometry = if row.wide { wide } else { smallest() };
        let cap = row.cap;
        if cap > 4096 {
            return Err(Fail::from("at most 4,096 segments"));
        }
        let mut disk = disk_of(alloc, &row.scene)?;
        let settled = numbers_of(find_and_settle(alloc, &mut disk, geometry, cap));
        assert_eq!(rt; (settled, disk.moment()), (row.found, row.moment));
        if settled.is_ok() {
            let again = numbers_of(find(alloc, &mut disk, geometry, cap));
            assert_eq!(rt; again, row.found);
        }
    }
    Ok(())
}

// With so much main data a record is one byte longer than those that this program writes.
const LONGEST: usize = 1_048_577 - 29;

// Puts a page with the front of what is left of a log's only record, and answers what is left then.
fn put_page<'a>(disk: &mut MemDisk, number: u8, rest: &'a [u8]) -> Result<&'a [u8], Fail> {
    let mut page = [0; 8192];
    let address = u64::from(number) * 8192 + 0x10_0000;
    let (flags, from) = if number % 128 == 0 { (6, 40) } else { (4, 24) };
    page[..from].copy_from_slice(&FIRST_HEADER[..from]);
    page[2] = flags;
    page[8..16].copy_from_slice(&address.to_le_bytes());
    if number > 0 {
        let len = u32::try_from(rest.len()).unwrap_or(u32::MAX);
        page[2] = flags + 1;
        page[16..20].copy_from_slice(&len.to_le_bytes());
    }
    let (front, rest) = rest.split_at(rest.len().min(8192 - from));
    page[from..from + front.len()].copy_from_slice(front);
    disk.write_page(
        smallest(),
        u64::from(number / 128) + 1,
        u32::from(number % 128),
        &page,
    )?;
    Ok(rest)
}

// A record of this main data alone, by its long header.
fn record_of_main(alloc: Global, main: &[u8]) -> Result<Vec<u8>, Fail> {
    let len = u32::try_from(main.len()).unwrap_or(u32::MAX);
    let mut item = [254, 0, 0, 0, 0];
    item[1..].copy_from_slice(&len.to_le_bytes());
    let mut header = [0; 24];
    header[..4].copy_from_slice(&len.wrapping_add(29).to_le_bytes());
    header[17] = 10;
    let mut crc = Crc::new();
    crc.update(&item);
    crc.update(main);
    crc.update(&header[..20]);
    header[20..].copy_from_slice(&crc.value().to_le_bytes());
    let mut bytes = Vec::from_slice(alloc, &header)?;
    bytes.extend_from_slice(&item)?;
    bytes.extend_from_slice(main)?;
    Ok(bytes)
}

// The log of such a record, in segment 1 and in a page of segment 2.
fn log_of(alloc: Global, record: &[u8]) -> Result<MemDisk, Fail> {
    let mut disk = MemDisk::new(alloc, 2, 131, Vec::new(alloc), Vec::new(alloc))?;
    disk.create(smallest(), 1)?;
    disk.create(smallest(), 2)?;
    let mut rest = record;
    for number in 0..129 {
        rest = put_page(&mut disk, number, rest)?;
    }
    Ok(disk)
}

// It has 1,045,488 bytes in segment 1, and 3,089 in the first page of segment 2, behind 40 of its
// header.
#[test]
fn a_record_longer_than_ours_is_found(rt: HostRuntime) -> Result<(), Fail> {
    let alloc = rt.alloc();
    let main = vec![in alloc; 0; LONGEST]?;
    let mut disk = log_of(alloc, &record_of_main(alloc, &main)?)?;
    let found = numbers_of(find(alloc, &mut disk, smallest(), 2));
    assert_eq!(rt; found, Ok([1, 0x20_0c40, 0x10_0028, 2]));
    Ok(())
}
