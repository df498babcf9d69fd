//! A line alone, and what a listing with a limit reads.

ghost use Rattle.std.specs.Prelude.{IfOk};
ghost use Rattle.waldump_text.specs.Listing.{IsListable};

use crate::calls::smallest;
use crate::reading::{CROSSING, Scene, disk_of};
use segment_disk::MemSink;
use std::alloc::{AllocError, Global};
use std::test::Fail;
use wal_reader::ReadErr;
use wal_types::{BlockList, Bytes, Lsn, Record, Xid};
use waldump_text::{DumpErr, Filter, Listed, dump, line, stats};

// A commit as the first record of its log.
fn commit_listed(alloc: Global) -> Result<Listed, AllocError>
    ensures { IfOk result IsListable }
{
    Ok(Listed {
        start: Lsn(0x10_0028),
        prev: Lsn(0),
        total: 34,
        value: Record {
            xid: Xid(700),
            rmid: 1,
            info: 0,
            origin: None,
            top_xid: None,
            blocks: BlockList::of(Vec::new(alloc)),
            main: Bytes::of(vec![in alloc; 0; 8]?),
        },
    })
}

#[test]
fn a_commit_has_its_line(rt: HostRuntime) -> Result<(), Fail> {
    let alloc = rt.alloc();
    let mut out = MemSink::new(alloc, 400, Vec::new(alloc))?;
    assert_eq!(rt; line(&commit_listed(alloc)?, &mut out), Ok(()));
    assert_eq!(rt;
        out.taken(),
        b"rmgr: Transaction len (rec/tot):     34/    34, tx:        700, lsn: 0/00100028, prev \
          0/00000000, desc: COMMIT data 0000000000000000\n"
            .as_slice()
    );
    Ok(())
}

// A limit, a read that fails, and whether the limit needs that read. Each page is read once: the
// first record fills the first page but for a word, the second goes on in the second page, where
// the third stands. No words ask for a limit of 0.
static LIMITS: &[(u64, &[u64], bool)] = &[
    (0, &[1], false),
    (1, &[1], true),
    (1, &[2], false),
    (2, &[1], true),
    (2, &[2], true),
    (2, &[3], false),
    (3, &[2], true),
    (3, &[3], false),
];

// What a listing with a limit answers, of lines or statistics, printed or not.
fn counted(
    alloc: Global,
    limit: u64,
    failing: &'static [u64],
    asked: u8,
) -> Result<Result<u64, DumpErr>, Fail> {
    let scene = Scene {
        failing,
        ..CROSSING
    };
    let mut disk = disk_of(alloc, &scene)?;
    let mut out = MemSink::new(alloc, 20_000, Vec::new(alloc))?;
    let mut filter = Filter::everything_from(Lsn(0x10_0000));
    filter.stats = asked / 2 == 1;
    filter.quiet = asked % 2 == 1;
    filter.limit = Some(limit);
    Ok(dump(alloc, &mut disk, smallest(), &filter, &mut out))
}

#[test]
fn nothing_is_read_behind_a_limit(rt: HostRuntime) -> Result<(), Fail> {
    let alloc = rt.alloc();
    for (row, (limit, failing, is_needed)) in LIMITS.iter().enumerate() {
        for asked in 0..4 {
            let wanted = if *is_needed {
                Err(DumpErr::Read(ReadErr::Disk { faults: 1 }))
            } else {
                Ok(*limit)
            };
            let counted = counted(alloc, *limit, failing, asked)?;
            assert!(rt; counted == wanted, "row {row}, asked for {asked}");
        }
    }
    Ok(())
}

// A record as large as its number can tell.
fn largest_listed(alloc: Global) -> Result<Listed, AllocError>
    ensures { IfOk result IsListable }
{
    let mut r = commit_listed(alloc)?;
    r.total = u32::MAX;
    Ok(r)
}

#[test]
fn sums_have_more_than_32_bits(rt: HostRuntime) -> Result<(), Fail> {
    let alloc = rt.alloc();
    let records = vec![in alloc; largest_listed(alloc)?, largest_listed(alloc)?]?;
    let mut out = MemSink::new(alloc, 400, Vec::new(alloc))?;
    assert_eq!(rt; stats(records.as_slice(), &mut out), Ok(()));
    assert_eq!(rt;
        out.taken(),
        b"stats: rmgr Transaction records 2 rec 8589934590 fpi 0 total 8589934590\n\
          stats: total records 2 rec 8589934590 fpi 0 total 8589934590\n"
            .as_slice()
    );
    Ok(())
}
