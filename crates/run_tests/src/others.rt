//! Logs that another program may have written, gone on with: other system ids, other spellings,
//! other page flags, other padding. What lies below their end stays as it is.

use crate::changed::{page_at, put, sync};
use crate::meeting::NOBODY;
use crate::played::{disk_of, play};
use crate::rows::NO_CALL;
use segment_disk::MemDisk;
use std::alloc::Global;
use std::process::Abort;
use std::sync::Wait;
use std::test::Fail;
use std::thread::Threads;

const RUN: [&str; 7] = ["run", "--seg", "1048576", "--cap", "2", "--ring", "4"];

const APPEND: [&str; 7] = [
    "run", "--append", "--list", "--seg", "1048576", "--cap", "2",
];

const LOG_START: u64 = 0x10_0000;

// A log that a run made, with bytes that stand at addresses in place of its own, all of them
// durable; what a run prints that goes on with it by a commit; and how many bytes of segment 1's
// first page lie below its end.
#[derive(Drop)]
struct Other {
    what: &'static str,
    script: &'static [u8],
    changes: &'static [(u64, &'static [u8])],
    printed: &'static str,
    below: usize,
}

// The run makes three calls, and each change two; the reopening syncs the segment, and the commit
// is written and synced.
const ONE_COMMIT: Other = Other {
    what: "one commit",
    script: b"C 1 0\n",
    changes: &[],
    printed: "found 1 end 0/00100050\n\
        0 1 hard 0/00100050 0/00100078 8\n\
        records 1 commits 1 bytes 40 end 0/00100078 segments 1\n",
    below: 0x50,
};

static OTHERS: &[Other] = &[
    Other {
        what: "another system's id",
        changes: &[(0x10_0018, b"\x07\x00\x00\x00\x00\x00\x00\x00")],
        ..ONE_COMMIT
    },
    // It has 37 bytes in place of 34, and so takes up as many.
    Other {
        what: "the long form of main data",
        changes: &[(
            0x10_0028,
            b"\x25\x00\x00\x00\x01\x00\x00\x00\x00\x00\x00\x00\x00\x00\x00\x00\
            \x00\x01\x00\x00\xc3\x77\x85\xbe\xfe\x08\x00\x00\x00\x00\x00\x00\x00\x00\x00\x00\x00",
        )],
        ..ONE_COMMIT
    },
    Other {
        what: "a record's two bytes of padding",
        changes: &[(
            0x10_0028,
            b"\x22\x00\x00\x00\x01\x00\x00\x00\x00\x00\x00\x00\x00\x00\x00\x00\
            \x00\x01\x07\x00\x70\x89\x63\x5a",
        )],
        ..ONE_COMMIT
    },
    Other {
        what: "a page that does not say that blocks may be left out",
        changes: &[(0x10_0002, b"\x02\x00")],
        ..ONE_COMMIT
    },
    // The run fills the segment behind the switch: 128 pages more, of which the first was written.
    // The commit has the next segment made.
    Other {
        what: "a switch with bytes behind it",
        script: b"C 1 0\nW\n",
        changes: &[(0x10_0070, b"\x11\x22\x33\x44\x55\x66\x77\x88")],
        printed: "found 2 end 0/00200000\n\
            0 1 hard 0/00200028 0/00200050 138\n\
            records 1 commits 1 bytes 40 end 0/00200050 segments 2\n",
        below: 0x2000,
    },
];

// What a row has, on a disk in memory.
fn left_on<R: Abort + Threads + Wait + Sync>(
    rt: &R,
    alloc: Global,
    row: &Other,
) -> Result<MemDisk, Fail> {
    let script = Vec::from_slice(alloc, row.script)?;
    let disk = disk_of(alloc, 2, &[NO_CALL])?;
    let run = play(rt, alloc, &RUN, script, disk, NOBODY)?;
    assert!(rt; run.status == 0, "{}", row.what);
    let mut disk = run.disk;
    for (at, bytes) in row.changes {
        put(&mut disk, *at, bytes)?;
        sync(&mut disk, *at)?;
    }
    Ok(disk)
}

#[test]
fn logs_of_other_origin_are_gone_on_with(rt: HostRuntime) -> Result<(), Fail> {
    let alloc = rt.alloc();
    for row in OTHERS {
        let mut disk = left_on(&rt, alloc, row)?;
        let before = page_at(&mut disk, LOG_START)?;
        let script = Vec::from_slice(alloc, b"C 9 0\n")?;
        let run = play(&rt, alloc, &APPEND, script, disk, NOBODY)?;
        let is_told = run.status == 0 && run.out.taken() == row.printed.as_bytes();
        assert!(rt; is_told, "{}", row.what);
        let mut disk = run.disk;
        let after = page_at(&mut disk, LOG_START)?;
        let is_same = before.get(..row.below) == after.get(..row.below);
        assert!(rt; is_same, "{}", row.what);
    }
    Ok(())
}
