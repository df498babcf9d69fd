//! What the lines of one backend are told, and when they pass the gate.

use crate::meeting::NOBODY;
use crate::played::{disk_of, play};
use backend_cli::{Cause, KeptTold, Told, ToldLists};
use std::test::Fail;
use wal_types::Lsn;

const FIRST: Told = Told::Hard {
    start: Lsn(0x10_0028),
    end: Lsn(0x10_0050),
    moment: 3,
};

// Of each script, on a disk that fails at these calls, the status, what its lines are told, which
// lines pass, and which one passed last before each call of the disk. A commit makes the segment
// if it is the first, and writes and syncs, and so does a flush of something new; an insert makes
// no call.
static SCRIPTS: &[(&[u8], &[u64], u8, &[Told], u64, u64)] = &[
    (
        b"C 1 0\n# none\nI 1 10 00 aa\n\nF\n",
        &[],
        0,
        &[
            FIRST,
            Told::Wrote {
                start: Lsn(0x10_0050),
                end: Lsn(0x10_0070),
            },
            Told::Flushed {
                upto: Lsn(0x10_0070),
                moment: 5,
            },
        ],
        0x01_03_05,
        0x01_01_01_05_05,
    ),
    (
        b"C 1 0\nC 2 0\nI 1 10 00 aa\nF\n",
        &[],
        0,
        &[
            FIRST,
            Told::Hard {
                start: Lsn(0x10_0050),
                end: Lsn(0x10_0078),
                moment: 5,
            },
            Told::Wrote {
                start: Lsn(0x10_0078),
                end: Lsn(0x10_0098),
            },
            Told::Flushed {
                upto: Lsn(0x10_0098),
                moment: 7,
            },
        ],
        0x01_02_03_04,
        0x01_01_01_02_02_04_04,
    ),
    // The fifth call is the second commit's sync.
    (
        b"C 1 0\nC 2 0\nC 3 0\n",
        &[5],
        4,
        &[
            FIRST,
            Told::Refused {
                cause: Cause::Disk { faults: 1 },
                reserved: Some(Lsn(0x10_0050)),
            },
            Told::Refused {
                cause: Cause::Down { faults: 1 },
                reserved: None,
            },
        ],
        0x01_02_03,
        0x01_01_01_02_02,
    ),
    (b"C 1 0\nX\n", &[], 3, &[], 0, 0),
];

#[test]
fn lines_work_one_behind_the_other(rt: HostRuntime) -> Result<(), Fail> {
    let alloc = rt.alloc();
    let words = ["run", "--seg", "1048576"];
    for (script, fail, status, told, passed, lines) in SCRIPTS {
        let script = Vec::from_slice(alloc, script)?;
        let run = play(&rt, alloc, &words, script, disk_of(alloc, 1, fail)?, NOBODY)?;
        assert!(rt; (run.status, run.passed, run.lines) == (*status, *passed, *lines));
        assert!(rt; are(first_told(&run.told), told));
    }
    Ok(())
}

// What the first backend was told; nothing if no log was opened.
fn first_told(told: &ToldLists) -> &[KeptTold] {
    if told.is_empty() { &[] } else { told.of(0) }
}

// Whether these are the answers that are wanted.
fn are(told: &[KeptTold], wanted: &[Told]) -> bool {
    if told.len() != wanted.len() {
        return false;
    }
    for (answer, wanted) in told.iter().zip(wanted) {
        if answer.told() != *wanted {
            return false;
        }
    }
    true
}
