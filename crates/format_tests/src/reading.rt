//! Reading a log record by record.
use crate::calls::smallest;
use crate::placing::placed;
use crate::rows::{COMMIT, Filled, RECORD, RecordRow, record_of};
use byte_position::Page;
use segment_disk::{Disk, MemDisk};
use std::alloc::Global;
use std::process::Abort;
use std::test::Fail;
use wal_page::PageErr;
use wal_reader::{DamageKind, ReadErr, Reader, Step, Stopped};
use wal_record::Body;
use wal_types::Lsn;

/// The first two pages of segment 1.
#[derive(Drop)]
struct TwoPages {
    first: Page,
    second: Page,
}

impl TwoPages {
    // Puts a record behind others of so many words.
    fn put(&mut self, body: &Body, words: u16, prev: Lsn) {
        let mut placed = placed(body, words, prev);
        for _word in 0..2048 {
            if let Some((lsn, word)) = placed.next_word() {
                if lsn.0 / 8192 == 128 {
                    put_word(&mut self.first, lsn, word);
                } else {
                    put_word(&mut self.second, lsn, word);
                }
            }
        }
    }
}

fn put_word(page: &mut Page, lsn: Lsn, word: u64) {
    let at = (lsn.0 % 8192) as usize;
    if at <= 8184 {
        page[at..at + 8].copy_from_slice(&word.to_le_bytes());
    }
}

/// What a step tells. Of a record: its start, its end and the start of the one before, its size,
/// its transaction and its manager.
#[derive(Clone, Copy, PartialEq, Eq)]
pub(crate) enum Told {
    Record([u64; 3], u32, u32, u8),
    End(u64),
    Failed(ReadErr),
}

fn told_by(step: Result<Step, ReadErr>) -> Told {
    match step {
        Ok(
            Step::Record {
                start,
                end,
                prev,
                total,
                value,
            },
        ) => Told::Record([start.0, end.0, prev.0], total, value.xid.0, value.rmid),
        Ok(Step::End { at }) => Told::End(at.0),
        Err(failure) => Told::Failed(failure),
    }
}

/// Records with the words before them and the start of the one before, a byte that is changed, and
/// how many pages reach the disk; where a reader starts and ends, which of its reads fail, and what
/// its steps tell.
#[derive(Drop)]
pub(crate) struct Scene {
    pub(crate) records: &'static [(RecordRow, u16, u64)],
    pub(crate) changed: Option<(u8, u8)>,
    pub(crate) pages: u8,
    pub(crate) start: u64,
    pub(crate) end: Option<Lsn>,
    pub(crate) failing: &'static [u64],
    pub(crate) told: &'static [Told],
}

const FIRST_COMMIT: Told = Told::Record([0x10_0028, 0x10_0050, 0], 34, 700, 1);

const SECOND_COMMIT: Told = Told::Record([0x10_0050, 0x10_0078, 0x10_0028], 34, 700, 1);

pub(crate) const TWO_COMMITS: Scene = Scene {
    records: &[(COMMIT, 0, 0), (COMMIT, 5, 0x10_0028)],
    changed: None,
    pages: 2,
    start: 0x10_0000,
    end: None,
    failing: &[],
    told: &[
        FIRST_COMMIT,
        SECOND_COMMIT,
        Told::End(0x10_0078),
        Told::End(0x10_0078),
    ],
};

const LARGE_RECORD: RecordRow = RecordRow {
    main: Filled(b"", 0x5a, 8115),
    ..RECORD
};

// A record of 8,144 bytes, and behind it two commits, of which the first goes on in the second
// page. The read of that page fails once.
pub(crate) const CROSSING: Scene = Scene {
    records: &[
        (LARGE_RECORD, 0, 0),
        (COMMIT, 1018, 0x10_0028),
        (COMMIT, 1023, 0x10_1ff8),
    ],
    failing: &[2],
    told: &[
        Told::Record([0x10_0028, 0x10_1ff8, 0], 8144, 2, 10),
        Told::Failed(ReadErr::Disk { faults: 1 }),
        Told::Record([0x10_1ff8, 0x10_2038, 0x10_0028], 34, 700, 1),
    ],
    ..TWO_COMMITS
};

const CRC: Told = Told::Failed(ReadErr::Stopped(Stopped::Damaged {
    at: Lsn(0x10_0028),
    kind: DamageKind::Crc,
}));

// A page of zeros behind a record that goes on is damage.
pub(crate) const TORN: Scene = Scene {
    records: &[(
        RecordRow {
            main: Filled(b"", 0x5a, 8124),
            ..RECORD
        },
        0,
        0,
    )],
    pages: 1,
    told: &[Told::Failed(ReadErr::Stopped(Stopped::Damaged {
        at: Lsn(0x10_2000),
        kind: DamageKind::Page(PageErr::Magic { found: 0 }),
    }))],
    ..TWO_COMMITS
};

static SCENES: &[Scene] = &[
    TWO_COMMITS,
    // Records before the start and from the end on are not given.
    Scene {
        start: 0x10_0029,
        told: &[SECOND_COMMIT],
        ..TWO_COMMITS
    },
    Scene {
        end: Some(Lsn(0x10_0050)),
        told: &[FIRST_COMMIT, Told::End(0x10_0050)],
        ..TWO_COMMITS
    },
    CROSSING,
    // Reading begins behind what is continued.
    Scene {
        start: 0x10_2000,
        failing: &[],
        told: &[
            Told::Record([0x10_2038, 0x10_2060, 0x10_1ff8], 34, 700, 1),
            Told::End(0x10_2060),
        ],
        ..CROSSING
    },
    // Damage is told again.
    Scene {
        changed: Some((70, 1)),
        told: &[CRC, CRC],
        ..TWO_COMMITS
    },
    TORN,
    // There is no segment.
    Scene {
        pages: 0,
        failing: &[1],
        told: &[
            Told::Failed(ReadErr::Disk { faults: 1 }),
            Told::End(0x10_0000),
        ],
        ..TWO_COMMITS
    },
];

fn pages_of(alloc: Global, scene: &Scene) -> Result<TwoPages, Fail> {
    let mut pages = TwoPages {
        first: [0; 8192],
        second: [0; 8192],
    };
    for (row, words, prev) in scene.records {
        let body = Body::assemble(alloc, &record_of(alloc, row)?)?;
        pages.put(&body, *words, Lsn(*prev));
    }
    if let Some((at, byte)) = scene.changed {
        pages.first[usize::from(at)] = byte;
    }
    Ok(pages)
}

pub(crate) fn disk_of(alloc: Global, scene: &Scene) -> Result<MemDisk, Fail> {
    let pages = pages_of(alloc, scene)?;
    let mut disk = MemDisk::new(alloc, 1, 6, Vec::new(alloc), scene.failing.to_vec(alloc)?)?;
    if scene.pages > 0 {
        disk.create(smallest(), 1)?;
        disk.write_page(smallest(), 1, 0, &pages.first)?;
    }
    if scene.pages > 1 {
        disk.write_page(smallest(), 1, 1, &pages.second)?;
    }
    Ok(disk)
}

fn read(rt: &impl Abort, alloc: Global, disk: &mut MemDisk, scene: &Scene) {
    let mut reader = Reader::new(smallest(), Lsn(scene.start), scene.end);
    for (number, step) in scene.told.iter().enumerate() {
        assert!(rt; told_by(reader.next(alloc, disk)) == *step, "step {number}");
    }
}

#[test]
fn records_are_read_one_behind_another(rt: HostRuntime) -> Result<(), Fail> {
    let alloc = rt.alloc();
    for scene in SCENES {
        read(&rt, alloc, &mut disk_of(alloc, scene)?, scene);
    }
    Ok(())
}
