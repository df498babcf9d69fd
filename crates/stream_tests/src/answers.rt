//! What a standby answers, as rows.

use crate::frames::{Link, sent_over};
use crate::listed::Listed;
use crate::log::Log;
use crate::standbys::{disk_of, open};
use segment_disk::{Disk, MemDisk};
use std::alloc::Global;
use std::process::Abort;
use std::test::Fail;
use wal_page::PageErr;
use wal_reader::{DamageKind, ReadErr, Stopped};
use wal_stream::{Accepted, Standby, StandbyErr};
use wal_types::Lsn;

/// A page of a script's log that is sent, and up to where, if not as far as the log goes.
#[derive(Clone, Copy)]
struct Sent {
    script: &'static [u8],
    page: u16,
    upto: Option<u64>,
}

const ONE: Sent = Sent {
    script: b"C 700 0\n",
    page: 0,
    upto: None,
};

// A page may be sent up to any of its words.
const HEADER: Sent = Sent {
    upto: Some(0x10_0008),
    ..ONE
};

// The first page of the same log one commit further, and of another log.
const LONGER: Sent = Sent {
    script: b"C 700 0\nC 700 0\n",
    ..ONE
};

const OTHER: Sent = Sent {
    script: b"C 701 0\nC 700 0\n",
    ..ONE
};

// A record of a page and one byte.
const FIRST: Sent = Sent {
    script: b"I 1 10 00 8124*5a\n",
    ..ONE
};

const SECOND: Sent = Sent { page: 1, ..FIRST };

type Told = Result<Accepted, StandbyErr>;

macro_rules! old {
    ($upto:expr) => {
        Ok(Accepted::Old { upto: Lsn($upto) })
    };
}

macro_rules! taken {
    ($upto:expr) => {
        Ok(Accepted::Taken { upto: Lsn($upto) })
    };
}

/// What is sent to a standby on an empty disk, each with its answer; up to where the standby
/// hardens then, how many calls it made, and what is read of its disk: how many records, and where
/// the log ends.
#[derive(Drop)]
struct Row {
    sent: &'static [(Sent, Told)],
    hardened: u64,
    calls: u64,
    listed: (usize, Result<u64, ReadErr>),
}

static ROWS: &[Row] = &[
    Row {
        sent: &[(ONE, taken!(0x10_0050)), (ONE, old!(0x10_0050))],
        hardened: 0x10_0050,
        calls: 3,
        listed: (1, Ok(0x10_0050)),
    },
    Row {
        sent: &[(SECOND, Err(StandbyErr::Gap { at: Lsn(0x10_0000) }))],
        hardened: 0x10_0000,
        calls: 0,
        listed: (0, Ok(0x10_0000)),
    },
    Row {
        sent: &[(FIRST, taken!(0x10_2000))],
        hardened: 0x10_2000,
        calls: 3,
        listed: (
            0,
            Err(ReadErr::Stopped(Stopped::Damaged {
                at: Lsn(0x10_2000),
                kind: DamageKind::Page(PageErr::Magic { found: 0 }),
            })),
        ),
    },
    Row {
        sent: &[
            (FIRST, taken!(0x10_2000)),
            (SECOND, taken!(0x10_2020)),
            (FIRST, old!(0x10_2000)),
        ],
        hardened: 0x10_2020,
        calls: 4,
        listed: (1, Ok(0x10_2020)),
    },
    // A page is taken again where the log went on in it; another log's is not.
    Row {
        sent: &[
            (ONE, taken!(0x10_0050)),
            (OTHER, Err(StandbyErr::Diverged { at: Lsn(0x10_0028) })),
            (LONGER, taken!(0x10_0078)),
            (ONE, old!(0x10_0050)),
        ],
        hardened: 0x10_0078,
        calls: 4,
        listed: (2, Ok(0x10_0078)),
    },
    Row {
        sent: &[(HEADER, taken!(0x10_0008)), (ONE, taken!(0x10_0050))],
        hardened: 0x10_0050,
        calls: 4,
        listed: (1, Ok(0x10_0050)),
    },
];

// What is no frame of a standby of segment 1, made of the frame of a commit. The address stands at
// 8, up to where the page is sent at 16, the segment's size at 24.
static BAD_FRAMES: &[Link] = &[
    Link::Byte(72, 0x23),
    Link::Byte(0, 0x58),
    Link::Cut(100),
    Link::Cut(0),
    Link::Cut(8223),
    Link::Garbage(0x5a),
    Link::Garbage(0),
    // Another segment size, and a number where zeros have to stand.
    Link::Numbers(&[(24, 0x20_0000)]),
    Link::Numbers(&[(24, 0x1_0010_0000)]),
    // A page of segment 0, and one behind the last segment.
    Link::Numbers(&[(8, 0xf_e000), (16, 0xf_e050)]),
    Link::Numbers(&[(8, 0x20_0000), (16, 0x20_0050)]),
    // An address within a page.
    Link::Numbers(&[(8, 0x10_0008)]),
    Link::Numbers(&[(8, 0x10_0800), (16, 0x10_0850)]),
    // Sent up to a place within the header or the record, though words stand behind it; within a
    // word; no further than the page starts, and beyond it.
    Link::Numbers(&[(16, 0x10_0008)]),
    Link::Numbers(&[(16, 0x10_0040)]),
    Link::Numbers(&[(16, 0x10_004c)]),
    Link::Numbers(&[(16, 0x10_0000)]),
    Link::Numbers(&[(16, 0x10_2008)]),
    Link::Numbers(&[(16, 0xffff_ffff_ffff_fff8)]),
];

// Offers a standby what is sent.
fn offer(alloc: Global, standby: &mut Standby<MemDisk>, sent: Sent) -> Result<Told, Fail> {
    let log = Log::of_script(alloc, sent.script)?;
    let bytes = log.frame(sent.page, sent.upto)?;
    Ok(standby.accept(&bytes))
}

fn check(rt: &impl Abort, alloc: Global, row: &Row) -> Result<(), Fail> {
    let mut standby = open(alloc, disk_of(alloc, &[])?)?;
    for (sent, told) in row.sent {
        assert_eq!(rt; offer(alloc, &mut standby, *sent)?, *told);
    }
    assert_eq!(rt; standby.harden(), Ok(Lsn(row.hardened)));
    let mut disk = standby.close();
    assert_eq!(rt; disk.moment(), row.calls);
    let listed = Listed::of(alloc, &mut disk)?;
    assert_eq!(rt; (listed.ends.len(), listed.end), row.listed);
    Ok(())
}

#[test]
fn frames_are_answered(rt: HostRuntime) -> Result<(), Fail> {
    for row in ROWS {
        check(&rt, rt.alloc(), row)?;
    }
    Ok(())
}

// Behind nothing, and behind what was taken.
#[test]
fn bad_frames_change_nothing(rt: HostRuntime) -> Result<(), Fail> {
    let alloc = rt.alloc();
    let bytes = Log::of_script(alloc, ONE.script)?.frame(0, None)?;
    let mut standby = open(alloc, disk_of(alloc, &[])?)?;
    for told in [taken!(0x10_0050), old!(0x10_0050)] {
        for (number, link) in BAD_FRAMES.iter().enumerate() {
            let answer = standby.accept(&sent_over(alloc, *link, &bytes)?);
            assert_eq!(rt; answer, Err(StandbyErr::Bad), "{number}");
        }
        assert_eq!(rt; standby.accept(&bytes), told);
    }
    assert_eq!(rt; standby.close().moment(), 2);
    Ok(())
}
