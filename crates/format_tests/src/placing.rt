//! The words of a record at its place, with those of the page headers that it owns.
ghost use Rattle.std.specs.Prelude.{◌≡◌, ◌+◌, ◌*◌};

use crate::calls::smallest;
use crate::pages::FIRST_HEADER;
use crate::rows::{COMMIT, Filled, RECORD, RecordRow, record_of};
use std::process::Abort;
use std::test::Fail;
use wal_page::{Placed, header_word};
use wal_record::Body;
use wal_types::Lsn;

pub(crate) const SYSTEM_ID: u64 = 0x0123_4567_89ab_cdef;

// The byte position of segment 1's first record, where segments have 1 MiB.
const FIRST: u64 = 128 * 8168 - 16;

/// A record in segment 1, behind others of so many words.
pub(crate) fn placed<'a>(body: &'a Body<'a>, words: u16, prev: Lsn) -> Placed<'a>
    ensures { result.start ≡ FIRST + 8 * words }
{
    let _room = body.room();
    Placed::new(
        smallest(),
        SYSTEM_ID,
        body,
        FIRST + 8 * u64::from(words),
        prev,
    )
}

/// A record behind others of so many words, and what stands behind so many of its own: words with
/// their addresses, and the address behind them. Of a commit one word has the CRC, and is not said.
struct Placing {
    record: RecordRow,
    words_before: u16,
    prev: u64,
    passed: u16,
    words: &'static [(u64, Option<u64>)],
    end: u64,
}

static PLACINGS: &[Placing] = &[
    // A commit on a full page crosses: the record before it has 8,144 bytes.
    Placing {
        record: COMMIT,
        words_before: 1018,
        prev: 0x10_0028,
        passed: 0,
        words: &[
            (0x10_1ff8, Some(0x2bc_0000_0022)),
            (0x10_2000, Some(0x1_0005_d113)),
            (0x10_2008, Some(0x10_2000)),
            (0x10_2010, Some(26)),
            (0x10_2018, Some(0x10_0028)),
            (0x10_2020, None),
            (0x10_2028, Some(0x8ff)),
            (0x10_2030, Some(0)),
        ],
        end: 0x10_2038,
    },
    // A record of a page and a byte: 24 bytes of header, 5 of the main data's, and the data.
    Placing {
        record: RecordRow {
            xid: 0,
            main: Filled(b"", 0x5a, 8124),
            ..RECORD
        },
        words_before: 0,
        prev: 0,
        passed: 1024,
        words: &[
            (0x10_2000, Some(0x1_0005_d113)),
            (0x10_2008, Some(0x10_2000)),
            (0x10_2010, Some(1)),
            (0x10_2018, Some(0x5a)),
        ],
        end: 0x10_2020,
    },
    // A record that fills its page has no word of the next.
    Placing {
        record: RecordRow {
            xid: 0,
            main: Filled(b"", 0x5a, 8123),
            ..RECORD
        },
        words_before: 0,
        prev: 0,
        passed: 1023,
        words: &[(0x10_1ff8, Some(0x5a5a_5a5a_5a5a_5a5a))],
        end: 0x10_2000,
    },
    // The record of a first page gives its long header.
    Placing {
        record: COMMIT,
        words_before: 0,
        prev: 0,
        passed: 0,
        words: &[
            (0x10_0000, Some(0x1_0006_d113)),
            (0x10_0008, Some(0x10_0000)),
            (0x10_0010, Some(0)),
            (0x10_0018, Some(SYSTEM_ID)),
            (0x10_0020, Some(0x2000_0010_0000)),
            (0x10_0028, Some(0x2bc_0000_0022)),
            (0x10_0030, Some(0)),
            (0x10_0038, None),
            (0x10_0040, Some(0x8ff)),
            (0x10_0048, Some(0)),
        ],
        end: 0x10_0050,
    },
];

fn pass(placed: &mut Placed, words: u16) {
    for _ in 0..words {
        placed.next_word();
    }
}

fn check(rt: &impl Abort, body: &Body, placing: &Placing) {
    let _room = body.room();
    let word_with_crc = body.word(Lsn(placing.prev), 2);
    let mut placed = placed(body, placing.words_before, Lsn(placing.prev));
    pass(&mut placed, placing.passed);
    for (lsn, word) in placing.words {
        let word = word.unwrap_or(word_with_crc);
        assert_eq!(rt; placed.next_word(), Some((Lsn(*lsn), word)), "{lsn:x}");
    }
    assert_eq!(rt; placed.next_word(), None);
    assert_eq!(rt; placed.next_lsn(), Lsn(placing.end));
}

#[test]
fn records_are_placed_round_headers(rt: HostRuntime) -> Result<(), Fail> {
    let alloc = rt.alloc();
    for placing in PLACINGS {
        let body = Body::assemble(alloc, &record_of(alloc, &placing.record)?)?;
        check(&rt, &body, placing);
    }
    Ok(())
}

#[test]
fn header_words_are_those_of_the_owner(rt: HostRuntime) -> Result<(), Fail> {
    let alloc = rt.alloc();
    let commit = Body::assemble(alloc, &record_of(alloc, &COMMIT)?)?;
    let owner = placed(&commit, 0, Lsn(0));
    for n in 0..5 {
        let word = header_word(smallest(), 1, 128, &owner, n).to_le_bytes();
        let at = 8 * n as usize;
        assert_eq!(rt; word.as_slice(), &FIRST_HEADER[at..at + 8], "word {n}");
    }
    Ok(())
}
