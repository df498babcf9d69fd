//! Which setups a log can have, and the words with which it begins.

ghost use Rattle.std.specs.Prelude.{◌≡◌};

use crate::lines::{Planned, scripts_of};
use crate::played::SETUP;
use machine_state::{LogEnd, MachineWords, Setup, Word, is_setup};
use std::alloc::Global;
use std::process::Abort;
use std::test::Fail;
use wal_core::{Core, CoreErr};

// A segment's size, how many pages the ring has, and whether a log can have them.
static SETUPS: &[(u64, u32, bool)] = &[
    (1 << 20, 3, false),
    (1 << 20, 4, true),
    (1 << 20, 64, true),
    (1 << 20, 65, false),
    (3 << 20, 4, false),
    (1 << 30, 4, true),
    (1 << 31, 4, false),
];

#[test]
fn logs_can_have_these_setups(rt: HostRuntime) {
    for (segment_size, ring_pages, can) in SETUPS {
        let setup = Setup {
            seg_size: *segment_size,
            ring_pages: *ring_pages,
            ..SETUP
        };
        assert!(rt; is_setup(setup) == *can, "{segment_size} {ring_pages}");
    }
}

const NO_LINES: &[Planned] = &[];

// What a core says to a ring of so many pages, and so many scripts of no lines.
fn refusal(alloc: Global, ring_pages: u32, scripts: usize) -> Result<Option<CoreErr>, Fail> {
    let setup = Setup {
        ring_pages,
        ..SETUP
    };
    let plans = vec![in alloc; NO_LINES; scripts]?;
    Ok(Core::new(alloc, setup, scripts_of(alloc, &plans)?, Vec::new(alloc)).err())
}

#[test]
fn a_core_has_fewer_scripts_than_passes(rt: HostRuntime) -> Result<(), Fail> {
    let alloc = rt.alloc();
    let refusals = [
        refusal(alloc, 3, 1)?,
        refusal(alloc, 4, 9)?,
        refusal(alloc, 4, 8)?,
    ];
    let wanted = [Some(CoreErr::BadSetup), Some(CoreErr::BadSetup), None];
    assert!(rt; refusals == wanted);
    Ok(())
}

// A ring whose pages do not begin with the first buffer.
const RING_OF_5: Setup = Setup {
    ring_pages: 5,
    ..SETUP
};

fn first_words(words: &MachineWords) -> [u64; 10]
    requires { words.now.pages ≡ 5 }
{
    [
        words.get(Word::Position),
        words.get(Word::LastStart),
        words.get(Word::InitialisedEnd),
        words.get(Word::Written),
        words.get(Word::Flushed),
        words.get(Word::Moment),
        words.get(Word::Down),
        words.get(Word::BufferEnd(3)),
        words.get(Word::BufferEnd(2)),
        words.get(Word::Ring(5 * 1024 - 1)),
    ]
}

fn words_behind_stores(words: &mut MachineWords) -> [u64; 5]
    requires { words.old.pages ≡ 5 }
{
    words.set(Word::Lock(7), 1);
    words.set(Word::Ring(0), 9);
    [
        words.get(Word::Lock(7)),
        words.get(Word::Lock(6)),
        words.get(Word::MappingTurn),
        words.get(Word::Ring(0)),
        words.get(Word::BufferEnd(4)),
    ]
}

#[test]
fn a_log_begins_with_segment_1_and_its_pages_in_their_buffers(rt: HostRuntime) -> Result<(), Fail> {
    if !is_setup(RING_OF_5) {
        return Err(Fail::from("a setup"));
    }
    let mut words = MachineWords::first(rt.alloc(), RING_OF_5, 40)?;
    // The position is behind 128 pages of 8,168 bytes and 16 bytes fewer on the first; page 128 is
    // in buffer 3, and page 132 in buffer 2.
    let wanted = [
        1_045_488,
        0,
        1_048_576 + 5 * 8192,
        1_048_576,
        1_048_576,
        40,
        0,
        129 * 8192,
        133 * 8192,
        0,
    ];
    assert!(rt; first_words(&words) == wanted);
    // A store changes its word alone.
    let wanted = [1, 0, 0, 9, 130 * 8192];
    assert!(rt; words_behind_stores(&mut words) == wanted);
    Ok(())
}

fn resumed_words(words: &MachineWords) -> [u64; 10]
    requires { words.now.pages ≡ 5 }
{
    [
        words.get(Word::Position),
        words.get(Word::LastStart),
        words.get(Word::InitialisedEnd),
        words.get(Word::Written),
        words.get(Word::Async),
        words.get(Word::BufferEnd(3)),
        words.get(Word::BufferEnd(2)),
        words.get(Word::Ring(3 * 1024)),
        words.get(Word::Ring(3 * 1024 + 9)),
        words.get(Word::Ring(3 * 1024 + 10)),
    ]
}

#[test]
fn a_log_goes_on_with_the_words_below_its_end(rt: HostRuntime) -> Result<(), Fail> {
    if !is_setup(RING_OF_5) {
        return Err(Fail::from("a setup"));
    }
    let mut page = [1; 8192];
    page[72] = 9;
    // A record of 40 bytes at the start of segment 1, behind its header of 40.
    let end = LogEnd {
        position: 1_045_528,
        address: 1_048_656,
        last_start: 1_048_616,
    };
    let words = MachineWords::resume(rt.alloc(), RING_OF_5, 40, end, &page)?;
    // The tenth word is the last below the end.
    let wanted = [
        1_045_528,
        1_048_616,
        1_048_576 + 5 * 8192,
        1_048_656,
        1_048_656,
        129 * 8192,
        133 * 8192,
        0x0101_0101_0101_0101,
        0x0101_0101_0101_0109,
        0,
    ];
    assert!(rt; resumed_words(&words) == wanted);
    Ok(())
}
