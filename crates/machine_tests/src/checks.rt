//! That each check refuses words that are wrong, so that none of them lets all pass.

use crate::played::SETUP;
use crate::{BackendNow, MachineNow, Part, ReservedSpan, fault_of};
use machine_state::is_setup;
use machine_state::layout::{
    BUFFER_ENDS, FLUSHED, INITIALISED_END, LAST_START, MAPPING_TURN, MOMENT, POSITION, WRITE_TURN,
    WRITTEN,
};
use std::alloc::{AllocError, Global};
use std::test::Fail;
use wal_core::{PlainFlight, PlainHold, PlainPlace, PlainStage, PlainView, PlainWatching};

const FIRST_ADDRESS: u64 = 1 << 20;

const BEGINNING: u64 = 1_045_488;

// The first lock's word stands behind the last start.
const LOCK_0: usize = 2;

const LOCK_3: usize = 5;

const LOCK_4: usize = 6;

// The first word of the ring, behind its four pages' ends.
const RING: usize = BUFFER_ENDS + 4;

// The only record, of 40 bytes, and the ten words of the log: a page's header and the record.
static ORDER: [ReservedSpan; 1] = [ReservedSpan {
    start: BEGINNING,
    end: BEGINNING + 40,
    address: FIRST_ADDRESS + 40,
    prev: 0,
}];

static LOG: [u64; 10] = [21, 22, 23, 24, 25, 26, 27, 28, 29, 30];

// The words that are not 0, by their numbers. The position is locked, the locks 3 and 4 are held,
// the pass 3 has both turns, the log is written up to its third word, the ring has the first four
// pages, and the record's last two words are not copied.
static WORDS: [(usize, u64); 22] = [
    (POSITION, BEGINNING + 41),
    (LAST_START, FIRST_ADDRESS + 40),
    (LOCK_3, FIRST_ADDRESS + 65),
    (LOCK_4, 1),
    (MAPPING_TURN, 4),
    (WRITE_TURN, 4),
    (INITIALISED_END, FIRST_ADDRESS + 32_768),
    (WRITTEN, FIRST_ADDRESS + 16),
    (FLUSHED, FIRST_ADDRESS),
    (MOMENT, 3),
    (BUFFER_ENDS, FIRST_ADDRESS + 8192),
    (BUFFER_ENDS + 1, FIRST_ADDRESS + 16_384),
    (BUFFER_ENDS + 2, FIRST_ADDRESS + 24_576),
    (BUFFER_ENDS + 3, FIRST_ADDRESS + 32_768),
    (RING, 21),
    (RING + 1, 22),
    (RING + 2, 23),
    (RING + 3, 24),
    (RING + 4, 25),
    (RING + 5, 26),
    (RING + 6, 27),
    (RING + 7, 28),
];

const IDLE: PlainView = PlainView {
    number: 0,
    place: PlainPlace::Free,
    seen: 0,
    last_end: FIRST_ADDRESS,
    flight: PlainFlight::Landed,
    watching: PlainWatching {
        end: 0,
        visited: 0,
        bound: 0,
    },
    stage: PlainStage::Away,
    hold: PlainHold::Idle,
};

// The first one copies the record, the second one has locked the position, the third one has both
// turns.
static BACKENDS: [BackendNow; 3] = [
    BackendNow {
        view: PlainView {
            number: 1,
            flight: PlainFlight::Copying {
                start: BEGINNING,
                prev: 0,
                next: FIRST_ADDRESS + 64,
                end: FIRST_ADDRESS + 80,
            },
            ..IDLE
        },
        lock: Some(3),
    },
    BackendNow {
        view: PlainView {
            number: 2,
            place: PlainPlace::Locked { at: BEGINNING + 40 },
            ..IDLE
        },
        lock: Some(4),
    },
    BackendNow {
        view: PlainView {
            number: 3,
            stage: PlainStage::Taken,
            hold: PlainHold::Turned,
            ..IDLE
        },
        lock: None,
    },
];

// A word that is another, and the part that is told to be wrong.
static FAULTS: &[(usize, u64, Option<Part>)] = &[
    // The disk's moment is looked at by no check.
    (MOMENT, 4, None),
    // The position is behind the last record, and one more where it is locked.
    (POSITION, BEGINNING + 40, Some(Part::Order)),
    (POSITION, BEGINNING + 49, Some(Part::Order)),
    (LAST_START, 0, Some(Part::Order)),
    // A lock is taken where one holds it.
    (LOCK_0, 1, Some(Part::Locks)),
    (LOCK_4, 0, Some(Part::Locks)),
    // A turn names who has it.
    (MAPPING_TURN, 0, Some(Part::Turns)),
    (MAPPING_TURN, 3, Some(Part::Turns)),
    (WRITE_TURN, 5, Some(Part::Turns)),
    // A lock tells no word that is not copied.
    (LOCK_3, FIRST_ADDRESS + 73, Some(Part::Progress)),
    (LOCK_4, 2, Some(Part::Progress)),
    // A word of a page is its record's: one that is copied, one that is not, and one behind.
    (RING + 7, 0, Some(Part::Ring)),
    (RING + 8, 28, Some(Part::Ring)),
    (RING + 8, 29, None),
    (RING + 10, 31, Some(Part::Ring)),
    // A page is in its own buffer.
    (BUFFER_ENDS + 1, 0, Some(Part::Pages)),
    (BUFFER_ENDS + 1, FIRST_ADDRESS + 24_576, Some(Part::Pages)),
    (INITIALISED_END, FIRST_ADDRESS + 24_576, Some(Part::Pages)),
    // Nothing is written that is not copied, or flushed that is not written.
    (WRITTEN, FIRST_ADDRESS + 72, Some(Part::Positions)),
    (FLUSHED, FIRST_ADDRESS + 24, Some(Part::Positions)),
    (FLUSHED, 0, Some(Part::Positions)),
];

// These words, but for one that is another.
fn words_with(alloc: Global, number: usize, word: u64) -> Result<Vec<u64>, AllocError> {
    let mut words = vec![in alloc; 0; RING + 4096]?;
    for (number, word) in &WORDS {
        put(&mut words, *number, *word);
    }
    put(&mut words, number, word);
    Ok(words)
}

fn put(words: &mut [u64], number: usize, word: u64) {
    if let Some(place) = words.get_mut(number) {
        *place = word;
    }
}

// The first row of which something else is told.
fn first_wrong(alloc: Global) -> Result<Option<(usize, u64)>, Fail> {
    if !is_setup(SETUP) {
        return Err(Fail::from("a setup"));
    }
    for (number, word, part) in FAULTS {
        let words = words_with(alloc, *number, *word)?;
        let told = fault_of(&MachineNow {
            setup: SETUP,
            words: &words,
            order: &ORDER,
            log: &LOG,
            backends: &BACKENDS,
        });
        if told != *part {
            return Ok(Some((*number, *word)));
        }
    }
    Ok(None)
}

#[test]
fn each_part_is_told_where_it_is_wrong(rt: HostRuntime) -> Result<(), Fail> {
    assert_eq!(rt; first_wrong(rt.alloc())?, None);
    Ok(())
}
