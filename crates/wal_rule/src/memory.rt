// Where each shared word lies in the table's memory. Words are known by their numbers (layout.rt of
// machine_state); their places are the table's own matter. Each of the words before the buffers'
// ends that backends store into on their own begins a pair of lines of memory, sixteen words; the
// buffers' ends and all behind follow one another (`place_of_word`). So the place of a word is a
// constant, or lies a constant behind its number.
ghost use Rattle.std.specs.Prelude.{◌≡◌, ◌+◌, ◌<◌, ◌≤◌, ◌^◌, IfOk, length};
ghost use Rattle.machine_state.specs.Words.{ends_number, lock_number};
ghost use Rattle.wal_rule.specs.WordPlaces.{first_end_place, place_of_word, places_between, words_of};

use std::alloc::{AllocError, Global};

/// The byte position up to which records are reserved.
pub const POSITION_PLACE: usize = 0;

/// The address at which the last reserved record starts: stored together with the position.
pub const LAST_START_PLACE: usize = 1;

// The first of the insertion locks, and how far apart they are: as many words as two lines have.
const FIRST_LOCK: usize = 16;

const LOCK_STRIDE: usize = 16;

/// Who has the turn to map a page.
pub const MAPPING_TURN_PLACE: usize = 144;

/// Who has the turn to write.
pub const WRITE_TURN_PLACE: usize = 160;

/// The address below which each page has been mapped.
pub const INITIALISED_END_PLACE: usize = 176;

/// The address below which the log is written.
pub const WRITTEN_PLACE: usize = 192;

/// The address below which the log is durable.
pub const FLUSHED_PLACE: usize = 208;

/// The disk's moment when the last flush had ended: stored together with the flushed address.
pub const MOMENT_PLACE: usize = 209;

/// The disk's count of faults, where it has failed.
pub const DOWN_PLACE: usize = 224;

// The words before the buffers' ends, in the order of their numbers.
const FIRST_PLACES: [usize; 17] = [
    POSITION_PLACE,
    LAST_START_PLACE,
    16,
    32,
    48,
    64,
    80,
    96,
    112,
    128,
    MAPPING_TURN_PLACE,
    WRITE_TURN_PLACE,
    INITIALISED_END_PLACE,
    WRITTEN_PLACE,
    FLUSHED_PLACE,
    MOMENT_PLACE,
    DOWN_PLACE,
];

// How much further on than its number a word lies, from the first buffer's end on.
const BETWEEN: usize = 223;

/// An insertion lock's place.
#[inline]
pub fn place_of_lock(lock: u32) -> usize
    requires { lock < 8 }
    ensures place { result ≡ place_of_word (lock_number lock) }
    ensures low { result < first_end_place }
{
    FIRST_LOCK + lock as usize * LOCK_STRIDE
}

/// The place of a buffer's end, or of a word behind the ends, by its number.
#[inline(always)]
pub fn place_behind(number: usize) -> usize
    requires behind { ends_number ≤ number }
    requires low { number < 2 ^ 32 }
    ensures place { result ≡ place_of_word number }
    ensures value { result ≡ number + places_between }
{
    number + BETWEEN
}

/// The memory in which these words lie, which are all of a table in the order of their numbers.
pub fn memory_of(alloc: Global, words: &[u64]) -> Result<Vec<u64>, AllocError>
    requires some { ends_number < length words.now }
    requires few { length words.now < 2 ^ 32 }
    ensures words { IfOk result (λ memory. words_of memory.items ≡ words.now) }
    ensures length { IfOk result (λ memory.
        length memory.items ≡ length words.now + places_between) }
{
    let mut memory = vec![in alloc; 0; words.len() + BETWEEN]?;
    lay_out(&mut memory, words);
    Ok(memory)
}

// Puts each word at its place.
fn lay_out(memory: &mut [u64], words: &[u64])
    requires some { ends_number < length words.now }
    requires few { length words.now < 2 ^ 32 }
    requires long { length memory.old ≡ length words.now + places_between }
    ensures words { words_of memory.new ≡ words.now }
    ensures length { length memory.new ≡ length memory.old }
{
    for number in 0..words.len() {
        memory[place_of(number)] = words[number];
    }
}

// Any word's place, by its number.
fn place_of(number: usize) -> usize
    requires { number < 2 ^ 32 }
    ensures { result ≡ place_of_word number }
{
    match FIRST_PLACES.get(number) {
        Some(place) => *place,
        None => number + BETWEEN,
    }
}
