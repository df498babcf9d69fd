//! The words with which a log is opened.

ghost use Rattle.std.specs.Prelude.{◌≡◌, ℕ, ◌+◌, ◌*◌, ◌/◌, ◌%◌, ◌<◌, ◌≤◌, ◌^◌, length, slice_index};
ghost use Rattle.byte_position.specs.Geometry.{IsSegmentSize};
ghost use Rattle.byte_position.specs.Position.{first_position};
ghost use Rattle.wal_spelling.specs.Spelling.{word_at};
ghost use Rattle.machine_state.specs.Words.{ends_number};
ghost use Rattle.machine_state.specs.Paged.{HoldsPage};
ghost use Rattle.machine_state.specs.FirstWords.{GoOnBehind, first_end};

use crate::layout::{
    BUFFER_ENDS, FLUSHED, INITIALISED_END, LAST_START, MOMENT, POSITION, WRITTEN, async_number,
};
use byte_position::{LONG_HEADER_LEN, PAGE_SIZE, PAGE_WORDS, Page, SHORT_HEADER_LEN};
use wal_spelling::numbers::u64_at;

/// Where a log ends behind which records go on.
#[derive(Clone, Copy, Debug)]
pub struct LogEnd {
    /// The byte position behind its last byte.
    pub position: u64,
    /// The address behind its last byte.
    pub address: u64,
    /// The address at which its last record starts, 0 where there is none.
    pub last_start: u64,
}

impl LogEnd {
    /// That of a log that holds nothing: its records begin with segment 1.
    pub(crate) fn first(segment_size: u64) -> LogEnd
        requires { IsSegmentSize segment_size }
        ensures { result ≡ first_end segment_size }
    {
        LogEnd {
            position: usable_bytes(segment_size),
            address: segment_size,
            last_start: 0,
        }
    }
}

/// Stores in words that are all 0 what is another number in a log that is opened with this end. Of
/// the page in which the log ends, the ring gets the words below the end.
pub(crate) fn set_first_words(
    words: &mut [u64],
    ring_pages: u32,
    moment: u64,
    end: LogEnd,
    page: &Page,
)
    requires some { 1 ≤ ring_pages }
    requires few { ring_pages ≤ 64 }
    requires low { end.address < 2 ^ 44 }
    requires wide { length words.old ≡ ends_number + ring_pages + ring_pages * 1024 + 1 }
    requires blank { (n : ℕ) → slice_index words.old n ≡ 0 }
    ensures { GoOnBehind ring_pages moment end page.now words.new }
{
    let pages = ring_pages as usize;
    let last_page = end.address / PAGE_SIZE;
    hold_pages(words, pages, last_page);
    let buffer = (last_page % u64::from(ring_pages)) as usize;
    let kept = (end.address % PAGE_SIZE / 8) as usize;
    copy_words(
        words,
        BUFFER_ENDS + pages + buffer * PAGE_WORDS as usize,
        page,
        kept,
    );
    words[POSITION] = end.position;
    words[LAST_START] = end.last_start;
    words[INITIALISED_END] = (last_page + u64::from(ring_pages)) * PAGE_SIZE;
    words[WRITTEN] = end.address;
    words[FLUSHED] = end.address;
    words[MOMENT] = moment;
    words[async_number(ring_pages)] = end.address;
}

// How many bytes of a segment are in no header: the byte position at which segment 1 begins.
fn usable_bytes(segment_size: u64) -> u64
    requires { IsSegmentSize segment_size }
    ensures { result ≡ first_position segment_size }
{
    let pages = segment_size / PAGE_SIZE;
    pages * (PAGE_SIZE - SHORT_HEADER_LEN) - (LONG_HEADER_LEN - SHORT_HEADER_LEN)
}

// The buffers hold the pages from one on, each in its own.
fn hold_pages(words: &mut [u64], pages: usize, first: u64)
    requires few { pages ≤ 64 }
    requires wide { ends_number + pages ≤ length words.old }
    requires low { first < 2 ^ 32 }
    ensures length { length words.new ≡ length words.old }
    ensures ends { (b : ℕ) → b < pages
        → HoldsPage pages first (first + pages) b (slice_index words.new (ends_number + b)) }
    ensures below { (n : ℕ) → n < ends_number → slice_index words.new n ≡ slice_index words.old n }
    ensures above { (n : ℕ) → ends_number + pages ≤ n
        → slice_index words.new n ≡ slice_index words.old n }
{
    for buffer in 0..pages {
        words[BUFFER_ENDS + buffer] = (first_page(first, pages as u64, buffer as u64) + 1)
            * PAGE_SIZE;
    }
}

// The first page, from one on, whose buffer is this one of so many.
fn first_page(first: u64, pages: u64, buffer: u64) -> u64
    requires some { buffer < pages }
    requires few { pages ≤ 64 }
    requires low { first < 2 ^ 32 }
    ensures holds { HoldsPage pages first (first + pages) buffer ((result + 1) * 8192) }
    ensures low { result < 2 ^ 33 }
{
    (first + pages - 1 - buffer) / pages * pages + buffer
}

// Copies the first words of a page, to a place on.
fn copy_words(words: &mut [u64], to: usize, page: &Page, count: usize)
    requires few { count ≤ 1024 }
    requires wide { to + count ≤ length words.old }
    ensures length { length words.new ≡ length words.old }
    ensures copied { (j : ℕ) → j < count → slice_index words.new (to + j) ≡ word_at page.now j }
    ensures below { (n : ℕ) → n < to → slice_index words.new n ≡ slice_index words.old n }
    ensures above { (n : ℕ) → to + count ≤ n
        → slice_index words.new n ≡ slice_index words.old n }
{
    for place in 0..count {
        words[to + place] = page_word(page, place);
    }
}

// A word of a page.
fn page_word(page: &Page, place: usize) -> u64
    requires { place < 1024 }
    ensures { result ≡ word_at page.now place }
{
    u64_at(page, 8 * place)
}
