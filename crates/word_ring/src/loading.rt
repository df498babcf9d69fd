// The words of a page are loaded from the ring, and made into its bytes (PostgreSQL's xlog.c,
// XLogWrite, which writes from the buffers themselves). The writer is in hand, the page is not
// written whole, and it begins below what is known to be copied. So it lies in its buffer, and it
// is not replaced before the writer goes on: nobody else raises the written address. Its words
// below what is known are the log's. One above may be under way, and is loaded as 0 or as the
// log's; either may go to the disk, since the word does not count as written. The view keeps what
// was loaded, so that the write can show whose words its bytes are.
ghost use Rattle.std.specs.Prelude.{◌≡◌, ℕ, List, ◌∷◌, ◌+◌, ◌*◌, ◌<◌, ◌≤◌, ◌^◌};
ghost use Rattle.std.specs.Int.{w64, to_le_bytes};
ghost use Rattle.word_ring.specs.InHand.{HasHand, Loads, known_copied, lent_in, writer_in};
ghost use Rattle.word_ring.specs.Loaded.{IsFrontLoaded, staged_in};
ghost use Rattle.segment_disk.specs.DiskImage.{word_of};
ghost use Rattle.machine_state.specs.Steps.{IsPageLoaded, IsToBeWritten, ring_number, ring_place};
ghost use Rattle.wal_rule.specs.SeatedPasses.{setup_of, view_of};

use byte_position::{PAGE_WORDS, Page};
use machine_state::LogShape;
use machine_state::layout::BUFFER_ENDS;
use segment_disk::Disk;
use wal_rule::{LogTable, SeatedPass};

const WORD: usize = byte_position::WORD as usize;

// So many words are loaded in a row, without a test between.
const ROW: u64 = 8;

/// Loads the words of a page, which is counted from the log's address 0, begins below what is known
/// to be copied, and is not written whole.
pub fn load_page<'p, D: Disk>(seated: &mut SeatedPass<'p, D>, page: u64, bytes: &mut Page)
    requires hand { HasHand D.tape D.moment D.faults seated.old }
    requires unwritten { (writer_in (view_of seated.old)).written < (page + 1) * 8192 }
    requires copied { page * 8192 < known_copied (view_of seated.old) }
    // Only what is loaded has changed of the pass, and the bytes are those words'.
    ensures loads { (staged : List (ℕ × ℕ))
        × Loads D.tape D.moment D.faults staged seated.old seated.new
        × IsPageLoaded page bytes.new staged }
{
    let first = first_word(seated, page);
    let place = place_of_page(seated.shape(), page);
    let table = seated.table;
    for row in 0..PAGE_WORDS / ROW {
        load_row(seated, table, page, first, place, ROW * row, bytes);
    }
}

// Loads the next words of a page in a row: those behind the first `done`. The page's first word is
// the log's word `first`, and has this place.
#[inline(always)]
fn load_row<'p, D: Disk>(
    seated: &mut SeatedPass<'p, D>,
    table: &LogTable<D>,
    page: u64,
    first: u64,
    place: usize,
    done: u64,
    bytes: &mut Page,
)
    requires hand { HasHand D.tape D.moment D.faults seated.old }
    requires table { table.now ≡ seated.old.table.now }
    requires unwritten { (writer_in (view_of seated.old)).written < (page + 1) * 8192 }
    requires copied { page * 8192 < known_copied (view_of seated.old) }
    requires first { first ≡ page * 1024 }
    requires low { (first < 2 ^ 50) × (place < 2 ^ 17) }
    requires places { (n : ℕ) → n < 1024 → place + n ≡ ring_number (setup_of seated.old)
        (ring_place (setup_of seated.old) (page * 1024 + n)) }
    requires within { done + 8 ≤ 1024 }
    requires front { IsFrontLoaded done page bytes.old (staged_in (view_of seated.old)) }
    // Only what is loaded has changed of the pass, and the bytes in front are those words'.
    ensures loads { Loads D.tape D.moment D.faults (staged_in (view_of seated.new)) seated.old
        seated.new }
    ensures front { IsFrontLoaded (done + 8) page bytes.new (staged_in (view_of seated.new)) }
{
    for n in 0..ROW {
        let next = done + n;
        let word = load_word(seated, table, first + next, place + next as usize);
        put_word(bytes, next as usize, word);
    }
}

// The number of the first word of a page. It is low, since all that is copied is within the log.
fn first_word<'p, D: Disk>(_seated: &SeatedPass<'p, D>, page: u64) -> u64
    requires hand { HasHand D.tape D.moment D.faults _seated.now }
    requires copied { page * 8192 < known_copied (view_of _seated.now) }
    ensures first { result ≡ page * 1024 }
    ensures low { result < 2 ^ 50 }
{
    page * PAGE_WORDS
}

// Loads the log's k-th word, from its place in the ring. It lies on a page that is not written
// whole and begins below what is known to be copied. Of the pass only what is loaded has changed.
#[inline(always)]
fn load_word<'p, D: Disk>(
    seated: &mut SeatedPass<'p, D>,
    table: &LogTable<D>,
    k: u64,
    place: usize,
) -> u64
    requires hand { HasHand D.tape D.moment D.faults seated.old }
    requires table { table.now ≡ seated.old.table.now }
    requires next { IsToBeWritten k (lent_in (view_of seated.old).writing.hold) }
    requires place { place ≡ ring_number (setup_of seated.old)
        (ring_place (setup_of seated.old) k) }
    ensures loads { Loads D.tape D.moment D.faults
        ((k, result) ∷ (lent_in (view_of seated.old).writing.hold).staged) seated.old seated.new }
{
    seated.load_ring_word(table, k, place)
}

// The number, among all words, of the place of a page's first word. Those of its other words
// follow.
fn place_of_page(shape: &LogShape, page: u64) -> usize
    ensures places { (n : ℕ) → n < 1024
        → result + n ≡ ring_number shape.now (ring_place shape.now (page * 1024 + n)) }
    ensures low { result < 2 ^ 17 }
{
    let ring_pages = u64::from(shape.ring_pages());
    BUFFER_ENDS + ring_pages as usize + (page % ring_pages * PAGE_WORDS) as usize
}

// Puts a page's n-th word at its place.
fn put_word(bytes: &mut Page, n: usize, word: u64)
    requires { n < 1024 }
    ensures own { word_of bytes.new n ≡ to_le_bytes w64 word }
    ensures below { (m : ℕ) → m < n → word_of bytes.new m ≡ word_of bytes.old m }
{
    let at = WORD * n;
    bytes[at..at + WORD].copy_from_slice(&word.to_le_bytes());
}
