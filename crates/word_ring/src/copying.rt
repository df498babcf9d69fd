// A record's words are copied to the page on which its next one lies (PostgreSQL's xlog.c,
// CopyXLogRecordToWAL). The pass has the record in flight under an insertion lock, and has met the
// end of that page; it needs no turn, since each word of the log is one record's. The words are
// stored one by one, in rising order, headers of pages that the record is the first to reach among
// them. So what is copied is a front of the record, and the address of the next word is the
// progress that may be told under the lock. A word that was stored is the log's: this copy does not
// come back to it, and no other record owns it.
ghost use Rattle.std.specs.Prelude.{◌≡◌, ◌+◌, ◌-◌, ◌*◌, ◌<◌, ◌≤◌, ◌^◌, length, min};
ghost use Rattle.wal_spelling.specs.Spelling.{word_at};
ghost use Rattle.wal_page.specs.Placed.{LieTogether, placed_end};
ghost use Rattle.wal_rule.specs.SeatedPasses.{HasView, StaysSeated, setup_of, view_of};
ghost use Rattle.word_ring.specs.Copied.{CopiesPage, IsPlaceOf, IsRestOf, copied_view, left_on_page, page_end_at};
ghost use Rattle.word_ring.specs.CopyRuns.{CopiesPresent, HasCopied, MayCopy, MayStoreRun, MayStoreWords, chunk_word};

use byte_position::{PAGE_SIZE, PAGE_WORDS, WORD};
use machine_state::LogShape;
use machine_state::layout::BUFFER_ENDS;
use segment_disk::Disk;
use wal_page::Placed;
use wal_rule::{LogTable, SeatedPass};
use wal_spelling::last_word;

// How many words of those that lie not together are made at once, before they are stored.
const RUN: usize = 64;

// So many words has a page's header, where no segment begins.
const HEADER_WORDS: usize = 3;

// So many words are stored in a row, without a test between.
const FEW: usize = 4;

/// Copies the words of a record that are left, at most so many, up to the end of the page of the
/// next one, which lies at the address `next`. The pass has met that page. The record's last word
/// ends at `end`. Answers how many it copied.
pub fn copy_page<'p, 'a, D: Disk>(
    seated: &mut SeatedPass<'p, D>,
    placed: &mut Placed<'a>,
    next: u64,
    end: u64,
    most: u32,
) -> u32
    // `placed` gives the words that are left of the pass's copy. The next one lies on a page whose
    // end, or a higher one, the pass has met.
    requires rest { IsRestOf (setup_of seated.old) (view_of seated.old) placed.old }
    requires next { next ≡ placed.old.next }
    requires end { end ≡ placed_end placed.old }
    requires met { page_end_at next ≤ (view_of seated.old).mapping.confirmed }
    // As many words were copied as are left on the page, or as were asked for where these are
    // fewer; nothing else of the view has changed, and `placed` goes on from there.
    ensures copies { CopiesPage most result (view_of seated.old) (view_of seated.new) placed.old
        placed.new }
    ensures rest { IsRestOf (setup_of seated.old) (view_of seated.new) placed.new }
    // One at least, where one is left and asked for.
    ensures some { 0 < most → next < end → 0 < result }
    ensures within { placed.new.next ≤ end }
    ensures stays { StaysSeated seated.old seated.new }
{
    let place = place_of(seated.shape(), next);
    copy_from(seated, placed, place, next, end, most)
}

/// Copies so where the page of the next word is in its buffer, and else no word: it looks up the
/// buffer for both. So who finds its pages there needs no other step. The page need not be met.
#[inline(always)]
pub fn copy_present<'p, 'a, D: Disk>(
    seated: &mut SeatedPass<'p, D>,
    placed: &mut Placed<'a>,
    next: u64,
    end: u64,
    most: u32,
) -> u32
    requires rest { IsRestOf (setup_of seated.old) (view_of seated.old) placed.old }
    requires next { next ≡ placed.old.next }
    requires low { next < 2 ^ 50 }
    requires end { end ≡ placed_end placed.old }
    // The end word of its buffer was met. If it is the page's own, as many words were copied as
    // `copy_page` copies, and else none; nothing else of the view has changed, and `placed` goes on
    // from there.
    ensures copies { CopiesPresent most result seated.old seated.new placed.old placed.new }
    ensures within { placed.new.next ≤ end }
{
    let ring_pages = u64::from(seated.shape().ring_pages());
    let page = next / PAGE_SIZE;
    let buffer = page % ring_pages;
    let met = seated.load_buffer_end(buffer as u32);
    if met != (page + 1) * PAGE_SIZE {
        return 0;
    }
    let word = buffer * PAGE_WORDS + next / WORD % PAGE_WORDS;
    let place = BUFFER_ENDS + ring_pages as usize + word as usize;
    copy_from(seated, placed, place, next, end, most)
}

// Copies so from this place on, which is that of the next word. The pass has met the page.
#[inline(always)]
fn copy_from<'p, 'a, D: Disk>(
    seated: &mut SeatedPass<'p, D>,
    placed: &mut Placed<'a>,
    place: usize,
    next: u64,
    end: u64,
    most: u32,
) -> u32
    requires rest { IsRestOf (setup_of seated.old) (view_of seated.old) placed.old }
    requires next { next ≡ placed.old.next }
    requires end { end ≡ placed_end placed.old }
    requires met { page_end_at next ≤ (view_of seated.old).mapping.confirmed }
    requires place { IsPlaceOf (setup_of seated.old) next place }
    requires low { place < 2 ^ 17 }
    ensures copied { HasCopied result seated.old seated.new placed.old placed.new }
    ensures count { result ≡ min (left_on_page placed.old) most }
    ensures some { 0 < most → next < end → 0 < result }
    ensures within { placed.new.next ≤ end }
{
    let on_page = (PAGE_SIZE - next % PAGE_SIZE) / WORD;
    let left = (end - next) / WORD;
    let here = left.min(on_page);
    let count = here.min(u64::from(most)) as u32;
    copy_words(seated, placed, place, count as usize);
    count
}

// Copies so many words, which lie on one page, the first of them to this place. Most records' lie
// together there, and are made of the record's bytes as they are stored.
#[inline(always)]
fn copy_words<'p, 'a, D: Disk>(
    seated: &mut SeatedPass<'p, D>,
    placed: &mut Placed<'a>,
    place: usize,
    count: usize,
)
    requires may { MayCopy count place seated.old placed.old }
    requires low { place + count < 2 ^ 20 }
    ensures copied { HasCopied count seated.old seated.new placed.old placed.new }
{
    if placed.lie_together(count) {
        copy_together(seated, placed, place, count);
    } else {
        copy_mixed(seated, placed, place, count);
    }
}

// Copies so many words, which lie together.
#[inline(always)]
fn copy_together<'p, 'a, D: Disk>(
    seated: &mut SeatedPass<'p, D>,
    placed: &mut Placed<'a>,
    place: usize,
    count: usize,
)
    requires may { MayCopy count place seated.old placed.old }
    requires together { LieTogether placed.old count }
    requires low { place + count < 2 ^ 20 }
    ensures copied { HasCopied count seated.old seated.new placed.old placed.new }
{
    let done = copy_header(seated, placed, place, count);
    if done < count {
        copy_bytes(seated, placed, place + done, count - done);
    }
}

// Copies the three words of the record's header, if they are the next ones, and answers how many
// words it copied.
#[inline(always)]
fn copy_header<'p, 'a, D: Disk>(
    seated: &mut SeatedPass<'p, D>,
    placed: &mut Placed<'a>,
    place: usize,
    count: usize,
) -> usize
    requires may { MayCopy count place seated.old placed.old }
    requires together { LieTogether placed.old count }
    requires low { place + count < 2 ^ 20 }
    ensures copied { HasCopied result seated.old seated.new placed.old placed.new }
    ensures within { result ≤ count }
    ensures together { result < count → LieTogether placed.new (count - result) }
{
    match placed.take_header(count) {
        Some(header) => {
            let table = seated.table;
            store_some(seated, table, place, &header, 0, 3);
            3
        }
        None => 0,
    }
}

// Copies so many words, which lie together: those behind the header are made of the record's bytes.
#[inline(always)]
fn copy_bytes<'p, 'a, D: Disk>(
    seated: &mut SeatedPass<'p, D>,
    placed: &mut Placed<'a>,
    place: usize,
    count: usize,
)
    requires some { 0 < count }
    requires may { MayCopy count place seated.old placed.old }
    requires together { LieTogether placed.old count }
    requires low { place + count < 2 ^ 20 }
    ensures copied { HasCopied count seated.old seated.new placed.old placed.new }
{
    match placed.take_bytes(count) {
        Some(bytes) => store_bytes(seated, place, bytes, count),
        None => copy_long(seated, placed, place, count),
    }
}

// Copies so many words, among which are a page's header or zeros behind the record, or which begin
// within the record's header.
#[inline(never)]
fn copy_mixed<'p, 'a, D: Disk>(
    seated: &mut SeatedPass<'p, D>,
    placed: &mut Placed<'a>,
    place: usize,
    count: usize,
)
    requires may { MayCopy count place seated.old placed.old }
    requires low { place + count < 2 ^ 20 }
    ensures copied { HasCopied count seated.old seated.new placed.old placed.new }
{
    let mut done = 0;
    while done < count {
        done += copy_next(seated, placed, place + done, count - done);
    }
}

// Copies at least one of so many words: all, or as many as a page's header has.
#[inline(always)]
fn copy_next<'p, 'a, D: Disk>(
    seated: &mut SeatedPass<'p, D>,
    placed: &mut Placed<'a>,
    place: usize,
    count: usize,
) -> usize
    requires some { 0 < count }
    requires may { MayCopy count place seated.old placed.old }
    requires low { place + count < 2 ^ 20 }
    ensures copied { HasCopied result seated.old seated.new placed.old placed.new }
    ensures within { (0 < result) × (result ≤ count) }
{
    if placed.lie_together(count) {
        copy_together(seated, placed, place, count);
        return count;
    }
    if placed.is_behind_own() {
        copy_long(seated, placed, place, count);
        return count;
    }
    let mut words = [0; HEADER_WORDS];
    let run = HEADER_WORDS.min(count);
    copy_run(seated, placed, place, &mut words[..run]);
    run
}

// Copies so many words, run by run.
#[inline(never)]
fn copy_long<'p, 'a, D: Disk>(
    seated: &mut SeatedPass<'p, D>,
    placed: &mut Placed<'a>,
    place: usize,
    count: usize,
)
    requires may { MayCopy count place seated.old placed.old }
    requires low { place + count < 2 ^ 20 }
    ensures copied { HasCopied count seated.old seated.new placed.old placed.new }
{
    let mut words = [0; RUN];
    let mut done = 0;
    while done < count {
        let run = RUN.min(count - done);
        copy_run(seated, placed, place + done, &mut words[..run]);
        done += run;
    }
}

// Copies the next words, as many as there is room for in `words`: they are made there, and then
// stored from this place on.
#[inline(always)]
fn copy_run<'p, 'a, D: Disk>(
    seated: &mut SeatedPass<'p, D>,
    placed: &mut Placed<'a>,
    place: usize,
    words: &mut [u64],
)
    requires may { MayCopy (length words.old) place seated.old placed.old }
    requires low { place + length words.old < 2 ^ 20 }
    ensures copied { HasCopied (length words.old) seated.old seated.new placed.old placed.new }
{
    placed.put_words(words);
    store_run(seated, place, words);
}

// Stores a run's words from this place on, some in a row.
#[inline(always)]
fn store_run<'p, D: Disk>(seated: &mut SeatedPass<'p, D>, place: usize, words: &[u64])
    requires run { MayStoreRun place words.now 0 (length words.now) seated.old }
    requires low { place + length words.now < 2 ^ 20 }
    ensures { HasView (copied_view (length words.now) (view_of seated.old)) seated.old seated.new }
{
    let table = seated.table;
    let count = words.len();
    let mut done = 0;
    while FEW <= count - done {
        store_some(seated, table, place + done, words, done, FEW);
        done += FEW;
    }
    store_some(seated, table, place + done, words, done, count - done);
}

// Stores so many of a run's words, those behind the first `done`, from this place on.
#[inline(always)]
fn store_some<'p, D: Disk>(
    seated: &mut SeatedPass<'p, D>,
    table: &LogTable<D>,
    place: usize,
    words: &[u64],
    done: usize,
    count: usize,
)
    requires within { done + count ≤ length words.now }
    requires run { MayStoreRun place words.now done count seated.old }
    requires low { place + count < 2 ^ 20 }
    requires table { table.now ≡ seated.old.table.now }
    ensures { HasView (copied_view count (view_of seated.old)) seated.old seated.new }
{
    for n in 0..count {
        seated.store_ring_word(table, place + n, words[done + n]);
    }
}

// Stores so many words, which are made of these bytes, from this place on.
#[inline(always)]
fn store_bytes<'p, D: Disk>(
    seated: &mut SeatedPass<'p, D>,
    place: usize,
    bytes: &[u8],
    count: usize,
)
    requires run { MayStoreWords place (word_at bytes.now) count seated.old }
    requires within { 8 * count ≤ length bytes.now + 7 }
    requires low { place + count < 2 ^ 20 }
    ensures { HasView (copied_view count (view_of seated.old)) seated.old seated.new }
{
    let table = seated.table;
    let (chunks, tail) = bytes.as_chunks::<8>();
    let whole = chunks.len().min(count);
    store_chunks(seated, table, place, &chunks[..whole]);
    if whole < count {
        seated.store_ring_word(table, place + whole, last_word(bytes, tail));
    }
}

// Stores the words of chunks of eight bytes from this place on, some in a row.
#[inline(always)]
fn store_chunks<'p, D: Disk>(
    seated: &mut SeatedPass<'p, D>,
    table: &LogTable<D>,
    place: usize,
    chunks: &[[u8; 8]],
)
    requires run { MayStoreWords place (chunk_word chunks.now) (length chunks.now) seated.old }
    requires low { place + length chunks.now < 2 ^ 20 }
    requires table { table.now ≡ seated.old.table.now }
    ensures { HasView (copied_view (length chunks.now) (view_of seated.old)) seated.old seated.new }
{
    let count = chunks.len();
    let mut done = 0;
    while FEW <= count - done {
        store_few(seated, table, place + done, chunks, done, FEW);
        done += FEW;
    }
    store_few(seated, table, place + done, chunks, done, count - done);
}

// Stores the words of so many chunks, those behind the first `done`, from this place on.
#[inline(always)]
fn store_few<'p, D: Disk>(
    seated: &mut SeatedPass<'p, D>,
    table: &LogTable<D>,
    place: usize,
    chunks: &[[u8; 8]],
    done: usize,
    count: usize,
)
    requires within { done + count ≤ length chunks.now }
    requires run { MayStoreWords place (λ n. chunk_word chunks.now (done + n)) count seated.old }
    requires low { place + count < 2 ^ 20 }
    requires table { table.now ≡ seated.old.table.now }
    ensures { HasView (copied_view count (view_of seated.old)) seated.old seated.new }
{
    for n in 0..count {
        let word = u64::from_le_bytes(chunks[done + n]);
        seated.store_ring_word(table, place + n, word);
    }
}

// The number, among all words, of the place of the word at an address.
fn place_of(shape: &LogShape, at: u64) -> usize
    ensures place { IsPlaceOf shape.now at result }
    ensures low { result < 2 ^ 17 }
{
    let ring_pages = u64::from(shape.ring_pages());
    let number = at / WORD;
    let place = number / PAGE_WORDS % ring_pages * PAGE_WORDS + number % PAGE_WORDS;
    BUFFER_ENDS + ring_pages as usize + place as usize
}
