// The next page is mapped, by one try (PostgreSQL's xlog.c, AdvanceXLInsertBuffer), with the turn
// to map (WALBufMappingLock), which is given back at each exit; or several pages under one turn
// (`map_ahead`). The page begins at the initialised end. The page in its buffer must end at or
// below the written address. Both are loaded. Then the buffer's end word is cleared, its words are
// zeroed, the page's end is stored, and the initialised end behind it: so pages are mapped one at a
// time, in rising order. From the clearing on, until the page's end is stored, nobody else stores
// into the buffer. PostgreSQL also makes the page's header here, and writes the old page. In this
// log a header's words are those of the record that reaches the page first, and to write is the
// caller's matter.
ghost use Rattle.std.specs.Prelude.{◌≡◌, ◌≢◌, ℕ, ◌+◌, ◌*◌, ◌<◌, ◌≤◌, ◌^◌};
ghost use Rattle.machine_state.specs.Paged.{IsOpen};
ghost use Rattle.machine_state.specs.Steps.{buffer_of, ring_number, take_mapping_turn};
ghost use Rattle.machine_state.specs.Views.{Away, Ready, Taken, View, Zeroing};
ghost use Rattle.wal_rule.specs.SeatedPasses.{HasView, StaysSeated, setup_of, view_of};
ghost use Rattle.wal_rule.specs.Stepping.{Meets};
ghost use Rattle.word_ring.specs.Mapped.{LooksAt, MapsAhead, MapsMany, MapsOn, TriesMapping, further_view, looked_view, staged_view};
ghost use Rattle.word_ring.specs.Ring.{confirmed_view};

use byte_position::PAGE_SIZE;
use machine_state::LogShape;
use machine_state::layout::BUFFER_ENDS;
use segment_disk::Disk;
use wal_rule::{LogTable, SeatedPass};

const PAGE_WORDS: usize = byte_position::PAGE_WORDS as usize;

// So many words are zeroed in a row, without a test between.
const ROW: usize = 8;

/// How a try to map the next page ended.
#[derive(Clone, Copy, Debug, PartialEq, Eq)]
pub enum MapTry {
    /// The page at the initialised end is mapped.
    Mapped,
    /// The page asked for was mapped already.
    There,
    /// Somebody had the turn to map: the turn's word.
    Taken { turn: u64 },
    /// The buffer's page is not all written: the written address.
    Unwritten { written: u64 },
}

/// Tries once to map the page at the initialised end, so that one page more is there of those up to
/// the one asked for.
#[inline(never)]
pub fn try_map<'p, D: Disk>(seated: &mut SeatedPass<'p, D>, page: u64) -> MapTry
    // The pass has not the turn to map, and has it no more behind the try. Of its view only the
    // highest end met and the written address loaded have changed, and neither if the turn was
    // somebody else's.
    requires away { (view_of seated.old).mapping.stage ≡ Away }
    requires low { page < 2 ^ 40 }
    ensures tries { TriesMapping (setup_of seated.old) page (view_of seated.old)
        (view_of seated.new) result }
    ensures stays { StaysSeated seated.old seated.new }
{
    let turn = take_turn(seated);
    if turn != 0 {
        return MapTry::Taken { turn };
    }
    let (at, written) = look(seated);
    let ring = u64::from(seated.shape().ring_pages()) * PAGE_SIZE;
    if (page + 1) * PAGE_SIZE <= at {
        give_turn_back(seated);
        MapTry::There
    } else if written + ring < at + PAGE_SIZE {
        give_turn_back(seated);
        MapTry::Unwritten { written }
    } else {
        replace(seated, at);
        give_turn_back(seated);
        MapTry::Mapped
    }
}

/// Maps the pages at the initialised end under one turn, at most so many, as far as the pages in
/// their buffers are written; none if somebody else has the turn. So copies that reach them later
/// need no turn, and do not stand in each other's way.
#[inline(never)]
pub fn map_ahead<'p, D: Disk>(seated: &mut SeatedPass<'p, D>, most: u32)
    // The pass has not the turn to map, and has it no more behind the call. Of its view only the
    // highest end met, which is no less, and the written address loaded have changed.
    requires away { (view_of seated.old).mapping.stage ≡ Away }
    ensures maps { MapsOn (view_of seated.old) (view_of seated.new) }
    // It maps as many as it may, unless it meets the turn taken, or a page not all written.
    ensures ahead { MapsAhead (setup_of seated.old) most (view_of seated.old)
        (view_of seated.new) }
    ensures stays { StaysSeated seated.old seated.new }
{
    let turn = take_turn(seated);
    if turn != 0 {
        return;
    }
    map_on(seated, most);
}

// Maps so many pages at most, one behind another, with the turn had, and gives it back.
fn map_on<'p, D: Disk>(seated: &mut SeatedPass<'p, D>, most: u32)
    requires taken { (view_of seated.old).mapping.stage ≡ Taken }
    ensures view { (confirmed written : ℕ)
        × ((view_of seated.old).mapping.confirmed ≤ confirmed)
        × HasView (staged_view Away (further_view confirmed written (view_of seated.old)))
        seated.old seated.new }
    ensures many { (last : View) × MapsMany (setup_of seated.old) most (view_of seated.old) last
        × (view_of seated.new ≡ staged_view Away last) }
{
    for _mapped in 0..most {
        let (at, written) = look(seated);
        let ring = u64::from(seated.shape().ring_pages()) * PAGE_SIZE;
        if written + ring < at + PAGE_SIZE {
            give_turn_back(seated);
            return;
        }
        replace(seated, at);
    }
    give_turn_back(seated);
}

// Takes the turn to map where it is free, which is where the word met is 0. Else the pass has what
// it had, and no turn.
fn take_turn<'p, D: Disk>(seated: &mut SeatedPass<'p, D>) -> u64
    requires away { (view_of seated.old).mapping.stage ≡ Away }
    ensures taken { result ≡ 0
        → HasView (staged_view Taken (view_of seated.old)) seated.old seated.new }
    ensures vain { result ≢ 0 → HasView (view_of seated.old) seated.old seated.new }
    ensures met { Meets (view_of seated.old) take_mapping_turn result }
{
    seated.take_mapping_turn()
}

// The initialised end, and the written address, loaded with the turn had. Until it is given back
// nobody else maps a page, and what is written never falls; so a page that may be replaced by these
// two may be so later.
fn look<'p, D: Disk>(seated: &mut SeatedPass<'p, D>) -> (u64, u64)
    requires taken { (view_of seated.old).mapping.stage ≡ Taken }
    ensures view { HasView (staged_view (Ready result.0 result.1)
        (looked_view result.0 result.1 (view_of seated.old))) seated.old seated.new }
    ensures looks { LooksAt (view_of seated.old) result.0 result.1 }
    ensures low { (result.0 < 2 ^ 60) × (result.1 < 2 ^ 60) }
{
    let at = seated.load_initialised_end();
    (at, seated.load_written())
}

// Gives the turn back, with no page under way.
fn give_turn_back<'p, D: Disk>(seated: &mut SeatedPass<'p, D>)
    requires open { IsOpen (view_of seated.old).mapping.stage }
    ensures view { HasView (staged_view Away (view_of seated.old)) seated.old seated.new }
{
    seated.release_mapping_turn();
}

// Maps the page at an address in place of the one in its buffer, which is written. The pass has the
// turn, and behind it has met the new page's end.
fn replace<'p, D: Disk>(seated: &mut SeatedPass<'p, D>, at: u64)
    requires ready { (written : ℕ) × ((view_of seated.old).mapping.stage ≡ Ready at written)
        × (at + 8192 ≤ written + (setup_of seated.old).ring_pages * 8192) }
    requires low { at < 2 ^ 60 }
    ensures view { HasView (confirmed_view (at + 8192) (staged_view Taken (view_of seated.old)))
        seated.old seated.new }
{
    let end = BUFFER_ENDS + buffer_at(seated.shape(), at);
    seated.clear_end(end);
    zero_page(seated, at);
    seated.publish_end(end, at + PAGE_SIZE);
    seated.publish_initialised_end(at + PAGE_SIZE);
}

// Zeroes the words of the buffer of the page at an address, whose end word is cleared: a word that
// no record owns yet is 0 in every write of the page.
fn zero_page<'p, D: Disk>(seated: &mut SeatedPass<'p, D>, at: u64)
    requires cleared { (view_of seated.old).mapping.stage ≡ Zeroing at 0 }
    ensures view { HasView (staged_view (Zeroing at 1024) (view_of seated.old))
        seated.old seated.new }
{
    let shape = seated.shape();
    let first = BUFFER_ENDS + shape.ring_pages() as usize + buffer_at(shape, at) * PAGE_WORDS;
    let table = seated.table;
    for row in 0..PAGE_WORDS / ROW {
        zero_row(seated, table, first, at, ROW * row);
    }
}

// Zeroes the next words of a page's buffer in a row: those behind the first `done`. The first one
// of the page is the word `first` among all.
#[inline(always)]
fn zero_row<'p, D: Disk>(
    seated: &mut SeatedPass<'p, D>,
    table: &LogTable<D>,
    first: usize,
    at: u64,
    done: usize,
)
    requires table { table.now ≡ seated.old.table.now }
    requires first { first ≡ ring_number (setup_of seated.old)
        (buffer_of (setup_of seated.old) at * 1024) }
    requires within { done + 8 ≤ 1024 }
    requires low { first < 2 ^ 20 }
    requires cleared { (view_of seated.old).mapping.stage ≡ Zeroing at done }
    ensures view { HasView (staged_view (Zeroing at (done + 8)) (view_of seated.old))
        seated.old seated.new }
{
    for n in 0..ROW {
        seated.zero_ring_word(table, first + done + n);
    }
}

// The buffer of the page at an address.
fn buffer_at(shape: &LogShape, at: u64) -> usize
    ensures value { result ≡ buffer_of shape.now at }
    ensures low { result < 64 }
{
    (at / PAGE_SIZE % u64::from(shape.ring_pages())) as usize
}
