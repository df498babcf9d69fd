// Whether a page is in its buffer (PostgreSQL's xlog.c, GetXLogBuffer, which compares xlblocks with
// the page's end). The end word of the page's buffer is loaded; nothing is stored, and the pass
// need hold no lock or turn. If it meets the page's own end, its view keeps that, and the pass may
// store there the words that its record owns on the page, without a further look: while one of them
// is to be copied, the log is not written up to the page's end, so the page is not replaced.
ghost use Rattle.std.specs.Prelude.{ℕ, ◌%◌, ◌<◌, ◌^◌};
ghost use Rattle.machine_state.specs.Steps.{load_buffer_end};
ghost use Rattle.wal_rule.specs.SeatedPasses.{HasView, setup_of, view_of};
ghost use Rattle.wal_rule.specs.Stepping.{Meets};
ghost use Rattle.word_ring.specs.Ring.{Confirms, confirmed_view};

use byte_position::PAGE_SIZE;
use segment_disk::Disk;
use wal_rule::SeatedPass;

/// Whether a page is in its buffer.
#[derive(Clone, Copy, Debug, PartialEq, Eq)]
pub enum Presence {
    Present,
    /// The buffer holds the page that ends at this address, or none where it is 0.
    Other { end: u64 },
}

/// Loads the end word of a page's buffer. A page is counted from the log's address 0.
pub fn confirm<'p, D: Disk>(seated: &mut SeatedPass<'p, D>, page: u64) -> Presence
    requires low { page < 2 ^ 40 }
    // The pass has met the end that was loaded, which is told unless it is the page's own.
    ensures met { (end : ℕ) × Confirms page end result
        × HasView (confirmed_view end (view_of seated.old)) seated.old seated.new
        × Meets (view_of seated.old) (load_buffer_end (page % (setup_of seated.old).ring_pages))
        end }
{
    let buffer = (page % u64::from(seated.shape().ring_pages())) as u32;
    let end = seated.load_buffer_end(buffer);
    if end == (page + 1) * PAGE_SIZE {
        Presence::Present
    } else {
        Presence::Other { end }
    }
}
