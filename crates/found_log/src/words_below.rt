//! The words that lie below the end of a log that was found, which clauses alone read.

ghost use Rattle.std.specs.Prelude.{◌≡◌, ℕ, List, []};
ghost use Rattle.std.specs.Borrow.{ftrue};
ghost use Rattle.found_log.specs.Words.{words_upto};

use byte_position::{Geometry, Page};
use segment_disk::Disk;
use std::marker::{Brand, Model, PhantomData};
use wal_types::Lsn;

/// Words, which a call picks for the proof alone.
pub trait PicksWords {
    ghost words: { List ℕ };
}

impl PicksWords for Brand {
    ghost words = { [] };
}

/// The words from segment 1 up to where a log was found to end. It takes no memory: what is read of
/// a log is let go page by page, and only the proof keeps all of it.
#[derive(Drop)]
pub struct WordsBelow {
    marker: PhantomData<u8>,
    pub ghost words: { List ℕ },
}

impl Model for WordsBelow {
    ghost also_owns = { λ _. ftrue };
}

impl WordsBelow {
    // Those of a disk below an end, of which this page holds the last ones.
    pub(crate) fn upto<D: Disk>(disk: &D, geometry: Geometry, end: Lsn, page: &Page) -> WordsBelow
        ensures { result.words ≡ words_upto geometry (D.tape disk.now) end.0 page.now }
    {
        WordsBelow::picked::<D, Brand>(disk, geometry, end, page)
    }

    fn picked<D: Disk, B: PicksWords>(
        _disk: &D,
        _geometry: Geometry,
        _end: Lsn,
        _page: &Page,
    ) -> WordsBelow
        ensures { result.words ≡ B.words }
    {
        WordsBelow::of::<B>()
    }

    fn of<B: PicksWords>() -> WordsBelow
        ensures { result.words ≡ B.words }
    {
        WordsBelow {
            marker: PhantomData,
        }
    }
}
