//! Where the bytes of a record stand in the page that is held. A cursor is good for the page that
//! was held when it was made; the page behind it has one of its own (`turn_page`).

ghost use Rattle.std.specs.Prelude.{◌≡◌, ◌+◌, ◌*◌, ◌^◌, ◌<◌, ◌≤◌};

use byte_position::PAGE_SIZE;
use wal_types::Lsn;

/// Where the next byte of a record stands in the page that is held.
#[derive(Clone, Copy, Debug)]
pub(crate) struct PageCursor {
    /// The page, counted from address 0.
    pub(crate) page: u64,
    /// In bytes; at the page's end the next byte is the first one behind the next page's header.
    pub(crate) offset: u32,
    /// The page's timeline.
    pub(crate) timeline: u32,
}

impl PageCursor {
    /// The address of the byte that it stands at, where that is not the page's end.
    pub(crate) fn address(self) -> Lsn
        requires page { self.page < 2 ^ 47 }
        requires offset { self.offset ≤ 8192 }
        ensures { result.0 ≡ 8192 * self.page + self.offset }
    {
        Lsn(self.page * PAGE_SIZE + u64::from(self.offset))
    }
}
