//! What a reader works with: taken once, at its first step, and used again at each further one. The
//! page that is held is the disk's as of its read; so it is forgotten where it may be written
//! again.

ghost use Rattle.std.specs.Prelude.{◌≡◌, [], None, Some, IfOk, IfSome, IsTrue, OnOk, is_some};
ghost use Rattle.byte_position.specs.Geometry.{IsSegmentSize};
ghost use Rattle.wal_reader.specs.Buffers.{AreFor, HoldsPageOf, page_in, room_in};
ghost use Rattle.wal_reader.specs.Pages.{Pages};

use crate::page_cache::PageCache;
use byte_position::Geometry;
use std::alloc::{AllocError, Global};
use wal_record::BlockHead;

/// The page that is held, and the room in which a record's bytes are put together and the heads of
/// its blocks are read.
#[derive(Drop)]
pub(crate) struct Buffers {
    pub(crate) cache: PageCache,
    pub(crate) room: Vec<u8>,
    pub(crate) heads: Vec<BlockHead>,
}

/// Makes the buffers where there are none yet.
#[inline(always)]
pub(crate) fn set_up(
    buffers: &mut Option<Buffers>,
    alloc: Global,
    geometry: Geometry,
) -> Result<(), AllocError>
    requires valid { IsSegmentSize geometry }
    // At Ok there are buffers; what the reader held before it holds still.
    ensures ready { OnOk result (IsTrue (is_some buffers.new)) }
    ensures fit { AreFor geometry buffers.old → AreFor geometry buffers.new }
    ensures same { IfSome buffers.old (λ held. buffers.new ≡ Some held) }
    ensures room { room_in buffers.new ≡ room_in buffers.old }
    ensures held { page_in buffers.new ≡ page_in buffers.old }
    ensures holds { (pages : Pages) → HoldsPageOf geometry buffers.old pages
        → HoldsPageOf geometry buffers.new pages }
{
    if buffers.is_none() {
        *buffers = Some(Buffers::new(alloc, geometry)?);
    }
    Ok(())
}

impl Buffers {
    /// Holds no page from now on: the next one that is asked for is read anew.
    pub(crate) fn forget_page(&mut self)
        ensures { self.new ≡ record self.old { cache = record self.old.cache { number = None } } }
    {
        self.cache.number = None;
    }

    // No page is held yet.
    #[inline(never)]
    fn new(alloc: Global, geometry: Geometry) -> Result<Buffers, AllocError>
        requires { IsSegmentSize geometry }
        ensures { IfOk result (λ buffers. (buffers.cache.geometry ≡ geometry) ×
            (buffers.cache.number ≡ None) × (buffers.room.items ≡ [])) }
    {
        Ok(Buffers {
            cache: PageCache::new(alloc, geometry)?,
            room: Vec::new(alloc),
            heads: Vec::new(alloc),
        })
    }
}
