//! The page of the log that a reader holds (PostgreSQL's ReadPageInternal of xlogreader.c, which
//! keeps one page as well). A caller asks for the page that it needs before it looks at `bytes`;
//! what these say is the log's only where the answer was true. It is as of the read: `forget_page`
//! has the next `load` read it anew.

ghost use Rattle.std.specs.Prelude.{◌≡◌, ◌+◌, ◌*◌, ◌/◌, ◌%◌, ◌<◌, ◌≤◌, ◌^◌, Some, None, Ok, false, IfOk, OnErr, IfSome, IsTrue};
ghost use Rattle.byte_position.specs.Geometry.{IsSegmentSize};
ghost use Rattle.segment_disk.specs.Cause.{HasCause};
ghost use Rattle.wal_reader.specs.SegmentSizes.{IsSegmentSize-prop};

use byte_position::{Geometry, Page};
use segment_disk::{Disk, Failed};
use std::alloc::{AllocError, Global};

// Pages that end above address 2^60 count as not there.
const PAGES_READ: u64 = 1 << 47;

/// The page that was read last, so that a page is read once however many records it holds.
#[derive(Drop)]
pub(crate) struct PageCache {
    pub(crate) geometry: Geometry,
    /// Which page is held, counted from address 0.
    pub(crate) number: Option<u64>,
    pub(crate) bytes: Box<Page>,
    ghost valid: { IsSegmentSize geometry } by { IsSegmentSize-prop geometry },
}

impl PageCache {
    ghost use Rattle.wal_reader.specs.Cache.{IsLoaded};
    ghost use Rattle.wal_reader.specs.PageCursor.{Sees};
    ghost use Rattle.wal_reader.specs.Pages.{Pages};
    ghost use Rattle.wal_reader.specs.ReadsOn.{ReadsOn};

    /// Nothing is held yet.
    pub(crate) fn new(alloc: Global, geometry: Geometry) -> Result<PageCache, AllocError>
        requires { IsSegmentSize geometry }
        ensures { IfOk result (λ cache. (cache.geometry ≡ geometry) × (cache.number ≡ None)) }
    {
        Ok(PageCache {
            geometry,
            number: None,
            bytes: Box::new(alloc, [0; 8192])?,
        })
    }

    /// Holds a page from now on, where the log has it. A page that is held already is not read
    /// again, and one that ends above address 2^60 counts as not there. Once a read has failed
    /// nothing is held.
    pub(crate) fn load<D: Disk>(&mut self, disk: &mut D, page: u64) -> Result<bool, Failed>
        // At true the page asked for is held, as the disk has it.
        ensures held { IfOk result (λ there. IsTrue there → self.new.number ≡ Some page) }
        ensures reach { IfOk result (λ there. IsTrue there → page < 2 ^ 47) }
        // Nothing is read from address 2^60 on, nor of a page that is held. Behind a failed read
        // none is.
        ensures beyond { 2 ^ 47 ≤ page → (result ≡ Ok false) × (disk.new ≡ disk.old)
            × (self.new ≡ self.old) }
        ensures unread { self.old.number ≡ Some page → (disk.new ≡ disk.old)
            × (self.new ≡ self.old) }
        ensures nothing_held { OnErr result (self.new.number ≡ None) }
        // It is true just where the disk's log has the page.
        ensures loaded { (pages : Pages) → Sees (D.tape disk.old) self.old pages
            → IfOk result (λ there. IsLoaded (pages page) page there self.new) }

        ensures reads_on { ReadsOn D.tape D.moment disk.old disk.new self.old self.new }
        ensures cause { HasCause (D.faults disk.old) (D.faults disk.new) result }
    {
        if page >= PAGES_READ {
            return Ok(false);
        }
        if self.number == Some(page) {
            return Ok(true);
        }
        self.read(disk, page)
    }

    // Holds a page that was not held. A call of its own, so that a page that is held pays nothing
    // for it.
    #[inline(never)]
    fn read<D: Disk>(&mut self, disk: &mut D, page: u64) -> Result<bool, Failed>
        requires { page < 2 ^ 47 }
        // The answer is true just where the disk's log has the page, which is held then. Behind a
        // failed read no page is held.
        ensures held { IfOk result (λ there. IsTrue there → self.new.number ≡ Some page) }
        ensures nothing_held { OnErr result (self.new.number ≡ None) }
        ensures loaded { (pages : Pages) → Sees (D.tape disk.old) self.old pages
            → IfOk result (λ there. IsLoaded (pages page) page there self.new) }

        ensures reads_on { ReadsOn D.tape D.moment disk.old disk.new self.old self.new }
        ensures cause { HasCause (D.faults disk.old) (D.faults disk.new) result }
    {
        self.number = None;
        let pages = u64::from(self.geometry.pages());
        let there = disk.read_page(
            self.geometry,
            page / pages,
            (page % pages) as u32,
            &mut self.bytes,
        )?;
        if there {
            self.number = Some(page);
        }
        Ok(there)
    }
}
