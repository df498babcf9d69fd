//! Neighbouring pages of a segment, which go to its file and come from it in one call.
ghost use Rattle.std.specs.Prelude.{◌≡◌, ◌≢◌, ◌+◌, ◌*◌, ◌<◌, ◌++◌, ◌↔◌, [], length, IfOk, IsFalse, IsTrue, OnErr, OnOk};
ghost use Rattle.segment_files.specs.Pages.{GivesPage, HoldsFrom};

use byte_position::Page;
use std::alloc::{AllocError, Global};
use std::io;
use std::os::unix::fs::FileExt;

const PAGE_SIZE: usize = byte_position::PAGE_SIZE as usize;

// How many pages are kept at most.
const MOST_PAGES: usize = 32;

// Where a page begins in its file.
fn offset_of(page: u32) -> u64
    ensures { result ≡ page * 8192 }
{
    u64::from(page) * PAGE_SIZE as u64
}

/// Reads a page alone.
pub fn read_page(file: &impl FileExt, page: u32, bytes: &mut Page) -> io::Result<()> {
    file.read_exact_at(bytes, offset_of(page))
}

/// Pages that were put and are not in the file yet.
#[derive(Drop)]
pub struct PagesHeld {
    first: u32,
    bytes: Vec<u8>,
}

impl PagesHeld {
    /// Takes its room.
    pub fn new(alloc: Global) -> Result<PagesHeld, AllocError>
        ensures { IfOk result (λ held. held.bytes.items ≡ []) }
    {
        Ok(PagesHeld {
            first: 0,
            bytes: Vec::with_capacity(alloc, MOST_PAGES * PAGE_SIZE)?,
        })
    }

    pub fn is_empty(&self) -> bool
        ensures { IsTrue result ↔ (self.now.bytes.items ≡ []) }
    {
        self.bytes.is_empty()
    }

    /// Whether the page stands right behind those that are held, and has room there.
    pub fn is_followed_by(&self, page: u32) -> bool
        ensures { IsTrue result
            ↔ ((length self.now.bytes.items < 262144)
            × (self.now.first * 8192 + length self.now.bytes.items ≡ page * 8192)) }
    {
        let len = self.bytes.len();
        len < MOST_PAGES * PAGE_SIZE && offset_of(self.first) + len as u64 == offset_of(page)
    }

    /// Holds a page behind the others, or the first one.
    pub fn push(&mut self, page: u32, bytes: &Page) -> Result<(), AllocError>
        ensures bytes { OnOk result (self.new.bytes.items ≡ self.old.bytes.items ++ bytes.now) }
        ensures first { OnOk result
            (HoldsFrom self.old.first self.old.bytes.items page self.new.first) }
    {
        if self.bytes.is_empty() {
            self.first = page;
        }
        self.bytes.extend_from_slice(bytes)
    }

    pub fn write_to(&self, file: &impl FileExt) -> io::Result<()> {
        file.write_all_at(&self.bytes, offset_of(self.first))
    }

    pub fn clear(&mut self)
        ensures { self.new.bytes.items ≡ [] }
    {
        self.bytes.clear();
    }
}

/// Pages that were read before they were asked for. Each is given once, in rising order: what is
/// asked for again is read anew, since another process may have written it meanwhile.
#[derive(Drop)]
pub struct PagesAhead {
    first: u32,
    count: usize,
    // The pages below this one were given.
    next: u32,
    bytes: Vec<u8>,
}

impl PagesAhead {
    /// Takes its room.
    pub fn new(alloc: Global) -> Result<PagesAhead, AllocError>
        ensures { IfOk result (λ ahead. ahead.count ≡ 0) }
    {
        Ok(PagesAhead {
            first: 0,
            count: 0,
            next: 0,
            bytes: vec![in alloc; 0; MOST_PAGES * PAGE_SIZE]?,
        })
    }

    pub fn clear(&mut self)
        ensures { self.new.count ≡ 0 }
    {
        self.count = 0;
    }

    /// Gives a page that is here, and answers whether it is.
    pub fn give(&mut self, page: u32, bytes: &mut Page) -> bool
        ensures given { IsTrue result → GivesPage self.old self.new page bytes.new }
        ensures kept { IsFalse result → bytes.new ≡ bytes.old }
    {
        if page < self.next || page < self.first || (page - self.first) as usize >= self.count {
            return false;
        }
        self.next = page.saturating_add(1);
        let start = (page - self.first) as usize * PAGE_SIZE;
        let end = start + PAGE_SIZE;
        if end > self.bytes.len() {
            return false;
        }
        bytes.copy_from_slice(&self.bytes[start..end]);
        true
    }

    /// Reads pages in one call, from this one on, up to so many.
    pub fn fill(&mut self, file: &impl FileExt, page: u32, most: u32) -> io::Result<()>
        ensures first { OnOk result ((self.new.first ≡ page) × (self.new.next ≡ page)) }
        ensures none { OnErr result (self.new.count ≡ 0) }
    {
        self.count = 0;
        let count = (most as usize).min(MOST_PAGES);
        let len = (count * PAGE_SIZE).min(self.bytes.len());
        file.read_exact_at(&mut self.bytes[..len], offset_of(page))?;
        self.first = page;
        self.next = page;
        self.count = count;
        Ok(())
    }
}
