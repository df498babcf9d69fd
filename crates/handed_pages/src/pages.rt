// A disk that is only read, of pages that the host hands in: so a log is read by code that opens no
// file. A read of a page that is not held notes which one is wanted, and fails; the host hands it
// in, and what failed is asked for again.
ghost use Rattle.std.specs.Prelude.{◌≢◌, IsTrue, is_some};

use crate::host_log::HostLog;
use crate::page::{HandedPage, PageNumber, read_held};
use byte_position::{Geometry, Page};
use segment_disk::{Disk, Failed, Memory, count_fault};
use std::alloc::Global;
use std::marker::PhantomData;
use wal_types::Lsn;

/// The pages that were handed in and are still held.
#[derive(Drop)]
pub struct HandedPages<L> {
    pub(crate) pages: Vec<HandedPage>,
    pub(crate) wanted: Option<PageNumber>,
    pub(crate) faults: u64,
    log: PhantomData<L>,
    ghost wants: { faults ≢ 0 → IsTrue (is_some wanted) },
}

impl<L: HostLog> HandedPages<L> {
    ghost use Rattle.std.specs.Prelude.{◌≡◌, ◌≢◌, ◌⊎◌, ◌+◌, ◌-◌, ◌^◌, [], IsTrue, OnErr, is_some, option_map};
    ghost use Rattle.segment_disk.specs.Tape.{DiskState};
    ghost use Rattle.handed_pages.specs.Handed.{HoldsPagesOf, handed_faults, page_of_log, pages_held};

    /// No page is held yet.
    pub fn new(alloc: Global) -> HandedPages<L>
        ensures { pages_held result ≡ [] }
    {
        HandedPages {
            pages: Vec::new(alloc),
            wanted: None,
            faults: 0,
            log: PhantomData,
        }
    }

    /// Holds a page from now on, or that the log has no such page. One that is held is left.
    pub fn hand_in(&mut self, number: PageNumber, page: Option<&Page>) -> Result<(), Memory>
        // The pages held stay those of a log that has this one.
        ensures held { (state : DiskState) → HoldsPagesOf state self.old
            → page_of_log state number ≡ option_map (λ p. p.now) page.entry
            → HoldsPagesOf state self.new }
        ensures same { OnErr result (pages_held self.new ≡ pages_held self.old) }
    {
        self.pages.push(HandedPage::of(number, page))?;
        Ok(())
    }

    /// Forgets the pages below the one of an address.
    pub fn forget_below(&mut self, geometry: Geometry, address: Lsn)
        ensures { (state : DiskState) → HoldsPagesOf state self.old → HoldsPagesOf state self.new }
    {
        let first = PageNumber::of_address(geometry, address);
        self.pages.retain(|page| !page.number.comes_before(first));
    }

    /// Forgets all pages: what is written later stands on a page that was read.
    pub fn forget_all(&mut self)
        ensures { pages_held self.new ≡ [] }
    {
        self.pages.clear();
    }

    /// Which page the last call that failed was about.
    pub fn wanted(&self) -> Option<PageNumber>
        ensures { handed_faults self.now ≢ 0 → IsTrue (is_some result) }
    {
        self.wanted
    }

    // Nothing but a read is answered.
    fn refuse(&mut self, segment: u64, page: u32) -> Failed
        ensures pages { pages_held self.new ≡ pages_held self.old }
        ensures faults { (self.new.faults ≡ self.old.faults + 1)
            ⊎ ((self.new.faults ≡ self.old.faults) × (self.new.faults ≡ 2 ^ 64 - 1)) }
    {
        self.wanted = Some(PageNumber { segment, page });
        count_fault(&mut self.faults)
    }
}

impl<L: HostLog> Disk for HandedPages<L> {
    ghost use Rattle.handed_pages.specs.Handed.{counts_no_call, has_pages, handed_faults, handed_moment, handed_tape};

    ghost tape = { handed_tape L.state };

    ghost moment = { handed_moment };

    ghost faults = { handed_faults };

    ghost counts = { λ d. counts_no_call L.state (has_pages L.state d.pages.items) };

    fn create(&mut self, _geometry: Geometry, segment: u64) -> Result<(), Failed> {
        Err(self.refuse(segment, 0))
    }

    fn write_page(
        &mut self,
        _geometry: Geometry,
        segment: u64,
        page: u32,
        _bytes: &Page,
    ) -> Result<(), Failed> {
        Err(self.refuse(segment, page))
    }

    fn sync(&mut self, _geometry: Geometry, segment: u64) -> Result<(), Failed> {
        Err(self.refuse(segment, 0))
    }

    fn read_page(
        &mut self,
        _geometry: Geometry,
        segment: u64,
        page: u32,
        bytes: &mut Page,
    ) -> Result<bool, Failed> {
        match read_held(&self.pages, PageNumber { segment, page }, bytes) {
            Some(there) => Ok(there),
            None => Err(self.refuse(segment, page)),
        }
    }

    fn moment(&self) -> u64 {
        0
    }

    fn faults(&self) -> u64 {
        self.faults
    }
}
