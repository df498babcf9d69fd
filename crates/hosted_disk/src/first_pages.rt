// What a disk held before the first call, page by page, as the host handed it in.
ghost use Rattle.std.specs.Prelude.{◌≡◌, [], Some, true, IfSome};
ghost use Rattle.segment_disk.specs.Tape.{IsPageRead};
ghost use Rattle.handed_pages.specs.Handed.{page_of_log};
ghost use Rattle.hosted_disk.specs.HostSegments.{are_of_first, host_state, segments_by};

use crate::held_first::HeldFirst;
use crate::host_disk::HostDisk;
use byte_position::Page;
use handed_pages::{HandedPage, PageNumber, read_ordered};
use std::alloc::Global;

/// The pages that a disk held at first. None of them changes.
#[derive(Drop)]
pub struct FirstPages {
    pages: Vec<HandedPage>,
    // Whether the disk held nothing.
    nothing: bool,
    held: HeldFirst,
    ghost as_handed: { are_of_first held.segments nothing pages.items ≡ true },
}

impl FirstPages {
    /// Those of a disk that held nothing.
    pub fn nothing(alloc: Global) -> FirstPages
        ensures { result.held.segments ≡ Some [] }
    {
        FirstPages {
            pages: Vec::new(alloc),
            nothing: true,
            held: HeldFirst::nothing(),
        }
    }

    /// Those of the host's disk, as they were handed in.
    pub fn by_pages<L: HostDisk>(pages: Vec<HandedPage>) -> FirstPages
        ensures { result.held.segments ≡ segments_by L.segments pages.items }
    {
        let held = HeldFirst::by_pages::<L>(&pages);
        FirstPages {
            pages,
            nothing: false,
            held,
        }
    }

    /// Reads a page, if it was handed in, or if the disk held nothing.
    pub fn read(&self, number: PageNumber, bytes: &mut Page) -> Option<bool>
        ensures { IfSome self.now.held.segments (λ segments. IfSome result (λ there.
            IsPageRead (page_of_log (host_state segments) number) there bytes.new)) }
    {
        match read_ordered(&self.pages, number, bytes) {
            Some(there) => Some(there),
            None => { if self.nothing { Some(false) } else { None } }
        }
    }

    /// Lets the pages go: what the disk held stays what it was.
    pub fn let_go(&mut self)
        ensures { self.new.held.segments ≡ self.old.held.segments }
    {
        self.pages.clear();
        self.pages.shrink_to_fit();
    }

    /// The pages, as they were handed in.
    pub fn into_pages(self) -> Vec<HandedPage> {
        let FirstPages {
            pages,
            nothing: _,
            held: _,
        } = self;
        pages
    }
}
