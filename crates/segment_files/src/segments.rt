ghost use Rattle.std.specs.Prelude.{◌<◌, ◌/◌, ◌^◌, IsTrue, OnErr};
ghost use Rattle.segment_files.specs.Failing.{FailsForGood};

use crate::folder::Folder;
use crate::lock::{Access, Lockable};
use crate::pages;
use crate::pages::{PagesAhead, PagesHeld};
use byte_position::{Geometry, Page};
use std::alloc::{Alloc, AllocError, Global};
use std::fs::{Files, OpenFile};
use std::io;
use std::io::ErrorKind;
use std::os::unix::fs::FileExt;

/// A segment's file, which stays open from one call to the next.
#[derive(Drop)]
struct OpenSegment<F> {
    geometry: Geometry,
    segment: u64,
    file: F,
}

impl<F> OpenSegment<F> {
    fn is_of(&self, geometry: Geometry, segment: u64) -> bool {
        self.segment == segment && self.geometry.segment_size() == geometry.segment_size()
    }
}

/// The segment files of a folder, as pages are put into them and read back.
///
/// One segment is written at a time. A page that was put is held until a page elsewhere, a sync or
/// a read makes it go to the file together with its neighbours; what fails then is that call's
/// fault, and from then on nothing answers Ok, since pages that were answered Ok are not in the
/// file. The file that was written stays open until it was synced: the system tells a failed write
/// to those that had the file open, and not surely to who opens it later. Before another segment is
/// written it is synced.
///
/// Reads have an open file of their own, and read pages ahead, which are forgotten with each page
/// that is put.
#[derive(Drop)]
pub struct SegmentFiles<R: Files> {
    folder: Folder<R>,
    writing: Option<OpenSegment<R::File>>,
    held: PagesHeld,
    is_synced: bool,
    reading: Option<OpenSegment<R::File>>,
    ahead: PagesAhead,
}

impl<R: Files + Drop> SegmentFiles<R> {
    /// Takes room for the paths and the pages.
    pub fn new(
        rt: R,
        alloc: Global,
        folder: &str,
        process: u32,
        access: Access,
    ) -> Result<SegmentFiles<R>, AllocError> {
        Ok(SegmentFiles {
            folder: Folder::new(rt, alloc, folder, process, access)?,
            writing: None,
            held: PagesHeld::new(alloc)?,
            is_synced: true,
            reading: None,
            ahead: PagesAhead::new(alloc)?,
        })
    }
}

impl<R: Files + Alloc + Clone + Drop> SegmentFiles<R>
where
    R::File: FileExt + Lockable,
{
    /// Makes a file of zeros, which is on the disk under its name at Ok. Fails where it is there.
    pub fn create(&mut self, geometry: Geometry, segment: u64) -> io::Result<()>
        requires { segment < 2 ^ 64 / geometry }
        ensures { FailsForGood self.old.folder.has_failed self.new.folder.has_failed result }
    {
        self.folder.check_change()?;
        self.leave_written()?;
        let file = self.folder.make_segment(geometry, segment)?;
        self.writing = Some(OpenSegment {
            geometry,
            segment,
            file,
        });
        Ok(())
    }

    /// Writes a page in place. It is in the file, at the latest, when the segment is synced.
    pub fn write_page(
        &mut self,
        geometry: Geometry,
        segment: u64,
        page: u32,
        bytes: &Page,
    ) -> io::Result<()>
        requires { segment < 2 ^ 64 / geometry }
        ensures { FailsForGood self.old.folder.has_failed self.new.folder.has_failed result }
    {
        self.folder.check_change()?;
        self.turn_to(geometry, segment)?;
        if !self.held.is_followed_by(page) {
            self.write_held()?;
        }
        self.held.push(page, bytes)?;
        self.is_synced = false;
        self.ahead.clear();
        Ok(())
    }

    /// Puts a segment's data on the disk, and the folder's name where that was not done yet.
    pub fn sync(&mut self, geometry: Geometry, segment: u64) -> io::Result<()>
        requires { segment < 2 ^ 64 / geometry }
        ensures { FailsForGood self.old.folder.has_failed self.new.folder.has_failed result }
    {
        self.folder.check_sync()?;
        self.turn_to(geometry, segment)?;
        self.folder.settle()?;
        self.sync_written()
    }

    /// Reads a page, and answers false where the file is not there or ends before the page does.
    pub fn read_page(
        &mut self,
        geometry: Geometry,
        segment: u64,
        page: u32,
        bytes: &mut Page,
    ) -> io::Result<bool>
        requires { segment < 2 ^ 64 / geometry }
        ensures { FailsForGood self.old.folder.has_failed self.new.folder.has_failed result }
    {
        self.folder.check()?;
        self.write_held()?;
        match self.open_read(geometry, segment) {
            Ok(()) => {}
            Err(e) if e.kind() == ErrorKind::NotFound => return Ok(false),
            Err(e) => return Err(e),
        }
        if self.ahead.give(page, bytes) {
            return Ok(true);
        }
        self.read_ahead(geometry, page, bytes)
    }

    // Reads pages from this one on; where these are not all there or not all readable, this one
    // alone. A call of its own, since few pages need it.
    #[inline(never)]
    fn read_ahead(&mut self, geometry: Geometry, page: u32, bytes: &mut Page) -> io::Result<bool>
        ensures stays { IsTrue self.old.folder.has_failed → IsTrue self.new.folder.has_failed }
    {
        let Some(open) = &self.reading else {
            return Ok(false);
        };
        let most = geometry.pages().saturating_sub(page);
        if self.ahead.fill(&open.file, page, most).is_ok() && self.ahead.give(page, bytes) {
            return Ok(true);
        }
        match pages::read_page(&open.file, page, bytes) {
            Ok(()) => Ok(true),
            Err(e) if e.kind() == ErrorKind::UnexpectedEof => Ok(false),
            Err(e) => Err(e),
        }
    }

    // Makes this segment the one that is read.
    fn open_read(&mut self, geometry: Geometry, segment: u64) -> io::Result<()>
        requires { segment < 2 ^ 64 / geometry }
        ensures stays { IsTrue self.old.folder.has_failed → IsTrue self.new.folder.has_failed }
    {
        if let Some(open) = &self.reading {
            if open.is_of(geometry, segment) {
                return Ok(());
            }
        }
        self.open_anew(geometry, segment)
    }

    // Opens it for that. A call of its own, since few pages need it.
    #[inline(never)]
    fn open_anew(&mut self, geometry: Geometry, segment: u64) -> io::Result<()>
        requires { segment < 2 ^ 64 / geometry }
        ensures stays { IsTrue self.old.folder.has_failed → IsTrue self.new.folder.has_failed }
    {
        self.ahead.clear();
        let file = self.folder.open_segment(geometry, segment, false)?;
        self.reading = Some(OpenSegment {
            geometry,
            segment,
            file,
        });
        Ok(())
    }

    // Makes this segment the one that is written.
    fn turn_to(&mut self, geometry: Geometry, segment: u64) -> io::Result<()>
        requires { segment < 2 ^ 64 / geometry }
        ensures stays { IsTrue self.old.folder.has_failed → IsTrue self.new.folder.has_failed }
    {
        if let Some(open) = &self.writing {
            if open.is_of(geometry, segment) {
                return Ok(());
            }
        }
        self.leave_written()?;
        let file = self.folder.open_segment(geometry, segment, true)?;
        self.writing = Some(OpenSegment {
            geometry,
            segment,
            file,
        });
        Ok(())
    }

    // Syncs the segment that is written before its file is closed, where it has pages that were
    // not synced.
    fn leave_written(&mut self) -> io::Result<()>
        ensures failed { OnErr result (IsTrue self.new.folder.has_failed) }
        ensures stays { IsTrue self.old.folder.has_failed → IsTrue self.new.folder.has_failed }
    {
        if self.is_synced {
            return Ok(());
        }
        self.sync_written()
    }

    fn sync_written(&mut self) -> io::Result<()>
        ensures failed { OnErr result (IsTrue self.new.folder.has_failed) }
        ensures stays { IsTrue self.old.folder.has_failed → IsTrue self.new.folder.has_failed }
    {
        self.write_held()?;
        if let Some(open) = &self.writing {
            let synced = open.file.sync_data();
            self.folder.noted(synced)?;
        }
        self.is_synced = true;
        Ok(())
    }

    // Writes the pages that are held, if any are.
    fn write_held(&mut self) -> io::Result<()>
        ensures failed { OnErr result (IsTrue self.new.folder.has_failed) }
        ensures stays { IsTrue self.old.folder.has_failed → IsTrue self.new.folder.has_failed }
    {
        if self.held.is_empty() {
            return Ok(());
        }
        self.write_out()
    }

    // Writes them, in one call.
    #[inline(never)]
    fn write_out(&mut self) -> io::Result<()>
        ensures failed { OnErr result (IsTrue self.new.folder.has_failed) }
        ensures stays { IsTrue self.old.folder.has_failed → IsTrue self.new.folder.has_failed }
    {
        if let Some(open) = &self.writing {
            let written = self.held.write_to(&open.file);
            self.folder.noted(written)?;
        }
        self.held.clear();
        Ok(())
    }
}
