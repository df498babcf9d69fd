//! The segment files of one timeline, to be read alone.

ghost use Rattle.std.specs.Prelude.{◌<◌, ◌/◌, ◌^◌};

use crate::segment_name::SegmentName;
use byte_position::{Geometry, PAGE_SIZE, Page};
use segment_disk::{Disk, Failed, count_fault};
use std::alloc::{Alloc, AllocError, Global};
use std::fs::{Files, OpenFile};
use std::io::ErrorKind;
use std::os::unix::fs::{FileExt, FileTypeExt};
use std::{fs, io};

/// The segment files of one timeline in a folder.
#[derive(Drop)]
struct SegmentFolder<R: Files> {
    rt: R,
    folder: String,
    timeline: u32,
    // Room for a path.
    path: String,
    // The segment that was read last, and its file.
    open: Option<(u64, R::File)>,
}

/// A disk over them. It changes nothing: each call but a read fails, and is not counted.
#[derive(Drop)]
pub struct TimelineFiles<R: Files> {
    segments: SegmentFolder<R>,
    faults: u64,
}

impl<R: Files + Alloc + Clone + Drop> TimelineFiles<R>
where
    R::File: FileExt,
{
    pub fn new(
        rt: R,
        alloc: Global,
        folder: &str,
        timeline: u32,
    ) -> Result<TimelineFiles<R>, AllocError> {
        let segments = SegmentFolder {
            rt,
            folder: String::from_str(alloc, folder)?,
            timeline,
            path: String::new(alloc),
            open: None,
        };
        Ok(TimelineFiles {
            segments,
            faults: 0,
        })
    }

    /// Whether a segment's file is there.
    pub fn has_segment(&mut self, name: SegmentName) -> io::Result<bool> {
        self.segments.has_segment(name)
    }

    /// The first bytes of a segment's file.
    pub fn read_front(&mut self, name: SegmentName, bytes: &mut [u8]) -> io::Result<()> {
        self.segments.open_file(name)?.read_exact_at(bytes, 0)
    }
}

impl<R: Files + Alloc + Clone + Drop> SegmentFolder<R>
where
    R::File: FileExt,
{
    fn has_segment(&mut self, name: SegmentName) -> io::Result<bool> {
        self.set_path(name)?;
        fs::exists(&self.rt, self.path.as_str())
    }

    fn set_path(&mut self, name: SegmentName) -> io::Result<()> {
        self.path.clear();
        self.path.push_str(self.folder.as_str())?;
        self.path.push('/')?;
        for byte in name.text() {
            self.path.push(char::from(byte))?;
        }
        Ok(())
    }

    fn open_file(&mut self, name: SegmentName) -> io::Result<R::File> {
        self.set_path(name)?;
        let metadata = fs::metadata(&self.rt, self.path.as_str())?;
        // To open a pipe waits for its other end, for ever if nobody comes.
        if metadata.file_type().is_fifo() {
            return Err(ErrorKind::InvalidInput.into());
        }
        fs::open(&self.rt, self.path.as_str())
    }

    // Makes this segment's file the open one.
    fn turn_to(&mut self, geometry: Geometry, segment: u64) -> io::Result<()> {
        if let Some((open, _)) = &self.open {
            if *open == segment {
                return Ok(());
            }
        }
        let name = SegmentName::of_segment(self.timeline, geometry, segment);
        self.open = Some((segment, self.open_file(name)?));
        Ok(())
    }

    fn read_page(
        &mut self,
        geometry: Geometry,
        segment: u64,
        page: u32,
        bytes: &mut Page,
    ) -> io::Result<()> {
        self.turn_to(geometry, segment)?;
        match &self.open {
            Some((_, file)) => file.read_exact_at(bytes, u64::from(page) * PAGE_SIZE),
            None => Err(ErrorKind::NotFound.into()),
        }
    }
}

impl<R: Files + Alloc + Clone + Drop> Disk for TimelineFiles<R>
where
    R::File: FileExt,
{
    ghost use Rattle.std.specs.Prelude.{None};

    ghost tape = { λ d. None };

    ghost moment = { λ d. 0 };

    ghost faults = { λ d. d.faults };

    ghost counts = { λ d. tt };

    fn create(&mut self, _geometry: Geometry, _segment: u64) -> Result<(), Failed> {
        Err(count_fault(&mut self.faults))
    }

    fn write_page(
        &mut self,
        _geometry: Geometry,
        _segment: u64,
        _page: u32,
        _bytes: &Page,
    ) -> Result<(), Failed> {
        Err(count_fault(&mut self.faults))
    }

    fn sync(&mut self, _geometry: Geometry, _segment: u64) -> Result<(), Failed> {
        Err(count_fault(&mut self.faults))
    }

    fn read_page(
        &mut self,
        geometry: Geometry,
        segment: u64,
        page: u32,
        bytes: &mut Page,
    ) -> Result<bool, Failed> {
        match self.segments.read_page(geometry, segment, page, bytes) {
            Ok(()) => Ok(true),
            Err(e) => match e.kind() {
                ErrorKind::NotFound | ErrorKind::UnexpectedEof => Ok(false),
                _ => Err(count_fault(&mut self.faults)),
            },
        }
    }

    fn moment(&self) -> u64 {
        0
    }

    fn faults(&self) -> u64 {
        self.faults
    }
}
