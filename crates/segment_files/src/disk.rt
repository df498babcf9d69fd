ghost use Rattle.std.specs.Prelude.{◌≡◌, ◌<◌, ◌/◌, ◌^◌, None, IfOk};

use crate::lock::{Access, Lockable};
use crate::segments::SegmentFiles;
use byte_position::{Geometry, Page};
use segment_disk::{Disk, Failed, Memory, count_fault};
use std::alloc::{Alloc, Global};
use std::fs::Files;
use std::os::unix::fs::FileExt;

/// A disk of segment files in a folder, by PostgreSQL's names. It tells nothing of what they hold.
///
/// Pages that were written reach the file with the next sync of their segment at the latest, and a
/// segment that is there is not made again. After a failed sync, or a failed write of pages that
/// were answered Ok, each call fails.
#[derive(Drop)]
pub struct FileDisk<R: Files> {
    files: SegmentFiles<R>,
    moment: u64,
    faults: u64,
}

impl<R: Files + Alloc + Clone + Drop> FileDisk<R>
where
    R::File: FileExt + Lockable,
{
    /// Takes its room, and touches no file. A writer makes the folder, where it is missing, and
    /// locks it by its first call; where another one has it, that call fails, and may be made
    /// again. The number of the process is part of the names that its files have while they are
    /// made.
    pub fn open(
        rt: R,
        alloc: Global,
        folder: &str,
        process: u32,
        access: Access,
    ) -> Result<FileDisk<R>, Memory>
        ensures tape { IfOk result (λ disk. ⟦<FileDisk<R> as Disk>⟧.tape disk ≡ None) }
        ensures moment { IfOk result (λ disk. ⟦<FileDisk<R> as Disk>⟧.moment disk ≡ 0) }
        ensures faults { IfOk result (λ disk. ⟦<FileDisk<R> as Disk>⟧.faults disk ≡ 0) }
    {
        Ok(FileDisk {
            files: SegmentFiles::new(rt, alloc, folder, process, access)?,
            moment: 0,
            faults: 0,
        })
    }
}

impl<R: Files + Alloc + Clone + Drop> Disk for FileDisk<R>
where
    R::File: FileExt + Lockable,
{
    ghost use Rattle.std.specs.Prelude.{None};

    ghost tape = { λ d. None };

    ghost moment = { λ d. d.moment };

    ghost faults = { λ d. d.faults };

    ghost counts = { λ d. tt };

    fn create(&mut self, geometry: Geometry, segment: u64) -> Result<(), Failed> {
        if self.moment == u64::MAX {
            return Err(count_fault(&mut self.faults));
        }
        self.moment += 1;
        match self.files.create(geometry, segment) {
            Ok(()) => Ok(()),
            Err(_) => Err(count_fault(&mut self.faults)),
        }
    }

    fn write_page(
        &mut self,
        geometry: Geometry,
        segment: u64,
        page: u32,
        bytes: &Page,
    ) -> Result<(), Failed> {
        if self.moment == u64::MAX {
            return Err(count_fault(&mut self.faults));
        }
        self.moment += 1;
        match self.files.write_page(geometry, segment, page, bytes) {
            Ok(()) => Ok(()),
            Err(_) => Err(count_fault(&mut self.faults)),
        }
    }

    fn sync(&mut self, geometry: Geometry, segment: u64) -> Result<(), Failed> {
        if self.moment == u64::MAX {
            return Err(count_fault(&mut self.faults));
        }
        self.moment += 1;
        match self.files.sync(geometry, segment) {
            Ok(()) => Ok(()),
            Err(_) => Err(count_fault(&mut self.faults)),
        }
    }

    fn read_page(
        &mut self,
        geometry: Geometry,
        segment: u64,
        page: u32,
        bytes: &mut Page,
    ) -> Result<bool, Failed> {
        match self.files.read_page(geometry, segment, page, bytes) {
            Ok(there) => Ok(there),
            Err(_) => Err(count_fault(&mut self.faults)),
        }
    }

    fn moment(&self) -> u64 {
        self.moment
    }

    fn faults(&self) -> u64 {
        self.faults
    }
}
