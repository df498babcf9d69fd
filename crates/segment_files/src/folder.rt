ghost use Rattle.std.specs.Prelude.{◌≡◌, ◌<◌, ◌/◌, ◌^◌, IsFalse, IsTrue, OnErr, OnOk};

use crate::lock::{Access, Lockable};
use byte_position::Geometry;
use std::alloc::{Alloc, AllocError, Global};
use std::fs::{DirBuilder, Files, OpenFile, OpenOptions};
use std::io::{ErrorKind, Write};
use std::os::unix::fs::{DirBuilderExt, FileTypeExt, OpenOptionsExt};
use std::{fs, io};

// How many zeros are written at a time.
const PIECE: usize = 64 * 1024;

// How many temporary names a process tries.
const MOST_NAMES: u32 = 1000;

// Files and folders are the user's own, from the moment they are made.
const FILE_MODE: u32 = 0o600;

const FOLDER_MODE: u32 = 0o700;

/// The folder of the segment files: their names, how they are made, and every sync of the log.
///
/// A segment is made under a temporary name that nothing else has, filled and synced, and only then
/// linked to its own name, so that a file under that name is whole; the folder is synced behind it,
/// since a name that is not on the disk is lost with its file (PostgreSQL's
/// `XLogFileInitInternal` and `durable_rename`). A link replaces nothing: of two processes that
/// make one segment, one fails.
///
/// Of two that write in one folder at once one alone locks it, before it looks into it for the
/// first time: what a writer has read of it nobody else changes. Who only reads takes no lock.
///
/// The folder's own name may be lost too, so it is put on the disk once, before anything in it is
/// promised, also where the folder was there already: who made it may not have synced it.
#[derive(Drop)]
pub struct Folder<R: Files> {
    rt: R,
    // The number of this process, which its temporary names have.
    process: u32,
    access: Access,
    name: String,
    // The folder, as a writer has it open and locked.
    locked: Option<R::File>,
    // Room for two paths, so that no call takes memory but the first and those that make a segment.
    path: String,
    temporary: String,
    zeros: Vec<u8>,
    // Whether all names on the way to the segments are on the disk.
    is_settled: bool,
    has_failed: bool,
}

// Whether a name is one under which segments are made: `xlogtemp.PROCESS.NUMBER`. PostgreSQL's own
// have one number.
fn is_temporary(name: &str) -> bool {
    let Some(numbers) = name.strip_prefix("xlogtemp.") else {
        return false;
    };
    match numbers.split_once('.') {
        Some((process, number)) => is_number(process) && is_number(number),
        None => false,
    }
}

fn is_number(digits: &str) -> bool {
    !digits.is_empty() && digits.bytes().all(|digit| digit.is_ascii_digit())
}

// Whether a name is that of a segment behind this one, of the same timeline.
fn is_later(name: &[u8], segment: &[u8; 24]) -> bool {
    name.len() == segment.len()
        && name[..8] == segment[..8]
        && name > &segment[..]
        && name
            .iter()
            .all(|digit| matches!(*digit, b'0'..=b'9' | b'A'..=b'F'))
}

fn join(path: &mut String, folder: &str, name: &str) -> Result<(), AllocError> {
    path.clear();
    path.push_str(folder)?;
    path.push('/')?;
    path.push_str(name)
}

impl<R: Files + Drop> Folder<R> {
    /// Takes room for the paths and for a piece of zeros.
    pub fn new(
        rt: R,
        alloc: Global,
        name: &str,
        process: u32,
        access: Access,
    ) -> Result<Folder<R>, AllocError> {
        let name = if name.is_empty() { "." } else { name };
        let mut path = String::new(alloc);
        join(&mut path, name, "000000010000000000000000")?;
        Ok(Folder {
            rt,
            process,
            access,
            name: String::from_str(alloc, name)?,
            locked: None,
            path,
            temporary: format!(in alloc; "{name}/xlogtemp.{process}.{MOST_NAMES}")?,
            zeros: vec![in alloc; 0; PIECE]?,
            is_settled: false,
            has_failed: false,
        })
    }
}

impl<R: Files + Alloc + Clone + Drop> Folder<R>
where
    R::File: Lockable,
{
    /// Comes before each call. A writer has locked the folder behind it.
    ///
    /// An error for good once a sync has failed, or a write of pages that were answered Ok: the
    /// system may have dropped what it could not write, and would answer Ok to the next sync
    /// (PostgreSQL stops for this, by its `data_sync_elevel`).
    pub fn check(&mut self) -> io::Result<()>
        ensures fails { OnOk result (IsFalse self.old.has_failed) }
        ensures stays { IsTrue self.old.has_failed → IsTrue self.new.has_failed }
    {
        if self.has_failed {
            return Err(ErrorKind::Other.into());
        }
        match self.access {
            Access::Write if self.locked.is_none() => self.lock(),
            _ => Ok(()),
        }
    }

    /// Comes before each call that changes what the folder holds, and fails for who only reads.
    pub fn check_change(&mut self) -> io::Result<()>
        ensures fails { OnOk result (IsFalse self.old.has_failed) }
        ensures stays { IsTrue self.old.has_failed → IsTrue self.new.has_failed }
    {
        match self.access {
            Access::Read | Access::Sync => Err(ErrorKind::PermissionDenied.into()),
            Access::Write => self.check(),
        }
    }

    /// Comes before each sync of a segment, and fails for who reads alone.
    pub fn check_sync(&mut self) -> io::Result<()>
        ensures fails { OnOk result (IsFalse self.old.has_failed) }
        ensures stays { IsTrue self.old.has_failed → IsTrue self.new.has_failed }
    {
        match self.access {
            Access::Read => Err(ErrorKind::PermissionDenied.into()),
            Access::Sync | Access::Write => self.check(),
        }
    }

    // Locks the folder, which is made where it is missing, until it is closed. The system closes it
    // where the process ends, however that comes: a killed one leaves no lock. A call of its own,
    // so that the other calls make no room for it.
    #[inline(never)]
    fn lock(&mut self) -> io::Result<()>
        ensures stays { IsTrue self.old.has_failed → IsTrue self.new.has_failed }
    {
        self.make_folders()?;
        // With the dot, nothing but a folder is opened.
        join(&mut self.path, self.name.as_str(), ".")?;
        let folder = fs::open(&self.rt, self.path.as_str())?;
        folder.try_lock()?;
        self.locked = Some(folder);
        // They cost room and nothing else, so it is no fault where they cannot be removed.
        let _ = self.remove_leftovers();
        Ok(())
    }

    // Removes the files of temporary names: whoever made them was killed before they had a
    // segment's name, since who makes one has the folder locked, as this writer has now.
    fn remove_leftovers(&mut self) -> io::Result<()>
        ensures stays { IsTrue self.old.has_failed → IsTrue self.new.has_failed }
    {
        for entry in fs::read_dir(&self.rt, self.name.as_str())? {
            let entry = entry?;
            if is_temporary(entry.file_name()) && entry.file_type()?.is_file() {
                fs::remove_file(&self.rt, entry.path())?;
            }
        }
        Ok(())
    }
}

impl<R: Files + Alloc + Clone + Drop> Folder<R> {
    /// Hands on the answer of a call after whose failure nothing may answer Ok.
    pub fn noted(&mut self, answer: io::Result<()>) -> io::Result<()>
        ensures same { result ≡ answer }
        ensures notes { OnErr answer (IsTrue self.new.has_failed) }
        ensures stays { IsTrue self.old.has_failed → IsTrue self.new.has_failed }
    {
        if answer.is_err() {
            self.has_failed = true;
        }
        answer
    }

    /// Opens a segment's file that is there. One that was cut is not written or synced.
    pub fn open_segment(
        &mut self,
        geometry: Geometry,
        segment: u64,
        is_written: bool,
    ) -> io::Result<R::File>
        requires { segment < 2 ^ 64 / geometry }
        ensures stays { IsTrue self.old.has_failed → IsTrue self.new.has_failed }
    {
        self.set_path(geometry, segment)?;
        let metadata = fs::metadata(&self.rt, self.path.as_str())?;
        // To open a pipe waits for its other end, for ever if nobody comes.
        if metadata.file_type().is_fifo() {
            return Err(ErrorKind::InvalidInput.into());
        }
        if is_written && metadata.is_file() && metadata.len() != geometry.segment_size() {
            return Err(ErrorKind::InvalidData.into());
        }
        OpenOptions::new()
            .read(true)
            .write(is_written)
            .open(&self.rt, self.path.as_str())
    }

    /// Makes a file of zeros, which is on the disk under its name at Ok. A file that is there is
    /// left as it is, and the call fails. So it does where a later segment's file is there, whose
    /// records would follow those of the new one.
    pub fn make_segment(&mut self, geometry: Geometry, segment: u64) -> io::Result<R::File>
        requires { segment < 2 ^ 64 / geometry }
        ensures stays { IsTrue self.old.has_failed → IsTrue self.new.has_failed }
    {
        self.settle()?;
        self.check_last(geometry, segment)?;
        let mut file = self.open_temporary()?;
        // Until the folder is synced behind it, the new name may be lost.
        self.is_settled = false;
        let linked = self.fill_and_link(&mut file, geometry, segment);
        // Linked or not, the temporary name has served.
        let removed = fs::remove_file(&self.rt, self.temporary.as_str());
        linked?;
        removed?;
        self.sync_folder(".")?;
        self.is_settled = true;
        Ok(file)
    }

    /// Puts the folder's name and the names in it on the disk, where that was not done yet, and
    /// makes the folder where it is missing.
    pub fn settle(&mut self) -> io::Result<()>
        ensures stays { IsTrue self.old.has_failed → IsTrue self.new.has_failed }
    {
        if self.is_settled {
            return Ok(());
        }
        self.make_folders()?;
        self.sync_folder(".")?;
        self.sync_folder("..")?;
        self.is_settled = true;
        Ok(())
    }

    // Fails where the folder has a file of a later segment. Names that are no text are no
    // segment's.
    fn check_last(&self, geometry: Geometry, segment: u64) -> io::Result<()>
        requires { segment < 2 ^ 64 / geometry }
    {
        let name = geometry.file_name(segment);
        for entry in fs::read_dir(&self.rt, self.name.as_str())? {
            match entry {
                Ok(entry) if is_later(entry.file_name().as_bytes(), &name) => {
                    // A folder of that name has no records.
                    if !entry.file_type()?.is_dir() {
                        return Err(ErrorKind::AlreadyExists.into());
                    }
                }
                Err(e) if e.kind() != ErrorKind::InvalidFilename => return Err(e),
                _ => {}
            }
        }
        Ok(())
    }

    // The file is synced before it has its name: one that a crash leaves there has all its zeros.
    fn fill_and_link(
        &mut self,
        file: &mut R::File,
        geometry: Geometry,
        segment: u64,
    ) -> io::Result<()>
        requires { segment < 2 ^ 64 / geometry }
        ensures stays { IsTrue self.old.has_failed → IsTrue self.new.has_failed }
    {
        for _ in 0..geometry.segment_size() / PIECE as u64 {
            file.write_all(&self.zeros)?;
        }
        let synced = file.sync_all();
        self.noted(synced)?;
        self.set_path(geometry, segment)?;
        fs::hard_link(&self.rt, self.temporary.as_str(), self.path.as_str())
    }

    // A new file under a name that nothing had: what else stands under such a name stays.
    fn open_temporary(&mut self) -> io::Result<R::File>
        ensures stays { IsTrue self.old.has_failed → IsTrue self.new.has_failed }
    {
        for number in 0..MOST_NAMES {
            self.set_temporary(number)?;
            let opened = OpenOptions::new()
                .read(true)
                .write(true)
                .create_new(true)
                .mode(FILE_MODE)
                .open(&self.rt, self.temporary.as_str());
            match opened {
                Err(e) if e.kind() == ErrorKind::AlreadyExists => {}
                _ => return opened,
            }
        }
        Err(ErrorKind::AlreadyExists.into())
    }

    fn set_temporary(&mut self, number: u32) -> io::Result<()>
        ensures stays { IsTrue self.old.has_failed → IsTrue self.new.has_failed }
    {
        self.temporary.clear();
        let (name, process) = (self.name.as_str(), self.process);
        if write!(self.temporary, "{name}/xlogtemp.{process}.{number}").is_err() {
            return Err(AllocError.into());
        }
        Ok(())
    }

    fn set_path(&mut self, geometry: Geometry, segment: u64) -> io::Result<()>
        requires { segment < 2 ^ 64 / geometry }
        ensures stays { IsTrue self.old.has_failed → IsTrue self.new.has_failed }
    {
        let name = geometry.file_name(segment);
        match str::from_utf8(&name) {
            Ok(name) => Ok(join(&mut self.path, self.name.as_str(), name)?),
            Err(_) => Err(ErrorKind::InvalidInput.into()),
        }
    }

    fn make_folders(&mut self) -> io::Result<()>
        ensures stays { IsTrue self.old.has_failed → IsTrue self.new.has_failed }
    {
        if fs::exists(&self.rt, self.name.as_str())? {
            return Ok(());
        }
        for end in 0..self.name.len() {
            self.make_folder(end + 1)?;
        }
        Ok(())
    }

    // Makes the folder whose name ends there, if one does. The name of one on the way is put on the
    // disk here, the last one's by `settle`.
    fn make_folder(&mut self, end: usize) -> io::Result<()>
        ensures stays { IsTrue self.old.has_failed → IsTrue self.new.has_failed }
    {
        match self.name.as_str().split_at_checked(end) {
            Some((folder, rest)) if rest.is_empty() || rest.starts_with('/') => {
                match DirBuilder::new().mode(FOLDER_MODE).create(&self.rt, folder) {
                    Ok(()) if rest.is_empty() => return Ok(()),
                    Ok(()) => join(&mut self.path, folder, "..")?,
                    Err(e) if e.kind() == ErrorKind::AlreadyExists => return Ok(()),
                    Err(e) => return Err(e),
                }
            }
            _ => return Ok(()),
        }
        self.sync_path()
    }

    fn sync_folder(&mut self, name: &str) -> io::Result<()>
        ensures stays { IsTrue self.old.has_failed → IsTrue self.new.has_failed }
    {
        join(&mut self.path, self.name.as_str(), name)?;
        self.sync_path()
    }

    // Puts the names of the folder at the path on the disk.
    fn sync_path(&mut self) -> io::Result<()>
        ensures stays { IsTrue self.old.has_failed → IsTrue self.new.has_failed }
    {
        let synced = fs::open(&self.rt, self.path.as_str())?.sync_all();
        self.noted(synced)
    }
}
