//! Why a folder is not listed.

use segment_disk::Memory;
use std::alloc::{AllocError, AllocFailed};
use std::io;
use std::io::ErrorKind;
use thiserror::Error;

#[derive(Clone, Copy, Debug, PartialEq, Eq, Error)]
pub enum FolderErr {
    #[error("out of memory")]
    Memory,
    #[error("a segment is named that none of this size can be")]
    NoSuchSegment,
    #[error("the folder cannot be read")]
    Folder,
    #[error("the folder has no segment of this timeline")]
    NoSegment,
    /// A segment that is there could not be read.
    #[error("disk fault")]
    Disk,
    #[error("the first segment has no header that tells its size")]
    NoHeader,
}

impl FolderErr {
    /// The exit status.
    pub fn status(self) -> u8 {
        match self {
            FolderErr::Memory => 1,
            FolderErr::NoSuchSegment => 2,
            FolderErr::Folder | FolderErr::NoSegment | FolderErr::NoHeader => 3,
            FolderErr::Disk => 4,
        }
    }
}

impl FolderErr {
    /// Why the first segment's header was not read: the file is too short for one, or it cannot be
    /// read.
    pub fn of_header(e: &io::Error) -> FolderErr {
        match e.kind() {
            ErrorKind::OutOfMemory => FolderErr::Memory,
            ErrorKind::UnexpectedEof => FolderErr::NoHeader,
            _ => FolderErr::Disk,
        }
    }
}

impl<T: Drop> From<AllocFailed<T>> for FolderErr {
    fn from(_e: AllocFailed<T>) -> FolderErr {
        FolderErr::Memory
    }
}

impl From<AllocError> for FolderErr {
    fn from(_e: AllocError) -> FolderErr {
        FolderErr::Memory
    }
}

impl From<Memory> for FolderErr {
    fn from(_e: Memory) -> FolderErr {
        FolderErr::Memory
    }
}

impl From<io::Error> for FolderErr {
    fn from(e: io::Error) -> FolderErr {
        match e.kind() {
            ErrorKind::OutOfMemory => FolderErr::Memory,
            _ => FolderErr::Folder,
        }
    }
}
