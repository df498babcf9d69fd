//! What a disk of files is opened for, and the lock that keeps other writers out.
use std::fs::File;
use std::io;

/// What a disk of files is opened for.
#[derive(Clone, Copy, Debug)]
pub enum Access {
    /// To read alone, beside whoever writes: a call that would change something fails.
    Read,
    /// To read, beside whoever writes, and to sync what is there.
    Sync,
    /// To write too, alone in the folder until the disk is dropped.
    Write,
}

/// A file or folder that is open and can be locked until it is closed.
pub trait Lockable {
    /// Fails where it is locked through another opening, of this process or of another one.
    fn try_lock(&self) -> io::Result<()>;
}

impl Lockable for File {
    fn try_lock(&self) -> io::Result<()> {
        Ok(File::try_lock(self)?)
    }
}
