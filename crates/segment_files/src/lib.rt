//! Bodies over the system of what segment_disk means: a disk over a folder of segment files, a
//! source over a reader and a sink over a writer.
#![tactic(auto)]

mod disk;
mod folder;
mod lock;
mod pages;
mod segments;
mod sink;
mod source;

pub use disk::FileDisk;
pub use lock::{Access, Lockable};
pub use sink::StandardSink;
pub use source::StandardSource;
