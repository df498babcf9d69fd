//! The outside of the log: sources, sinks and the disk of segments, what each means, and bodies in
//! memory.
#![tactic(auto)]

mod disk;
mod ends_told;
mod failed;
mod handed;
mod laws;
mod memory;
mod stream;

pub use disk::{Call, CallKind, Disk, PageBytes};
pub use ends_told::EndsTold;
pub use failed::{Failed, count_fault};
pub use handed::HandedOut;
pub use laws::every_image_left_is_that_of_a_list;
pub use memory::{MemDisk, MemSink, MemSource, Memory, Pick};
pub use stream::{Sink, Source};
