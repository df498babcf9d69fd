//! A disk whose calls somebody else makes: the program that links the log, with its own files. The
//! log's calls are queued, and the program, the host, takes them from the queue in order, makes
//! them, and says how many it has made.
//!
//! `disk` is what the log calls, `calls` what the host has of it, and `progress` what tells
//! everybody else how far the host has come. What the disk held at first is read from
//! `first_pages`; `host_disk` and `held_first` say whose pages they are, `touched` which are read
//! behind a call. `laws` says what a failed call of the host's leaves.
#![tactic(auto)]

mod calls;
mod disk;
mod first_pages;
mod held_first;
mod host_disk;
mod laws;
mod opening;
mod progress;
mod touched;
mod words;

pub use calls::HostCalls;
pub use disk::HostedDisk;
pub use host_disk::HostDisk;
pub use laws::failed_calls_leave_no_more;
pub use opening::hosted_disk;
pub use progress::HostProgress;
