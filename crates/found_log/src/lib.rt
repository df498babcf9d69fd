//! A log that is on a disk is read, judged and settled before it is gone on with (PostgreSQL's
//! StartupXLOG of xlog.c), whoever wrote it. It is refused if it stops as no crash of this
//! program lets one stop. Only behind that is anything called that changes the disk.
#![tactic(auto)]

mod fault;
mod finding;
mod foreign;
mod reading;
mod words_below;

pub use fault::FindFault;
pub use finding::{FoundLog, find, find_and_settle};
pub use words_below::WordsBelow;
