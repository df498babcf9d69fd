//! A log that is read from pages which somebody else hands in, for a program that links the
//! library, which opens no file.
//!
//! `page` is a page as it was handed in, `pages` the disk of those that are held, and `reading`
//! reads a log's records from it. `host_log` names the log, and `laws` says what was read of it.
#![tactic(auto)]

mod host_log;
mod laws;
mod page;
mod pages;
mod reading;

pub use host_log::HostLog;
pub use laws::records_read_come_first;
pub use page::{HandedPage, PageNumber, read_ordered};
pub use pages::HandedPages;
pub use reading::{HandedReader, NextRecord};
