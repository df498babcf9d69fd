//! The words of the ring as their users take them: a page is confirmed or mapped, a record's words
//! are copied to it, and it is written out.
//!
//! A page's buffer is its number modulo the number of buffers. The buffer's end word is the address
//! behind the page that it holds, 0 while that is replaced. With the page's own end met there, the
//! pass whose record owns a word of the page may store it; with the end word 0, who has the turn to
//! map zeros the buffer's words. A page is replaced only once the log is written up to its end, and
//! it is written only up to where all is copied. So the two never meet.
//!
//! With the writer in hand, what is known to be copied is written out, page by page (PostgreSQL's
//! xlog.c, XLogWrite). The pass has the turn to write and took the writer out of its slot; so the
//! device's calls come one after another. A watch that it had finished before tells up to where all
//! is copied. Here words of the ring are loaded and the device is called, and no shared word is
//! stored: how far the log is written and durable the caller stores behind it (wal_log). At the
//! first fault the calls end; the writer keeps the disk's count of faults, and stays in hand.
#![tactic(auto)]

mod calling;
mod confirming;
mod copying;
mod loading;
mod mapping;
mod reading;
mod writing;

pub use confirming::{Presence, confirm};
pub use copying::{copy_page, copy_present};
pub use loading::load_page;
pub use mapping::{MapTry, map_ahead, try_map};
pub use reading::{WriterNow, writer_now};
pub use writing::{sync_written, write_next};
