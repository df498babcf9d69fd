//! The machine of a log that many backends fill side by side: its state, each step of it, and the
//! invariant that every step keeps (PostgreSQL's xlog.c, XLogInsertRecord, WALInsertLockAcquire,
//! GetXLogBuffer, AdvanceXLInsertBuffer, XLogWrite, as plain data). Its shared words as plain
//! numbers, which a replay and the log that threads share both take from here.
#![tactic(auto)]

mod first;
pub mod laws;
pub mod layout;
pub mod setup;
mod shape;
mod word;
mod words;

pub use first::LogEnd;
pub use setup::{Setup, is_setup};
pub use shape::LogShape;
pub use word::Word;
pub use words::MachineWords;
