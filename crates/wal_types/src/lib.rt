//! The values of a write-ahead log: positions, transaction numbers and records, and what the calls
//! of a log answer.
#![tactic(auto)]

mod answers;
mod bytes;
mod hexadecimal;
mod lsn;
mod record;

pub use answers::{Cause, Hard, Receipt, Refused, Sealed};
pub use bytes::Bytes;
pub use hexadecimal::upper_hexadecimal;
pub use lsn::{Lsn, LsnText};
pub use record::{
    Block, BlockList, Image, MAX_BLOCK_NUMBER, Record, Rel, TRANSACTION_MANAGER, Xid,
};
