//! A record as it is read from its bytes (PostgreSQL's DecodeXLogRecord of xlogreader.c), and what
//! holds of its spelling and its reading together.
#![tactic(auto)]

mod decoding;
mod fault;
mod head;
pub mod laws;
pub mod reading_laws;
mod unkept;

pub use decoding::{Headers, KeepsRecord, decode, decode_into, decode_stored};
pub use fault::{RecErr, RecKind};
pub use head::{BlockHead, ImageHead};
pub use unkept::Unkept;
pub use wal_spelling::{Body, BodyErr, refusal};
