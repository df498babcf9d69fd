//! CRC-32C of bytes, in whatever pieces they come.
#![tactic(auto)]

mod carries;
mod crc;
mod division;
mod folding;
mod half_bytes;
mod sparse_multiple;
mod tables;

pub use crc::Crc;
pub use division::crc32c_by_division;
pub use half_bytes::{high_looked_up, low_looked_up};
