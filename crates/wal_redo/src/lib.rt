//! Redo of page images: the full-page images of a log's records are put into a store of blocks
//! (PostgreSQL's RestoreBlockImage of xlogreader.c, without the managers' own redo); and the lines
//! that tell which blocks a redo in memory fills.
#![tactic(auto)]

mod block_id;
mod blocks;
mod laws;
mod lines;
mod listing;
mod mem_blocks;
mod page_images;
mod put_calls;
mod redoing;

pub use block_id::BlockId;
pub use blocks::{Blocks, PutErr};
pub use laws::{redo_again_changes_nothing, redo_goes_on_behind_a_refusal};
pub use listing::list_redo;
pub use mem_blocks::MemBlocks;
pub use put_calls::PutCalls;
pub use redoing::{RedoErr, redo};
