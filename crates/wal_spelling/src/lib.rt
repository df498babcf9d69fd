//! A record as it is spelled in the log (PostgreSQL's xlogrecord.h and xloginsert.c).
#![tactic(auto)]

mod assembly;
mod blocks;
mod body;
mod fault;
mod kept_body;
pub mod laws;
pub mod layout;
mod lent_body;
mod manager;
pub mod numbers;
mod plain;
mod putting;
mod refusing;
mod segment_switch;

pub use body::Body;
pub use fault::BodyErr;
pub use kept_body::KeptBody;
pub use manager::is_free_manager;
pub use plain::{FRONT, spell_plain_in};
pub use putting::last_word;
pub use refusing::refusal;
pub use segment_switch::{ends_segment, is_switch};
