//! A map of keys to values, both bytes, that a log keeps: each change is a record of the log, is
//! durable before it is answered, and is taken into the map behind that. An opening makes the map
//! of the changes that the log says.
//!
//! It is a program as a user of wal_log would write it, with nothing but the clauses of the crates
//! below. `change` spells a change and reads it back, `entries` takes one in, `opening` reads a
//! log, `part` has the calls of keys that one thread has, `store` the map of one thread, `sharing`
//! deals its keys to several.
#![tactic(auto)]

mod asked;
mod change;
mod entries;
mod fault;
pub mod laws;
mod one_set;
mod opening;
mod part;
mod sharing;
mod store;
mod two_lanes;

pub use asked::{MapCall, MapTold};
pub use change::{LONGEST, MANAGER, ReadChange, del_body, read_change, set_body};
pub use entries::Entries;
pub use fault::{ChangeErr, MapFault, MapFaultKind};
pub use one_set::set_and_reopen;
pub use part::MapPart;
pub use sharing::SharedMap;
pub use store::DurableMap;
pub use two_lanes::share_and_reopen;
