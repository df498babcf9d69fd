//! Backends that work side by side on one log, each with a pass of its own, as tests and programs
//! share them.
#![tactic(auto)]

mod insertion;
mod records;
mod worker;
mod workers;

pub use insertion::{Insertion, SegmentEnd};
pub use records::{CommitKind, commits, transaction};
pub use worker::{Job, LogAnswer, LogCall, Worker};
pub use workers::work_side_by_side;
