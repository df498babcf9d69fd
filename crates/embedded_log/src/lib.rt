//! A log that a program links, which is not Rattle's: its calls try once and never wait, and the
//! program makes the calls of the disk.
//!
//! `session` is what one thread calls with, and `shared` what all sessions share. A log is opened
//! by `opening`, or gone on with by `reopening`, and its first session split by `splitting`. A
//! record is appended by `appending`, and a segment ended by `switching`; `flushing` tells that it
//! is durable. `ahead` answers a commit before that, and `behind` flushes behind such commits.
//! `closing` ends the log. `laws` says what all this comes to.
#![tactic(auto)]

mod ahead;
mod appending;
mod behind;
mod closing;
mod flushing;
mod laws;
mod opening;
mod reopening;
mod session;
mod shared;
mod splitting;
mod switching;

pub use appending::{Append, Appending};
pub use flushing::FlushRefusal;
pub use laws::{
    first_sessions_are_sole, sessions_live_on, sessions_may_cross, told_records_survive,
    two_lives_keep_told,
};
pub use opening::{OpenRefusal, open};
pub use reopening::{ReopenRefusal, ReopenStop, reopen};
pub use session::LogSession;
pub use shared::{FlushBusy, SharedLog};
pub use switching::SegmentSwitch;
