//! A write-ahead log that several passes fill side by side: it is opened on a disk, its passes
//! insert, flush and commit as threads, and it is closed (PostgreSQL's xlog.c, XLogInsertRecord,
//! XLogFlush).
//!
//! `wal` says what a pass may hold at once. An insert is `inserting`: its place is reserved in
//! `beginning`, its words are copied in `copying`, its lock is given back in `landing`. Its steps
//! are calls of their own in `in_flight`. `switching` ends a segment, `switch_tries` by one try. A
//! flush is `flushing`; `promised` tells what is durable without one. `ahead` answers a commit
//! before it is durable, and `behind` flushes behind such commits. `writing` and `turns` serve a
//! flush, and an insert that needs a buffer; `held_locks` has the locks under which a record is
//! copied.
#![tactic(auto)]

mod ahead;
mod beginning;
mod behind;
mod closing;
mod committing;
mod copying;
mod fault;
mod flushing;
mod held_locks;
mod in_flight;
mod inserting;
mod landing;
pub mod numbers;
mod opening;
mod patience;
mod promised;
mod reopening;
mod room;
pub mod shared_numbers;
mod splitting;
mod switch_tries;
mod switching;
mod turns;
mod wal;
mod writing;

pub use beginning::TryErr;
pub use behind::Caught;
pub use closing::Closed;
pub use copying::{Copied, CopyStop};
pub use fault::Fault;
pub use flushing::{FlushErr, TryFlushErr};
pub use in_flight::Inflight;
pub use insert_locks::LockNo;
pub use inserting::{InsertErr, InsertErr as SwitchErr};
pub use machine_state::Setup;
pub use opening::{OpenFault, OpenFaultKind};
pub use reopening::Found;
pub use switch_tries::{SwitchBegun, TrySwitchErr};
pub use switching::Switch;
pub use wal::Wal;
pub use wal_rule::Pass;
pub use wal_types::{Cause, Hard, Receipt, Refused as CommitErr, Sealed};
