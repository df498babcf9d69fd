//! One theorem over all lives of a log, from what `pgwal` promises of each call: a record that was
//! told durable is in the log for ever. And what `pgwal receive` promises, as events of a standby's
//! history. No code that runs.
#![tactic(auto)]

mod laws;
mod standbys;

pub use laws::{receipts_tell_durable, three_lives_keep_all, told_records_stay};
pub use standbys::{receives_are_lived, three_receives_keep_all};
