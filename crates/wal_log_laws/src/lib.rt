//! Laws of a log that passes share, for who embeds `Wal`. From its opening to its close: what was
//! told holds whatever a crash leaves. And over all its lives: a record that was promised to be
//! durable is in the log for ever.
#![tactic(auto)]

mod histories;
pub mod laws;
mod one_commit;
mod one_reopening;
pub mod unhindered;

pub use histories::{
    commits_are_promised, lone_passes_make_the_order, passes_make_the_order, promised_records_stay,
    three_lives_keep_promised,
};
pub use one_commit::commit_one;
pub use one_reopening::commit_and_reopen;
