//! Laws of a log that goes on: a log that this program left on a disk, crashed or not, was found
//! there, settled, and opened behind what was found. No code that runs.
#![tactic(auto)]

mod laws;

pub use laws::{
    crashed_logs_were_left, crashed_settlings_were_left, disks_stay_sure, empty_disks_were_left,
    found_entries_come_first, found_logs_are_suited, left_logs_are_own, reopened_logs_are_suited,
    reopened_logs_survive_crashes, runs_make_sure, settled_logs_survive_crashes,
    stopped_logs_were_left, stopped_settlings_were_left, sure_entries_are_read,
};
