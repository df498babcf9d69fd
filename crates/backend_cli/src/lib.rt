//! The program's commands over sources, sinks and disks handed in.
#![tactic(auto)]

mod append;
mod dump;
mod generate;
mod laws;
mod outcome;
mod printing;
mod program;
mod reading;
mod receive;
mod redo;
mod replay;
mod run;
mod send;
mod setup;
mod told;

pub use laws::{
    handed_out_scripts_have_one_meaning, read_scripts_mean_all_that_was_left, runs_are_complete,
};
pub use outcome::Outcome;
pub use program::{Ended, pgwal};
pub use run_backends::{Gate, OpenGate};
pub use run_laws::{KeptTold, Told};
pub use told::ToldLists;
pub use wal_types::Cause;
