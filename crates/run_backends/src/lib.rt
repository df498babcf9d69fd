//! The backends of a run: each has a pass of the log, and plays its lines in a thread of its own.
#![tactic(auto)]

mod backend;
mod gate;
mod lane;
mod lanes;
mod playing;
mod session;

pub use backend::AnsweredLines;
pub use gate::{Gate, OpenGate};
pub use playing::{PlayedRun, Room, play_backends};
