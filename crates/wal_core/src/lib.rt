//! The machine of many backends, played turn by turn over plain data (the replay of a schedule). A
//! caller makes a `Core` and gives turns to backends in any order; it takes no memory then. Nothing
//! runs beside it: the schedule alone says how the backends' steps interleave.
#![tactic(auto)]

mod beginning;
pub mod laws;
mod machine;

pub use machine::{Core, CoreErr};
pub use machine_state::Word;
pub use machine_turns::{
    Event, PlainDoing, PlainFlight, PlainHold, PlainLine as Line, PlainPlace, PlainPurpose,
    PlainStage, PlainView, PlainWatching, Script, Turn,
};
