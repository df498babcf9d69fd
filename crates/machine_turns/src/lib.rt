//! The machine turn by turn: which step each backend makes next (`specs/Turned.antt`, and laws),
//! and its turns on plain data: what each place of the order of steps makes of the words, the
//! writer and the backend's own view, without a copy of any of them.
//!
//! Turns of all backends come one after another, so each has the words and the writer for itself
//! (`&mut`) and leaves them to the next one; what a backend holds beyond its turn (a lock, a turn,
//! the position, the writer) is said by the words and by its view, as among threads.
#![tactic(auto)]

mod doing;
mod event;
mod flush;
mod insert;
mod lane;
pub mod laws;
mod mapping;
mod script;
mod view;
mod writer;
mod writing;

pub use doing::{Made, PlainDoing, PlainNext, PlainPurpose};
pub use event::{Event, Turn};
pub use lane::PlainBackend;
pub use script::{PlainLine, Script};
pub use view::{PlainFlight, PlainHold, PlainPlace, PlainStage, PlainView, PlainWatching};
pub use writer::MachineWriter;
