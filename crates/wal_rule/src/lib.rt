//! The table of the words that several backends share, with the writer in its slot; its rule is the
//! machine's invariant.
//!
//! Each kind of step of the machine is one call: one load, store or exchange of one word, or one
//! call of the device with the load by which the view is told of it. It is made by a pass that is
//! seated at the table (`SeatedPass`), if its view lets it make that step (`may`). The step may
//! come between any two steps of others; behind it the pass's view is the machine's (`steps`). What
//! a word held when it was met is told (`met`); what it holds later only the view can say, since
//! others step meanwhile.
#![tactic(auto)]

pub mod beginnings;
mod closing;
mod company;
mod device;
pub mod downs;
mod giving_up;
mod joining;
mod locks;
mod mapping;
mod memory;
pub mod numbers;
mod opening;
mod pass;
mod place;
mod plays;
mod positions;
mod quiet;
mod reserving;
mod resuming;
mod ring;
mod seated;
mod seats;
mod table;
mod turns;
mod unbegun;
pub mod words;
mod writer;

pub use company::Company;
pub use opening::OpenErr;
pub use pass::Pass;
pub use place::{OrderPlace, PicksPlace};
pub use plays::OfKind;
pub use resuming::ResumeErr;
pub use seated::SeatedPass;
pub use seats::{Founding, PassView};
pub use table::{LogRule, LogSeat, LogTable};
pub use writer::LogWriter;
