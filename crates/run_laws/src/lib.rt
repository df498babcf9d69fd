//! What the lines of a script are told, and laws of a run of several backends: what its log holds
//! in the end, by what its lines were told. And laws of a log that was closed: what crashes leave
//! of it, and what its passes were promised.
#![tactic(auto)]

pub mod closed;
pub mod closed_logs;
pub mod crashing;
pub mod endings;
mod kept;
pub mod laws;
pub mod lines;
pub mod rising;
mod told;

pub use kept::KeptTold;
pub use told::Told;
