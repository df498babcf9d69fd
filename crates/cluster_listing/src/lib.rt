//! The listing of the log of a real cluster's folder: over any disk and any sink, records as lines,
//! and how the log ended.
#![tactic(auto)]

mod ending;
mod form;
mod json;
mod kinds;
mod line;
mod listing;
mod pieces;
mod printing;
mod statistics;
mod tail;
mod taking;
mod tally;
mod walking;

pub use ending::Ending;
pub use form::Form;
pub use kinds::{KindName, kind_name};
pub use listing::{Listing, list};
pub use printing::push_record;
pub use statistics::list_statistics;
pub use tail::list_tail;
pub use taking::TakeErr;
pub use walking::{ListErr, Walked};
