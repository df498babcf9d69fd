//! Tests of the machine of many backends; and what has to hold of all its words at any moment, over
//! plain data: slow, and written to be read. Each check's contract is the definition of what it
//! checks.
#![tactic(auto)]

#[cfg(test)]
mod checks;
mod fault;
#[cfg(test)]
mod lines;
mod locks;
mod moment;
#[cfg(test)]
mod opening;
mod order;
mod pages;
#[cfg(test)]
mod played;
mod positions;
mod progress;
#[cfg(test)]
mod reserved;
mod ring;
#[cfg(test)]
mod schedule;
#[cfg(test)]
mod schedules;
mod turn_words;
#[cfg(test)]
mod turns;
mod words;

pub use fault::{agrees, fault_of};
pub use moment::{BackendNow, MachineNow, Part, ReservedSpan};
