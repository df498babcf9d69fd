//! Tests of the log that threads share, and of the table by which they do. The crate itself is
//! empty.
#![tactic(auto)]

#[cfg(test)]
mod answers;
#[cfg(test)]
mod behind;
#[cfg(test)]
mod filled;
#[cfg(test)]
mod held_sync;
#[cfg(test)]
mod in_flight;
#[cfg(test)]
mod opening;
#[cfg(test)]
mod reading;
#[cfg(test)]
mod records;
#[cfg(test)]
mod reopening;
#[cfg(test)]
mod rows;
#[cfg(test)]
mod side_by_side;
#[cfg(test)]
mod silent;
#[cfg(test)]
mod steps;
#[cfg(test)]
mod stuck;
#[cfg(test)]
mod switch_tries;
#[cfg(test)]
mod tables;
#[cfg(test)]
mod told;
