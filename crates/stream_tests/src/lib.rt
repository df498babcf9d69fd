//! Tests of a log that goes over a link as frames, and of a standby that takes them. The crate
//! itself is empty.
#![tactic(auto)]

#[cfg(test)]
mod answers;
#[cfg(test)]
mod frames;
#[cfg(test)]
mod links;
#[cfg(test)]
mod listed;
#[cfg(test)]
mod log;
#[cfg(test)]
mod primary;
#[cfg(test)]
mod received;
#[cfg(test)]
mod standbys;
#[cfg(test)]
mod stops;
