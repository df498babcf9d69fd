//! Tests of what stands on the log beside pgwal: the map that it keeps, the log in programs that
//! are not Rattle's, and the lister for real folders. The crate itself is empty.
#![tactic(auto)]

#[cfg(test)]
mod embedded;
#[cfg(test)]
mod hosted;
#[cfg(test)]
mod listed;
#[cfg(test)]
mod map;
#[cfg(test)]
mod map_chain;
#[cfg(test)]
mod map_lanes;
