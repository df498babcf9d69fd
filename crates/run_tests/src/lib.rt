//! Tests of what backends are told, one alone and several in threads of their own, and of a
//! `receive` that is sent too many frames. The crate itself is empty.
#![tactic(auto)]

#[cfg(test)]
mod chains;
#[cfg(test)]
mod changed;
#[cfg(test)]
mod faults;
#[cfg(test)]
mod lines;
#[cfg(test)]
mod listed;
#[cfg(test)]
mod meeting;
#[cfg(test)]
mod others;
#[cfg(test)]
mod picks;
#[cfg(test)]
mod played;
#[cfg(test)]
mod random_lines;
#[cfg(test)]
mod reopening;
#[cfg(test)]
mod rows;
#[cfg(test)]
mod told;
#[cfg(test)]
mod too_many;
