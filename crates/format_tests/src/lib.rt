//! Tests of a log's values, records, positions and pages, of its reader, of logs that are found, of
//! a listing, and of redo; of scripts, schedules and command lines; of streams and disks, in memory
//! and over the system.
#![tactic(auto)]

#[cfg(test)]
mod calls;
#[cfg(test)]
mod crashes;
#[cfg(test)]
mod decoding;
#[cfg(test)]
mod failures;
#[cfg(test)]
mod files;
#[cfg(test)]
mod finding;
#[cfg(test)]
mod folders;
#[cfg(test)]
mod generated;
#[cfg(test)]
mod listing;
#[cfg(test)]
mod pages;
#[cfg(test)]
mod placing;
#[cfg(test)]
mod played;
#[cfg(test)]
mod positions;
#[cfg(test)]
mod reading;
#[cfg(test)]
mod redoing;
#[cfg(test)]
mod rows;
#[cfg(test)]
mod scripts;
#[cfg(test)]
mod spelling;
#[cfg(test)]
mod streams;
#[cfg(test)]
mod values;
#[cfg(test)]
mod words;
#[cfg(test)]
mod writing;
