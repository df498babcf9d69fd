//! The listing of a log's records, in the form of PostgreSQL's pg_waldump.
#![tactic(auto)]

mod block_refs;
mod calendar;
mod counting;
mod digits;
mod dumping;
mod laws;
mod line_buffer;
mod lines;
mod names;
mod putting;
mod quiet;
mod sifting;
mod statistics;
mod sums;
mod time_digits;
mod time_laws;
mod times;
mod weighing;

pub use calendar::Day;
pub use dumping::{DumpErr, dump};
pub use laws::{decoding_is_settled, everything_is_listed};
pub use lines::line;
pub use names::{ManagerName, RecordWord, manager_name, record_word};
pub use putting::{SinkFault, padding, put, put_all};
pub use statistics::stats;
pub use sums::Sums;
pub use time_laws::days_are_counted_from_2000;
pub use times::{TimeText, time_text};
pub use waldump_filter::{Filter, Listed, fork_name};
