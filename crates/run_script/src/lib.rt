//! Scripts of inserts, commits, flushes and segment switches, read into lines or made; the schedule
//! of a replay.
#![tactic(auto)]

mod backends;
mod blocks;
mod fields;
pub mod generated_laws;
mod generated_records;
mod generating;
mod hexadecimal;
mod images;
mod item;
pub mod laws;
mod line;
mod line_error;
mod parser;
mod records;
mod replay;
mod rooms;
mod run;
mod schedule;
pub mod schedule_laws;
mod schedule_parser;
mod text;

pub use generating::generate;
pub use item::Item;
pub use line::{Action, Line, Refusal, ScriptFault};
pub use parser::{ParseError, SCRIPT_LIMIT, parse};
pub use replay::{Replay, parse_replay};
pub use run::parse_run;
pub use schedule::{Schedule, ScheduleError};
pub use schedule_parser::parse_schedule;
