//! Reading a log's pages back into records (PostgreSQL's xlogreader.c). A caller has a `Reader` and
//! the disk for itself and asks for one record after another; each step reads and checks pages, and
//! makes no counted call. Nothing of a page or a record is believed before its checks.
#![tactic(auto)]

mod answers;
mod beginning;
mod buffers;
mod found;
mod gathering;
mod given;
mod laws;
mod layout;
mod log_reader;
mod page_cache;
mod page_checks;
mod page_cursor;
mod passing_over;
mod read_failure;
mod ready;
mod record_checks;
mod record_extent;
mod record_place;
mod record_reading;
mod record_start;
mod standing;

pub use found::{Answer, DamageKind, FoundRecord, RecordHead, Stopped};
pub use laws::{
    decoding_is_settled, finding_is_decoding, reading_is_computed, readings_decode,
    runs_give_fronts, switches_end_their_segment,
};
pub use log_reader::Reader;
pub use standing::{Comes, ReadErr, Step};
