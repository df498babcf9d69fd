//! What a log's writer puts into its pages, as a reader finds it: laws over the writer's
//! definitions and the reader's.
#![tactic(auto)]

mod laws;

pub use laws::{
    agreeing_logs_decode_alike, found_logs_stand, lawful_images_decode, settled_logs_decode,
    torn_records_are_seen, written_log_decodes,
};
