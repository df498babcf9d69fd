//! The pages of a log on any disk: segments are made before their first page is written, pages are
//! written in place, and what is written is made durable segment by segment and on demand. The
//! protocol is told above `Writer`, and for any disk above `Disk` of segment_disk. What an image of
//! a log is (specs/Lawful) stands here for all who speak of crashes.
#![tactic(auto)]

mod laws;
mod planning;
mod protocol;
mod settling;
mod store;
mod writer;

pub use laws::{
    later_calls_change_no_earlier_image, settled_logs_are_found_again, settled_tapes_are_planned,
    synced_images_hold_what_was_put,
};
pub use planning::{SettlePlan, count_segments};
pub use protocol::{NextCall, next_behind, next_call};
pub use settling::{SettleFault, settle, sync_first};
pub use writer::{DiskFault, Writer};
