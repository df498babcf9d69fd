//! A log over a link: its pages as frames, a log that is sent as such into a sink, a standby that
//! takes them, and one that is fed with what a source hands out.
#![tactic(auto)]

mod answers;
mod fault;
mod fetching;
mod frames;
mod framing;
mod laws;
mod outcome;
mod reading;
mod receiving;
mod sending;
mod sent_steps;
mod standby;
mod syncing;

pub use answers::{Accepted, StandbyErr};
pub use fault::SendErr;
pub use framing::{FRAME_SIZE, FramedPage, frame};
pub use laws::{frames_of_log_pages_are_of_log, standbys_follow_the_log};
pub use outcome::{FrameCounts, Received, ReceivingEnd};
pub use receiving::receive;
pub use sending::send;
pub use sent_steps::received_frames_are_sent_steps;
pub use standby::{Standby, StandbyFault};
