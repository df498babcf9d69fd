//! Laws of a standby through crashes, and of the orders of a primary that goes on behind one. No
//! code that runs.
#![tactic(auto)]

mod laws;

pub use laws::{
    histories_begin_on_left_disks, later_orders_begin, received_frames_are_lived,
    sent_frames_are_of_the_log, standbys_keep_their_promises,
};
