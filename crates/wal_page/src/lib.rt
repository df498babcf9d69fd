//! The order of a log's records, and its pages: which record owns which word of the log, what that
//! word is, and how a page that is read is checked. Nothing is shared or written here: who copies a
//! record asks `Placed` for its words one after another, and who reads a page `check_page`.
#![tactic(auto)]

mod checks;
mod header;
mod laws;
mod layout;
mod placed;
mod room;

pub use checks::{PageErr, PageInfo, check_page};
pub use laws::{
    bodies_take_up_their_records_rooms, entries_own_stretches, entries_start_behind_those_before,
    further_entries_change_only_their_own, logs_go_on_at_a_place, orders_grow_entry_by_entry,
    owned_words_are_numbered, records_take_up_their_rooms, switches_fill_their_segments,
    words_and_pages_are_their_bytes, words_are_their_owners,
};
pub use placed::{Placed, header_word};
pub use room::{next_segment, room_at};
