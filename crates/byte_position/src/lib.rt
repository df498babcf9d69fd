//! Segments, pages and byte positions of a log.
#![tactic(auto)]

mod geometry;
mod laws;
mod layout;
mod position;

pub use geometry::{Geometry, segment_sizes_are_whole_pages};
pub use laws::{
    end_addresses_follow_the_byte_before, first_page_counts_on, pages_count_on,
    positions_and_addresses_correspond, positions_and_addresses_rise, segments_count_on,
    words_stay_whole,
};
pub use layout::{LONG_HEADER_LEN, PAGE_SIZE, PAGE_WORDS, Page, SHORT_HEADER_LEN, TIMELINE, WORD};
pub use position::address_by_counting;
