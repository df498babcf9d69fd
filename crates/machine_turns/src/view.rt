//! What a backend knows and is about, as plain numbers: what the machine's view has of it (`View`
//! of machine_state), as far as the next steps rest on it. It changes in the backend's own turns
//! alone. Which insertion lock a backend holds stands in its place (`PlainDoing`); the writer is
//! one for all.

/// How far a backend is with a reservation. `at` is the byte position that it locked, `prev` the
/// address at which the record before starts.
#[derive(Clone, Copy, Debug, PartialEq, Eq)]
pub enum PlainPlace {
    Free,
    Locked { at: u64 },
    Loaded { at: u64, prev: u64 },
    Stored { at: u64, prev: u64 },
}

/// The record that a backend copies: the byte position of its start, the address at which the one
/// before starts, the address of the next word to copy, and the address at which the record ends.
#[derive(Clone, Copy, Debug, PartialEq, Eq)]
pub enum PlainFlight {
    Landed,
    Copying {
        start: u64,
        prev: u64,
        next: u64,
        end: u64,
    },
}

/// What a backend watches for: an address, how many locks it has visited, and the address below
/// which all is copied of what they guard.
#[derive(Clone, Copy, Debug, PartialEq, Eq)]
pub struct PlainWatching {
    pub end: u64,
    pub visited: u32,
    pub bound: u64,
}

/// How far a backend is with mapping the page at an address, and how many of its words it zeroed.
#[derive(Clone, Copy, Debug, PartialEq, Eq)]
pub enum PlainStage {
    Away,
    Taken,
    Looked { at: u64 },
    Ready { at: u64 },
    Zeroing { at: u64, count: u32 },
    Published { at: u64 },
}

/// What a backend has of the turn to write: nothing, the turn, or the writer too, where all below
/// an address is known to be copied.
#[derive(Clone, Copy, Debug, PartialEq, Eq)]
pub enum PlainHold {
    Idle,
    Turned,
    Out { known: u64 },
}

/// What a backend knows and is about, as far as its next steps rest on it.
#[derive(Clone, Copy, Debug)]
pub struct PlainView {
    /// Its pass's number.
    pub number: u32,
    pub place: PlainPlace,
    /// A byte position that it has seen reserved.
    pub seen: u64,
    /// The address at which its last record ends; the log's start where it has none.
    pub last_end: u64,
    pub flight: PlainFlight,
    pub watching: PlainWatching,
    pub stage: PlainStage,
    pub hold: PlainHold,
}
