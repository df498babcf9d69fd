//! A moment of the machine as plain data.

use machine_state::Setup;
use machine_turns::PlainView;

/// A record that was reserved: the byte positions at which it starts and ends, the address at which
/// it starts, and the one at which the record before starts, 0 where there is none.
#[derive(Clone, Copy, Debug, PartialEq, Eq)]
pub struct ReservedSpan {
    pub start: u64,
    pub end: u64,
    pub address: u64,
    pub prev: u64,
}

/// What a backend knows, and which insertion lock it has taken and not released.
#[derive(Clone, Copy, Debug)]
pub struct BackendNow {
    pub view: PlainView,
    pub lock: Option<u32>,
}

/// All that the checks look at.
#[derive(Clone, Copy)]
pub struct MachineNow<'a> {
    pub setup: Setup,
    /// The words that all share, by their numbers.
    pub words: &'a [u64],
    /// The records that were reserved, in their order.
    pub order: &'a [ReservedSpan],
    /// The log's words from segment 1 on, as far as records are reserved.
    pub log: &'a [u64],
    pub backends: &'a [BackendNow],
}

/// What of the words is checked.
#[derive(Clone, Copy, Debug, PartialEq, Eq)]
pub enum Part {
    /// The position and the last start.
    Order,
    /// Who holds the insertion locks.
    Locks,
    /// Who has the turn to map and the turn to write.
    Turns,
    /// What the locks tell of copies.
    Progress,
    /// The words of the pages in the ring.
    Ring,
    /// Which pages the ring has.
    Pages,
    /// The written and flushed ends.
    Positions,
}
