//! A record's place in the log is reserved, with the position locked for so long (PostgreSQL's
//! xlog.c, ReserveXLogInsertLocation, and ReserveXLogSwitch for a segment switch).
//!
//! The position word (0) is the byte position up to which records are reserved. It is odd while it
//! is locked: its lowest bit stands for the spinlock insertpos_lck. Anybody locks an even one. Then
//! only who locked it stores it again, and nobody else loads or stores the last start (word 1). A
//! byte position counts no page headers, so a reservation has nothing to do with pages; only a
//! switch asks where its segment ends.
#![tactic(auto)]

mod locking;
mod places;
mod reserving;
mod starting;
mod switching;

pub use reserving::{ReserveErr, Reserved, try_reserve, try_reserve_place};
pub use switching::{SwitchTry, try_reserve_switch};
