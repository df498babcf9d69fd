// The numbers of the insertion locks.

/// The number of an insertion lock, from 0 to 7.
#[derive(Clone, Copy, Debug, PartialEq, Eq)]
pub struct LockNo(pub u8);
