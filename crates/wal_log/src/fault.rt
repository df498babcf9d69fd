// A failed disk, as a call meets it. Who made the device call that failed sets the down value; who
// comes behind it finds that.

/// Why a call broke off.
#[derive(Clone, Copy, Debug, PartialEq, Eq)]
pub enum Fault {
    /// This pass set the down value, to the disk's count of faults: a device call of its own failed
    /// in this call.
    Disk { faults: u64 },
    /// The down value was met, which somebody had set: the count that it told.
    Down { faults: u64 },
}
