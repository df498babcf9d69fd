// Which log it is whose pages are handed in.
ghost use Rattle.segment_disk.specs.Tape.{DiskState};

/// The log that the host has in its files. Nothing looks at it when it runs: by it clauses say what
/// holds where each page was handed in as this log has it. They hold for every log.
pub trait HostLog {
    /// The log's segments.
    ghost state: { DiskState };
}
