// Which disk it is that the host has in its files.
ghost use Rattle.std.specs.Prelude.{List};
ghost use Rattle.hosted_disk.specs.HostSegments.{HostSegment};

/// The disk that the host has in its files, as it was before a log is opened on it. Nothing looks
/// at it when it runs: by it clauses say what holds where each page was handed in as this disk has
/// it. They hold for every disk.
pub trait HostDisk {
    /// Its segments.
    ghost segments: { List HostSegment };
}
