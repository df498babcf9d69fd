ghost use Rattle.std.specs.Prelude.{ℕ, Option};
ghost use Rattle.byte_position.specs.Geometry.{IsSegmentSize};
ghost use Rattle.segment_disk.specs.Tape.{Tape};
ghost use Rattle.wal_reader.specs.Cache.{log_of};
ghost use Rattle.wal_reader.specs.Settled.{IsSettled};
ghost use Rattle.waldump_text.specs.Everything.{EverythingIsListed};

/// A disk's log always decodes to something, and to that alone, from whatever start and up to
/// whatever end: so what `dump` says of one decoding, it says of every.
pub fn decoding_is_settled()
    ensures { (size : ℕ) (t : Tape) (start : ℕ) (end : Option ℕ) → IsSegmentSize size
        → IsSettled size (log_of t size) start end }
{}

/// A law: by the filter that keeps everything from a start on, all that pages decode to from there
/// on is listed.
pub fn everything_is_listed()
    ensures { EverythingIsListed }
{}
