use thiserror::Error;
use wal_reader::ReadErr;
use waldump_text::SinkFault;

/// Why a log was not sent to its end.
#[derive(Clone, Copy, Debug, PartialEq, Eq, Error)]
pub enum SendErr {
    /// The log was not read, or not made durable. `Disk` may come behind some frames, where a page
    /// could not be read again; the others only before the first one.
    #[error("{0}")]
    Read(ReadErr),
    #[error("the frames cannot be written")]
    Sink(SinkFault),
}

impl From<ReadErr> for SendErr {
    ghost use Rattle.std.specs.Prelude.{◌≡◌};
    ghost use Rattle.wal_stream.specs.declared.fault.SendErr.TheVariants as errors;

    ghost from_gives = { λ error e. e ≡ errors.Read error };

    fn from(error: ReadErr) -> SendErr {
        SendErr::Read(error)
    }
}

impl From<SinkFault> for SendErr {
    ghost use Rattle.std.specs.Prelude.{◌≡◌};
    ghost use Rattle.wal_stream.specs.declared.fault.SendErr.TheVariants as errors;

    ghost from_gives = { λ fault e. e ≡ errors.Sink fault };

    fn from(fault: SinkFault) -> SendErr {
        SendErr::Sink(fault)
    }
}
