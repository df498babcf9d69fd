ghost use Rattle.std.specs.Prelude.{◌≡◌, [], ◌∷◌, codes};
ghost use Rattle.wal_types.specs.LsnText.{lsn_text};
ghost use Rattle.waldump_text.specs.Put.{Puts, joined};
ghost use Rattle.backend_cli.specs.Outcome.{status_of, outcome_text};

use crate::reading::ScriptUnread;
use run_script::{ParseError, Refusal};
use segment_disk::Sink;
use wal_reader::Stopped;
use wal_types::Lsn;
use waldump_text::{SinkFault, put_all};

/// How a command ends: the first of its causes, in the order of the statuses
/// 1, 2, 7, 3, 9, 10, 4, 11, 6, 5, 8.
#[derive(Clone, Copy, Debug)]
pub enum Outcome {
    Done,
    OutOfMemory,
    /// The words ask for nothing.
    Usage,
    SourceFault,
    /// The script is refused at a line.
    ScriptRefused(Refusal),
    /// Segment 1 was there before the run.
    NotEmpty,
    /// The log that is to be gone on with has more segments than it may fill.
    BeyondCap,
    DiskFault,
    /// The log that is listed or redone does not come to a clean end; the one that is to be gone on
    /// with stops as no crash of this program lets one stop.
    Stopped(Stopped),
    /// A frame came of another log than that of the copy, which has another word here.
    Diverged { at: Lsn },
    /// More frames came than are taken at once.
    TooManyFrames,
    /// A line found the log full.
    LogFull,
    SinkFault,
}

impl From<ScriptUnread> for Outcome {
    ghost use Rattle.std.specs.Prelude.{◌≡◌};
    ghost use Rattle.backend_cli.specs.Outcome.{outcome_unread};

    ghost from_gives = { λ failure outcome. outcome ≡ outcome_unread failure };

    fn from(failure: ScriptUnread) -> Outcome {
        match failure {
            ScriptUnread::Memory => Outcome::OutOfMemory,
            ScriptUnread::Source => Outcome::SourceFault,
        }
    }
}

impl From<ParseError> for Outcome {
    ghost use Rattle.std.specs.Prelude.{◌≡◌};
    ghost use Rattle.backend_cli.specs.Outcome.{outcome_unparsed};

    ghost from_gives = { λ error outcome. outcome ≡ outcome_unparsed error };

    fn from(error: ParseError) -> Outcome {
        match error {
            ParseError::Memory => Outcome::OutOfMemory,
            ParseError::Refused(refusal) => Outcome::ScriptRefused(refusal),
        }
    }
}

impl Outcome {
    /// The exit status.
    pub fn status(self) -> u8
        ensures { result ≡ status_of self }
    {
        match self {
            Outcome::Done => 0,
            Outcome::OutOfMemory => 1,
            Outcome::Usage => 2,
            Outcome::ScriptRefused(_) => 3,
            Outcome::DiskFault => 4,
            Outcome::LogFull => 5,
            Outcome::Stopped(_) => 6,
            Outcome::Diverged { .. } => 6,
            Outcome::SourceFault => 7,
            Outcome::SinkFault => 8,
            Outcome::NotEmpty => 9,
            Outcome::BeyondCap => 10,
            Outcome::TooManyFrames => 11,
        }
    }

    // Puts the line that tells it, if there is one.
    pub(crate) fn tell<E: Sink>(self, err: &mut E) -> Result<(), SinkFault>
        ensures { Puts (E.taken err.old) (E.taken err.new) (E.faults err.old) (E.faults err.new)
            (joined (outcome_text self)) result }
    {
        match self {
            Outcome::Done => put_all(err, &[]),
            Outcome::OutOfMemory => put_all(err, &[b"pgwal: out of memory\n"]),
            Outcome::Usage => put_all(err, &[b"pgwal: usage\n"]),
            Outcome::SourceFault => put_all(err, &[b"pgwal: source fault\n"]),
            Outcome::ScriptRefused(refusal) => tell_refusal(refusal, err),
            Outcome::NotEmpty => put_all(err, &[b"pgwal: log not empty\n"]),
            Outcome::BeyondCap => put_all(err, &[b"pgwal: log beyond cap\n"]),
            Outcome::DiskFault => put_all(err, &[b"pgwal: disk fault\n"]),
            Outcome::Stopped(stopped) => tell_stop(stopped, err),
            Outcome::Diverged { at } => tell_damage(at, "diverged", err),
            Outcome::TooManyFrames => put_all(err, &[b"pgwal: too many frames\n"]),
            Outcome::LogFull => put_all(err, &[b"pgwal: log full\n"]),
            Outcome::SinkFault => put_all(err, &[b"pgwal: sink fault\n"]),
        }
    }
}

fn tell_refusal<E: Sink>(refusal: Refusal, err: &mut E) -> Result<(), SinkFault>
    ensures { Puts (E.taken err.old) (E.taken err.new) (E.faults err.old) (E.faults err.new)
        (joined (outcome_text (Outcome.ScriptRefused refusal))) result }
{
    let mut number = itoa::Buffer::new();
    let line = number.format(refusal.line);
    put_all(
        err,
        &[
            b"pgwal: script line ",
            line.as_bytes(),
            b": ",
            refusal.fault.name().as_bytes(),
            b"\n",
        ],
    )
}

fn tell_stop<E: Sink>(stopped: Stopped, err: &mut E) -> Result<(), SinkFault>
    ensures { Puts (E.taken err.old) (E.taken err.new) (E.faults err.old) (E.faults err.new)
        (joined (outcome_text (Outcome.Stopped stopped))) result }
{
    match stopped {
        Stopped::Damaged { at, kind } => tell_damage(at, kind.name(), err),
        Stopped::Compressed { at } => tell_damage(at, "compressed", err),
        Stopped::Overwritten { at } => tell_damage(at, "overwritten", err),
    }
}

fn tell_damage<E: Sink>(at: Lsn, what: &str, err: &mut E) -> Result<(), SinkFault>
    ensures { Puts (E.taken err.old) (E.taken err.new) (E.faults err.old) (E.faults err.new)
        (joined (codes "pgwal: damaged at " ∷ lsn_text at.0 ∷ codes ": " ∷ what.now ∷ codes "\n"
        ∷ [])) result }
{
    put_all(
        err,
        &[
            b"pgwal: damaged at ",
            at.text().as_bytes(),
            b": ",
            what.as_bytes(),
            b"\n",
        ],
    )
}
