ghost use Rattle.std.specs.Prelude.{◌≡◌};
ghost use Rattle.run_script.specs.Reading.{at_line};

use crate::line::{Refusal, ScriptFault};
use crate::parser::ParseError;
use std::alloc::{AllocError, AllocFailed};
use wal_spelling::BodyErr;

/// Why a line was not read.
#[derive(Clone, Copy, Debug)]
pub(crate) enum LineError {
    Memory,
    Fault(ScriptFault),
}

impl LineError {
    /// Why a script was not read, of which this line was not.
    pub(crate) fn at(self, line: u32) -> ParseError
        ensures { result ≡ at_line line self }
    {
        match self {
            LineError::Memory => ParseError::Memory,
            LineError::Fault(fault) => ParseError::Refused(Refusal { line, fault }),
        }
    }
}

impl From<AllocError> for LineError {
    ghost use Rattle.std.specs.Prelude.{◌≡◌};
    ghost use Rattle.run_script.specs.declared.line_error.LineError.TheVariants.{Memory};

    ghost from_gives = { λ _ e. e ≡ Memory };

    fn from(_e: AllocError) -> LineError {
        LineError::Memory
    }
}

impl<T: Drop> From<AllocFailed<T>> for LineError {
    ghost use Rattle.std.specs.Prelude.{◌≡◌};
    ghost use Rattle.run_script.specs.declared.line_error.LineError.TheVariants.{Memory};

    ghost from_gives = { λ _ e. e ≡ Memory };

    fn from(_e: AllocFailed<T>) -> LineError {
        LineError::Memory
    }
}

impl From<ScriptFault> for LineError {
    ghost use Rattle.std.specs.Prelude.{◌≡◌};
    ghost use Rattle.run_script.specs.declared.line_error.LineError.TheVariants.{Fault};

    ghost from_gives = { λ fault e. e ≡ Fault fault };

    fn from(fault: ScriptFault) -> LineError {
        LineError::Fault(fault)
    }
}

impl From<BodyErr> for LineError {
    ghost use Rattle.std.specs.Prelude.{◌≡◌};
    ghost use Rattle.run_script.specs.Reading.{line_error};

    ghost from_gives = { λ refusal e. e ≡ line_error refusal };

    fn from(refusal: BodyErr) -> LineError {
        match refusal {
            BodyErr::Memory => LineError::Memory,
            BodyErr::TooLong { .. } => LineError::Fault(ScriptFault::TooLong),
            BodyErr::BadBlock { .. } => LineError::Fault(ScriptFault::BadBlock),
            BodyErr::Switch => LineError::Fault(ScriptFault::Switch),
            BodyErr::BadRmgr { .. } => LineError::Fault(ScriptFault::BadManager),
        }
    }
}
