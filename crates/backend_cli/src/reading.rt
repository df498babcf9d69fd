ghost use Rattle.std.specs.Prelude.{◌<◌, length};
ghost use Rattle.backend_cli.specs.Outside.{source_view};
ghost use Rattle.backend_cli.specs.Reading.{ReadsAll, ReadsUpto};

use run_script::SCRIPT_LIMIT;
use segment_disk::Source;
use std::alloc::{AllocError, Global};

/// Why a script could not be read.
#[derive(Clone, Copy, Debug, PartialEq, Eq)]
pub(crate) enum ScriptUnread {
    Memory,
    Source,
}

impl From<AllocError> for ScriptUnread {
    ghost use Rattle.std.specs.Prelude.{◌≡◌};
    ghost use Rattle.backend_cli.specs.declared.reading.ScriptUnread.TheVariants.{Memory};

    ghost from_gives = { λ _ e. e ≡ Memory };

    fn from(_e: AllocError) -> ScriptUnread {
        ScriptUnread::Memory
    }
}

// How many bytes are asked of the source at once.
const PIECE: usize = 65_536;

/// Reads a script to its end, or to one byte past its limit.
pub(crate) fn read_script<S: Source>(alloc: Global, source: &mut S) -> Result<Vec<u8>, ScriptUnread>
    ensures { ReadsAll
        (source_view S.left S.handed S.ends_told S.faults source.old)
        (source_view S.left S.handed S.ends_told S.faults source.new) result }
{
    let mut piece = vec![in alloc; 0u8; PIECE]?;
    read_upto(alloc, source, &mut piece, SCRIPT_LIMIT + 1)
}

// Reads a source to its end, or as many bytes as are asked for, each time into a piece.
fn read_upto<S: Source>(
    alloc: Global,
    source: &mut S,
    piece: &mut [u8],
    most: usize,
) -> Result<Vec<u8>, ScriptUnread>
    requires { 0 < length piece.old }
    ensures { ReadsUpto most
        (source_view S.left S.handed S.ends_told S.faults source.old)
        (source_view S.left S.handed S.ends_told S.faults source.new) result }
{
    let mut bytes = Vec::new(alloc);
    while bytes.len() < most {
        let wanted = piece.len().min(most - bytes.len());
        match source.read(&mut piece[..wanted]) {
            Ok(0) => return Ok(bytes),
            Ok(count) => bytes.extend_from_slice(&piece[..count])?,
            Err(_) => return Err(ScriptUnread::Source),
        }
    }
    Ok(bytes)
}
