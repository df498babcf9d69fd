//! What is printed of an answer.

use crate::place::ShownPlace;
use crate::trouble::PgmapErr;
use crate::word;
use crate::word::ShownWord;
use durable_map::MapTold;
use std::io::Write;
use wal_log::Sealed;

/// Prints what a line was told, or says why it cannot be done.
pub fn tell<W: Write>(out: &mut W, line: u64, told: MapTold) -> Result<(), PgmapErr> {
    match told {
        MapTold::Changed(Ok(Sealed { start, moment, .. })) => {
            writeln!(out, "ok {} {moment}", ShownPlace(start))?;
            Ok(())
        }
        MapTold::Changed(Err(error)) => Err(PgmapErr::of_refused(line, error)),
        MapTold::Value(Some(value)) => {
            writeln!(out, "{}", ShownWord(value.as_slice()))?;
            Ok(())
        }
        MapTold::Value(None) => {
            writeln!(out, "{}", word::NONE)?;
            Ok(())
        }
        MapTold::NoMemory => Err(PgmapErr::Memory),
    }
}
