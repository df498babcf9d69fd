// A backend's lines.
ghost use Rattle.std.specs.Prelude.{◌≡◌, IfOk};
ghost use Rattle.run_backends.specs.Backends.{HasRoom};

use run_laws::KeptTold;
use run_script::Line;
use std::alloc::{AllocError, Global};

/// A backend: its lines, and what they were told, in order.
#[derive(Debug, Drop)]
pub struct AnsweredLines<'a> {
    pub lines: Vec<Line<'a>>,
    pub told: Vec<KeptTold>,
}

impl<'a> AnsweredLines<'a> {
    /// A backend that was told nothing yet, with room for an answer to each line.
    pub fn of(alloc: Global, lines: Vec<Line<'a>>) -> Result<AnsweredLines<'a>, AllocError>
        ensures lines { IfOk result (λ backend. backend.lines ≡ lines.entry) }
        ensures room { IfOk result HasRoom }
    {
        let told = Vec::with_capacity(alloc, lines.len())?;
        Ok(AnsweredLines { lines, told })
    }
}
