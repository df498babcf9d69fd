//! The generator's lines, backend by backend.

ghost use Rattle.std.specs.Prelude.{◌<◌, ◌≤◌, IfOk};
ghost use Rattle.run_script.specs.Generated.{generated_lines, generated_script};
ghost use Rattle.run_script.specs.Bodies.{AreLinesOf};
ghost use Rattle.run_script.specs.ReplayReading.{AreBackendsOf};

use crate::generated_records::action;
use crate::line::Line;
use std::alloc::{AllocError, Global};

const BACKENDS: u32 = 4;

/// Makes the generator's script: four backends with so many lines each.
#[tactic(auto, unfolding(crate::specs::Generated::generated_script))]
pub fn generate(alloc: Global, lines: u32) -> Result<Vec<Vec<Line<'static>>>, AllocError>
    requires { lines ≤ 100000 }
    ensures { IfOk result (λ backends. AreBackendsOf (generated_script lines) backends.items) }
{
    let mut backends = Vec::new(alloc);
    for backend in 0..BACKENDS {
        backends.push(backend_lines(alloc, backend, lines)?)?;
    }
    Ok(backends)
}

// The lines of one backend.
fn backend_lines(alloc: Global, backend: u32, count: u32) -> Result<Vec<Line<'static>>, AllocError>
    requires backend { backend < 4 }
    requires count { count ≤ 100000 }
    ensures { IfOk result (λ lines. AreLinesOf (generated_lines backend count) lines.items) }
{
    let mut lines = Vec::new(alloc);
    for index in 0..count {
        lines.push(Line {
            number: index + 1,
            action: action(alloc, backend, index)?,
        })?;
    }
    Ok(lines)
}
