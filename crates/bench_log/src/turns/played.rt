//! A machine that is played.

ghost use Rattle.std.specs.Prelude.{All};
ghost use Rattle.wal_core.specs.Lines.{InsertsNoSwitch};

use machine_state::Setup;
use std::alloc::Global;
use std::marker::Model;
use wal_core::{Core, CoreErr, Script, Turn};

/// A core that is as turns leave it, which is what its next turn rests on.
#[derive(Drop)]
pub struct PlayedCore {
    core: Core,
}

impl Model for PlayedCore {
    ghost use Rattle.wal_core.specs.declared.machine.Core.{Core};
    ghost use Rattle.wal_core.specs.Cores.{IsPlayed};

    ghost Value = { Core };

    ghost view = { λ p. p.core };

    ghost invariant = { λ p. IsPlayed p.core };
}

impl PlayedCore {
    /// A machine that begins with these scripts, on a disk that fails at these calls.
    pub fn new(
        alloc: Global,
        setup: Setup,
        scripts: Vec<Script>,
        fail: Vec<u64>,
    ) -> Result<PlayedCore, CoreErr>
        requires { All (All InsertsNoSwitch) scripts.items }
    {
        Ok(PlayedCore {
            core: Core::new(alloc, setup, scripts, fail)?,
        })
    }

    /// A turn of a backend; where it is not there nothing is changed.
    pub fn turn(&mut self, backend: u32) -> Turn {
        if backend < self.core.backends() {
            self.core.turn(backend)
        } else {
            Turn::Done
        }
    }
}
