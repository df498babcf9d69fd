// Nothing is known of what the program says by acknowledging calls: its word is taken.
ghost use Rattle.pgwal_c.specs.Told.{ProgramSays};

use std::sync::atomic::Rule;

pub struct ProgramSaid;

impl Rule for ProgramSaid {
    ghost invariant = { ProgramSays };
}
