// The records that jobs insert, and that of a segment switch, which is none of them: it closes its
// segment under all insertion locks, by a call of its own. So a list of jobs needs no clause on its
// records.
ghost use Rattle.std.specs.Prelude.{◌≡◌, false};
ghost use Rattle.wal_spelling.specs.Record.{switch_record};
ghost use Rattle.wal_spelling.specs.Spelling.{assembled, is_assembled_switch};

use std::alloc::Global;
use std::marker::Model;
use wal_spelling::Body;

/// A record that is no segment switch.
#[derive(Drop)]
pub struct Insertion {
    body: Body<'static>,
}

impl Model for Insertion {
    ghost use Rattle.std.specs.Prelude.{◌≡◌, false};
    ghost use Rattle.wal_spelling.specs.Spelling.{Assembled, is_assembled_switch};

    ghost Value = { Assembled };

    ghost view = { λ i. i.body };

    ghost invariant = { λ i. is_assembled_switch i.body ≡ false };
}

impl Insertion {
    pub fn of(body: Body<'static>) -> Insertion
        requires { is_assembled_switch body ≡ false }
        ensures { result ≡ body.entry }
    {
        Insertion { body }
    }

    pub(crate) fn body(&self) -> &Body<'static>
        ensures body { result.now ≡ self.now }
        ensures inserted { is_assembled_switch result.now ≡ false }
    {
        &self.body
    }
}

/// A segment switch's record.
#[derive(Drop)]
pub struct SegmentEnd {
    body: Body<'static>,
}

impl Model for SegmentEnd {
    ghost use Rattle.std.specs.Prelude.{◌≡◌};
    ghost use Rattle.wal_spelling.specs.Record.{switch_record};
    ghost use Rattle.wal_spelling.specs.Spelling.{Assembled, assembled};

    ghost Value = { Assembled };

    ghost view = { λ e. e.body };

    ghost invariant = { λ e. e.body ≡ assembled switch_record };
}

impl SegmentEnd {
    pub fn new(alloc: Global) -> SegmentEnd {
        SegmentEnd {
            body: Body::switch(alloc),
        }
    }

    pub(crate) fn body(&self) -> &Body<'static>
        ensures { result.now ≡ assembled switch_record }
    {
        &self.body
    }
}
