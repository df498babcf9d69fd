ghost use Rattle.wal_redo.specs.Again.{RedoAgainChangesNothing, RedoGoesOnBehindARefusal};

/// A law: behind a redo of all another one changes nothing.
pub fn redo_again_changes_nothing()
    ensures { RedoAgainChangesNothing }
{}

/// A law: behind a redo that was refused one of all leaves what one redo leaves.
pub fn redo_goes_on_behind_a_refusal()
    ensures { RedoGoesOnBehindARefusal }
{}
