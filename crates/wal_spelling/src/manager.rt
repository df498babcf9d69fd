//! The numbers of resource managers (PostgreSQL's rmgr.h).

ghost use Rattle.std.specs.Prelude.{◌≡◌};
ghost use Rattle.wal_spelling.specs.Record.{is_free_manager};

/// Whether no manager has this number: neither one of PostgreSQL's own nor a custom one.
pub fn is_free_manager(rmid: u8) -> bool
    ensures { result ≡ is_free_manager rmid }
{
    matches!(rmid, 22..=127)
}
