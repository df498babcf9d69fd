ghost use Rattle.std.specs.Prelude.{◌≡◌, codes};
ghost use Rattle.run_script.specs.Text.{is_text};

/// Whether a field says that there is nothing.
pub(crate) fn is_dash(field: &[u8]) -> bool
    ensures { result ≡ is_text field.now (codes "-") }
{
    matches!(field, [b'-'])
}
