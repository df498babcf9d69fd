//! Records printed into a sink as they come.

ghost use Rattle.std.specs.Prelude.{◌≡◌, ◌++◌, OnOk};
ghost use Rattle.waldump_text.specs.Listing.{IsListable};
ghost use Rattle.cluster_listing.specs.Form.{record_text};

use crate::form::Form;
use crate::json::push_object;
use crate::line::push_line;
use crate::taking::{TakeErr, TakesRecords};
use segment_disk::Sink;
use std::alloc::{AllocError, Global};
use waldump_filter::Listed;
use waldump_text::put;

/// A sink that takes records in a form.
#[derive(Drop)]
pub(crate) struct Printer<O: Sink + Drop> {
    pub(crate) form: Form,
    pub(crate) out: O,
    /// Room for a record's text.
    pub(crate) line: Vec<u8>,
}

impl<O: Sink + Drop> TakesRecords for Printer<O> {
    ghost use Rattle.std.specs.Prelude.{◌≡◌};
    ghost use Rattle.cluster_listing.specs.Listing.{PutAll, PutFront, records_text};

    ghost took = { λ first now rs. (now.form ≡ first.form) × PutAll (O.taken first.out)
        (O.taken now.out) (O.faults first.out) (O.faults now.out) (records_text first.form rs) };

    ghost cut = { λ first now e rs. PutFront (O.taken first.out) (O.taken now.out)
        (O.faults first.out) (O.faults now.out) e (records_text first.form rs) };

    fn take(&mut self, _alloc: Global, r: &Listed) -> Result<(), TakeErr> {
        self.line.clear();
        push_record(&mut self.line, self.form, r)?;
        put(&mut self.out, &self.line)?;
        Ok(())
    }
}

/// Appends what a form prints of a record.
pub fn push_record(line: &mut Vec<u8>, form: Form, r: &Listed) -> Result<(), AllocError>
    requires { IsListable r.now }
    ensures { OnOk result (line.new.items ≡ line.old.items ++ record_text form r.now) }
{
    match form {
        Form::Quiet => Ok(()),
        Form::Line { whole } => push_line(line, whole, r),
        Form::Json { whole } => push_object(line, whole, r),
    }
}
