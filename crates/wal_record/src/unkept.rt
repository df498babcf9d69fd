//! A record that is read and checked, and not kept.

ghost use Rattle.std.specs.Prelude.{◌≡◌};
ghost use Rattle.std.specs.Borrow.{ftrue};
ghost use Rattle.wal_types.specs.declared.record.Record.{Record};
ghost use Rattle.wal_record.specs.Blank.{blank_record};
ghost use Rattle.wal_record.specs.Headers.{headers_said};
ghost use Rattle.wal_record.specs.Reading.{record_of};

use crate::decoding::Headers;
use crate::head::BlockHead;
use std::marker::{Brand, Model, PhantomData};

/// A record, which a call picks for the proof alone.
pub trait PicksSpelled {
    ghost spelled: { Record };
}

impl PicksSpelled for Brand {
    ghost spelled = { blank_record };
}

struct NoneSpelled;

impl PicksSpelled for NoneSpelled {
    ghost spelled = { blank_record };
}

/// Keeps nothing of the records that are decoded into it, for who asks only whether the bytes spell
/// records. It takes no memory, and only the proof knows which record was the last. All checks of a
/// decoder are made all the same; what no check looks into, main data and the blocks' images and
/// data, is not copied.
#[derive(Drop)]
pub struct Unkept {
    marker: PhantomData<u8>,
    /// The record that was spelled last.
    pub ghost spelled: { Record },
}

impl Model for Unkept {
    ghost also_owns = { λ _. ftrue };
}

impl Unkept {
    /// Before any record.
    pub fn new() -> Unkept
        ensures { result.spelled ≡ blank_record }
    {
        Unkept::of::<NoneSpelled>()
    }

    // Where these bytes were read, of which the headers say this.
    pub(crate) fn spelled_by(bytes: &[u8], heads: &[BlockHead], headers: Headers) -> Unkept
        ensures { result.spelled ≡ record_of bytes.now (headers_said heads.now headers.entry) }
    {
        Unkept::picked::<Brand>(bytes, heads, headers)
    }

    fn picked<B: PicksSpelled>(_bytes: &[u8], _heads: &[BlockHead], _headers: Headers) -> Unkept
        ensures { result.spelled ≡ B.spelled }
    {
        Unkept::of::<B>()
    }

    fn of<B: PicksSpelled>() -> Unkept
        ensures { result.spelled ≡ B.spelled }
    {
        Unkept {
            marker: PhantomData,
        }
    }
}
