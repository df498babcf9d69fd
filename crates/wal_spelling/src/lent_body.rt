//! A body in an arena, where its bytes lie too.

ghost use Rattle.std.specs.Prelude.{◌≡◌, false, All, None, IfOk, IfErr, OnOk};
ghost use Rattle.wal_spelling.specs.Fitting.{FitsAfterHeader};
ghost use Rattle.wal_spelling.specs.Plain.{IsPlainSpelling};
ghost use Rattle.wal_spelling.specs.Record.{plain_record};
ghost use Rattle.wal_spelling.specs.Refusal.{RefusesToAssemble, refusal_of};
ghost use Rattle.wal_spelling.specs.Spelling.{IsWritable, RecordOf, after_header, assembled, assembled_of, is_assembled_switch};

use crate::assembly::spell_after_header;
use crate::body::{Body, crc_under_way, header_fits};
use crate::fault::BodyErr;
use crate::refusing::refusal;
use bumpalo::Bump;
use std::marker::Model;
use wal_crc32c::Crc;
use wal_types::{Record, Xid};

// A third less than a `Body`, which may have bytes of its own. This owns nothing, so nothing is
// lost where an arena drops nothing.
#[derive(Debug, Drop)]
pub(crate) struct LentBody<'a> {
    xid: Xid,
    rmid: u8,
    info: u8,
    crc: Crc,
    after_header: &'a [u8],
}

const _: () = prove!(size_of::<LentBody<'static>>() == 32);

impl<'a> Model for LentBody<'a> {
    ghost use Rattle.std.specs.Prelude.{◌≡◌, ◌++◌};
    ghost use Rattle.wal_crc32c.specs.Crc32c.{HasFed};
    ghost use Rattle.wal_spelling.specs.Spelling.{Assembled, RecordOf, assembled_of, header_front};

    ghost Value = { Assembled };

    ghost view = { λ b. assembled_of b.xid.0 b.rmid b.info b.after_header.now };

    ghost invariant = { λ b.
        let value = assembled_of b.xid.0 b.rmid b.info b.after_header.now in
        HasFed b.crc (b.after_header.now ++ header_front value 0) × RecordOf value };
}

impl<'a> LentBody<'a> {
    // `Body::assemble` with the bytes in an arena. They are spelled in the room, which holds none
    // that matter, and is there for the next record.
    pub(crate) fn assemble_in(
        bump: &'a Bump,
        room: &mut Vec<u8>,
        r: &Record,
    ) -> Result<LentBody<'a>, BodyErr>
        ensures ok { IfOk result (λ body. (body ≡ assembled r.now) × IsWritable r.now) }
        ensures inserted { IfOk result (λ body. is_assembled_switch body ≡ false) }
        ensures not_refused { OnOk result (refusal_of r.now ≡ None) }
        ensures which { IfErr result (λ e. RefusesToAssemble e r.now) }
    {
        if let Some(refusal) = refusal(r) {
            return Err(refusal);
        }
        spell_after_header(room, r)?;
        let bytes = bump.try_alloc_slice_copy(room)?;
        Ok(LentBody::of_record(r, bytes))
    }

    // The body of a record that was not refused, of the bytes behind its header.
    fn of_record(r: &Record, bytes: &'a [u8]) -> LentBody<'a>
        requires accepted { refusal_of r.now ≡ None }
        requires bytes { bytes.now ≡ after_header r.now }
        requires fits { FitsAfterHeader r.now }
        ensures ok { (result ≡ assembled r.now) × IsWritable r.now }
        ensures inserted { is_assembled_switch result ≡ false }
    {
        let Record {
            xid,
            rmid,
            info,
            ..
        } = *r;
        header_fits(xid, rmid, info);
        LentBody::of_parts(xid, rmid, info, bytes)
    }

    // The body of a record that has main data alone, by its parts and the bytes behind its header.
    #[inline(always)]
    pub(crate) fn of_plain(
        xid: Xid,
        rmid: u8,
        info: u8,
        main: &[u8],
        bytes: &'a [u8],
    ) -> LentBody<'a>
        requires { IsPlainSpelling rmid info main.now bytes.now }
        ensures ok { (result ≡ assembled (plain_record xid rmid info main.now))
            × IsWritable (plain_record xid rmid info main.now) }
        ensures inserted { is_assembled_switch result ≡ false }
    {
        header_fits(xid, rmid, info);
        LentBody::of_parts(xid, rmid, info, bytes)
    }

    #[inline(always)]
    fn of_parts(xid: Xid, rmid: u8, info: u8, bytes: &'a [u8]) -> LentBody<'a>
        requires { RecordOf (assembled_of xid.0 rmid info bytes.now) }
        ensures { result ≡ assembled_of xid.0 rmid info bytes.now }
    {
        LentBody {
            xid,
            rmid,
            info,
            crc: crc_under_way(xid, rmid, info, bytes),
            after_header: bytes,
        }
    }

    // As a body that can be inserted.
    #[inline(always)]
    pub(crate) fn as_body(&self) -> Body<'_>
        ensures { result ≡ self.now }
    {
        Body::of_lent(self.xid, self.rmid, self.info, self.after_header, self.crc)
    }
}
