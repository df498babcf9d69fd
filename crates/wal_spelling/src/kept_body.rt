//! A body as a line of a script keeps it: by a pointer, so that a line without a record is not as
//! large as one with a body.

ghost use Rattle.std.specs.Prelude.{◌≡◌, false, None, IfOk, IfErr, OnOk};
ghost use Rattle.wal_spelling.specs.Plain.{IsPlainSpelling};
ghost use Rattle.wal_spelling.specs.Record.{plain_record};
ghost use Rattle.wal_spelling.specs.Refusal.{RefusesToAssemble, refusal_of};
ghost use Rattle.wal_spelling.specs.Spelling.{IsWritable, assembled, is_assembled_switch};

use crate::body::Body;
use crate::fault::BodyErr;
use crate::lent_body::LentBody;
use bumpalo::Bump;
use std::alloc::{AllocError, Global};
use std::marker::Model;
use wal_types::{Record, Xid};

/// A body that lies in an arena, its bytes too, or in a box of its own.
#[derive(Debug, Drop)]
pub struct KeptBody<'a> {
    place: BodyPlace<'a>,
}

// What lies in an arena is never dropped: so no body that may have bytes of its own is put there.
#[derive(Debug, Drop)]
enum BodyPlace<'a> {
    Arena(&'a LentBody<'a>),
    Own(Box<Body<'a>>),
}

const _: () = prove!(size_of::<KeptBody<'static>>() == 16);

impl<'a> Model for KeptBody<'a> {
    ghost use Rattle.wal_spelling.specs.Spelling.{Assembled};
    ghost use Rattle.wal_spelling.specs.Kept.{body_at};

    ghost Value = { Assembled };

    ghost view = { λ kept. body_at kept.place };
}

impl<'a> KeptBody<'a> {
    /// A body in a box of its own.
    pub fn boxed(alloc: Global, body: Body<'a>) -> Result<KeptBody<'a>, AllocError>
        ensures { IfOk result (λ kept. kept ≡ body.entry) }
    {
        match Box::new(alloc, body) {
            Ok(body) => Ok(KeptBody {
                place: BodyPlace::Own(body),
            }),
            Err(_) => Err(AllocError),
        }
    }

    /// `Body::assemble`, with the body and its bytes in an arena. They are spelled in the room,
    /// which holds none that matter, and is there for the next record.
    pub fn assemble_in(
        bump: &'a Bump,
        room: &mut Vec<u8>,
        r: &Record,
    ) -> Result<KeptBody<'a>, BodyErr>
        ensures ok { IfOk result (λ body. (body ≡ assembled r.now) × IsWritable r.now) }
        ensures inserted { IfOk result (λ body. is_assembled_switch body ≡ false) }
        ensures not_refused { OnOk result (refusal_of r.now ≡ None) }
        ensures which { IfErr result (λ e. RefusesToAssemble e r.now) }
    {
        let body = LentBody::assemble_in(bump, room, r)?;
        Ok(KeptBody::in_arena(bump, body)?)
    }

    /// The body of a record that has main data alone, in an arena: by the record's parts and what
    /// stands behind its header, which lies there (`spell_plain_in`).
    #[inline(always)]
    pub fn of_plain_in(
        bump: &'a Bump,
        xid: Xid,
        rmid: u8,
        info: u8,
        main: &[u8],
        bytes: &'a [u8],
    ) -> Result<KeptBody<'a>, AllocError>
        requires { IsPlainSpelling rmid info main.now bytes.now }
        ensures ok { IfOk result (λ body. (body ≡ assembled (plain_record xid rmid info main.now))
            × IsWritable (plain_record xid rmid info main.now)) }
        ensures inserted { IfOk result (λ body. is_assembled_switch body ≡ false) }
    {
        KeptBody::in_arena(bump, LentBody::of_plain(xid, rmid, info, main, bytes))
    }

    // A body whose bytes lie in an arena.
    #[inline(always)]
    fn in_arena(bump: &'a Bump, body: LentBody<'a>) -> Result<KeptBody<'a>, AllocError>
        ensures { IfOk result (λ kept. kept ≡ body.entry) }
    {
        let Ok(body) = bump.try_alloc(body) else {
            return Err(AllocError);
        };
        Ok(KeptBody {
            place: BodyPlace::Arena(body),
        })
    }

    /// The body itself; of one in an arena the bytes stay there.
    pub fn into_body(self) -> Body<'a>
        ensures { result ≡ self.entry }
    {
        match self.place {
            BodyPlace::Arena(lent) => lent.as_body(),
            BodyPlace::Own(body) => Box::into_inner(body),
        }
    }

    /// The body, with the bytes that are kept.
    #[inline(always)]
    pub fn as_body(&self) -> Body<'_>
        ensures { result ≡ self.now }
    {
        let own = match &self.place {
            BodyPlace::Arena(lent) => return lent.as_body(),
            BodyPlace::Own(body) => body,
        };
        own.lent()
    }
}
