// What one thread of the program calls the log with.
ghost use Rattle.std.specs.Prelude.{◌≡◌, ◌≢◌, false};
ghost use Rattle.wal_spelling.specs.Spelling.{Assembled, assembled, is_assembled_switch};
ghost use Rattle.embedded_log.specs.Appended.{AnswersAppend};
ghost use Rattle.pgwal_c.specs.Told.{GoesOnHeld, HoldsAcross, KnowsFailedDisk, ProgramSession, SwitchesTold, TellsAppend, TellsBehind, TellsFlush, TellsRaised, TellsSessionCall, TellsSplit, TellsSwitch, nothing_given, record_asked};

use crate::answers::{
    BEHIND, BLOCK, BUSY, DONE, DOWN, FULL, IDLE, LONG, MANAGER, MEMORY, MISUSE, QUEUE, SESSIONS,
    UNRESERVED,
};
use crate::appending::append_whole;
use crate::blocks::BlockCall;
use crate::said::ProgramSaid;
use embedded_log::{Append, Appending, FlushBusy, FlushRefusal, LogSession, SegmentSwitch};
use std::alloc::Global;
use std::marker::Model;
use std::mem::ManuallyDrop;
use wal_log::{Caught, TryErr, TrySwitchErr};
use wal_spelling::{Body, BodyErr};
use wal_types::{BlockList, Image, Lsn};

/// What is asked of a session: another one, for another thread.
pub const SPLIT: u32 = 0;
/// A record is to be appended.
pub const APPEND: u32 = 1;
/// All below `upto` is to be made durable.
pub const FLUSH: u32 = 2;
/// The session makes no calls any more.
pub const END: u32 = 3;
/// The record that is appended next references a block.
pub const ADD_BLOCK: u32 = 4;
/// The block that is added next has an image.
pub const ADD_IMAGE: u32 = 5;
/// What the session has appended is answered before it is durable.
pub const RAISE: u32 = 6;
/// What was answered so is to be made durable.
pub const WRITE_BEHIND: u32 = 7;
/// The segment is to be ended, or what was begun of that to be gone on with.
pub const SWITCH: u32 = 8;

/// What is asked of a session, and what it told.
#[repr(C)]
#[derive(Drop)]
pub struct SessionCall {
    pub asked: u32,
    /// The record's transaction, resource manager and info bits.
    pub xid: u32,
    pub rmid: u8,
    pub info: u8,
    /// The block that is added, or whose image is.
    pub block: BlockCall,
    /// The address below which all is to be durable; or is so.
    pub upto: u64,
    /// Since which moment of the disk it is durable.
    pub moment: u64,
    /// Where the record starts and ends, or the segment switch.
    pub start: u64,
    pub end: u64,
    /// A number that belongs to the answer.
    pub detail: u64,
    /// The session that was split off.
    pub session: *mut u8,
}

/// A session until it ends.
#[derive(Drop)]
pub struct SessionHandle {
    pub(crate) alloc: Global,
    pub(crate) session: Option<LogSession<ProgramSaid>>,
    // A segment switch on its way, which has the session; and what a switch is spelled by.
    pub(crate) switching: Option<ManuallyDrop<Appending<'static, ProgramSaid>>>,
    pub(crate) switch: &'static Body<'static>,
    // How many bytes half of the ring has, and how many of the log a record may take up: all
    // sessions' together have room in the other half, but for a page. So what is not written never
    // fills the ring, and an append waits for no call of the disk.
    pub(crate) half: u64,
    pub(crate) share: u64,
    // Where the last record ends that was appended, and below which address all is written.
    pub(crate) end: u64,
    pub(crate) written: u64,
    // The blocks that the next record references, and the image of the one that is added next.
    pub(crate) blocks: BlockList,
    pub(crate) image: Option<Image>,
}

// Its session is open between two calls, as each call of it asks.
impl Model for SessionHandle {
    ghost use Rattle.std.specs.Prelude.{◌≡◌, IfSome};
    ghost use Rattle.std.specs.Mem.{manually_drop_value};
    ghost use Rattle.std.specs.Option.{option_map};
    ghost use Rattle.wal_spelling.specs.Record.{switch_record};
    ghost use Rattle.wal_spelling.specs.Spelling.{Assembled, assembled};
    ghost use Rattle.embedded_log.specs.Appended.{IsGoing};
    ghost use Rattle.embedded_log.specs.Sessions.{IsOpenSession};
    ghost use Rattle.pgwal_c.specs.Told.{SeenSession};

    ghost Value = { SeenSession };

    ghost view = { λ h. record {
      session = h.session;
      switching = option_map manually_drop_value h.switching;
      given = record { blocks = h.blocks; image = h.image };
    } };

    ghost invariant = { λ h. IfSome h.session (λ s. IsOpenSession s)
        × IfSome h.switching (λ m. (body : Assembled) × (old : _)
        × IsGoing body old (manually_drop_value m))
        × (h.switch.now ≡ assembled switch_record) };
}

fn body_answer(e: BodyErr, call: &mut SessionCall) -> u32
    ensures other { (result ≢ DONE) × (result ≢ FULL) × (result ≢ MISUSE) × (result ≢ DOWN) }
    ensures start { call.new.start ≡ call.old.start }
{
    match e {
        BodyErr::Memory => MEMORY,
        BodyErr::TooLong { len } => {
            call.detail = len;
            LONG
        }
        BodyErr::BadBlock { index } => {
            call.detail = u64::from(index);
            BLOCK
        }
        BodyErr::Switch | BodyErr::BadRmgr { .. } => MANAGER,
    }
}

// At least what a record of so many bytes takes up in the log, with the headers of its pages.
fn most_room(len: u32) -> u64 {
    u64::from(len) + u64::from(len) / 256 + 128
}

fn append_answer(e: TryErr, call: &mut SessionCall) -> u32
    ensures other { (result ≢ DONE) × (result ≢ MISUSE) × (result ≢ QUEUE) }
    ensures full { result ≡ FULL → e ≡ TryErr.Full call.new.detail }
    ensures down { result ≡ DOWN → e ≡ TryErr.Down call.new.detail }
    ensures start { call.new.start ≡ call.old.start }
{
    match e {
        TryErr::Busy { .. } | TryErr::AllHeld { .. } => BUSY,
        TryErr::Full { free } => {
            call.detail = free;
            FULL
        }
        TryErr::Down { faults } => {
            call.detail = faults;
            DOWN
        }
    }
}

fn switch_answer(e: TrySwitchErr, call: &mut SessionCall) -> u32
    ensures other { (result ≢ DONE) × (result ≢ QUEUE) }
    ensures down { result ≡ DOWN → e ≡ TrySwitchErr.Down call.new.detail }
{
    match e {
        TrySwitchErr::Busy { .. } | TrySwitchErr::Taken { .. } => BUSY,
        TrySwitchErr::Full { free } => {
            call.detail = free;
            FULL
        }
        TrySwitchErr::Down { faults } => {
            call.detail = faults;
            DOWN
        }
    }
}

fn flush_answer(e: FlushRefusal, call: &mut SessionCall) -> u32
    ensures other { (result ≢ DONE) × (result ≢ FULL) × (result ≢ IDLE) × (result ≢ MISUSE) }
    ensures behind { result ≡ BEHIND
        → e ≡ FlushRefusal.Behind (record { 0 = call.new.upto }) call.new.moment call.new.detail }
    ensures unreserved { result ≡ UNRESERVED
        → e ≡ FlushRefusal.Unreserved (record { 0 = call.new.end }) }
    ensures down { result ≡ DOWN → e ≡ FlushRefusal.Down call.new.detail }
    ensures start { call.new.start ≡ call.old.start }
{
    match e {
        FlushRefusal::Busy(FlushBusy::Queue) => QUEUE,
        FlushRefusal::Busy(_) => BUSY,
        FlushRefusal::Behind { upto, moment, made } => {
            call.upto = upto.0;
            call.moment = moment;
            call.detail = made;
            BEHIND
        }
        FlushRefusal::Unreserved { end } => {
            call.end = end.0;
            UNRESERVED
        }
        FlushRefusal::Down { faults } => {
            call.detail = faults;
            DOWN
        }
    }
}

impl SessionHandle {
    // Makes room in the ring for a record: of what is reserved, at most half the ring is not
    // written when a session appends. It asks for a sixteenth of that half, so what others have
    // written lately is not written again; a flush writes all that is copied. What is written lies
    // in the queue: until its calls are taken there is no room for the next flush.
    fn make_room(&mut self, call: &mut SessionCall) -> u32
        ensures goes_on { GoesOnHeld self.old.session self.new.session }
        ensures rest { self.new ≡ record self.old { session = self.new.session } }
        ensures gone { result ≡ MISUSE → self.new.session ≡ None }
        ensures down { result ≡ DOWN → HoldsAcross KnowsFailedDisk self.old self.new }
        ensures other { result ≢ FULL }
        ensures start { call.new.start ≡ call.old.start }
    {
        if self.end <= self.written.saturating_add(self.half) {
            return DONE;
        }
        call.upto = self.end.saturating_sub(self.half / 16 * 15);
        match self.flush(call) {
            BEHIND => DONE,
            answer => answer,
        }
    }

    // Appends a record, with the blocks that were added.
    fn append(&mut self, data: &[u8], call: &mut SessionCall) -> u32
        ensures tells { TellsAppend (assembled (record_asked self.old.given.blocks call.old
            «data».now)) self.old self.new call.old call.new result }
        ensures let_go { self.new
            ≡ record self.old { session = self.new.session; given = nothing_given } }
    {
        let body = match self.assemble(data, call) {
            Ok(body) => body,
            Err(e) => return body_answer(e, call),
        };
        if most_room(body.len()) > self.share {
            call.detail = self.share;
            return LONG;
        }
        match self.make_room(call) {
            DONE => self.append_body(&body, call),
            answer => answer,
        }
    }

    fn append_body<'a>(&mut self, body: &'a Body<'a>, call: &mut SessionCall) -> u32
        requires { is_assembled_switch body.now ≡ false }
        ensures tells { TellsAppend body.now self.old self.new call.old call.new result }
        ensures rest { self.new ≡ record self.old { session = self.new.session } }
    {
        let Some(session) = self.session.take() else {
            return MISUSE;
        };
        match append_whole(session, body) {
            Append::Reserved { receipt, session } => {
                self.session = Some(session);
                self.end = receipt.end.0;
                call.start = receipt.start.0;
                call.end = receipt.end.0;
                DONE
            }
            // So many tries never come.
            Append::Going(going) => {
                let _lost = unsafe { ManuallyDrop::new_unchecked(going) };
                MISUSE
            }
            Append::Refused { why, session } => {
                self.session = Some(session);
                append_answer(why, call)
            }
            Append::Down { session } => {
                self.session = Some(session);
                DOWN
            }
        }
    }

    // Ends the segment, as far as it goes: where a page of the ring has to be written before, the
    // disk's calls have to be made, and the next call of this kind goes on.
    fn end_segment(&mut self, call: &mut SessionCall) -> u32
        ensures { TellsSwitch self.old self.new call.new result }
    {
        if let Some(going) = self.switching.take() {
            let append = ManuallyDrop::into_inner(going).go_on();
            return self.switched(append, call);
        }
        let Some(session) = self.session.take() else {
            return MISUSE;
        };
        match session.switch(self.switch) {
            SegmentSwitch::Begun(append) => self.switched(append, call),
            SegmentSwitch::Stayed { end, session } => {
                self.session = Some(session);
                call.start = end.0;
                call.end = end.0;
                DONE
            }
            SegmentSwitch::Refused { why, session } => {
                self.session = Some(session);
                switch_answer(why, call)
            }
        }
    }

    // Keeps what a switch came to.
    fn switched(&mut self, append: Append<'static, ProgramSaid>, call: &mut SessionCall) -> u32
        requires { (body : Assembled) × (old : _) × AnswersAppend body old append }
        ensures { (body : Assembled) (s : ProgramSession) → AnswersAppend body s append.entry
            → SwitchesTold body s self.new call.new result }
    {
        match append {
            Append::Reserved { receipt, session } => {
                self.session = Some(session);
                self.end = receipt.end.0;
                call.start = receipt.start.0;
                call.end = receipt.end.0;
                DONE
            }
            Append::Going(going) => {
                self.switching = Some(unsafe { ManuallyDrop::new_unchecked(going) });
                QUEUE
            }
            Append::Refused { why, session } => {
                self.session = Some(session);
                append_answer(why, call)
            }
            Append::Down { session } => {
                self.session = Some(session);
                DOWN
            }
        }
    }

    // Makes all below an address durable.
    fn flush(&mut self, call: &mut SessionCall) -> u32
        ensures tells { TellsFlush self.old self.new call.old call.new result }
        ensures other { result ≢ FULL }
        ensures start { call.new.start ≡ call.old.start }
    {
        let Some(session) = &mut self.session else {
            return MISUSE;
        };
        let upto = call.upto;
        let answer = match session.flush(Lsn(upto)) {
            Ok(hard) => {
                call.upto = hard.upto.0;
                call.moment = hard.moment;
                DONE
            }
            Err(e) => flush_answer(e, call),
        };
        if matches!(answer, DONE | BEHIND) {
            self.written = self.written.max(call.upto);
        }
        answer
    }

    // Counts what was appended as answered.
    fn raise(&mut self) -> u32
        ensures { TellsRaised self.old self.new result }
    {
        let Some(session) = &mut self.session else {
            return MISUSE;
        };
        match session.raise_async() {
            Ok(()) => DONE,
            Err(_) => BUSY,
        }
    }

    // Flushes behind what was answered so.
    fn write_behind(&mut self, call: &mut SessionCall) -> u32
        ensures { TellsBehind self.old self.new call.new result }
    {
        let Some(session) = &mut self.session else {
            return MISUSE;
        };
        let answer = match session.write_behind() {
            Ok(Caught::Flushed(hard)) => {
                call.upto = hard.upto.0;
                call.moment = hard.moment;
                DONE
            }
            Ok(Caught::Idle { upto }) => {
                call.upto = upto.0;
                IDLE
            }
            Err(e) => flush_answer(e, call),
        };
        if matches!(answer, DONE | BEHIND | IDLE) {
            self.written = self.written.max(call.upto);
        }
        answer
    }

    // Splits a session off.
    fn split(&mut self, call: &mut SessionCall) -> u32
        ensures { TellsSplit self.old self.new result }
    {
        let Some(session) = &mut self.session else {
            return MISUSE;
        };
        let Some(other) = session.split() else {
            return SESSIONS;
        };
        let handle = SessionHandle {
            alloc: self.alloc,
            session: Some(other),
            switching: None,
            switch: self.switch,
            half: self.half,
            share: self.share,
            end: 0,
            written: 0,
            blocks: BlockList::none(self.alloc),
            image: None,
        };
        match Box::new(self.alloc, handle) {
            Ok(handle) => {
                call.session = Box::into_raw(handle) as *mut u8;
                DONE
            }
            Err(_) => MEMORY,
        }
    }
}

pub(crate) fn call_session(handle: &mut SessionHandle, data: &[u8], call: &mut SessionCall) -> u32
    ensures { TellsSessionCall «data».now handle.old handle.new call.old call.new result }
{
    match call.asked {
        SPLIT => handle.split(call),
        APPEND => handle.append(data, call),
        FLUSH => handle.flush(call),
        SWITCH => handle.end_segment(call),
        END => {
            let _ended = handle.session.take();
            DONE
        }
        ADD_BLOCK => handle.add_block(data, call),
        ADD_IMAGE => handle.add_image(data, call),
        RAISE => handle.raise(),
        WRITE_BEHIND => handle.write_behind(call),
        _ => MISUSE,
    }
}
