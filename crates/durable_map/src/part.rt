//! Keys of a map, with the pass of the log by which their changes are logged: all of them, or those
//! of one thread. A change takes what memory it needs first. Then it is committed to the log, and
//! only behind that, where no call can fail, it is taken in.

ghost use Rattle.std.specs.Prelude.{◌≡◌, false, Some, None, option_map};
ghost use Rattle.wal_spelling.specs.Spelling.{is_assembled_switch};
ghost use Rattle.wal_log.specs.Committing.{AnswersCommit};
ghost use Rattle.wal_log.specs.Logs.{setup_of_log};
ghost use Rattle.wal_log.specs.Standing.{KeepsPass};
ghost use Rattle.durable_map.specs.Asked.{TellsPart, TellsValue};
ghost use Rattle.durable_map.specs.Stores.{AnswersCall, IsPartOfLog, part_held, view_of_part};

use crate::asked::{MapCall, MapTold};
use crate::change::{LONGEST, del_body, set_body};
use crate::entries::{Entries, fill_slot, make_slot, take_out};
use crate::fault::ChangeErr;
use segment_disk::Disk;
use std::alloc::Global;
use std::sync::Wait;
use wal_log::{CommitErr, Pass, Sealed, Wal};
use wal_spelling::Body;

/// Keys with their values, and a pass of the log that keeps them. One thread at a time has it.
#[derive(Drop)]
pub struct MapPart {
    pub(crate) entries: Entries,
    pub(crate) pass: Pass,
    pub(crate) alloc: Global,
}

impl MapPart {
    /// The keys in the order of their bytes; one with an empty slot has no value.
    pub fn entries(&self) -> &Entries
        ensures { result.now ≡ self.now.entries }
    {
        &self.entries
    }

    /// What a key has.
    pub fn get(&self, key: &[u8]) -> Option<&[u8]>
        ensures { option_map (λ value. value.now) result ≡ part_held self.now key.now }
    {
        match self.entries.get(key) {
            Some(Some(value)) => Some(value.as_slice()),
            _ => None,
        }
    }

    /// Gives a key a value. Once it is answered with its record's place and a moment of the disk,
    /// it is durable since that moment, and taken in.
    pub fn set<D: Disk, R: Wait>(
        &mut self,
        rt: &R,
        log: &Wal<D>,
        key: &[u8],
        value: Vec<u8>,
    ) -> Result<Sealed, ChangeErr>
        requires { IsPartOfLog log.now self.old }
        ensures { AnswersCall log.now (record { key = key.now; value = Some value.items })
            self.old self.new result }
    {
        if key.len() > LONGEST || value.len() > LONGEST {
            return Err(ChangeErr::TooLong);
        }
        let body = set_body(self.alloc, key, value.as_slice())?;
        make_slot(self.alloc, &mut self.entries, key)?;
        let sealed = self.commit(rt, log, &body)?;
        fill_slot(&mut self.entries, key, Some(value));
        Ok(sealed)
    }

    /// Takes a key out, if it is there or not; answered as a `set`.
    pub fn del<D: Disk, R: Wait>(
        &mut self,
        rt: &R,
        log: &Wal<D>,
        key: &[u8],
    ) -> Result<Sealed, ChangeErr>
        requires { IsPartOfLog log.now self.old }
        ensures { AnswersCall log.now (record { key = key.now; value = None })
            self.old self.new result }
    {
        if key.len() > LONGEST {
            return Err(ChangeErr::TooLong);
        }
        let body = del_body(self.alloc, key)?;
        let sealed = self.commit(rt, log, &body)?;
        take_out(&mut self.entries, key);
        Ok(sealed)
    }

    /// Does what is asked.
    pub fn answer<D: Disk, R: Wait>(&mut self, rt: &R, log: &Wal<D>, call: MapCall) -> MapTold
        requires { IsPartOfLog log.now self.old }
        ensures told { TellsPart log.now call self.old self.new result }
        ensures pass { IsPartOfLog log.now self.new }
        ensures keeps { KeepsPass (view_of_part self.old) (view_of_part self.new) }
    {
        match call {
            MapCall::Set { key, value } => {
                MapTold::Changed(self.set(rt, log, key.as_slice(), value))
            }
            MapCall::Del { key } => MapTold::Changed(self.del(rt, log, key.as_slice())),
            MapCall::Get { key } => self.told(key.as_slice()),
        }
    }

    // What a `get` is told.
    fn told(&self, key: &[u8]) -> MapTold
        ensures { TellsValue self.now key.now result }
    {
        match self.get(key) {
            Some(value) => match Vec::from_slice(self.alloc, value) {
                Ok(copy) => MapTold::Value(Some(copy)),
                Err(_) => MapTold::NoMemory,
            },
            None => MapTold::Value(None),
        }
    }

    pub(crate) fn into_pass(self) -> Pass
        ensures { result ≡ self.pass }
    {
        let MapPart { pass, .. } = self;
        pass
    }

    // Makes a record durable behind all that the log has. The entries stay as they are.
    pub(crate) fn commit<D: Disk, R: Wait>(
        &mut self,
        rt: &R,
        log: &Wal<D>,
        body: &Body,
    ) -> Result<Sealed, CommitErr>
        requires pass { IsPartOfLog log.now self.old }
        requires inserted { is_assembled_switch body.now ≡ false }
        ensures commits { AnswersCommit (setup_of_log log.now) body.now (view_of_part self.old)
            result (view_of_part self.new) }
        ensures entries { self.new.entries ≡ self.old.entries }
        ensures pass { IsPartOfLog log.now self.new }
        ensures keeps { KeepsPass (view_of_part self.old) (view_of_part self.new) }
    {
        log.commit(rt, &mut self.pass, body)
    }
}
