//! What is asked of a map, and what it tells, as values: for who reads commands, or hands them to
//! another thread.

ghost use Rattle.std.specs.Prelude.{◌≡◌};
ghost use Rattle.durable_map.specs.Asked.{key_of_call};

use crate::fault::ChangeErr;
use wal_log::Sealed;

/// A call of a map.
#[derive(Debug, Drop)]
pub enum MapCall {
    Set { key: Vec<u8>, value: Vec<u8> },
    Get { key: Vec<u8> },
    Del { key: Vec<u8> },
}

impl MapCall {
    /// The key that it is about.
    pub fn key(&self) -> &[u8]
        ensures { result.now ≡ key_of_call self.now }
    {
        match self {
            MapCall::Set { key, .. } | MapCall::Get { key } | MapCall::Del { key } => {
                key.as_slice()
            }
        }
    }
}

/// What it was told.
#[derive(Debug, Drop)]
pub enum MapTold {
    /// Of a `set` or a `del`.
    Changed(Result<Sealed, ChangeErr>),
    /// Of a `get`: what the key has.
    Value(Option<Vec<u8>>),
    /// There was no memory for the value that a `get` found.
    NoMemory,
}
