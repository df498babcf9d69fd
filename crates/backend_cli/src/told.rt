ghost use Rattle.std.specs.Prelude.{◌≡◌, ◌==◌, ◌<◌, ◌≤◌, ◌^◌, [], length, slice_index_or, vec_capacity, vec_len};
ghost use Rattle.run_backends.specs.Backends.{lists_of};

use run_backends::AnsweredLines;
use run_laws::KeptTold;
use std::alloc::Global;
use std::marker::Model;

/// What each backend's lines were told, in order, seen by contracts as a list of lists.
#[derive(Debug, Drop)]
pub struct ToldLists {
    lists: Vec<Vec<KeptTold>>,
}

impl Model for ToldLists {
    ghost use Rattle.std.specs.Prelude.{List, length, map, ◌<◌, ◌^◌};
    ghost use Rattle.run_laws.specs.declared.told.Told.{Told};

    ghost Value = { List (List Told) };

    ghost view = { λ t. map (λ list. list.items) t.lists.items };

    ghost invariant = { λ t. length t.lists.items < 2 ^ 32 };
}

impl ToldLists {
    // No lists: the log was not opened.
    pub(crate) fn none(alloc: Global) -> ToldLists
        ensures { result ≡ [] }
    {
        ToldLists {
            lists: Vec::new(alloc),
        }
    }

    // What the lines of these backends were told, in the room there is.
    pub(crate) fn of_backends(room: Vec<Vec<KeptTold>>, backends: Vec<AnsweredLines>) -> ToldLists
        requires none { room.items ≡ [] }
        requires room { vec_len backends ≤ vec_capacity room }
        requires few { length backends.items < 2 ^ 32 }
        ensures { result ≡ lists_of backends.entry.items }
    {
        let mut lists = room;
        for backend in backends {
            lists.push_reserved(backend.told);
        }
        ToldLists { lists }
    }

    /// How many backends have a list.
    pub fn len(&self) -> u32
        ensures { result ≡ length self.now }
    {
        self.lists.len() as u32
    }

    pub fn is_empty(&self) -> bool
        ensures { result ≡ (length self.now == 0) }
    {
        self.lists.is_empty()
    }

    /// What a backend's lines were told.
    pub fn of(&self, backend: u32) -> &[KeptTold]
        requires { backend < length self.now }
        ensures { result.now ≡ slice_index_or self.now backend [] }
    {
        self.lists[backend as usize].as_slice()
    }
}
