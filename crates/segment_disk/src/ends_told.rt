//! How often a source has told its end, which clauses alone read.
ghost use Rattle.std.specs.Prelude.{◌≡◌, ℕ, ◌+◌};
ghost use Rattle.std.specs.Borrow.{ftrue};
ghost use Rattle.segment_disk.specs.Stream.{ends_after};

use std::fmt;
use std::marker::{Model, PhantomData};

/// How often a source has answered that nothing is left. It takes no memory and changes nothing
/// that runs: a source keeps one for its member `ends_told`, and notes each answer of a read.
#[derive(Drop)]
pub struct EndsTold {
    marker: PhantomData<u8>,
    pub ghost count: { ℕ },
}

impl Model for EndsTold {
    ghost also_owns = { λ _. ftrue };
}

impl EndsTold {
    pub fn new() -> EndsTold
        ensures { result.count ≡ 0 }
    {
        EndsTold {
            marker: PhantomData,
        }
    }

    /// Notes that a read into a piece of this room gave so many bytes.
    pub fn note(&mut self, room: usize, count: usize)
        ensures { self.new.count ≡ ends_after self.old.count room count }
    {
        if count == 0 && room > 0 {
            self.raise();
        }
    }

    fn raise(&mut self)
        ensures { self.new.count ≡ self.old.count + 1 }
    {}
}

impl fmt::Debug for EndsTold {
    fn fmt<W: fmt::Write>(&self, f: &mut fmt::Formatter<W>) -> fmt::Result {
        f.write_str("EndsTold")
    }
}
