//! The bytes that a source has handed out, which clauses alone read.
ghost use Rattle.std.specs.Prelude.{◌≡◌, ℕ, List, [], ◌++◌};
ghost use Rattle.std.specs.Borrow.{ftrue};

use std::marker::{Model, PhantomData};

/// All bytes that a source has handed out so far. It takes no memory, and its methods do nothing
/// when they run: a source that cannot say from its own fields what it handed out keeps one, and
/// adds the front of each piece that it filled. It says something only through a source's member
/// `handed`, to a caller that is generic over the source.
#[derive(Drop)]
pub struct HandedOut {
    marker: PhantomData<u8>,
    pub ghost bytes: { List ℕ },
}

impl Model for HandedOut {
    ghost also_owns = { λ _. ftrue };
}

impl HandedOut {
    pub fn new() -> HandedOut
        ensures { result.bytes ≡ [] }
    {
        HandedOut {
            marker: PhantomData,
        }
    }

    pub fn add(&mut self, _bytes: &[u8])
        ensures { self.new.bytes ≡ self.old.bytes ++ _bytes.now }
    {}
}
