// Which image of those that a crash may leave is made. A disk writes each word of eight bytes
// whole, and each on its own: so a pick may choose for each word, and for every image that a crash
// between two calls may leave there is a list that names it.
ghost use Rattle.std.specs.Prelude.{◌≡◌};
ghost use Rattle.segment_disk.specs.Crash.{numbers_of, takes_write};

/// Which of the images that a crash may leave: a word is undecided where its page was written since
/// its segment's last sync.
#[derive(Debug, Drop)]
pub enum Pick {
    /// Each undecided word is the durable one.
    Old,
    /// Each is the last write's.
    New,
    /// Words of odd index in their page are the last write's, the others durable.
    Odd,
    /// The k-th undecided word, counted by rising segment, page and index in the page, is that of
    /// the write of the k-th number among the writes to its page since the sync, 1 being the
    /// first. It is durable at 0, at a number above how many there are, and past the list's end.
    List(Vec<u32>),
}

impl Pick {
    /// The numbers that are listed, none where there is no list.
    pub(crate) fn numbers(&self) -> &[u32]
        ensures { result.now ≡ numbers_of self.now }
    {
        match self {
            Pick::List(numbers) => numbers,
            Pick::Old | Pick::New | Pick::Odd => &[],
        }
    }

    /// Whether a word of an undecided page takes the write of this number, so far the last one.
    /// `rest` has the numbers listed from this page on.
    pub(crate) fn takes_write(&self, rest: &[u32], number: usize, word: usize) -> bool
        ensures { result ≡ takes_write self.now rest.now number word }
    {
        match self {
            Pick::Old => false,
            Pick::New => true,
            Pick::Odd => word % 2 == 1,
            Pick::List(_) => rest.get(word).copied().unwrap_or(0) as usize == number,
        }
    }
}
