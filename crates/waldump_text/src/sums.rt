ghost use Rattle.std.specs.Prelude.{◌≡◌, ℕ, List, [], ◌∷◌, ◌++◌, ◌+◌, ◌^◌, ◌<◌, ◌≤◌};
ghost use Rattle.waldump_filter.specs.declared.listed.Listed.{Listed};
ghost use Rattle.waldump_text.specs.Listing.{IsListable};
ghost use Rattle.waldump_text.specs.Sums.{images_len};
ghost use Rattle.waldump_text.specs.Tally.{SumsFit, TallyFits, Tallies};
ghost use Rattle.waldump_text.specs.Weights.{Weighs};

use crate::block_refs::images_len;
use crate::weighing::Weight;
use wal_types::Block;
use waldump_filter::Listed;

/// What records add up to: how many they are, the bytes of their images, and all their bytes. No
/// count of records that fits makes the others too large for their type.
#[derive(Clone, Copy, Debug)]
pub struct Sums {
    pub records: u64,
    pub images: u128,
    pub total: u128,
}

impl Sums {
    const NONE: Sums = Sums {
        records: 0,
        images: 0,
        total: 0,
    };

    // With one record more, by the bytes of its images and all its bytes.
    fn with(self, images: u64, total: u32) -> Sums
        requires bounded { SumsFit (2 ^ 64) self }
        requires few { self.records + 1 < 2 ^ 64 }
        ensures { result ≡ record {
          records = self.records + 1;
          images = self.images + images;
          total = self.total + total;
        } }
    {
        Sums {
            records: self.records + 1,
            images: self.images + u128::from(images),
            total: self.total + u128::from(total),
        }
    }
}

/// A tally of records: what each manager's add up to, and what all do.
#[derive(Drop)]
pub(crate) struct Tally {
    pub(crate) own: [Sums; 256],
    pub(crate) all: Sums,
}

impl Tally {
    pub(crate) fn new() -> Tally
        ensures sound { TallyFits result }
        ensures none { result.all.records ≡ 0 }
        ensures tallies { Tallies result [] }
    {
        Tally {
            own: [Sums::NONE; 256],
            all: Sums::NONE,
        }
    }

    /// Adds what a record weighs.
    pub(crate) fn add(&mut self, weight: Weight)
        requires sound { TallyFits self.old }
        requires few { self.old.all.records + 1 < 2 ^ 64 }
        requires weighs { (r : Listed) × IsListable r × Weighs r weight }
        ensures sound { TallyFits self.new }
        ensures counted { self.new.all.records ≡ self.old.all.records + 1 }
        ensures tallies { (records : List Listed) (r : Listed) → Weighs r weight
            → Tallies self.old records → Tallies self.new (records ++ r ∷ []) }
    {
        let rmid = weight.rmid as usize;
        self.all = self.all.with(weight.images, weight.total);
        self.own[rmid] = self.own[rmid].with(weight.images, weight.total);
    }
}

// What a record weighs that is kept.
pub(crate) fn weight_of(r: &Listed) -> Weight
    requires { IsListable r.now }
    ensures { Weighs r.now result }
{
    Weight {
        rmid: r.value.rmid,
        images: images_within(r.value.blocks.as_slice(), r.total),
        total: r.total,
    }
}

// How many bytes the images of blocks have together, which are no more than these.
fn images_within(blocks: &[Block], total: u32) -> u64
    requires { images_len blocks.now ≤ total }
    ensures { result ≡ images_len blocks.now }
{
    u64::from(images_len(blocks))
}
