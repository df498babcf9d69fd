//! What statistics ask of each record that is read: its manager, the bytes of its images and all
//! its bytes, by its header and the heads of its blocks. Nothing of the record is kept.

ghost use Rattle.std.specs.Prelude.{◌≡◌, ◌<◌, ◌^◌};
ghost use Rattle.wal_record.specs.Reading.{image_len};
ghost use Rattle.waldump_filter.specs.Keeping.{has_rules, meets_rules};
ghost use Rattle.waldump_text.specs.Sums.{images_len};
ghost use Rattle.waldump_text.specs.Sifting.{images_by_heads, listed_with};
ghost use Rattle.waldump_text.specs.Weights.{TellsWeight};

use crate::sifting::{ByFilter, meets};
use std::alloc::Global;
use std::marker::PhantomData;
use wal_reader::RecordHead;
use wal_record::{BlockHead, Headers, ImageHead, KeepsRecord, RecErr, Unkept};
use wal_spelling::layout::RMID_AT;
use wal_types::Xid;
use waldump_filter::Filter;

/// What a record adds to statistics.
#[derive(Clone, Copy)]
pub(crate) struct Weight {
    pub(crate) rmid: u8,
    /// The bytes of its images.
    pub(crate) images: u64,
    /// All its bytes.
    pub(crate) total: u32,
}

/// What the record that was read last adds to statistics, and whether it meets a filter's rules.
#[derive(Drop)]
pub(crate) struct Weighed<B: ByFilter> {
    filter: Filter,
    /// Whether the filter has rules.
    asks: bool,
    meets: bool,
    rmid: u8,
    images: u64,
    unkept: Unkept,
    by: PhantomData<B>,
    ghost own: { filter ≡ B.filter },
    ghost asked: { asks ≡ has_rules filter },
    ghost met: { meets ≡ meets_rules filter unkept.spelled },
    ghost manager: { rmid ≡ unkept.spelled.rmid },
    ghost imaged: { images ≡ images_len unkept.spelled.blocks },
}

// How many bytes the images of blocks have together.
#[inline(always)]
fn images_of(heads: &[BlockHead]) -> u64
    requires { images_by_heads heads.now < 2 ^ 64 }
    ensures { result ≡ images_by_heads heads.now }
{
    if heads.is_empty() {
        return 0;
    }
    sum_of_images(heads)
}

// A call of its own, so that a record without blocks pays nothing for it.
#[inline(never)]
fn sum_of_images(heads: &[BlockHead]) -> u64
    requires { images_by_heads heads.now < 2 ^ 64 }
    ensures { result ≡ images_by_heads heads.now }
{
    let mut len = 0;
    for head in heads {
        len += u64::from(image_len(head.image));
    }
    len
}

fn image_len(image: Option<ImageHead>) -> u16
    ensures { result ≡ image_len image }
{
    image.map_or(0, |image| image.len)
}

impl<B: ByFilter> KeepsRecord for Weighed<B> {
    ghost kept = { λ weighed. weighed.unkept.spelled };

    #[inline(always)]
    fn keep(
        &mut self,
        alloc: Global,
        bytes: &[u8],
        heads: &[BlockHead],
        headers: Headers,
    ) -> Result<(), RecErr> {
        let mut unkept = Unkept::new();
        unkept.keep(alloc, bytes, heads, headers)?;
        self.meets = meets(&self.filter, self.asks, bytes, heads);
        self.rmid = bytes[RMID_AT];
        self.images = images_of(heads);
        self.unkept = unkept;
        Ok(())
    }
}

impl<B: ByFilter> Weighed<B> {
    /// Before any record.
    pub(crate) fn new(filter: &Filter) -> Weighed<B>
        requires { filter.now ≡ B.filter }
    {
        Weighed {
            filter: *filter,
            asks: filter.has_rules(),
            meets: filter.meets_header(0, Xid(0)) && !filter.asks_for_block() && !filter.fullpage,
            rmid: 0,
            images: 0,
            unkept: Unkept::new(),
            by: PhantomData,
        }
    }

    /// What the record that was read last adds, which stands here, where the filter keeps it.
    #[inline(always)]
    pub(crate) fn weight(&self, head: RecordHead) -> Option<Weight>
        ensures { TellsWeight B.filter (listed_with self.now.unkept.spelled head) result }
    {
        if !self.meets {
            return None;
        }
        if self.filter.start.0 <= head.start.0 {
            return Some(Weight {
                rmid: self.rmid,
                images: self.images,
                total: head.total,
            });
        }
        None
    }
}
