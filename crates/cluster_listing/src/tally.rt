//! What records add up to, by their managers and kinds.

ghost use Rattle.std.specs.Prelude.{◌≡◌, ◌+◌, ◌<◌, [], IfErr, IfOk};
ghost use Rattle.waldump_text.specs.Listing.{IsListable};
ghost use Rattle.waldump_text.specs.Sums.{images_len};
ghost use Rattle.waldump_text.specs.declared.sums.Sums.{Sums};
ghost use Rattle.cluster_listing.specs.Statistics.{TalliesKinds, kind_of};
ghost use Rattle.cluster_listing.specs.declared.taking.TakeErr.TheVariants.{Memory};

use crate::line::len_without_images;
use crate::taking::{TakeErr, TakesRecords};
use std::alloc::Global;
use waldump_filter::Listed;
use waldump_text::Sums;

const NO_SUMS: Sums = Sums {
    records: 0,
    images: 0,
    total: 0,
};

/// What was added up so far.
#[derive(Drop)]
pub(crate) struct KindTally {
    /// A row for each manager.
    pub(crate) managers: [Sums; 256],
    /// Sixteen rows for each manager, one for each kind of record.
    pub(crate) kinds: [Sums; 4096],
    pub(crate) all: Sums,
}

impl KindTally {
    /// Of no records.
    pub(crate) fn new() -> KindTally
        ensures { TalliesKinds result [] }
    {
        KindTally {
            managers: [NO_SUMS; 256],
            kinds: [NO_SUMS; 4096],
            all: NO_SUMS,
        }
    }
}

impl TakesRecords for KindTally {
    ghost use Rattle.std.specs.Prelude.{◌≡◌};
    ghost use Rattle.cluster_listing.specs.Statistics.{Adds};
    ghost use Rattle.cluster_listing.specs.declared.taking.TakeErr.TheVariants.{Memory};

    ghost took = { λ first now rs. Adds first now rs };

    ghost cut = { λ first now e rs. e ≡ Memory };

    fn take(&mut self, _alloc: Global, r: &Listed) -> Result<(), TakeErr> {
        let images = images_of(r);
        let rmid = r.value.rmid as usize;
        let kind = rmid * 16 + kind_of(r.value.rmid, r.value.info) as usize;
        self.managers[rmid] = with_one(self.managers[rmid], images, r.total)?;
        self.kinds[kind] = with_one(self.kinds[kind], images, r.total)?;
        self.all = with_one(self.all, images, r.total)?;
        Ok(())
    }
}

// How many bytes a record's images have together.
fn images_of(r: &Listed) -> u32
    requires { IsListable r.now }
    ensures { result ≡ images_len r.now.value.blocks }
{
    r.total - len_without_images(r)
}

// The kind of a record, by its manager and its info.
fn kind_of(rmid: u8, info: u8) -> u8
    ensures value { result ≡ kind_of rmid info }
    ensures few { result < 16 }
{
    if rmid == 1 { info / 16 % 8 } else { info / 16 }
}

// Sums with one record more. It fails only where the type has no room for more.
fn with_one(sums: Sums, images: u32, total: u32) -> Result<Sums, TakeErr>
    ensures more { IfOk result (λ more. more ≡ record {
      records = sums.records + 1;
      images = sums.images + images;
      total = sums.total + total;
    }) }
    ensures wanting { IfErr result (λ e. e ≡ Memory) }
{
    let Some(records) = sums.records.checked_add(1) else {
        return Err(TakeErr::Memory);
    };
    let Some(images) = sums.images.checked_add(u128::from(images)) else {
        return Err(TakeErr::Memory);
    };
    let Some(total) = sums.total.checked_add(u128::from(total)) else {
        return Err(TakeErr::Memory);
    };
    Ok(Sums {
        records,
        images,
        total,
    })
}
