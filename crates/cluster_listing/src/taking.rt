//! What records are handed to, one behind another, while a log is read.

ghost use Rattle.std.specs.Prelude.{List, [], ◌∷◌, IfErr, OnOk};
ghost use Rattle.waldump_filter.specs.declared.listed.Listed.{Listed};
ghost use Rattle.waldump_text.specs.Listing.{IsListable};
ghost use Rattle.cluster_listing.specs.Taking.{CutMore, TookMore};

use std::alloc::{AllocError, AllocFailed, Global};
use thiserror::Error;
use waldump_filter::Listed;
use waldump_text::SinkFault;

/// Why a record was not taken.
#[derive(Clone, Copy, Debug, PartialEq, Eq, Error)]
pub enum TakeErr {
    #[error("out of memory")]
    Memory,
    #[error("the listing cannot be written")]
    Sink(SinkFault),
}

impl<T: Drop> From<AllocFailed<T>> for TakeErr {
    ghost use Rattle.std.specs.Prelude.{◌≡◌};
    ghost use Rattle.cluster_listing.specs.declared.taking.TakeErr.TheVariants as errors;

    ghost from_gives = { λ _ e. e ≡ errors.Memory };

    fn from(_error: AllocFailed<T>) -> TakeErr {
        TakeErr::Memory
    }
}

impl From<AllocError> for TakeErr {
    ghost use Rattle.std.specs.Prelude.{◌≡◌};
    ghost use Rattle.cluster_listing.specs.declared.taking.TakeErr.TheVariants as errors;

    ghost from_gives = { λ _ e. e ≡ errors.Memory };

    fn from(_error: AllocError) -> TakeErr {
        TakeErr::Memory
    }
}

impl From<SinkFault> for TakeErr {
    ghost use Rattle.std.specs.Prelude.{◌≡◌};
    ghost use Rattle.cluster_listing.specs.declared.taking.TakeErr.TheVariants as errors;

    ghost from_gives = { λ fault e. e ≡ errors.Sink fault };

    fn from(fault: SinkFault) -> TakeErr {
        TakeErr::Sink(fault)
    }
}

/// What takes records, one behind another.
pub(crate) trait TakesRecords {
    ghost use Rattle.cluster_listing.specs.declared.taking.TakeErr.{TakeErr};

    /// From the first state to the second one these records were taken.
    ghost took: { Self → Self → List Listed → Type 0 };

    /// From the first state on a front of what these records come to was taken, and then this
    /// failed.
    ghost cut: { Self → Self → TakeErr → List Listed → Type 0 };

    fn take(&mut self, alloc: Global, r: &Listed) -> Result<(), TakeErr>
        requires { IsListable r.now }
        ensures took { OnOk result (TookMore took self.old self.new (r.now ∷ [])) }
        ensures cut { IfErr result (λ e. (more : List Listed)
            → CutMore took cut self.old self.new e (r.now ∷ more)) };
}
