//! Why the verdicts on a shelf were not written.

ghost use Rattle.std.specs.Prelude.{◌≡◌};

use ep_outside::Failed;
use ep_units::NoMemory;
use ep_verify::VerifyBad;
use thiserror::Error;

/// Why the verdicts on a shelf were not written.
#[derive(Debug, Drop, Error)]
pub enum VerdictsBad<D> {
    /// The shelf failed; so often it has failed now.
    #[error("the shelf failed")]
    Shelf(u64),
    /// A disk of the shelf that failed.
    #[error("a disk failed")]
    Disk(D),
    /// The sink failed.
    #[error("the sink failed")]
    Sink,
    #[error("out of memory")]
    NoMemory,
}

impl<D> From<VerifyBad<D>> for VerdictsBad<D> {
    ghost use Rattle.ep_verdicts.specs.Refusals.{bad_of};

    ghost from_gives = { λ bad e. e ≡ bad_of bad };

    fn from(error: VerifyBad<D>) -> VerdictsBad<D> {
        match error {
            VerifyBad::Shelf(faults) => VerdictsBad::Shelf(faults),
            VerifyBad::Disk(disk) => VerdictsBad::Disk(disk),
            VerifyBad::NoMemory => VerdictsBad::NoMemory,
        }
    }
}

impl<D> From<Failed> for VerdictsBad<D> {
    ghost use Rattle.ep_verdicts.specs.declared.verdicts_bad.VerdictsBad.TheVariants as bad;

    ghost from_gives = { λ _ e. e ≡ bad.Sink };

    fn from(_error: Failed) -> VerdictsBad<D> {
        VerdictsBad::Sink
    }
}

impl<D> From<NoMemory> for VerdictsBad<D> {
    ghost use Rattle.ep_verdicts.specs.declared.verdicts_bad.VerdictsBad.TheVariants as bad;

    ghost from_gives = { λ _ e. e ≡ bad.NoMemory };

    fn from(_error: NoMemory) -> VerdictsBad<D> {
        VerdictsBad::NoMemory
    }
}
