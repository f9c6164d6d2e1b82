//! Out of memory as an error of the desk: `AllocError` becomes `Refusal::NoMemory`.
ghost use Rattle.std.specs.Prelude.{◌≡◌};
ghost use Rattle.portal_model.specs.declared.refusal.Refusal.TheVariants.{NoMemory};

use crate::refusal::Refusal;
use std::alloc::AllocError;

impl From<AllocError> for Refusal {
    ghost from_gives = { λ _ r. r ≡ NoMemory };

    fn from(_: AllocError) -> Refusal {
        Refusal::NoMemory
    }
}
