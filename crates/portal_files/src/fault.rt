//! The faults in reading a file.

ghost use Rattle.std.specs.Prelude.{◌≡◌};
ghost use Rattle.portal_files.specs.declared.fault.FileFault.TheVariants.{Memory};

use std::alloc::AllocError;

/// Why a file was not read, or a text not written.
#[derive(Clone, Copy, Debug, PartialEq, Eq)]
pub enum FileFault {
    /// The file does not have the form that is required.
    Bad,
    /// Out of memory.
    Memory,
}

impl From<AllocError> for FileFault {
    ghost from_gives = { λ _ e. e ≡ Memory };

    fn from(_: AllocError) -> FileFault {
        FileFault::Memory
    }
}
