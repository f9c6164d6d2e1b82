//! The arguments of the program.
ghost use Rattle.std.specs.Prelude.{◌≡◌, IfErr};
ghost use Rattle.portal_commands.specs.Program.{error_of_words, IsOfWords};

use crate::causes::UsageFault;
use crate::trouble::Trouble;
use portal_server::ProgramError;
use std::alloc::Global;
use std::env::{self, Env};
use std::io::ErrorKind;

/// Returns why the arguments could not be copied, by the kind of the system's error: `usage` if one is not
/// UTF-8, else `no_memory`.
pub fn trouble_of_words(alloc: Global, kind: ErrorKind) -> Trouble
    ensures kind { result.error ≡ error_of_words kind }
    ensures words { IsOfWords result }
{
    match kind {
        ErrorKind::InvalidData => Trouble::of_usage(alloc, UsageFault::Arguments),
        _ => Trouble::plain(ProgramError::NoMemory),
    }
}

/// Returns the arguments with which the program was called, its own name first. Errors: `usage`, if one is
/// not UTF-8; `no_memory`.
pub fn words_of<R: Env + AllocGlobal>(rt: &R) -> Result<Vec<String>, Trouble>
    ensures { IfErr result IsOfWords }
{
    match env::args(rt) {
        Ok(words) => match words.collect(rt.alloc()) {
            Ok(words) => Ok(words),
            Err(_) => Err(Trouble::plain(ProgramError::NoMemory)),
        },
        Err(io_error) => Err(trouble_of_words(rt.alloc(), io_error.kind())),
    }
}
