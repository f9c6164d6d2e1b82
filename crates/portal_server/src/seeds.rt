//! Draws fresh seeds.
ghost use Rattle.std.specs.Prelude.{ℕ, List, IfOk, IfErr, ⊤};
ghost use Rattle.portal_server.specs.Serving.{IsHostError};

use crate::clock::error_of_host;
use crate::error::ProgramError;
use rand::TryRng;
use rand::rngs::SysRng;
use std::io;
use std::random::RandomSource;

/// A source of random bytes. The ghost names what was drawn; no contract says more about a source.
pub trait SeedSource {
    /// Bytes that were drawn.
    ghost draws: { Self → List ℕ → Type 0 };

    /// Draws a seed of 32 bytes.
    fn draw_seed(&self, seed: &mut [u8; 32]) -> io::Result<()>
        ensures { IfOk result (λ _. draws self.now seed.new) };
}

impl<S: RandomSource> SeedSource for S {
    ghost draws = { λ _ _. ⊤ };

    fn draw_seed(&self, seed: &mut [u8; 32]) -> io::Result<()> {
        SysRng::new(self).try_fill_bytes(seed)
    }
}

/// Draws 32 bytes from a source. Errors: `File` if the source fails; `NoMemory`.
pub fn fresh_seed<S: SeedSource>(source: &S) -> Result<[u8; 32], ProgramError>
    ensures why { IfErr result IsHostError }
    ensures draws { IfOk result (S.draws source.now) }
{
    let mut seed = [0u8; 32];
    match source.draw_seed(&mut seed) {
        Ok(()) => Ok(seed),
        Err(io_error) => Err(error_of_host(io_error.kind())),
    }
}
