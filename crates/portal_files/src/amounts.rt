//! Writes amounts of money as text.

ghost use Rattle.std.specs.Prelude.{◌≡◌, IfOk, string_bytes};
ghost use Rattle.portal_files.specs.Amount.{amount_text, right_in};

use std::alloc::{AllocError, Global};

/// Writes an amount in hundredths as whole units, a point and two digits. The only error is out of memory.
pub(crate) fn amount_text(alloc: Global, amount: u128) -> Result<String, AllocError>
    ensures { IfOk result (λ text. string_bytes text ≡ amount_text amount) }
{
    let whole = amount / 100;
    let hundredths = amount % 100;
    format!(in alloc; "{whole}.{hundredths:02}")
}

/// Writes an amount as `amount_text` does, aligned to the right in 17 columns. The only error is out of
/// memory.
pub(crate) fn amount_column(alloc: Global, amount: u128) -> Result<String, AllocError>
    ensures { IfOk result (λ text. string_bytes text ≡ right_in 17 (amount_text amount)) }
{
    let whole = amount / 100;
    let hundredths = amount % 100;
    format!(in alloc; "{whole:>14}.{hundredths:02}")
}
