//! The first characters of a code, by which vouchers are found.

ghost use Rattle.std.specs.Prelude.{◌≡◌, ◌++◌, ◌∷◌, [], IfOk, OnOk};
ghost use Rattle.std.specs.List.{list_all};
ghost use Rattle.portal_codes.specs.Code.{characters_in, in_groups};
ghost use Rattle.portal_model.specs.CodeStart.{IsPrinted, in_place, is_sign, start_in};

use std::alloc::{AllocError, Global};
use std::marker::Model;

/// The characters of codes.
const SIGNS: [u8; 31] = *b"23456789ABCDEFGHJKMNPQRSTUVWXYZ";

/// The first 4 to 15 characters of a code as they are printed, with a hyphen between two groups of four.
#[derive(Drop)]
pub struct CodeStart {
    printed: Vec<u8>,
}

impl Model for CodeStart {
    ghost use Rattle.std.specs.Prelude.{List, ℕ};
    ghost use Rattle.portal_model.specs.CodeStart.{IsPrinted};

    ghost Value = { List ℕ };

    ghost view = { λ start. start.printed.items };

    ghost invariant = { λ start. IsPrinted start.printed.items };
}

/// Appends the byte, a letter as a capital, unless it is a space or a hyphen. The only error is out of memory.
fn push_unless_separator(signs: &mut Vec<u8>, byte: u8) -> Result<(), AllocError>
    ensures { OnOk result (signs.new.items ≡ signs.old.items ++ characters_in (byte ∷ [])) }
{
    if byte == b' ' || byte == b'-' {
        return Ok(());
    }
    Ok(signs.push(byte.to_ascii_uppercase())?)
}

/// Returns the characters of a text without spaces and hyphens, its ASCII letters as capitals. The only error
/// is out of memory.
fn signs_in(alloc: Global, text: &[u8]) -> Result<Vec<u8>, AllocError>
    ensures { IfOk result (λ signs. signs.items ≡ characters_in text.now) }
{
    let mut signs = Vec::new(alloc);
    for byte in text {
        push_unless_separator(&mut signs, *byte)?;
    }
    Ok(signs)
}

/// Returns whether each byte is a character of codes.
fn are_signs(bytes: &[u8]) -> bool
    ensures { result ≡ list_all is_sign bytes.now }
{
    bytes.iter().all(|byte| is_sign(*byte))
}

/// Returns whether a byte is a character of codes.
fn is_sign(byte: u8) -> bool
    ensures { result ≡ is_sign byte }
{
    SIGNS.iter().any(|sign| *sign == byte)
}

/// Appends the character at that place among others, with a hyphen before it where a group of four begins. The
/// only error is out of memory.
fn push_sign(printed: &mut Vec<u8>, place: usize, sign: u8) -> Result<(), AllocError>
    ensures { OnOk result (printed.new.items ≡ printed.old.items ++ in_place place sign) }
{
    if place > 0 && place % 4 == 0 {
        printed.push(b'-')?;
    }
    Ok(printed.push(sign)?)
}

/// Puts a hyphen between two groups of four characters. The only error is out of memory.
fn in_groups(alloc: Global, signs: &[u8]) -> Result<Vec<u8>, AllocError>
    ensures { IfOk result (λ printed. printed.items ≡ in_groups signs.now) }
{
    let mut printed = Vec::new(alloc);
    for (place, sign) in signs.iter().enumerate() {
        push_sign(&mut printed, place, *sign)?;
    }
    Ok(printed)
}

impl CodeStart {
    /// Parses the first 4 to 15 characters of a code, or returns `None` for a text that has fewer, more, or
    /// others. Spaces and hyphens are ignored, and letters may be in either case.
    ///
    /// The only error is out of memory.
    pub fn read(alloc: Global, text: &[u8]) -> Result<Option<CodeStart>, AllocError>
        ensures { IfOk result (λ start. start ≡ start_in text.now) }
    {
        let signs = signs_in(alloc, text)?;
        let signs = signs.as_slice();
        if signs.len() < 4 || signs.len() > 15 || !are_signs(signs) {
            return Ok(None);
        }
        let printed = in_groups(alloc, signs)?;
        Ok(Some(CodeStart { printed }))
    }

    /// Returns the printed text.
    pub fn printed(&self) -> &[u8]
        ensures value { result.now ≡ self.now }
        ensures printed { IsPrinted self.now }
    {
        self.printed.as_slice()
    }
}
