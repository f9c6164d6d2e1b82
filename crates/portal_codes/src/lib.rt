//! Voucher codes: parsing typed text, making codes from random words, and printing them.
//!
//! A code has twelve or sixteen characters of an alphabet of 31: the digits and the capital letters without
//! `0`, `1`, `I`, `L` and `O`, which are easily confused. In the order `23456789ABCDEFGHJKMNPQRSTUVWXYZ`
//! they have the values 0 to 30. All characters but the last are the body and have the weights from 2 on.
//! The last is the check character and has the weight 1. The sum of each value times its weight is
//! divisible by 31.
//!
//! 31 is prime, and the weights differ and none is a multiple of 31. So a code with one wrong character is
//! never valid ([`one_change_is_detected`]), nor is a code with two unequal characters exchanged
//! ([`exchange_is_detected`]). Other mistakes may give another valid code.
//!
//! Nothing here allocates, and each call has a result for every input. The check character does not protect
//! against guessing: whoever knows these rules can write valid codes. How hard a voucher is to guess
//! depends on the random words of its code.
#![tactic(auto)]

ghost use Rattle.std.specs.Prelude.{
  bytes_eq,
  ◌≡◌,
  ◌+◌,
  ◌<◌,
  ◌≤◌,
  ℕ,
  List,
  All,
  IfOk,
  IfErr,
  IfSome,
  length,
  map,
  nat_eq,
  position,
  take,
  ◌⊎◌,
  ◌↔◌,
  IsTrue,
};
ghost use Rattle.std.specs.Char.{to_ascii_uppercase};
ghost use Rattle.std.specs.Str.{IsAscii};
ghost use Rattle.portal_codes.specs.Code.{
  alphabet,
  code_of_words,
  character_of,
  characters_in,
  text_of,
  weighted_values,
  weights_of,
  with_zeros,
  Spells,
  SpellingIsUnique,
  PrintedTextSpells,
  OneChangeIsDetected,
  ExchangeIsDetected,
};

use std::marker::Model;

mod keys;

/// The number of characters of a short code, with the check character.
pub const CHARACTERS: usize = 12;

/// The number of characters of a long code, with the check character.
pub const LONG_CHARACTERS: usize = 16;

/// The number of random words that make a short code: one for each character of its body.
pub const WORDS: usize = CHARACTERS - 1;

/// The number of random words that make a long code.
pub const LONG_WORDS: usize = LONG_CHARACTERS - 1;

/// The length in bytes of the printed text of a long code: its characters, and a hyphen between groups of
/// four.
pub const LONG_TEXT: usize = LONG_CHARACTERS + (LONG_CHARACTERS - 1) / 4;

/// The characters of codes, in the order of their values.
const ALPHABET: [u8; 31] = *b"23456789ABCDEFGHJKMNPQRSTUVWXYZ";

/// The weight of each character of a short code.
const WEIGHTS: [u32; CHARACTERS] = [2, 3, 4, 5, 6, 7, 8, 9, 10, 11, 12, 1];

/// The weight of each character of a long code.
const LONG_WEIGHTS: [u32; LONG_CHARACTERS] = [
    2, 3, 4, 5, 6, 7, 8, 9, 10, 11, 12, 13, 14, 15, 16, 1,
];

/// The error for a text that spells no code.
#[derive(Clone, Copy, Debug, PartialEq, Eq)]
pub struct BadCode;

/// A voucher code: twelve or sixteen values from 0 to 30 whose weighted sum is divisible by 31.
///
/// Codes are equal if all their values are. They are ordered by their first unequal value; a short code
/// comes before a long code that begins with all its values.
#[derive(Clone, Copy, Debug)]
pub struct Code {
    values: [u8; LONG_CHARACTERS],
    len: usize,
}

impl Model for Code {
    ghost use Rattle.std.specs.Prelude.{List, ℕ, take, length};
    ghost use Rattle.portal_codes.specs.Code.{IsPadded, with_zeros};

    ghost Value = { List ℕ };

    ghost view = { λ c. take c.len c.values };

    ghost invariant = { λ c. IsPadded c.len c.values };

    ghost inverse = { λ v. record { values = with_zeros v; len = length v } };

    ghost inverse_ok = { λ a h. Prim.rw (h.zeros, h.shown) };
}

/// The printed text of a code: 14 bytes for a short code, 19 for a long one.
#[derive(Clone, Copy, Debug, PartialEq, Eq)]
pub struct CodeText {
    bytes: [u8; LONG_TEXT],
    len: usize,
}

impl Model for CodeText {
    ghost use Rattle.std.specs.Prelude.{List, ℕ, take, length};
    ghost use Rattle.portal_codes.specs.Code.{IsTextWithHyphens, with_hyphens};

    ghost Value = { List ℕ };

    ghost view = { λ t. take t.len t.bytes };

    ghost invariant = { λ t. IsTextWithHyphens t.len t.bytes };

    ghost inverse = { λ v. record { bytes = with_hyphens v; len = length v } };

    ghost inverse_ok = { λ a h. Prim.rw (h.hyphens, h.shown) };
}

impl CodeText {
    /// Returns the bytes of the text.
    pub fn as_bytes(&self) -> &[u8]
        ensures { result.now ≡ self.now }
    {
        &self.bytes[..self.len]
    }
}

impl Code {
    ghost use Rattle.portal_codes.specs.Code.{IsCode};

    /// Parses the text of a code, as a guest types it.
    ///
    /// Spaces and hyphens are ignored wherever they occur, and the ASCII letters `a` to `z` count as
    /// capitals. What is left has to be exactly twelve or sixteen characters of the alphabet, with a
    /// weighted sum divisible by 31.
    ///
    /// Error: [`BadCode`] for any other text.
    pub fn read(text: &str) -> Result<Code, BadCode>
        ensures ok { IfOk result (λ code. Spells text.now code) }
        ensures found { (code : List ℕ) → Spells text.now code → result ≡ Ok code }
        ensures err { IfErr result (λ _. (code : List ℕ) → ¬ Spells text.now code) }
    {
        let (values, len) = read_characters(text.as_bytes())?;
        let remainder = weighted_sum(weights_of(len), &values[..len]) % 31;
        if remainder != 0 {
            return Err(BadCode);
        }
        Ok(Code { values, len })
    }

    /// Makes the short code of eleven random words.
    ///
    /// Each word, in order, gives a character of the body: its remainder modulo 31. The check character
    /// follows from the body. Words with the same remainders give the same code.
    pub fn from_words(words: &[u32; WORDS]) -> Code
        ensures value { result ≡ code_of_words words.now }
        ensures code { IsCode result }
    {
        code_from_slice(words)
    }

    /// Makes the long code of fifteen random words, in the same way.
    pub fn from_words_long(words: &[u32; LONG_WORDS]) -> Code
        ensures value { result ≡ code_of_words words.now }
        ensures code { IsCode result }
    {
        code_from_slice(words)
    }

    /// Returns the number of characters of the code: twelve or sixteen.
    pub fn signs(&self) -> usize
        ensures length { result ≡ length self.now }
        ensures code { IsCode self.now }
    {
        self.len
    }

    /// Returns whether two codes are equal.
    pub fn is(&self, other: &Code) -> bool
        ensures { result ≡ bytes_eq self.now other.now }
    {
        self.values[..self.len] == other.values[..other.len]
    }

    /// Returns the printed text of the code: groups of four characters with hyphens between them.
    ///
    /// The text is ASCII, and [`Code::read`] reads it back as this code.
    pub fn text(&self) -> CodeText
        ensures value { result ≡ text_of self.now }
        ensures spells { Spells result self.now }
        ensures ascii { IsAscii result }
    {
        let mut bytes = [b'-'; LONG_TEXT];
        for (i, value) in self.values[..self.len].iter().enumerate() {
            bytes[i + i / 4] = character_of(*value);
        }
        CodeText {
            bytes,
            len: self.len + (self.len - 1) / 4,
        }
    }
}

ghost use Rattle.portal_codes.specs.Code.{IsCode};

/// Makes a code from a slice of eleven or fifteen random words, and computes its check character.
fn code_from_slice(words: &[u32]) -> Code
    requires { (length words.now ≡ WORDS) ⊎ (length words.now ≡ LONG_WORDS) }
    ensures value { result ≡ code_of_words words.now }
    ensures code { IsCode result }
{
    let mut values = [0; LONG_CHARACTERS];
    for (i, word) in words.iter().enumerate() {
        values[i] = (*word % 31) as u8;
    }
    let body = words.len();
    let sum = weighted_sum(weights_of(body + 1), &values[..body]);
    values[body] = ((31 - sum % 31) % 31) as u8;
    Code {
        values,
        len: body + 1,
    }
}

/// Returns the weights of the characters of a code with that many characters.
fn weights_of(signs: usize) -> &'static [u32]
    ensures { result.now ≡ weights_of signs }
{
    if signs == LONG_CHARACTERS {
        &LONG_WEIGHTS
    } else {
        &WEIGHTS
    }
}

/// Returns the value of a character, a letter in either case, or `None` for a byte outside the alphabet.
fn value_of(character: u8) -> Option<usize>
    ensures value { result ≡ position (λ listed. nat_eq listed (to_ascii_uppercase character)) alphabet }
    ensures below { IfSome result (λ value. value < 31) }
{
    let raised = character.to_ascii_uppercase();
    ALPHABET.iter().position(|listed| *listed == raised)
}

/// Returns the character with that value.
fn character_of(value: u8) -> u8
    requires { value < 31 }
    ensures { result ≡ character_of value }
{
    ALPHABET[usize::from(value)]
}

/// Returns the sum of the values, each times its weight. There may be fewer values than weights.
fn weighted_sum(weights: &[u32], values: &[u8]) -> u32
    requires weights { All (λ weight. weight ≤ 16) weights.now }
    requires few { length values.now ≤ length weights.now }
    requires sixteen { length values.now ≤ 16 }
    ensures { result ≡ weighted_values weights.now values.now }
{
    let mut sum = 0;
    for (i, value) in values.iter().enumerate() {
        sum += weights[i] * u32::from(*value);
    }
    sum
}

/// Reads the values of a text's characters into a buffer filled up with zeros, and counts them.
///
/// Error: `BadCode` if a character is outside the alphabet, or if there are not twelve or sixteen of them.
fn read_characters(text: &[u8]) -> Result<([u8; LONG_CHARACTERS], usize), BadCode>
    ensures length { IfOk result (λ read. (read.1 ≡ 12) ⊎ (read.1 ≡ 16)) }
    ensures ok { IfOk result (λ read. characters_in text.now ≡ map character_of (take read.1 read.0)) }
    ensures below { IfOk result (λ read. All (λ value. value < 31) read.0) }
    ensures zeros { IfOk result (λ read. with_zeros (take read.1 read.0) ≡ read.0) }
    ensures err { IfErr result (λ _. (code : List ℕ) → ¬ Spells text.now code) }
{
    let mut values = [0; LONG_CHARACTERS];
    let mut count = 0;
    for byte in text {
        if *byte == b' ' || *byte == b'-' {
            continue;
        }
        if count == LONG_CHARACTERS {
            return Err(BadCode);
        }
        let Some(value) = value_of(*byte) else {
            return Err(BadCode);
        };
        values[count] = value as u8;
        count += 1;
    }
    if !is_code_length(count) {
        return Err(BadCode);
    }
    Ok((values, count))
}

/// Returns whether a code can have that many characters.
fn is_code_length(signs: usize) -> bool
    ensures { IsTrue result ↔ ((signs ≡ 12) ⊎ (signs ≡ 16)) }
{
    signs == CHARACTERS || signs == LONG_CHARACTERS
}

/// Law: a text spells at most one code.
#[tactic(auto, using(crate::proofs::Spelling::unique))]
pub fn spelling_is_unique()
    ensures { SpellingIsUnique }
{}

/// Law: the printed text of a code spells that code.
#[tactic(auto, using(crate::proofs::Spelling::printed_spells))]
pub fn printed_text_spells()
    ensures { PrintedTextSpells }
{}

/// Law: a code with one character changed is not a code.
#[tactic(auto, using(crate::proofs::Changed::one_change))]
pub fn one_change_is_detected()
    ensures { OneChangeIsDetected }
{}

/// Law: a code with two unequal characters exchanged is not a code.
#[tactic(auto, using(crate::proofs::Changed::exchange))]
pub fn exchange_is_detected()
    ensures { ExchangeIsDetected }
{}
