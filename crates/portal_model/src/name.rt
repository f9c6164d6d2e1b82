//! Ids of plans and batches, and MAC addresses of devices.

ghost use Rattle.std.specs.Prelude.{
  ◌≡◌,
  ◌≢◌,
  ◌<◌,
  ◌≤◌,
  ℕ,
  List,
  [],
  ◌∷◌,
  IfOk,
  IfErr,
  IfSome,
  IfNone,
  None,
  IsTrue,
  ◌↔◌,
  ◌⊎◌,
  replicate,
  bytes_eq,
};
ghost use Rattle.std.specs.List.{list_all};
ghost use Rattle.std.specs.Char.{to_ascii_lowercase};
ghost use Rattle.portal_model.specs.IdText.{IsIdText, is_id_character};
ghost use Rattle.portal_model.specs.Device.{
  IsDevice,
  SpellsDevice,
  DeviceTextReadsBack,
  hex_digit,
  octet_text,
  text_of_device,
};

use crate::refusal::Refusal;
use std::marker::Model;

/// The id of a plan or a batch: 1 to 32 lower-case letters, digits and hyphens.
#[derive(Clone, Copy, Debug, PartialEq, Eq)]
pub struct Id {
    bytes: [u8; 32],
    len: usize,
}

impl Model for Id {
    ghost use Rattle.std.specs.Prelude.{List, ℕ};
    ghost use Rattle.portal_model.specs.Names.{with_zeros, IsPadded};

    ghost Value = { List ℕ };

    ghost view = { λ a. Rattle.std.specs.Prelude.take a.len a.bytes };

    ghost invariant = { λ a. IsPadded a.len a.bytes };

    ghost inverse = { λ v. record { bytes = with_zeros v; len = Rattle.std.specs.Prelude.length v } };

    ghost inverse_ok = { λ a h. Prim.rw (h.zeros, h.shown) };
}

impl Id {
    /// Parses an id, or returns `None` for a text that is not one.
    pub fn read(text: &str) -> Option<Id>
        ensures value { IfSome result (λ id. id ≡ text.now) }
        ensures some { IfSome result (λ _. IsIdText text.now) }
        ensures none { result ≡ None → IsIdText text.now → ⊥ }
    {
        let characters = text.as_bytes();
        let len = characters.len();
        if len == 0 || len > 32 || !are_id_bytes(characters) {
            return None;
        }
        let mut bytes = [0u8; 32];
        bytes[..len].copy_from_slice(characters);
        Some(Id { bytes, len })
    }

    /// Returns the text of the id. Parsing it gives the id again.
    pub fn text(&self) -> &str
        ensures value { result.now ≡ self.now }
        ensures id_text { IsIdText self.now }
    {
        str::from_utf8(&self.bytes[..self.len]).unwrap()
    }

    /// Returns whether two ids have the same text.
    pub fn is(&self, other: &Id) -> bool
        ensures { result ≡ bytes_eq self.now other.now }
    {
        self.bytes[..self.len] == other.bytes[..other.len]
    }
}

/// Returns whether each byte is a lower-case letter, a digit or a hyphen.
fn are_id_bytes(bytes: &[u8]) -> bool
    ensures { result ≡ list_all is_id_character bytes.now }
{
    bytes.iter().all(|b| is_id_byte(*b))
}

/// Returns whether a byte is a lower-case letter, a digit or a hyphen.
fn is_id_byte(b: u8) -> bool
    ensures { result ≡ is_id_character b }
{
    b.is_ascii_lowercase() || b.is_ascii_digit() || b == b'-'
}

/// A device, by the six octets of its MAC address.
#[derive(Clone, Copy, Debug, PartialEq, Eq)]
pub struct Device {
    octets: [u8; 6],
}

impl Model for Device {
    ghost use Rattle.std.specs.Prelude.{List, ℕ};

    ghost Value = { List ℕ };

    ghost view = { λ a. a.octets };

    ghost inverse = { λ v. record { octets = v } };
}

/// The hexadecimal digits in the order of their values.
const HEX_DIGITS: [u8; 16] = *b"0123456789abcdef";

impl Device {
    /// Parses a MAC address: six groups of two hexadecimal digits of either case, with colons between all
    /// groups, or with hyphens between all groups.
    ///
    /// Error: `BadDevice` for any other text.
    pub fn read(text: &str) -> Result<Device, Refusal>
        ensures ok { IfOk result (SpellsDevice text.now) }
        ensures err { IfErr result (λ r. (r ≡ Refusal.BadDevice)
            × ((device : List ℕ) → ¬ SpellsDevice text.now device)) }
    {
        let characters = text.as_bytes();
        if characters.len() != 17 {
            return Err(Refusal::BadDevice);
        }
        if !is_separated([
            characters[2],
            characters[5],
            characters[8],
            characters[11],
            characters[14],
        ]) {
            return Err(Refusal::BadDevice);
        }
        let octets = [
            read_octet(characters[0], characters[1])?,
            read_octet(characters[3], characters[4])?,
            read_octet(characters[6], characters[7])?,
            read_octet(characters[9], characters[10])?,
            read_octet(characters[12], characters[13])?,
            read_octet(characters[15], characters[16])?,
        ];
        Ok(Device { octets })
    }

    /// Returns the MAC address in lower case, with colons between its octets.
    pub fn text(&self) -> [u8; 17]
        ensures value { result ≡ text_of_device self.now }
        ensures device { IsDevice self.now }
    {
        let [a, b, c, d, e, f] = self.octets;
        [
            hex_digit(a / 16),
            hex_digit(a % 16),
            b':',
            hex_digit(b / 16),
            hex_digit(b % 16),
            b':',
            hex_digit(c / 16),
            hex_digit(c % 16),
            b':',
            hex_digit(d / 16),
            hex_digit(d % 16),
            b':',
            hex_digit(e / 16),
            hex_digit(e % 16),
            b':',
            hex_digit(f / 16),
            hex_digit(f % 16),
        ]
    }
}

/// Returns whether the five separators are all colons, or all hyphens.
fn is_separated(between: [u8; 5]) -> bool
    ensures { IsTrue result ↔ ((between ≡ replicate 5 58) ⊎ (between ≡ replicate 5 45)) }
{
    between == [b':'; 5] || between == [b'-'; 5]
}

/// Returns the hexadecimal digit of a value below 16, in lower case.
fn hex_digit(digit: u8) -> u8
    requires { digit < 16 }
    ensures { result ≡ hex_digit digit }
{
    HEX_DIGITS[usize::from(digit)]
}

/// Returns the value of a hexadecimal digit of either case, or `None` for another byte.
fn value_of_digit(character: u8) -> Option<u8>
    ensures some { IfSome result (λ v. (v < 16) × (hex_digit v ≡ to_ascii_lowercase character)) }
    ensures none { IfNone result ((v : ℕ) → v < 16 → hex_digit v ≢ to_ascii_lowercase character) }
{
    match character {
        b'0'..=b'9' => Some(character - b'0'),
        b'a'..=b'f' => Some(character - b'a' + 10),
        b'A'..=b'F' => Some(character - b'A' + 10),
        _ => None,
    }
}

/// Reads an octet from its two hexadecimal digits.
///
/// Error: `BadDevice` if one is not a hexadecimal digit.
fn read_octet(high: u8, low: u8) -> Result<u8, Refusal>
    ensures ok { IfOk result (λ n. octet_text n ≡ to_ascii_lowercase high ∷ to_ascii_lowercase low ∷ []) }
    ensures err { IfErr result (λ r. (r ≡ Refusal.BadDevice)
        × ((n : ℕ) → n < 256 → octet_text n ≢ to_ascii_lowercase high ∷ to_ascii_lowercase low ∷ [])) }
{
    match (value_of_digit(high), value_of_digit(low)) {
        (Some(high), Some(low)) => Ok(16 * high + low),
        _ => Err(Refusal::BadDevice),
    }
}

/// Law: the text of a device spells that device and no other.
pub fn device_text_reads_back()
    ensures { DeviceTextReadsBack }
{}
