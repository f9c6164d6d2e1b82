//! The fields of a head, looked up by name.
ghost use Rattle.std.specs.Prelude.{◌≡◌, length, map, All, option_map};
ghost use Rattle.httparse.specs.Spans.{header_bytes, IsHeaderWithin};
ghost use Rattle.portal_http_message.specs.Fields.{is_same_name, values_of, only_of, at_most_one_of};
ghost use Rattle.portal_http_message.specs.Message.{value_in};
ghost use Rattle.portal_http_message.specs.Steps.{IsOccurrence};

use crate::errors::HeadError;
use httparse::spans::HeaderSpan;
use std::marker::Model;

/// The fields of a head. A contract sees the list of their names and values.
#[derive(Drop)]
pub struct Fields<'b, 's> {
    bytes: &'b [u8],
    spans: &'s [HeaderSpan],
}

impl<'b, 's> Model for Fields<'b, 's> {
    ghost use Rattle.std.specs.Prelude.{ℕ, List, length, map, All};
    ghost use Rattle.httparse.specs.Spans.{header_bytes, IsHeaderWithin};

    ghost Value = { List (List ℕ × List ℕ) };

    ghost view = { λ f. map (header_bytes f.bytes.now) f.spans.now };

    ghost invariant = { λ f. All (IsHeaderWithin (length f.bytes.now)) f.spans.now };
}

/// How often a head has a field of some name.
#[derive(Clone, Copy)]
pub enum Occurrence<'b> {
    /// There is no such field.
    Absent,
    /// There is one such field, with this value.
    Once(&'b [u8]),
    /// There is more than one such field.
    Repeated,
}

/// Whether two field names are equal without regard to case (RFC 9110, section 5.1).
fn is_same_name(name: &[u8], other: &[u8]) -> bool
    ensures { result ≡ is_same_name name.now other.now }
{
    name.eq_ignore_ascii_case(other)
}

impl<'b, 's> Fields<'b, 's> {
    /// Makes the fields from the bytes of a head and the places of the names and values in them.
    pub fn new(bytes: &'b [u8], spans: &'s [HeaderSpan]) -> Self
        requires { All (IsHeaderWithin (length bytes.now)) spans.now }
        ensures { result ≡ map (header_bytes bytes.now) spans.now }
    {
        Fields { bytes, spans }
    }

    /// Counts the fields of that name: none, one, with its value, or more than one.
    pub fn occurrence(&self, name: &[u8]) -> Occurrence<'b>
        ensures { IsOccurrence (values_of name.now self.now) result }
    {
        let mut found = Occurrence::Absent;
        for field in self.spans {
            if is_same_name(field.name.of(self.bytes), name) {
                found = match found {
                    Occurrence::Absent => Occurrence::Once(field.value.of(self.bytes)),
                    _ => Occurrence::Repeated,
                };
            }
        }
        found
    }

    /// Returns the value of the field of that name if there is exactly one such field, else none.
    pub fn only_value(&self, name: &[u8]) -> Option<&'b [u8]>
        ensures { option_map (λ value. value.now) result ≡ only_of (values_of name.now self.now) }
    {
        match self.occurrence(name) {
            Occurrence::Once(value) => Some(value),
            _ => None,
        }
    }

    /// Returns the value of the field of that name, or none if there is no such field.
    ///
    /// Error: `BadRequest` if there is more than one.
    pub fn at_most_one_value(&self, name: &[u8]) -> Result<Option<&'b [u8]>, HeadError>
        ensures { value_in result ≡ at_most_one_of (values_of name.now self.now) }
    {
        match self.occurrence(name) {
            Occurrence::Absent => Ok(None),
            Occurrence::Once(value) => Ok(Some(value)),
            Occurrence::Repeated => Err(HeadError::BadRequest),
        }
    }
}
