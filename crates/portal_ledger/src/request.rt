//! Idempotent requests. A caller that wants a command carried out once, however often the request is sent,
//! gives it an **idempotency key**, here a `RequestNumber`. Keys are scoped to the caller. A `RequestMark`
//! is the **fingerprint** of the request: its caller, key, method, path and body. The fingerprint of an
//! accepted command is kept with the answer, and a repetition of the request gets that answer.
ghost use Rattle.std.specs.Prelude.{◌≡◌, IfOk, IfErr, IfSome, None, bytes_eq, codes};
ghost use Rattle.std.specs.List.{list_all};
ghost use Rattle.portal_ledger.specs.Fingerprint.{
  IsCaller,
  IsFingerprint,
  IsKeyText,
  is_key_character,
  same_caller,
  same_key,
  same_request,
};

use crate::caller::Caller;
use portal_model::change::Answer;
use portal_model::name::Device;
use portal_model::proof::witness;
use std::alloc::{AllocError, Global};
use std::marker::Model;

/// An idempotency key: 1 to 36 letters, digits and hyphens.
#[derive(Clone, Copy, Debug, PartialEq, Eq)]
pub struct RequestNumber {
    bytes: [u8; 36],
    len: usize,
}

impl Model for RequestNumber {
    ghost use Rattle.std.specs.Prelude.{List, ℕ};
    ghost use Rattle.portal_ledger.specs.Fingerprint.{key_with_zeros, IsPaddedKey};

    ghost Value = { List ℕ };

    ghost view = { λ a. Rattle.std.specs.Prelude.take a.len a.bytes };

    ghost invariant = { λ a. IsPaddedKey a.len a.bytes };

    ghost inverse = { λ v. record { bytes = key_with_zeros v; len = Rattle.std.specs.Prelude.length v } };

    ghost inverse_ok = { λ a h. Prim.rw (h.zeros, h.shown) };
}

impl RequestNumber {
    /// Parses an idempotency key, or returns `None` for a text that is not one.
    pub fn read(text: &str) -> Option<RequestNumber>
        ensures value { IfSome result (λ number. number ≡ text.now) }
        ensures some { IfSome result (λ _. IsKeyText text.now) }
        ensures none { result ≡ None → IsKeyText text.now → ⊥ }
    {
        let characters = text.as_bytes();
        let len = characters.len();
        if len == 0 || len > 36 || !are_key_bytes(characters) {
            return None;
        }
        let mut bytes = [0u8; 36];
        bytes[..len].copy_from_slice(characters);
        Some(RequestNumber { bytes, len })
    }

    /// Returns the text of the key. Parsing it gives the key again.
    pub fn text(&self) -> &str
        ensures value { result.now ≡ self.now }
        ensures number { IsKeyText self.now }
    {
        str::from_utf8(&self.bytes[..self.len]).unwrap()
    }

    /// Returns whether two keys are equal.
    pub fn is(&self, other: &RequestNumber) -> bool
        ensures { result ≡ bytes_eq self.now other.now }
    {
        self.bytes[..self.len] == other.bytes[..other.len]
    }
}

/// Returns whether each byte is a letter, a digit or a hyphen.
fn are_key_bytes(bytes: &[u8]) -> bool
    ensures { result ≡ list_all is_key_character bytes.now }
{
    bytes.iter().all(|b| is_key_byte(*b))
}

/// Returns whether a byte is a letter, a digit or a hyphen.
fn is_key_byte(b: u8) -> bool
    ensures { result ≡ is_key_character b }
{
    b.is_ascii_uppercase() || b.is_ascii_lowercase() || b.is_ascii_digit() || b == b'-'
}

/// The fingerprint of a request: its caller, idempotency key, method, path and body.
#[derive(Drop)]
pub struct RequestMark {
    /// The caller of the request.
    pub caller: Caller,
    /// Its idempotency key.
    pub number: RequestNumber,
    /// Its method (RFC 9110 section 9).
    pub method: String,
    /// Its path: the target without the query.
    pub path: String,
    /// The bytes of its body.
    pub body: Vec<u8>,
}

impl Model for RequestMark {
    ghost use Rattle.std.specs.String.{string_bytes};
    ghost use Rattle.portal_ledger.specs.Fingerprint.{Fingerprint};

    ghost Value = { Fingerprint };

    ghost view = { λ m. record {
      caller = m.caller;
      number = m.number;
      method = string_bytes m.method;
      path = string_bytes m.path;
      body = m.body.items;
    } };
}

impl RequestMark {
    /// Makes a fingerprint, and copies the method, path and body.
    ///
    /// Error: `AllocError` when out of memory.
    pub fn new(
        alloc: Global,
        caller: Caller,
        number: RequestNumber,
        method: &str,
        path: &str,
        body: &[u8],
    ) -> Result<RequestMark, AllocError>
        ensures { IfOk result (λ m. m ≡ record {
          caller = caller;
          number = number;
          method = method.now;
          path = path.now;
          body = body.now;
        }) }
    {
        Ok(RequestMark {
            caller,
            number,
            method: String::from_str(alloc, method)?,
            path: String::from_str(alloc, path)?,
            body: Vec::from_slice(alloc, body)?,
        })
    }

    /// Copies the fingerprint.
    ///
    /// Error: `AllocError` when out of memory.
    pub fn copied(&self, alloc: Global) -> Result<RequestMark, AllocError>
        ensures { IfOk result (λ m. m ≡ self.now) }
    {
        RequestMark::new(
            alloc,
            self.caller,
            self.number,
            self.method.as_str(),
            self.path.as_str(),
            self.body.as_slice(),
        )
    }

    /// Returns whether two fingerprints have the same caller and the same idempotency key.
    pub fn has_key_of(&self, other: &RequestMark) -> bool
        ensures { result ≡ same_key self.now other.now }
    {
        is_same_caller(&self.caller, &other.caller) && self.number.is(&other.number)
    }

    /// Returns whether two fingerprints have the same method, path and body.
    pub fn is_same_request(&self, other: &RequestMark) -> bool
        ensures { result ≡ same_request self.now other.now }
    {
        self.method.as_bytes() == other.method.as_bytes()
            && self.path.as_bytes() == other.path.as_bytes()
            && self.body.as_slice() == other.body.as_slice()
    }
}

/// Law: every fingerprint is typed. Its key is a key text, its method and path are UTF-8, and the device of
/// a guest is a device.
///
/// The function only reads the values whose invariants show it.
pub fn fingerprint_is_typed(mark: &RequestMark)
    ensures { IsFingerprint mark.now }
{
    match &mark.caller {
        Caller::Guest(device) => {
            witness(device.text());
        }
        Caller::Desk | Caller::Gateway => {}
    }
    witness(mark.number.text());
    witness(mark.method.as_str());
    witness(mark.path.as_str());
}

/// Returns whether two devices are equal.
fn is_same_device(a: &Device, b: &Device) -> bool
    ensures { result ≡ bytes_eq a.now b.now }
{
    a == b
}

/// Returns whether two callers are equal.
fn is_same_caller(a: &Caller, b: &Caller) -> bool
    ensures { result ≡ same_caller a.now b.now }
{
    match (a, b) {
        (Caller::Desk, Caller::Desk) => true,
        (Caller::Gateway, Caller::Gateway) => true,
        (Caller::Guest(a), Caller::Guest(b)) => is_same_device(a, b),
        _ => false,
    }
}

/// A kept request: the fingerprint of an accepted command, with the answer to it.
#[derive(Drop)]
pub struct KeptRequest {
    /// The fingerprint of the request.
    pub mark: RequestMark,
    /// The answer that its caller got.
    pub answer: Answer,
}
