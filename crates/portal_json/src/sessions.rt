//! Writes the open sessions as JSON, for the gateway.
ghost use Rattle.std.specs.Prelude.{◌≡◌, IfOk, IfErr, string_bytes};
ghost use Rattle.portal_json.specs.Bodies.{session_data, sessions_body};

use crate::listed::{Entry, Listed, put_integer, put_text, sessions_list};
use crate::objects::as_text;
use portal_model::captive::OpenSession;
use portal_model::refusal::Refusal;
use std::alloc::{AllocError, Global};

impl Entry<Listed> for OpenSession {
    ghost shown = { session_data };

    fn put(&self, text: &mut String) -> Result<(), AllocError> {
        let device = self.device.text();
        text.push_str("{")?;
        put_integer(text, "\"bytes-remaining\":", self.bytes, ",")?;
        put_text(text, "\"device\":\"", as_text(&device), "\"")?;
        put_integer(text, ",\"seconds-remaining\":", self.seconds, "")?;
        put_integer(text, ",\"session\":", Some(self.number), "}")
    }
}

/// Writes the body with the open sessions, in the order given.
///
/// Each has its number, its device, and the seconds and the bytes that remain, if the session is so
/// limited. Refusal: `NoMemory`, if there is no memory for the text.
pub fn sessions_text(alloc: Global, sessions: &[OpenSession]) -> Result<String, Refusal>
    ensures ok { IfOk result (λ text. string_bytes text ≡ sessions_body sessions.now) }
    ensures err { IfErr result (λ refusal. refusal ≡ Refusal.NoMemory) }
{
    sessions_list(alloc, sessions)
}
