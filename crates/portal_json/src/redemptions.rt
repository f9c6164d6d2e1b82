//! Writes the redemptions of a voucher as JSON.
ghost use Rattle.std.specs.Prelude.{◌≡◌, IfOk, IfErr, string_bytes};
ghost use Rattle.portal_json.specs.Bodies.{redemption_data, redemptions_body};

use crate::listed::{Entry, Listed, put_integer, put_list, put_text, word_of_flag};
use crate::objects::as_text;
use portal_model::redemptions::Redemption;
use portal_model::refusal::Refusal;
use std::alloc::{AllocError, Global};

impl Entry<Listed> for Redemption {
    ghost shown = { redemption_data };

    fn put(&self, text: &mut String) -> Result<(), AllocError> {
        let device = self.device.text();
        put_integer(text, "{\"at\":", Some(self.at.get()), "")?;
        put_text(text, ",\"device\":\"", as_text(&device), "\"")?;
        put_text(text, ",\"extended\":", word_of_flag(self.extended), "")?;
        put_text(text, ",\"open\":", word_of_flag(self.is_open), "")?;
        put_integer(text, ",\"session\":", Some(self.session), "}")
    }
}

/// Writes the body with redemptions, in the order given, and whether there are more.
///
/// Each has its time, in UTC seconds since 1970, the device, whether it extended the session, whether the
/// session is open, and the number of the session. Refusal: `NoMemory`, if there is no memory for the text.
pub fn redemptions_text(
    alloc: Global,
    redemptions: &[Redemption],
    more: bool,
) -> Result<String, Refusal>
    ensures ok { IfOk result (λ text. string_bytes text ≡ redemptions_body redemptions.now more) }
    ensures err { IfErr result (λ refusal. refusal ≡ Refusal.NoMemory) }
{
    let mut text = String::new(alloc);
    put_text(&mut text, "{\"more\":", word_of_flag(more), ",")?;
    put_list::<Listed, Redemption>(&mut text, "\"redemptions\":[", redemptions, "]}")?;
    Ok(text)
}
