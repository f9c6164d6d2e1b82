//! Writes batches, and vouchers that were found, as JSON.
ghost use Rattle.std.specs.Prelude.{◌≡◌, ◌++◌, OnOk, IfOk, IfErr, string_bytes};
ghost use Rattle.portal_json.specs.Bodies.{
  voucher_data,
  batch_state_data,
  batch_voucher_data,
  batches_body,
  batch_body,
  vouchers_body,
};
ghost use Rattle.portal_json.specs.Listed.{batch_before};

use crate::listed::{
    Entry, Listed, put_integer, put_integer_or_null, put_list, put_text, word_of_flag,
};
use crate::objects::{as_text, seconds_of_moment};
use portal_model::batches::BatchState;
use portal_model::record::Voucher;
use portal_model::refusal::Refusal;
use std::alloc::{AllocError, Global};

/// The form of a voucher in the list of its batch: without what all vouchers of the batch share.
struct InBatch;

/// Appends the JSON object of a batch, with that text in place of its closing brace. The only error is out of
/// memory.
fn put_batch(text: &mut String, state: &BatchState, behind: &str) -> Result<(), AllocError>
    ensures { OnOk result
        (string_bytes text.new ≡ string_bytes text.old ++ batch_before behind.now state.now) }
{
    put_text(text, "{\"batch\":\"", state.batch.id.text(), "\"")?;
    put_integer(text, ",\"count\":", Some(state.batch.size), "")?;
    put_integer(text, ",\"expires\":", Some(state.batch.expires.get()), "")?;
    put_integer(text, ",\"issued\":", Some(state.batch.issued.get()), "")?;
    put_text(text, ",\"plan\":\"", state.batch.plan.text(), "\"")?;
    put_integer(text, ",\"refunded\":", Some(state.refunded), "")?;
    put_integer(text, ",\"sold\":", Some(state.sold), "")?;
    put_integer(text, ",\"used-up\":", Some(state.used_up), behind)
}

impl Entry<Listed> for BatchState {
    ghost shown = { batch_state_data };

    fn put(&self, text: &mut String) -> Result<(), AllocError> {
        put_batch(text, self, "}")
    }
}

impl Entry<Listed> for Voucher {
    ghost shown = { voucher_data };

    fn put(&self, text: &mut String) -> Result<(), AllocError> {
        let code = self.code.text();
        put_text(text, "{\"batch\":\"", self.batch.text(), "\"")?;
        put_text(text, ",\"code\":\"", as_text(code.as_bytes()), "\"")?;
        put_integer(text, ",\"expires\":", Some(self.expires.get()), "")?;
        put_text(text, ",\"plan\":\"", self.plan.id.text(), "\"")?;
        put_integer(text, ",\"redeemed\":", Some(self.redeemed), "")?;
        put_integer_or_null(text, ",\"refund\":", self.refund, "")?;
        put_integer_or_null(text, ",\"sold\":", seconds_of_moment(self.sold), "")?;
        put_integer(text, ",\"uses\":", Some(u64::from(self.plan.uses)), "}")
    }
}

impl Entry<InBatch> for Voucher {
    ghost shown = { batch_voucher_data };

    fn put(&self, text: &mut String) -> Result<(), AllocError> {
        let code = self.code.text();
        put_text(text, "{\"code\":\"", as_text(code.as_bytes()), "\"")?;
        put_integer(text, ",\"redeemed\":", Some(self.redeemed), "")?;
        put_integer_or_null(text, ",\"refund\":", self.refund, "")?;
        put_integer_or_null(text, ",\"sold\":", seconds_of_moment(self.sold), "}")
    }
}

/// Writes the body with batches, in the order given, and whether there are more.
///
/// Each has its id, its size, the times at which it expires and was issued, its plan, and how many of its
/// vouchers were refunded, ever sold, and used up. Times are UTC seconds since 1970. Refusal: `NoMemory`, if
/// there is no memory for the text.
pub fn batches_text(alloc: Global, states: &[BatchState], more: bool) -> Result<String, Refusal>
    ensures ok { IfOk result (λ text. string_bytes text ≡ batches_body states.now more) }
    ensures err { IfErr result (λ refusal. refusal ≡ Refusal.NoMemory) }
{
    let mut text = String::new(alloc);
    put_list::<Listed, BatchState>(&mut text, "{\"batches\":[", states, "]")?;
    put_text(&mut text, ",\"more\":", word_of_flag(more), "}")?;
    Ok(text)
}

/// Writes the body with a batch and its vouchers, in the order given.
///
/// The batch is written as in `batches_text`. Each voucher has its code, how often it was redeemed, the
/// amount refunded in hundredths or null, and the time of its sale or null. Refusal: `NoMemory`, if there is
/// no memory for the text.
pub fn batch_text(
    alloc: Global,
    state: &BatchState,
    vouchers: &[Voucher],
) -> Result<String, Refusal>
    ensures ok { IfOk result (λ text. string_bytes text ≡ batch_body state.now vouchers.now) }
    ensures err { IfErr result (λ refusal. refusal ≡ Refusal.NoMemory) }
{
    let mut text = String::new(alloc);
    put_batch(&mut text, state, ",")?;
    put_list::<InBatch, Voucher>(&mut text, "\"vouchers\":[", vouchers, "]}")?;
    Ok(text)
}

/// Writes the body with vouchers, each as in `voucher_text`, in the order given, and whether there are more.
///
/// Refusal: `NoMemory`, if there is no memory for the text.
pub fn vouchers_text(alloc: Global, vouchers: &[Voucher], more: bool) -> Result<String, Refusal>
    ensures ok { IfOk result (λ text. string_bytes text ≡ vouchers_body vouchers.now more) }
    ensures err { IfErr result (λ refusal. refusal ≡ Refusal.NoMemory) }
{
    let mut text = String::new(alloc);
    put_text(&mut text, "{\"more\":", word_of_flag(more), ",")?;
    put_list::<Listed, Voucher>(&mut text, "\"vouchers\":[", vouchers, "]}")?;
    Ok(text)
}
