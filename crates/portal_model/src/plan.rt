//! Plans: the terms of vouchers.

ghost use Rattle.std.specs.Prelude.{◌≡◌, ◌+◌, ◌<◌, ◌≤◌, IfOk, IfErr};
ghost use Rattle.portal_model.specs.IdText.{IsIdText};

use crate::name::Id;
use crate::proof::witness;
use crate::refusal::Refusal;

/// The terms of a voucher. Every value is within its limits.
#[derive(Clone, Copy, Debug, PartialEq, Eq)]
pub struct Plan {
    pub id: Id,
    /// The price of a voucher in hundredths, at most 100,000,000.
    pub price: u32,
    /// How often a voucher may be redeemed, 1 to 100,000.
    pub uses: u32,
    /// The seconds that a redemption gives, at most 31,622,400; 0 if time is not limited.
    pub seconds: u32,
    /// The bytes that a redemption gives, at most 1,000,000,000,000,000; 0 if bytes are not limited.
    /// Seconds and bytes are not both 0.
    pub bytes: u64,
    /// The days from the issue of a voucher until it expires, 1 to 3,660.
    pub shelf_days: u32,
    /// Whether a session that such a voucher opened may be extended while it is open.
    pub extend: bool,
    pub ghost id_text: { IsIdText id },
    pub ghost price_limit: { price ≤ 100000000 },
    ghost uses_least: { 1 ≤ uses },
    ghost uses_limit: { uses ≤ 100000 },
    pub ghost seconds_limit: { seconds ≤ 31622400 },
    pub ghost bytes_limit: { bytes ≤ 1000000000000000 },
    pub ghost shelf_least: { 1 ≤ shelf_days },
    pub ghost shelf_limit: { shelf_days ≤ 3660 },
    pub ghost limits_something: { 0 < seconds + bytes },
}

impl Plan {
    ghost use Rattle.portal_model.specs.Terms.{AreTerms, IsPlanOf};

    /// Makes a plan of these terms.
    ///
    /// Error: `BadPlans` exactly if a term is out of its limits, or if seconds and bytes are both 0.
    pub fn new(
        id: Id,
        price: u64,
        uses: u64,
        seconds: u64,
        bytes: u64,
        shelf_days: u64,
        extend: bool,
    ) -> Result<Plan, Refusal>
        ensures ok { IfOk result (IsPlanOf id price uses seconds bytes shelf_days extend) }
        ensures terms { IfOk result (λ _. AreTerms price uses seconds bytes shelf_days) }
        ensures err { IfErr result (λ r. (r ≡ Refusal.BadPlans)
            × ¬ AreTerms price uses seconds bytes shelf_days) }
    {
        // The contract of `text` gives that the id is an id text, which the plan's invariant needs.
        witness(id.text());
        if price > 100_000_000 || uses < 1 || uses > 100_000 || seconds > 31_622_400 {
            return Err(Refusal::BadPlans);
        }
        if bytes > 1_000_000_000_000_000 || shelf_days < 1 || shelf_days > 3_660 {
            return Err(Refusal::BadPlans);
        }
        if seconds == 0 && bytes == 0 {
            return Err(Refusal::BadPlans);
        }
        Ok(Plan {
            id,
            price: price as u32,
            uses: uses as u32,
            seconds: seconds as u32,
            bytes,
            shelf_days: shelf_days as u32,
            extend,
        })
    }
}
