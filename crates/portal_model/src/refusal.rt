//! The errors of the desk.

ghost use Rattle.std.specs.Prelude.{◌≡◌};
ghost use Rattle.portal_model.specs.Refusal.{number_of, word_of, status_of};

/// Why the desk refuses a request. The numbers run from 1 in this order.
#[derive(Clone, Copy, Debug, PartialEq, Eq)]
pub enum Refusal {
    /// The head, the body, the query or the idempotency key of the request is malformed.
    BadRequest,
    /// The text is not a code.
    BadCode,
    /// The text is not a MAC address, or the request does not have exactly one.
    BadDevice,
    /// The plans file, or a plan, is invalid.
    BadPlans,
    /// The request does not have exactly one token, the caller's.
    Forbidden,
    /// The path is not one of the endpoints.
    NoRoute,
    /// The path has another method.
    BadMethod,
    /// No plan with this id is loaded.
    UnknownPlan,
    /// No batch with this id was issued.
    UnknownBatch,
    /// The code was never issued.
    UnknownCode,
    /// There never was a session with this number.
    UnknownSession,
    /// A plan with a listed id is loaded with other terms.
    PlanDiffers,
    /// A batch with this id was issued before.
    BatchExists,
    /// A code was issued before, or is listed twice.
    CodeTaken,
    /// The voucher was not sold.
    NotSold,
    /// The voucher was sold before.
    SoldAlready,
    /// The voucher was refunded.
    Refunded,
    /// The voucher has expired.
    Expired,
    /// All uses of the voucher are redeemed.
    UsedUp,
    /// The device has an open session, and the plan that opened it does not allow extending.
    NoExtend,
    /// The device has an open session that limits other quantities than the plan.
    ShapeDiffers,
    /// The session would have more than 9,000,000,000,000,000 bytes.
    AllowanceFull,
    /// The session was closed before.
    ClosedAlready,
    /// All uses are redeemed, so nothing is left to refund.
    NothingLeft,
    /// An expiry or an end would be past the end of the year 9998.
    MomentRange,
    /// There are 9,007,199,254,740,991 redemptions.
    NumbersFull,
    /// The body is longer than 65,536 bytes.
    TooLarge,
    /// The request has a `Transfer-Encoding`.
    NotSupported,
    /// Out of memory; nothing was changed.
    NoMemory,
    /// The desk has stopped after an error of its database; the last command may be in doubt.
    Stopped,
    /// The idempotency key was used for another request.
    IdReused,
}

impl Refusal {
    /// Returns the number of the error, 1 to 31.
    pub fn number(self) -> u8
        ensures { result ≡ number_of self }
    {
        self as u8 + 1
    }

    /// Returns the word that names the error in responses and messages.
    pub fn word(self) -> &'static str
        ensures { result.now ≡ word_of self }
    {
        match self {
            Refusal::BadRequest => "bad_request",
            Refusal::BadCode => "bad_code",
            Refusal::BadDevice => "bad_device",
            Refusal::BadPlans => "bad_plans",
            Refusal::Forbidden => "forbidden",
            Refusal::NoRoute => "no_route",
            Refusal::BadMethod => "bad_method",
            Refusal::UnknownPlan => "unknown_plan",
            Refusal::UnknownBatch => "unknown_batch",
            Refusal::UnknownCode => "unknown_code",
            Refusal::UnknownSession => "unknown_session",
            Refusal::PlanDiffers => "plan_differs",
            Refusal::BatchExists => "batch_exists",
            Refusal::CodeTaken => "code_taken",
            Refusal::NotSold => "not_sold",
            Refusal::SoldAlready => "sold_already",
            Refusal::Refunded => "refunded",
            Refusal::Expired => "expired",
            Refusal::UsedUp => "used_up",
            Refusal::NoExtend => "no_extend",
            Refusal::ShapeDiffers => "shape_differs",
            Refusal::AllowanceFull => "allowance_full",
            Refusal::ClosedAlready => "closed_already",
            Refusal::NothingLeft => "nothing_left",
            Refusal::MomentRange => "moment_range",
            Refusal::NumbersFull => "numbers_full",
            Refusal::TooLarge => "too_large",
            Refusal::NotSupported => "not_supported",
            Refusal::NoMemory => "no_memory",
            Refusal::Stopped => "stopped",
            Refusal::IdReused => "id_reused",
        }
    }

    /// Returns the status of the HTTP response with the error (RFC 9110 section 15).
    pub fn status(self) -> u16
        ensures { result ≡ status_of self }
    {
        match self {
            Refusal::BadRequest | Refusal::BadCode | Refusal::BadDevice | Refusal::BadPlans => 400,
            Refusal::Forbidden => 403,
            Refusal::NoRoute
            | Refusal::UnknownPlan
            | Refusal::UnknownBatch
            | Refusal::UnknownCode
            | Refusal::UnknownSession => 404,
            Refusal::BadMethod => 405,
            Refusal::PlanDiffers
            | Refusal::BatchExists
            | Refusal::CodeTaken
            | Refusal::NotSold
            | Refusal::SoldAlready
            | Refusal::Refunded
            | Refusal::UsedUp
            | Refusal::NoExtend
            | Refusal::ShapeDiffers
            | Refusal::AllowanceFull
            | Refusal::ClosedAlready
            | Refusal::NothingLeft
            | Refusal::MomentRange
            | Refusal::NumbersFull
            | Refusal::IdReused => 409,
            Refusal::Expired => 410,
            Refusal::TooLarge => 413,
            Refusal::NotSupported => 501,
            Refusal::NoMemory | Refusal::Stopped => 503,
        }
    }
}
