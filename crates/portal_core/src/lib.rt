//! The decisions of the desk over records that were read for them, the captive portal state of a device,
//! the details of a session, and the takings of days.
#![tactic(auto)]

pub mod decide;
pub mod state;
pub mod takings;

pub use decide::{
    decide_close, decide_issue, decide_plans, decide_redeem, decide_refund, decide_report,
    decide_sell,
};
pub use portal_ledger::{Caller, KeptRequest, RequestMark, RequestNumber, decide_repeat};
pub use portal_model::calendar::{Day, DayRange};
pub use portal_model::captive::{Captive, OpenSession};
pub use portal_model::change::{
    Answer, Changes, CloseChange, IssueChange, LoadChange, RedeemChange, RefundChange,
    ReportChange, SellChange,
};
pub use portal_model::command::Command;
pub use portal_model::details::{End, SessionDetails};
pub use portal_model::lists::{Codes, Plans};
pub use portal_model::moment::Moment;
pub use portal_model::name::{Device, Id};
pub use portal_model::plan::Plan;
pub use portal_model::record::{Batch, Head, Session, Voucher, is_open};
pub use portal_model::refusal::Refusal;
pub use portal_model::takings::DayTakings;
pub use state::{captive_of, effective, open_session, session_details};
pub use takings::add_takings;
