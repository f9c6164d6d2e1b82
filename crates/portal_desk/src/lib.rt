//! The trait `Desk`: the service behind HTTP, whatever stores its records.
#![tactic(auto)]

ghost use Rattle.std.specs.Prelude.{◌≡◌, ◌≤◌, Bool, true, None, Some, IfOk, MatchResult, option_map};
ghost use Rattle.portal_model.specs.Batches.{
  before_of,
  batch_with_vouchers,
  most_batches,
  AreStatesAfter,
  AreVouchersLike,
};
ghost use Rattle.portal_model.specs.Verdict.{IsWellFormed};
ghost use Rattle.portal_model.specs.Captive.{captive_of, open_sessions_of};
ghost use Rattle.portal_model.specs.Details.{details_of, open_details_of};
ghost use Rattle.portal_model.specs.History.{voucher_of};
ghost use Rattle.portal_model.specs.Redemptions.{last_redemptions_of};
ghost use Rattle.portal_model.specs.Takings.{TotalsFit};
ghost use Rattle.portal_files.specs.SettingsFile.{SettingsValue};
ghost use Rattle.portal_ledger.specs.Ledger.{Accepted, Ledger, IsSound};
ghost use Rattle.portal_ledger.specs.States.{State, MayBeFound};
ghost use Rattle.portal_ledger.specs.Calls.{Fits, Keeps};
ghost use Rattle.portal_desk.specs.Calls.{
  is_stopped_state,
  CannotKeep,
  Finds,
  FindsThat,
  KeepsStop,
  Moves,
  Prepares,
  PreparesMarked,
  Refuses,
};
ghost use Rattle.portal_desk.specs.Calls.{Returns};
ghost use Rattle.portal_desk.specs.Sheets.{sheet_of, takings_over};

pub mod prepared;

use portal_codes::Code;
use portal_files::{BatchSheet, Settings};
use portal_ledger::request::RequestMark;
use portal_model::batches::BatchState;
use portal_model::calendar::DayRange;
use portal_model::captive::{Captive, OpenSession};
use portal_model::code_start::CodeStart;
use portal_model::command::Command;
use portal_model::details::{SessionDetails, SessionKey};
use portal_model::moment::Moment;
use portal_model::name::{Device, Id};
use portal_model::record::{Batch, Voucher};
use portal_model::redemptions::Redemption;
use portal_model::refusal::Refusal;
use portal_model::takings::DayTakings;
pub use prepared::{Marked, Prepared};
use std::alloc::Global;

/// A desk: the service behind HTTP, over one database.
///
/// `represents` relates a desk to its state, which is running with a ledger, or stopped. It is a relation,
/// since the same records may represent several ledgers.
///
/// The state is known while the disk has returned what was written to it (`is_fault_free`).
/// `is_crash_state` gives the possible contents of the files after a crash, and `holds_ledger` the ledgers
/// that files hold. By the law `leaves`, every crash state holds a ledger that the state allows; by the law
/// `sound`, each ledger that files hold is sound. `audits` states that a result of `audit` is right for the
/// content of the database, even if that holds no ledger.
///
/// `has_stopped` is known whatever the disk returns: after the error `Stopped` the desk has stopped, and
/// any other result leaves it stopped or running as it was.
///
/// `NoMemory` leaves a running desk unchanged. After `Stopped`, the last command may be in doubt, and the
/// desk returns `Stopped` until the database is opened again.
pub trait Desk {
    ghost Files: { Type 0 };

    ghost represents: { Self → State → Type 0 };

    ghost settings: { Self → SettingsValue };

    ghost has_stopped: { Self → Bool };

    ghost is_fault_free: { Self → Type 0 };

    ghost is_crash_state: { Self → Files → Type 0 };

    ghost holds_ledger: { Files → Ledger → Type 0 };

    ghost audits: { Self → Bool → Type 0 };

    /// Returns the settings of the desk.
    fn settings(&self) -> &Settings
        ensures { result.now ≡ settings self.now };

    /// Returns whether the desk has stopped.
    fn is_stopped(&self) -> bool
        ensures value { result ≡ has_stopped self.now }
        ensures over { (s : State) → represents self.now s → result ≡ is_stopped_state s };

    /// Returns the captive portal state of a device at a time (RFC 8908 section 5).
    ///
    /// Errors: `NoMemory`, `Stopped`.
    fn state(&mut self, moment: Moment, device: Device) -> Result<Captive, Refusal>
        ensures { Moves settings is_fault_free has_stopped represents self.old self.new result
            (Returns result (λ captive H. captive ≡ captive_of H device moment)) };

    /// Returns the voucher of a code, with its sale, refund and redemptions so far.
    ///
    /// Errors: `NoMemory`, `Stopped`; `UnknownCode` if the code was never issued.
    fn voucher(&mut self, code: &Code) -> Result<Voucher, Refusal>
        ensures { Moves settings is_fault_free has_stopped represents self.old self.new result
            (Finds Refusal.UnknownCode (λ H. voucher_of H code.now) result) };

    /// Returns a batch with its plan, and its codes in order of issue, for its print file.
    ///
    /// Errors: `NoMemory`, `Stopped`; `UnknownBatch` if no such batch was issued.
    fn batch(&mut self, alloc: Global, id: &Id) -> Result<BatchSheet, Refusal>
        ensures { Moves settings is_fault_free has_stopped represents self.old self.new result
            (Finds Refusal.UnknownBatch (λ H. sheet_of H id.now) result) };

    /// Returns a batch with its vouchers, in order of issue.
    ///
    /// Errors: `NoMemory`, `Stopped`; `UnknownBatch` if no such batch was issued.
    fn batch_vouchers(&mut self, alloc: Global, id: &Id) -> Result<(Batch, Vec<Voucher>), Refusal>
        ensures { Moves settings is_fault_free has_stopped represents self.old self.new result
            (FindsThat Refusal.UnknownBatch (λ H. batch_with_vouchers H id.now)
            (λ found both _. (found.0, found.1.items) ≡ both) result) };

    /// Lists the batches, newest first, or those after a batch in this list: at most `limit` of them, each
    /// with how many of its vouchers were sold, refunded and used up; and whether there are more.
    ///
    /// Errors: `NoMemory`, `Stopped`; `UnknownBatch` if no batch has the id `before`.
    fn batches(
        &mut self,
        alloc: Global,
        before: Option<&Id>,
        limit: usize,
    ) -> Result<(Vec<BatchState>, bool), Refusal>
        requires { limit ≤ most_batches }
        ensures { Moves settings is_fault_free has_stopped represents self.old self.new result
            (FindsThat Refusal.UnknownBatch (λ H. before_of H (option_map (λ id. id.now) before.entry))
            (λ found place H. AreStatesAfter H place limit found.0.items found.1) result) };

    /// Returns the first 50 vouchers, by their printed codes, of those that begin so, and whether there are
    /// more.
    ///
    /// Errors: `NoMemory`, `Stopped`.
    fn vouchers_like(
        &mut self,
        alloc: Global,
        start: &CodeStart,
    ) -> Result<(Vec<Voucher>, bool), Refusal>
        ensures { Moves settings is_fault_free has_stopped represents self.old self.new result
            (Returns result (λ found H. AreVouchersLike H start.now found.0.items found.1)) };

    /// Lists the sessions that are open at a time, in the order of their numbers, for the gateway (RFC 8952
    /// section 2.4).
    ///
    /// Errors: `NoMemory`, `Stopped`.
    fn open_now(&mut self, alloc: Global, moment: Moment) -> Result<Vec<OpenSession>, Refusal>
        ensures { Moves settings is_fault_free has_stopped represents self.old self.new result
            (Returns result (λ sessions H. sessions.items ≡ open_sessions_of H moment)) };

    /// Lists the details of the sessions that are open at a time, in the order of their numbers.
    ///
    /// Errors: `NoMemory`, `Stopped`.
    fn open_details(
        &mut self,
        alloc: Global,
        moment: Moment,
    ) -> Result<Vec<SessionDetails>, Refusal>
        ensures { Moves settings is_fault_free has_stopped represents self.old self.new result
            (Returns result (λ sessions H. sessions.items ≡ open_details_of H moment)) };

    /// Returns the details of a session at a time, be it open or ended: of the one with a number, or of the
    /// last one of a device.
    ///
    /// Errors: `NoMemory`, `Stopped`; `UnknownSession` if there never was one.
    fn session(&mut self, moment: Moment, key: SessionKey) -> Result<SessionDetails, Refusal>
        ensures { Moves settings is_fault_free has_stopped represents self.old self.new result
            (Finds Refusal.UnknownSession (λ H. details_of H key moment) result) };

    /// Lists the last 100 redemptions of the voucher of a code, the newest first, as they are at a time, and
    /// returns whether there are more.
    ///
    /// Errors: `NoMemory`, `Stopped`; `UnknownCode` if the code was never issued.
    fn redemptions(
        &mut self,
        alloc: Global,
        moment: Moment,
        code: &Code,
    ) -> Result<(Vec<Redemption>, bool), Refusal>
        ensures { Moves settings is_fault_free has_stopped represents self.old self.new result
            (FindsThat Refusal.UnknownCode (λ H. last_redemptions_of H code.now moment)
            (λ found listed _. (found.0.items, found.1) ≡ listed) result) };

    /// Computes the takings of each day of a range, in order, by the civil days of the settings' time zone.
    /// The totals over the days fit the types of the fields.
    ///
    /// Errors: `NoMemory`, `Stopped`.
    fn takings(&mut self, alloc: Global, range: DayRange) -> Result<Vec<DayTakings>, Refusal>
        ensures totals { IfOk result (λ days. TotalsFit days.items) }
        ensures moves { Moves settings is_fault_free has_stopped represents self.old self.new result
            (Returns result (λ days H. days.items ≡ takings_over (settings self.old).zone H range)) };

    /// Audits the database: returns whether its counters agree exactly with the rows that they count. They
    /// do whenever the desk represents a ledger.
    ///
    /// Errors: `NoMemory`, `Stopped`.
    fn audit(&mut self, alloc: Global) -> Result<bool, Refusal>
        ensures moves { Moves settings is_fault_free has_stopped represents self.old self.new result
            (Returns result (λ agrees H. agrees ≡ true)) }
        ensures exact { is_fault_free self.new → IfOk result (audits self.old) };

    /// Decides whether a command without an idempotency key is accepted at a time, and returns its changes.
    /// Nothing is committed yet.
    ///
    /// Errors: `NoMemory`, `Stopped`; else the verdict on the command.
    fn prepare(
        &mut self,
        alloc: Global,
        moment: Moment,
        command: Command,
    ) -> Result<Prepared, Refusal>
        requires { IsWellFormed command }
        ensures { Moves settings is_fault_free has_stopped represents self.old self.new result
            (λ old new. MatchResult result (λ p. Prepares old command moment None p new)
            (λ r. Refuses old command moment None r new)) };

    /// Decides on the command of an idempotent request: `Kept` with the first answer if it was carried out
    /// before, which changes nothing, else as `prepare`. Nothing is committed yet.
    ///
    /// Errors: `NoMemory`, `Stopped`; `IdReused` if its idempotency key was used for another request; else
    /// the verdict on the command.
    fn prepare_marked(
        &mut self,
        alloc: Global,
        moment: Moment,
        command: Command,
        mark: &RequestMark,
    ) -> Result<Marked, Refusal>
        requires { IsWellFormed command }
        ensures { Moves settings is_fault_free has_stopped represents self.old self.new result
            (λ old new. MatchResult result (λ p. PreparesMarked old command moment mark.now p new)
            (λ r. Refuses old command moment (Some mark.now) r new)) };

    /// Commits prepared changes, with their fingerprint, in one transaction.
    ///
    /// Errors: `NoMemory` leaves the desk unchanged; after `Stopped` the command is in doubt.
    fn finish(&mut self, prepared: Prepared) -> Result<(), Refusal>
        ensures same_settings { settings self.new ≡ settings self.old }
        ensures fault_free { is_fault_free self.new → is_fault_free self.old }
        ensures stops { KeepsStop (has_stopped self.old) (has_stopped self.new) result }
        ensures finish { is_fault_free self.new → (old : State) → represents self.old old
            → (a : Accepted) → Fits old prepared a → (new : State) × represents self.new new
            × MatchResult result (λ _. Keeps old a new) (λ r. CannotKeep old a r new) };

    ghost leaves: { (desk : Self) (s : State) → represents desk s
        → (files : Files) → is_crash_state desk files
        → (found : Ledger) × MayBeFound s found × holds_ledger files found };

    ghost sound: { (files : Files) (found : Ledger) → holds_ledger files found → IsSound found };
}
