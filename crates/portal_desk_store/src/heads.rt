//! The head row that the desk keeps between commands.
ghost use Rattle.std.specs.Prelude.{◌≡◌, ◌∷◌, ℕ, IfSome, Some};
ghost use Rattle.portal_model.specs.declared.command.Command.{Command};
ghost use Rattle.portal_model.specs.Change.{changes_of, head_after, sessions_after};
ghost use Rattle.portal_model.specs.History.{entry, head_of, History};
ghost use Rattle.portal_model.specs.Verdict.{Follows, IsLegal};
ghost use Rattle.portal_desk.specs.Calls.{Returns};
ghost use Rattle.portal_desk_store.specs.DeskRepresents.{MovesDesk};
ghost use Rattle.portal_desk_store.specs.Heads.{head_after_changes};

use crate::desks::StoreDesk;
use crate::session_changes::moment_of;
use portal_desk::Desk;
use portal_model::change::{Changes, RedeemChange};
use portal_model::record::{Head, Session};
use portal_model::refusal::Refusal;
use portal_tables::questions::TheHead;
use sqlite::Alter;

impl<S: Alter> StoreDesk<S> {
    /// Keeps a head row.
    fn keep_head(&mut self, head: &Head)
        ensures { self.new ≡ record self.old { head = Some head.now } }
    {
        self.head = Some(*head);
    }

    /// Reads the head row from the tables, and keeps it.
    fn read_head(&mut self) -> Result<Head, Refusal>
        ensures { MovesDesk S.Store self.old self.new result
            (Returns result (λ head H. head ≡ head_of H)) }
    {
        let head = self.tables.read(TheHead)?;
        self.keep_head(&head);
        Ok(head)
    }

    /// Returns the kept head row, or reads it from the tables if none is kept.
    ///
    /// Errors: `Stopped` if the desk has stopped; else those of reading.
    pub(crate) fn head(&mut self) -> Result<Head, Refusal>
        ensures { MovesDesk S.Store self.old self.new result
            (Returns result (λ head H. head ≡ head_of H)) }
    {
        if self.is_stopped() {
            return Err(Refusal::Stopped);
        }
        match self.head {
            Some(head) => Ok(head),
            None => self.read_head(),
        }
    }
}

/// Returns the number of sessions after a redemption, which extends the session `running` or opens one.
/// Returns `None` if the number does not fit its type.
fn sessions_after(sessions: u64, running: Option<Session>) -> Option<u64>
    ensures { IfSome result (λ after. after ≡ sessions_after sessions running) }
{
    match running {
        Some(_) => Some(sessions),
        None => sessions.checked_add(1),
    }
}

/// Returns the head row after a redemption, or `None` if a number does not fit its type.
fn head_after_redemption(head: Head, redemption: &RedeemChange) -> Option<Head>
    ensures { IfSome result
        (λ after. after ≡ head_after head redemption.now.running redemption.now.at) }
{
    Some(Head {
        last: redemption.at,
        grants: head.grants.checked_add(1)?,
        sessions: sessions_after(head.sessions, redemption.running)?,
    })
}

/// Returns the head row after a command with these changes, or `None` if a number does not fit its type.
fn head_after_changes(head: Head, changes: &Changes) -> Option<Head>
    ensures { IfSome result (λ after. after ≡ head_after_changes changes.now head) }
{
    match changes {
        Changes::RedeemChange(c) => head_after_redemption(head, c),
        Changes::LoadChange(_)
        | Changes::IssueChange(_)
        | Changes::SellChange(_)
        | Changes::ReportChange(_)
        | Changes::RefundChange(_)
        | Changes::CloseChange(_) => Some(Head {
            last: moment_of(changes),
            ..head
        }),
    }
}

/// Updates the kept head row after an accepted command, from its changes. Returns `None` if none was kept,
/// or if a number does not fit its type.
pub(crate) fn update_head(kept: Option<Head>, changes: &Changes) -> Option<Head>
    ensures { (H : History) → IsLegal H → (command : Command) (t : ℕ) → Follows H t command
        → changes_of H command t ≡ Some changes.now → IfSome kept (λ head. head ≡ head_of H)
        → IfSome result (λ head. head ≡ head_of (entry t command ∷ H)) }
{
    head_after_changes(kept?, changes)
}
