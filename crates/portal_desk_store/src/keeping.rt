//! The list of open sessions that the desk keeps between commands.
ghost use Rattle.std.specs.Prelude.{◌≡◌, ◌∷◌, ℕ, IfSome, Some};
ghost use Rattle.portal_model.specs.declared.command.Command.{Command};
ghost use Rattle.portal_model.specs.Change.{changes_of};
ghost use Rattle.portal_model.specs.History.{entry, History};
ghost use Rattle.portal_model.specs.Verdict.{Follows, IsLegal};
ghost use Rattle.portal_desk_store.specs.OpenSessions.{HasOpenSessions, open_at_last};
ghost use Rattle.portal_desk.specs.Calls.{Returns};
ghost use Rattle.portal_desk_store.specs.DeskRepresents.{MovesDesk};

use crate::desks::StoreDesk;
use crate::open_sessions::OpenSessions;
use portal_desk::Desk;
use portal_model::change::Changes;
use portal_model::refusal::Refusal;
use portal_tables::questions::SessionsOpenAt;
use sqlite::Alter;
use std::alloc::Global;

impl<S: Alter> StoreDesk<S> {
    /// Reads the sessions that are open at the time of the last command from the tables.
    fn find_sessions_open_at_last(&mut self, alloc: Global) -> Result<OpenSessions, Refusal>
        ensures { MovesDesk S.Store self.old self.new result
            (Returns result (λ list H. list ≡ open_at_last H)) }
    {
        let head = self.head()?;
        let sessions = self.tables.read(SessionsOpenAt {
            alloc,
            at: head.last,
        })?;
        Ok(OpenSessions::new(head.last, sessions))
    }

    /// Takes the kept list of open sessions out of the desk, or reads it from the tables if none is kept.
    ///
    /// Errors: `Stopped` if the desk has stopped; else those of reading.
    pub(crate) fn take_open_sessions(&mut self, alloc: Global) -> Result<OpenSessions, Refusal>
        ensures { MovesDesk S.Store self.old self.new result
            (Returns result (λ list H. HasOpenSessions H list)) }
    {
        if self.is_stopped() {
            return Err(Refusal::Stopped);
        }
        match self.open.take() {
            Some(list) => Ok(list),
            None => self.find_sessions_open_at_last(alloc),
        }
    }
}

/// Updates the kept list of open sessions after an accepted command, from its changes. Returns `None` if
/// none was kept, or when out of memory.
pub(crate) fn update_open_sessions(
    kept: Option<OpenSessions>,
    changes: &Changes,
) -> Option<OpenSessions>
    ensures { (H : History) → IsLegal H → (command : Command) (t : ℕ) → Follows H t command
        → changes_of H command t ≡ Some changes.now → IfSome kept (HasOpenSessions H)
        → IfSome result (HasOpenSessions (entry t command ∷ H)) }
{
    kept?.update(changes).ok()
}
