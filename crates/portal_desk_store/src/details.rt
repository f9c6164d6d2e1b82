//! The details of sessions, from the tables.
ghost use Rattle.portal_model.specs.Details.{last_details_of, session_details_of};
ghost use Rattle.portal_desk.specs.Calls.{Finds};
ghost use Rattle.portal_desk_store.specs.DeskRepresents.{MovesDesk};

use crate::desks::StoreDesk;
use portal_core::{effective, session_details};
use portal_model::details::SessionDetails;
use portal_model::moment::Moment;
use portal_model::name::Device;
use portal_model::refusal::Refusal;
use portal_tables::questions::{LastSessionOf, SessionOf};
use sqlite::Alter;

impl<S: Alter> StoreDesk<S> {
    /// Reads the details of the session of a number at a time.
    ///
    /// Errors: `NoMemory`, `Stopped`; `UnknownSession` if there never was one.
    pub(crate) fn read_details(
        &mut self,
        moment: Moment,
        number: u64,
    ) -> Result<SessionDetails, Refusal>
        ensures { MovesDesk S.Store self.old self.new result
            (Finds Refusal.UnknownSession (λ H. session_details_of H number moment) result) }
    {
        let head = self.head()?;
        let session = self
            .tables
            .read(SessionOf { number })?
            .ok_or(Refusal::UnknownSession)?;
        Ok(session_details(&session, effective(moment, head.last)))
    }

    /// Reads the details of the last session of a device at a time.
    ///
    /// Errors: `NoMemory`, `Stopped`; `UnknownSession` if the device never had one.
    pub(crate) fn read_last_details(
        &mut self,
        moment: Moment,
        device: &Device,
    ) -> Result<SessionDetails, Refusal>
        ensures { MovesDesk S.Store self.old self.new result
            (Finds Refusal.UnknownSession (λ H. last_details_of H device.now moment) result) }
    {
        let head = self.head()?;
        let last = self
            .tables
            .read(LastSessionOf { device })?
            .ok_or(Refusal::UnknownSession)?;
        Ok(session_details(&last, effective(moment, head.last)))
    }
}
