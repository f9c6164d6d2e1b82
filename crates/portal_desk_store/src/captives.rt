//! The captive portal state of a device, from the open sessions that the desk keeps or from the tables.
ghost use Rattle.std.specs.Prelude.{◌≡◌, IfSome};
ghost use Rattle.portal_model.specs.Captive.{captive_of};
ghost use Rattle.portal_desk.specs.Calls.{Returns};
ghost use Rattle.portal_desk_store.specs.DeskRepresents.{MovesDesk};

use crate::desks::StoreDesk;
use portal_core::{captive_of, effective};
use portal_desk::Desk;
use portal_model::captive::Captive;
use portal_model::moment::Moment;
use portal_model::name::Device;
use portal_model::refusal::Refusal;
use portal_tables::questions::LastSessionOf;
use sqlite::Alter;

impl<S: Alter> StoreDesk<S> {
    /// Returns the captive portal state of a device at a time, if the kept list has an open session of it.
    ///
    /// Error: `Stopped` if the desk has stopped.
    pub(crate) fn captive_if_kept(
        &self,
        moment: Moment,
        device: &Device,
    ) -> Result<Option<Captive>, Refusal>
        ensures { MovesDesk S.Store self.now self.now result (Returns result
            (λ found H. IfSome found (λ captive. captive ≡ captive_of H device.now moment))) }
    {
        if self.is_stopped() {
            return Err(Refusal::Stopped);
        }
        match &self.open {
            Some(list) => Ok(list.captive_at(device, moment)),
            None => Ok(None),
        }
    }

    /// Reads the captive portal state of a device at a time from the tables.
    ///
    /// Errors: `NoMemory`, `Stopped`.
    pub(crate) fn read_captive(
        &mut self,
        moment: Moment,
        device: &Device,
    ) -> Result<Captive, Refusal>
        ensures { MovesDesk S.Store self.old self.new result
            (Returns result (λ captive H. captive ≡ captive_of H device.now moment)) }
    {
        let head = self.head()?;
        let last = self.tables.read(LastSessionOf { device })?;
        Ok(captive_of(last.as_ref(), effective(moment, head.last)))
    }
}
