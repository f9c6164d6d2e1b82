//! The sessions that are open after the last command. A desk keeps this list from one command to the next,
//! and answers the gateway from it. A session that is not open at a time is never open again, so no other
//! sessions are needed. Some that have ended stay in the list until it is long enough to drop them all at
//! once, so that a command changes one session of the list and passes over no others.
ghost use Rattle.std.specs.Prelude.{◌≡◌, ◌∷◌, ℕ, IfOk, IfSome, Some};
ghost use Rattle.portal_model.specs.declared.command.Command.{Command};
ghost use Rattle.portal_model.specs.Captive.{captive_of, open_sessions_of};
ghost use Rattle.portal_model.specs.Change.{changes_of};
ghost use Rattle.portal_model.specs.Details.{open_details_of};
ghost use Rattle.portal_model.specs.History.{entry, History};
ghost use Rattle.portal_model.specs.Verdict.{Follows, IsLegal};
ghost use Rattle.portal_desk_store.specs.OpenSessions.{HasOpenSessions};

use crate::session_changes::{apply_to_sessions, moment_of};
use portal_core::{captive_of, effective, open_session, session_details};
use portal_model::captive::{Captive, OpenSession};
use portal_model::change::Changes;
use portal_model::details::SessionDetails;
use portal_model::moment::Moment;
use portal_model::name::Device;
use portal_model::record::{Session, is_open};
use std::alloc::{AllocError, Global};
use std::marker::Model;

/// The least limit of a list.
const LEAST_LIMIT: usize = 64;

/// The most sessions that are passed over for one device: with more of them an index of the tables is faster.
const MOST_PASSED: usize = 4096;

/// The sessions that are open at the time of the last command, in ascending order of their numbers, among
/// others that have ended. The list is shorter than its limit. At the limit the sessions that have ended are
/// dropped, and the limit becomes twice the number of the others, and at least `LEAST_LIMIT`.
#[derive(Drop)]
pub struct OpenSessions {
    moment: Moment,
    sessions: Vec<Session>,
    limit: usize,
}

impl Model for OpenSessions {
    ghost use Rattle.portal_desk_store.specs.OpenSessions.{OpenAt};

    ghost Value = { OpenAt };

    ghost view = { λ o. record { moment = o.moment; sessions = o.sessions.items } };
}

impl OpenSessions {
    /// Wraps a list of sessions that are open at a time. The caller lists them by their numbers.
    pub fn new(moment: Moment, sessions: Vec<Session>) -> OpenSessions
        ensures { result ≡ record { moment = moment; sessions = sessions.items } }
    {
        let limit = sessions.len().saturating_mul(2).max(LEAST_LIMIT);
        OpenSessions {
            moment,
            sessions,
            limit,
        }
    }

    /// Lists the sessions that are open at a time, with their remaining seconds and bytes, for the gateway
    /// (RFC 8952 section 2.4). A time before that of the last command counts as that time.
    ///
    /// Error: `AllocError` when out of memory.
    pub fn sessions_at(&self, alloc: Global, moment: Moment) -> Result<Vec<OpenSession>, AllocError>
        ensures { (H : History) → HasOpenSessions H self.now
            → IfOk result (λ listing. listing.items ≡ open_sessions_of H moment) }
    {
        let t = effective(moment, self.moment);
        let mut listing = Vec::new(alloc);
        for session in &self.sessions {
            if is_open(session, t) {
                listing.push(open_session(session, t))?;
            }
        }
        Ok(listing)
    }

    /// Lists the details of the sessions that are open at a time. A time before that of the last command
    /// counts as that time.
    ///
    /// Error: `AllocError` when out of memory.
    pub fn details_at(
        &self,
        alloc: Global,
        moment: Moment,
    ) -> Result<Vec<SessionDetails>, AllocError>
        ensures { (H : History) → HasOpenSessions H self.now
            → IfOk result (λ listing. listing.items ≡ open_details_of H moment) }
    {
        let at = effective(moment, self.moment);
        let mut listing = Vec::new(alloc);
        for session in &self.sessions {
            if is_open(session, at) {
                listing.push(session_details(session, at))?;
            }
        }
        Ok(listing)
    }

    /// Returns the captive portal state of a device at a time (RFC 8908 section 5), if it has an open
    /// session and the list is no longer than `MOST_PASSED`. A time before that of the last command counts as
    /// that time.
    pub fn captive_at(&self, device: &Device, moment: Moment) -> Option<Captive>
        ensures { (H : History) → IsLegal H → HasOpenSessions H self.now
            → IfSome result (λ captive. captive ≡ captive_of H device.now moment) }
    {
        if self.sessions.len() > MOST_PASSED {
            return None;
        }
        let now = effective(moment, self.moment);
        for session in &self.sessions {
            if session.device == *device && is_open(session, now) {
                return Some(captive_of(Some(session), now));
            }
        }
        None
    }

    /// Updates the list after an accepted command, from its changes.
    ///
    /// Error: `AllocError` when out of memory; the list is dropped.
    pub fn update(self, changes: &Changes) -> Result<OpenSessions, AllocError>
        ensures { (H : History) → IsLegal H → (command : Command) (t : ℕ) → Follows H t command
            → changes_of H command t ≡ Some changes.now → HasOpenSessions H self
            → IfOk result (HasOpenSessions (entry t command ∷ H)) }
    {
        let OpenSessions {
            moment: _,
            mut sessions,
            limit,
        } = self;
        apply_to_sessions(&mut sessions, changes)?;
        let moment = moment_of(changes);
        if sessions.len() < limit {
            return Ok(OpenSessions {
                moment,
                sessions,
                limit,
            });
        }
        sessions.retain(|session| is_open(session, moment));
        Ok(OpenSessions::new(moment, sessions))
    }
}
