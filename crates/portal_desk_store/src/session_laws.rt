//! Laws of the sessions after a command, on which the list of open sessions relies. The functions do nothing.
ghost use Rattle.portal_desk_store.specs.SessionLaws.{OpenFollows, OpenWasOpen, ChangesGiveSessions};

/// Law: the sessions after an accepted command are those before it with its changes: one appended, or one
/// replaced.
#[tactic(auto, using(crate::proofs::SessionLemmas::changes_give_sessions))]
pub fn changes_give_sessions()
    ensures { ChangesGiveSessions }
{}

/// Law: a session that is open at a later time, with no command in between, was open at the time of the
/// last command.
#[tactic(auto, using(crate::proofs::OpenSessionLemmas::open_was_open))]
pub fn open_was_open()
    ensures { OpenWasOpen }
{}

/// Law: the sessions that are open after an accepted command are those open before it, with its changes,
/// that are still open.
#[tactic(auto, using(crate::proofs::OpenSessionLemmas::open_follows))]
pub fn open_follows()
    ensures { OpenFollows }
{}
