//! Applying the changes of a command to a list of sessions.
ghost use Rattle.std.specs.Prelude.{◌≡◌, IfOk, map};
ghost use Rattle.portal_desk_store.specs.OpenSessions.{IsAscending, replaced_if_same, sessions_after_changes};
ghost use Rattle.portal_desk_store.specs.OpenSessions.{moment_of};

use portal_model::change::Changes;
use portal_model::moment::Moment;
use portal_model::record::Session;
use std::alloc::AllocError;

/// Returns the time of the command.
pub(crate) fn moment_of(changes: &Changes) -> Moment
    ensures { result ≡ moment_of changes.now }
{
    match changes {
        Changes::LoadChange(c) => c.at,
        Changes::IssueChange(c) => c.at,
        Changes::SellChange(c) => c.at,
        Changes::RedeemChange(c) => c.at,
        Changes::ReportChange(c) => c.at,
        Changes::RefundChange(c) => c.at,
        Changes::CloseChange(c) => c.at,
    }
}

/// Replaces the session that has the number of `now`, if there is one. The list is in ascending order of
/// numbers, and a binary search finds it.
fn replace_session(sessions: &mut [Session], now: &Session)
    ensures { IsAscending sessions.old → sessions.new ≡ map (replaced_if_same now.now) sessions.old }
{
    if let Ok(place) = sessions.binary_search_by_key(&now.number, |session| session.number) {
        sessions[place] = *now;
    }
}

/// Applies the changes of a command to a list of sessions, in ascending order of numbers: appends one, or
/// replaces one.
///
/// Error: `AllocError` when out of memory.
pub(crate) fn apply_to_sessions(
    sessions: &mut Vec<Session>,
    changes: &Changes,
) -> Result<(), AllocError>
    ensures { IfOk result (λ _. IsAscending sessions.old.items
        → sessions.new.items ≡ sessions_after_changes changes.now sessions.old.items) }
{
    match changes {
        Changes::RedeemChange(c) if c.running.is_none() => sessions.push(c.session)?,
        Changes::RedeemChange(c) => replace_session(sessions, &c.session),
        Changes::ReportChange(c) => replace_session(sessions, &c.after()),
        Changes::CloseChange(c) => replace_session(
            sessions,
            &Session {
                closed: Some(c.at),
                ..c.session
            },
        ),
        Changes::LoadChange(_)
        | Changes::IssueChange(_)
        | Changes::SellChange(_)
        | Changes::RefundChange(_) => {}
    }
    Ok(())
}
