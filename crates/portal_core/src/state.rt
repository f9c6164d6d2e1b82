//! The captive portal state of a device, the open sessions, and the details of a session, at a time.
ghost use Rattle.std.specs.Prelude.{◌≡◌, max};
ghost use Rattle.std.specs.Option.{option_copied};
ghost use Rattle.portal_model.specs.Captive.{captive_state, left_below, open_session};
ghost use Rattle.portal_model.specs.Details.{details_at, end_at, end_moment};
ghost use Rattle.portal_model.specs.History.{is_below};

use portal_model::captive::{Captive, OpenSession};
use portal_model::details::{End, SessionDetails};
use portal_model::moment::Moment;
use portal_model::record::{Session, is_open};

/// Returns the effective time of a request: its own, or that of the last accepted command if the clock was
/// set back behind it.
pub fn effective(moment: Moment, last: Moment) -> Moment
    ensures { result ≡ max moment last }
{
    moment.max(last)
}

/// Returns the captive portal state at `t` of a device whose last session is `last` (RFC 8908 section 5).
/// Without an open session the device is captive.
pub fn captive_of(last: Option<&Session>, t: Moment) -> Captive
    ensures { result ≡ captive_state t (option_copied last.entry) }
{
    match last {
        Some(session) if is_open(session, t) => Captive {
            captive: false,
            seconds: seconds_left(session, t),
            bytes: bytes_left(session),
            extend: Some(session.extend),
        },
        _ => Captive {
            captive: true,
            seconds: None,
            bytes: None,
            extend: None,
        },
    }
}

/// Returns a session that is open at `t` as the gateway lists it.
pub fn open_session(session: &Session, t: Moment) -> OpenSession
    ensures { result ≡ open_session t session.now }
{
    OpenSession {
        bytes: bytes_left(session),
        device: session.device,
        seconds: seconds_left(session, t),
        number: session.number,
    }
}

/// Returns the seconds from `t` until the session ends, if it is limited in time.
fn seconds_left(session: &Session, t: Moment) -> Option<u64>
    ensures { result ≡ left_below t session.now.ends }
{
    Some(session.ends?.get().saturating_sub(t.get()))
}

/// Returns the bytes left of the session's allowance, if it is limited in bytes.
fn bytes_left(session: &Session) -> Option<u64>
    ensures { result ≡ left_below session.now.used session.now.allowance }
{
    Some(session.allowance?.saturating_sub(session.used))
}

/// Returns the details of a session at `t`, be it open or ended.
pub fn session_details(session: &Session, t: Moment) -> SessionDetails
    ensures { result ≡ details_at t session.now }
{
    let Session {
        number,
        device,
        plan,
        opened,
        used,
        ..
    } = *session;
    let ended = end_of(session, t);
    SessionDetails {
        at: moment_of_end(ended, session),
        bytes: bytes_left(session),
        device,
        ended,
        opened,
        plan,
        seconds: seconds_left(session, t),
        number,
        used,
    }
}

/// Returns the first reason for which a session has ended at `t`: it was closed, its time is over, or its
/// bytes are used.
fn end_of(session: &Session, t: Moment) -> Option<End>
    ensures { result ≡ end_at t session.now }
{
    if session.closed.is_some() {
        return Some(End::Closed);
    }
    if session.ends.is_some_and(|ends| t >= ends) {
        return Some(End::Time);
    }
    if session
        .allowance
        .is_some_and(|allowance| session.used >= allowance)
    {
        return Some(End::Bytes);
    }
    None
}

/// Returns the time of an end of the session; no row keeps the time at which the bytes were used.
fn moment_of_end(ended: Option<End>, session: &Session) -> Option<Moment>
    ensures { result ≡ end_moment ended session.now }
{
    match ended? {
        End::Closed => session.closed,
        End::Time => session.ends,
        End::Bytes => None,
    }
}
