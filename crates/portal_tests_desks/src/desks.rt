//! Desks over new databases in memory: their answers, and exchanges with them.
//!
//! All of it is generic over the desks of a place. Only `InMemory` and the last functions name the database.
ghost use Rattle.std.specs.Prelude.{⊤};
ghost use Rattle.portal_os.specs.Laws.{memory_desk_is_fault_free};

use crate::exchanges::{ExchangeResult, Peer, exchange_with_peer, exchange_with_peers, whole_peer};
use crate::requests::{MOMENT, NO_ROUTE, REQUEST, STOPPED, UNROUTED};
use portal_commands::place::{Place, Purpose};
use portal_commands::trouble::Trouble;
use portal_desk::Desk;
use portal_desk_store::StoreDesk;
use portal_files::{Settings, sample_settings};
use portal_http::{Arrival, run};
use portal_http_routes::Routes;
use portal_os::HostFiles;
use portal_server::ProgramError;
use sqlite::{MemStore, Unknown};
use std::alloc::Global;

/// The program's desks in memory, as a place without files.
#[derive(Drop)]
pub struct InMemory;

impl Place for InMemory {
    type Stored = StoreDesk<MemStore>;

    type Fresh = StoreDesk<MemStore>;

    type Left = ();

    ghost reads = { λ _ _ _. ⊥ };

    ghost holds_ledger = { λ _ _ _. ⊥ };

    ghost finds = { λ _ _ _. ⊤ };

    ghost opens = { λ _ _ _ _. ⊤ };

    ghost closes = { λ _ _. ⊤ };

    ghost fails_to_read = { λ _ _ _. ⊤ };

    ghost refuses = { λ _ _ _ _ _. ⊤ };

    ghost still_holds = { λ _ _ _ _. ⊤ };

    ghost fails_to_close = { λ _ _ _ _. ⊤ };

    ghost fails_to_make = { λ _. ⊤ };

    ghost is_fresh_fault_free = { λ desk. memory_desk_is_fault_free desk };

    fn read(&self, _alloc: Global, _path: &str) -> Result<Vec<u8>, Trouble> {
        Err(Trouble::plain(ProgramError::File))
    }

    fn open(
        self,
        _alloc: Global,
        _path: &str,
        _settings: Settings,
        _purpose: Purpose,
    ) -> Result<StoreDesk<MemStore>, (Trouble, ())> {
        Err((Trouble::plain(ProgramError::File), ()))
    }

    fn close(_alloc: Global, _path: &str, desk: StoreDesk<MemStore>) -> Result<(), (Trouble, ())> {
        let _conn = desk.release();
        Ok(())
    }

    fn open_desk_in_memory(
        alloc: Global,
        settings: Settings,
    ) -> Result<StoreDesk<MemStore>, ProgramError> {
        HostFiles::<&'static HostRuntime, Unknown>::open_desk_in_memory(alloc, settings)
    }

    fn close_desk_in_memory(desk: StoreDesk<MemStore>) {
        let _conn = desk.release();
    }
}

/// Opens a desk over an empty database, with the sample settings.
pub fn new_desk<P: Place>(alloc: Global) -> Option<P::Fresh> {
    let settings = sample_settings(alloc).ok()?;
    P::open_desk_in_memory(alloc, settings).ok()
}

/// Builds requests as they arrive, each at its time.
pub fn build_arrivals(alloc: Global, requests: &[(u64, &[u8])]) -> Option<Vec<Arrival>> {
    let mut arrivals = Vec::new(alloc);
    for (at, request) in requests {
        let bytes = request.to_vec(alloc).ok()?;
        arrivals.push(Arrival::new(*at, [0; 32], bytes)?).ok()?;
    }
    Some(arrivals)
}

/// Returns the responses of the desk to requests that arrive one after another.
pub fn answers_of<D: Desk>(
    alloc: Global,
    desk: &mut D,
    arrivals: &[Arrival],
) -> Option<Vec<Vec<u8>>> {
    let routes = Routes::new(alloc).ok()?;
    let mut out = Vec::new(alloc);
    run(alloc, desk, &routes, arrivals, &mut out).ok()?;
    Some(out)
}

/// Returns the responses of a new desk to requests, after others before them.
fn answers_at<P: Place>(
    alloc: Global,
    before: &[Arrival],
    arrivals: &[Arrival],
) -> Option<Vec<Vec<u8>>> {
    let mut desk = new_desk::<P>(alloc)?;
    let _before = answers_of(alloc, &mut desk, before);
    let answers = answers_of(alloc, &mut desk, arrivals);
    P::close_desk_in_memory(desk);
    answers
}

/// Makes an exchange of a new desk with each client.
fn exchange_at<P: Place>(alloc: Global, peers: &[Peer<'_>]) -> Option<Vec<ExchangeResult>> {
    let mut desk = new_desk::<P>(alloc)?;
    let met = exchange_with_peers(alloc, &mut desk, peers);
    P::close_desk_in_memory(desk);
    met
}

/// Checks that the desk answers the request with exactly this response.
fn is_answered<D: Desk>(
    alloc: Global,
    desk: &mut D,
    routes: &Routes,
    request: &[u8],
    whole: &str,
) -> Option<bool> {
    let met = exchange_with_peer(alloc, desk, routes, &whole_peer(MOMENT, request, 80_000))?;
    Some(met.taken.as_slice() == whole.as_bytes())
}

/// Checks that a desk that has stopped answers `stopped`, to the client and to a guest, and still answers a
/// request that does not reach it.
pub fn is_refused_by_stopped<D: Desk>(
    alloc: Global,
    desk: &mut D,
    routes: &Routes,
    peer: &Peer<'_>,
) -> Option<bool> {
    let met = exchange_with_peer(alloc, desk, routes, peer)?;
    let is_refused = met
        .taken
        .as_slice()
        .ends_with(b"\r\n\r\n{\"error\":\"stopped\"}");
    let is_guest_refused = is_answered(alloc, desk, routes, REQUEST, STOPPED)?;
    let is_unrouted = is_answered(alloc, desk, routes, UNROUTED, NO_ROUTE)?;
    Some(is_refused && is_guest_refused && is_unrouted && desk.is_stopped())
}

/// Returns the responses of a new desk to requests that arrive in one run, after others in a run before it.
pub fn answers_in_memory(
    alloc: Global,
    before: &[(u64, &[u8])],
    requests: &[(u64, &[u8])],
) -> Option<Vec<Vec<u8>>> {
    let before = build_arrivals(alloc, before)?;
    let arrivals = build_arrivals(alloc, requests)?;
    answers_at::<InMemory>(alloc, before.as_slice(), arrivals.as_slice())
}

/// Returns the response of a new desk to a request.
pub fn answer(alloc: Global, request: &[u8]) -> Option<Vec<u8>> {
    answers_in_memory(alloc, &[], &[(MOMENT, request)])?.pop()
}

/// Makes an exchange of a new desk with each client, in their order.
pub fn exchange_in_memory(alloc: Global, peers: &[Peer<'_>]) -> Option<Vec<ExchangeResult>> {
    exchange_at::<InMemory>(alloc, peers)
}
