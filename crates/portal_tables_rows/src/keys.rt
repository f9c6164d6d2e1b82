//! Keys and references: whether no two rows of a table have the same key, and whether each row that
//! another refers to is there.

ghost use Rattle.std.specs.Prelude.{◌≡◌, ◌↔◌, All, IfOk, IsTrue, bytes_eq, map};
ghost use Rattle.std.specs.List.{IsDistinct, list_all};
ghost use Rattle.std.specs.Set.{is_member};
ghost use Rattle.std.specs.Hash as fed;
ghost use Rattle.std.specs.Cmp.{partial_equiv_from_equiv};
ghost use Rattle.std.specs.Cmp.Lexicographic.{nat_list_eq_equiv};
ghost use Rattle.std.specs.Cmp.Rules.{hashing};
ghost use Rattle.std.proofs.Common.{rules};
ghost use Rattle.portal_codes.specs.Code.{IsCode, text_of};
ghost use Rattle.portal_tables_rows.specs.Audit.{AreAmong, AreReadRows, HasDistinctKeys, HasReferences};
ghost use Rattle.portal_tables_rows.specs.Audit.{same_key, same_place};
ghost use Rattle.portal_tables_rows.specs.Contents.{Contents};
ghost use Rattle.portal_tables_rows.specs.Foreign.{NotForeign};
ghost use Rattle.portal_tables_rows.specs.Read.{count_read, voucher_read};
ghost use Rattle.portal_tables_rows.specs.Requests.{key_of, key_read};
ghost use Rattle.portal_tables_rows.specs.Sums.{grant_read};

use crate::counted_rows::CountedRows;
use crate::grants::GrantValue;
use crate::lists::codes_of_vouchers;
use crate::rows::{CountValue, RowError, SessionValue, VoucherValue};
use crate::stored_requests::RequestKey;
use portal_codes::Code;
use portal_model::name::Id;
use portal_model::plan::Plan;
use portal_model::proof::witness;
use portal_model::record::Batch;
use std::alloc::Global;
use std::collections::HashSet;
use std::hash::{Hash, Hasher};
use std::marker::Model;

/// An id as a key of a set.
#[derive(Clone, Copy, Debug)]
struct IdKey {
    id: Id,
}

impl Model for IdKey {
    ghost use Rattle.std.specs.Prelude.{List, ℕ};

    ghost Value = { List ℕ };

    ghost view = { λ key. key.id };

    ghost inverse = { λ v. record { id = v } };
}

impl PartialEq for IdKey {
    ghost eq = { bytes_eq };

    ghost laws = { partial_equiv_from_equiv nat_list_eq_equiv };

    fn eq(&self, other: &IdKey) -> bool {
        self.id.is(&other.id)
    }
}

impl Eq for IdKey {
    ghost laws = { nat_list_eq_equiv };
}

impl Hash for IdKey {
    ghost hash_input = { fed.str };

    ghost respects_eq = { Prim.search (hashing, rules) };

    fn hash<H: Hasher>(&self, state: &mut H) {
        self.id.text().hash(state);
    }
}

/// The place of a voucher in its batch, as a key of a set.
#[derive(Clone, Copy, Debug, PartialEq, Eq, Hash)]
struct PlaceKey {
    batch: IdKey,
    place: u64,
}

/// Whether no two of these keys are equal. The only error is out of memory.
fn are_distinct<K: Eq + Hash + Drop>(alloc: Global, keys: Vec<K>) -> Result<bool, RowError>
    ensures distinct { IfOk result (λ distinct. IsTrue distinct ↔ IsDistinct K.eq keys.items) }
    ensures memory { NotForeign result }
{
    let count = keys.len();
    let set: HashSet<K> = keys.into_iter().collect(alloc)?;
    Ok(set.len() == count)
}

/// Whether each of these keys is among the known ones. The only error is out of memory.
fn are_among<K: Eq + Hash + Copy>(alloc: Global, keys: &[K], known: &[K]) -> Result<bool, RowError>
    ensures among { IfOk result (λ among. among ≡ list_all (is_member K.eq known.now) keys.now) }
    ensures memory { NotForeign result }
{
    let set: HashSet<K> = known.iter().copied().collect(alloc)?;
    Ok(keys.iter().all(|key| set.contains(key)))
}

/// Whether no two requests have the same caller and idempotency key. The only error is out of memory.
fn are_requests_distinct(alloc: Global, requests: Vec<RequestKey>) -> Result<bool, RowError>
    ensures distinct { IfOk result
        (λ distinct. IsTrue distinct ↔ IsDistinct same_key (map key_read requests.items)) }
    ensures memory { NotForeign result }
{
    are_distinct(alloc, requests)
}

/// Returns the ids of these plans, in this order. The only error is out of memory.
fn ids_of_plans(alloc: Global, plans: &[Plan]) -> Result<Vec<IdKey>, RowError>
    ensures ids { IfOk result (λ ids. ids.items ≡ map (λ p. p.id) plans.now) }
    ensures memory { NotForeign result }
{
    let ids: Vec<IdKey> = plans
        .iter()
        .map(|plan| IdKey { id: plan.id })
        .collect(alloc)?;
    Ok(ids)
}

/// Returns the ids of these batches, in this order. The only error is out of memory.
fn ids_of_batches(alloc: Global, batches: &[Batch]) -> Result<Vec<IdKey>, RowError>
    ensures ids { IfOk result (λ ids. ids.items ≡ map (λ b. b.id) batches.now) }
    ensures memory { NotForeign result }
{
    let ids: Vec<IdKey> = batches
        .iter()
        .map(|batch| IdKey { id: batch.id })
        .collect(alloc)?;
    Ok(ids)
}

/// Returns the places of these vouchers, in this order. The only error is out of memory.
fn places_of_vouchers(alloc: Global, vouchers: &[VoucherValue]) -> Result<Vec<PlaceKey>, RowError>
    ensures places { IfOk result
        (λ places. places.items ≡ map (λ v. record { batch = v.batch; place = v.place }) vouchers.now) }
    ensures memory { NotForeign result }
{
    let places: Vec<PlaceKey> = vouchers
        .iter()
        .map(|voucher| PlaceKey {
            batch: IdKey { id: voucher.batch },
            place: voucher.place,
        })
        .collect(alloc)?;
    Ok(places)
}

/// Returns the numbers of these sessions, in this order. The only error is out of memory.
fn numbers_of_sessions(alloc: Global, sessions: &[SessionValue]) -> Result<Vec<u64>, RowError>
    ensures numbers { IfOk result (λ numbers. numbers.items ≡ map (λ s. s.number) sessions.now) }
    ensures memory { NotForeign result }
{
    let numbers: Vec<u64> = sessions
        .iter()
        .map(|session| session.number)
        .collect(alloc)?;
    Ok(numbers)
}

/// Returns the codes of these counts, in this order. The only error is out of memory.
fn codes_of_counts(alloc: Global, counts: &[CountValue]) -> Result<Vec<Code>, RowError>
    ensures read { IfOk result
        (λ codes. map text_of codes.items ≡ map (λ k. (count_read k).code) counts.now) }
    ensures codes { IfOk result (λ codes. All IsCode codes.items) }
    ensures memory { NotForeign result }
{
    let mut codes = Vec::new(alloc);
    for count in counts {
        // The contract of `text` says that this is a code.
        witness(count.code.text());
        codes.push(count.code)?;
    }
    Ok(codes)
}

/// Returns the codes of these redemptions, in this order. The only error is out of memory.
fn codes_of_grants(alloc: Global, grants: &[GrantValue]) -> Result<Vec<Code>, RowError>
    ensures read { IfOk result
        (λ codes. map text_of codes.items ≡ map (λ g. (grant_read g).code) grants.now) }
    ensures codes { IfOk result (λ codes. All IsCode codes.items) }
    ensures memory { NotForeign result }
{
    let mut codes = Vec::new(alloc);
    for grant in grants {
        // The contract of `text` says that this is a code.
        witness(grant.code.text());
        codes.push(grant.code)?;
    }
    Ok(codes)
}

/// Whether no two of these codes are equal. The only error is out of memory.
fn are_codes_distinct(alloc: Global, codes: Vec<Code>) -> Result<bool, RowError>
    ensures distinct { All IsCode codes.items
        → IfOk result (λ distinct. IsTrue distinct ↔ IsDistinct bytes_eq (map text_of codes.items)) }
    ensures memory { NotForeign result }
{
    are_distinct(alloc, codes)
}

/// Whether no two vouchers have the same place in a batch. The only error is out of memory.
fn are_places_distinct(alloc: Global, vouchers: &[VoucherValue]) -> Result<bool, RowError>
    ensures distinct { IfOk result
        (λ distinct. IsTrue distinct ↔ IsDistinct same_place (map voucher_read vouchers.now)) }
    ensures memory { NotForeign result }
{
    are_distinct(alloc, places_of_vouchers(alloc, vouchers)?)
}

/// Whether no two rows of a table have the same key. The only error is out of memory.
pub(crate) fn are_keys_distinct(
    rows: &CountedRows,
    batches: &[Batch],
    counts: &[CountValue],
    requests: Vec<RequestKey>,
) -> Result<bool, RowError>
    ensures distinct { IfOk result
        (λ distinct. (t : Contents) → AreReadRows rows.now t → batches.now ≡ t.batches
        → map count_read counts.now ≡ t.counts → map key_read requests.items ≡ map key_of t.requests
        → IsTrue distinct ↔ HasDistinctKeys t) }
    ensures memory { NotForeign result }
{
    let alloc = *rows.grants.allocator();
    if !are_distinct(alloc, ids_of_plans(alloc, &rows.plans)?)? {
        return Ok(false);
    }
    if !are_distinct(alloc, ids_of_batches(alloc, batches)?)? {
        return Ok(false);
    }
    if !are_codes_distinct(alloc, codes_of_vouchers(alloc, &rows.vouchers)?)? {
        return Ok(false);
    }
    if !are_places_distinct(alloc, &rows.vouchers)? {
        return Ok(false);
    }
    if !are_codes_distinct(alloc, codes_of_counts(alloc, counts)?)? {
        return Ok(false);
    }
    are_requests_distinct(alloc, requests)
}

/// Whether the plan of each batch is among these ids. The only error is out of memory.
fn are_batch_plans_among(
    alloc: Global,
    batches: &[Batch],
    plans: &[IdKey],
) -> Result<bool, RowError>
    ensures among { IfOk result
        (λ among. IsTrue among ↔ AreAmong (map (λ b. b.plan) batches.now) plans.now) }
    ensures memory { NotForeign result }
{
    let keys: Vec<IdKey> = batches
        .iter()
        .map(|batch| IdKey { id: batch.plan })
        .collect(alloc)?;
    are_among(alloc, &keys, plans)
}

/// Whether the plan of each session is among these ids. The only error is out of memory.
fn are_session_plans_among(
    alloc: Global,
    sessions: &[SessionValue],
    plans: &[IdKey],
) -> Result<bool, RowError>
    ensures among { IfOk result
        (λ among. IsTrue among ↔ AreAmong (map (λ s. s.plan) sessions.now) plans.now) }
    ensures memory { NotForeign result }
{
    let keys: Vec<IdKey> = sessions
        .iter()
        .map(|session| IdKey { id: session.plan })
        .collect(alloc)?;
    are_among(alloc, &keys, plans)
}

/// Whether the batch of each voucher is among these ids. The only error is out of memory.
fn are_voucher_batches_among(
    alloc: Global,
    vouchers: &[VoucherValue],
    batches: &[IdKey],
) -> Result<bool, RowError>
    ensures among { IfOk result
        (λ among. IsTrue among ↔ AreAmong (map (λ v. v.batch) vouchers.now) batches.now) }
    ensures memory { NotForeign result }
{
    let keys: Vec<IdKey> = vouchers
        .iter()
        .map(|voucher| IdKey { id: voucher.batch })
        .collect(alloc)?;
    are_among(alloc, &keys, batches)
}

/// Whether the session of each redemption is among these numbers. The only error is out of memory.
fn are_grant_sessions_among(
    alloc: Global,
    grants: &[GrantValue],
    sessions: &[u64],
) -> Result<bool, RowError>
    ensures among { IfOk result
        (λ among. IsTrue among ↔ AreAmong (map (λ g. g.session) grants.now) sessions.now) }
    ensures memory { NotForeign result }
{
    let keys: Vec<u64> = grants.iter().map(|grant| grant.session).collect(alloc)?;
    are_among(alloc, &keys, sessions)
}

/// Whether each of these codes is among the known ones. The only error is out of memory.
fn are_codes_among(alloc: Global, codes: &[Code], known: &[Code]) -> Result<bool, RowError>
    ensures among { All IsCode codes.now → All IsCode known.now
        → IfOk result (λ among. IsTrue among ↔ AreAmong (map text_of codes.now) (map text_of known.now)) }
    ensures memory { NotForeign result }
{
    are_among(alloc, codes, known)
}

/// Whether each row that another refers to is there. The only error is out of memory.
pub(crate) fn are_references_there(
    rows: &CountedRows,
    batches: &[Batch],
    counts: &[CountValue],
) -> Result<bool, RowError>
    ensures there { IfOk result
        (λ there. (t : Contents) → AreReadRows rows.now t → batches.now ≡ t.batches
        → map count_read counts.now ≡ t.counts → IsTrue there ↔ HasReferences t) }
    ensures memory { NotForeign result }
{
    let alloc = *rows.grants.allocator();
    let plans = ids_of_plans(alloc, &rows.plans)?;
    if !are_batch_plans_among(alloc, batches, &plans)? {
        return Ok(false);
    }
    if !are_session_plans_among(alloc, &rows.sessions, &plans)? {
        return Ok(false);
    }
    let ids = ids_of_batches(alloc, batches)?;
    if !are_voucher_batches_among(alloc, &rows.vouchers, &ids)? {
        return Ok(false);
    }
    let numbers = numbers_of_sessions(alloc, &rows.sessions)?;
    if !are_grant_sessions_among(alloc, &rows.grants, &numbers)? {
        return Ok(false);
    }
    let codes = codes_of_vouchers(alloc, &rows.vouchers)?;
    if !are_codes_among(alloc, &codes_of_grants(alloc, &rows.grants)?, &codes)? {
        return Ok(false);
    }
    are_codes_among(alloc, &codes_of_counts(alloc, counts)?, &codes)
}
