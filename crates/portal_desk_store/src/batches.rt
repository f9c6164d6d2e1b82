//! Lists of batches with their states, and a batch with its vouchers.
ghost use Rattle.std.specs.Prelude.{◌≡◌, ◌≤◌, List, map, option_map};
ghost use Rattle.portal_model.specs.Batches.{
  batch_state,
  batch_with_vouchers,
  before_of,
  most_batches,
  vouchers_in,
  AreStatesAfter,
};
ghost use Rattle.portal_ledger.specs.States.{running};
ghost use Rattle.portal_desk.specs.Calls.{FindsThat, Returns};
ghost use Rattle.portal_desk_store.specs.Steps.{MovesFromLedger, MovesTables};

use crate::desks::StoreDesk;
use portal_model::batches::{BatchState, batch_state};
use portal_model::name::Id;
use portal_model::record::{Batch, Voucher};
use portal_model::refusal::Refusal;
use portal_tables::questions::{BatchOf, BatchesAfter, VouchersIn};
use sqlite::Alter;
use std::alloc::Global;

impl<S: Alter> StoreDesk<S> {
    /// Reads a batch with its vouchers, in order of issue.
    ///
    /// Errors: `NoMemory`, `Stopped`; `UnknownBatch` if no such batch was issued.
    pub(crate) fn read_batch_vouchers(
        &mut self,
        alloc: Global,
        id: &Id,
    ) -> Result<(Batch, Vec<Voucher>), Refusal>
        ensures { MovesTables S.Store self.old self.new result
            (FindsThat Refusal.UnknownBatch (λ H. batch_with_vouchers H id.now)
            (λ found both _. (found.0, found.1.items) ≡ both) result) }
    {
        let batch = self
            .tables
            .read(BatchOf { id })?
            .ok_or(Refusal::UnknownBatch)?;
        let vouchers = self.tables.read(VouchersIn { alloc, batch: id })?;
        Ok((batch, vouchers))
    }

    /// Counts the vouchers of each of these batches that were sold, refunded and used up.
    fn states_of(&mut self, alloc: Global, batches: &[Batch]) -> Result<Vec<BatchState>, Refusal>
        ensures { MovesFromLedger S.Store self.old self.new result (λ L new. Returns result
            (λ states H. states.items ≡ map (λ b. batch_state b (vouchers_in H b.id)) batches.now)
            (running L) new) }
    {
        let mut states = Vec::new(alloc);
        for batch in batches {
            let vouchers = self.tables.read(VouchersIn {
                alloc,
                batch: &batch.id,
            })?;
            states
                .push(batch_state(batch, &vouchers))
                .map_err(|_| Refusal::NoMemory)?;
        }
        Ok(states)
    }

    /// Lists the batches after that one, newest first, or all of them: at most `limit`, each with its state;
    /// and whether there are more.
    fn list_after(
        &mut self,
        alloc: Global,
        place: Option<&Batch>,
        limit: usize,
    ) -> Result<(Vec<BatchState>, bool), Refusal>
        requires { limit ≤ most_batches }
        ensures { MovesTables S.Store self.old self.new result (Returns result (λ found H.
            AreStatesAfter H (option_map (λ batch. batch.now) place.entry) limit found.0.items found.1)) }
    {
        let listed = self.tables.read(BatchesAfter {
            alloc,
            before: place,
        })?;
        let batches = listed.as_slice();
        let shown = batches.len().min(limit);
        let states = self.states_of(alloc, &batches[..shown])?;
        Ok((states, batches.len() > limit))
    }

    /// Lists the batches, newest first, or those after the batch with the id `before`.
    ///
    /// Errors: `NoMemory`, `Stopped`; `UnknownBatch` if no batch has that id.
    pub(crate) fn list_batches(
        &mut self,
        alloc: Global,
        before: Option<&Id>,
        limit: usize,
    ) -> Result<(Vec<BatchState>, bool), Refusal>
        requires { limit ≤ most_batches }
        ensures { MovesTables S.Store self.old self.new result
            (FindsThat Refusal.UnknownBatch (λ H. before_of H (option_map (λ id. id.now) before.entry))
            (λ found place H. AreStatesAfter H place limit found.0.items found.1) result) }
    {
        match before {
            None => self.list_after(alloc, None, limit),
            Some(id) => {
                let place = self
                    .tables
                    .read(BatchOf { id })?
                    .ok_or(Refusal::UnknownBatch)?;
                self.list_after(alloc, Some(&place), limit)
            }
        }
    }
}
