//! The changes of a command with the fingerprint of its request.
ghost use Rattle.std.specs.Prelude.{◌≡◌, IfOk, IfErr, Some, None};
ghost use Rattle.portal_model.specs.Change.{answer_of};

use crate::request::RequestMark;
use portal_model::change::{Answer, Changes};
use portal_model::refusal::Refusal;
use std::alloc::Global;

/// What is committed for an accepted command: its changes, and the fingerprint if its request was
/// idempotent.
#[derive(Drop)]
pub struct MarkedChanges {
    /// The changes of the command.
    pub changes: Changes,
    /// The fingerprint of its request, if it had an idempotency key.
    pub mark: Option<RequestMark>,
}

impl MarkedChanges {
    /// Wraps the changes of a request without an idempotency key.
    pub fn unmarked(changes: Changes) -> MarkedChanges
        ensures { result ≡ record { changes = changes; mark = None } }
    {
        MarkedChanges {
            changes,
            mark: None,
        }
    }

    /// Combines the changes of an idempotent request with a copy of its fingerprint.
    ///
    /// Error: `NoMemory` when out of memory; the changes are dropped.
    pub fn with_mark(
        alloc: Global,
        changes: Changes,
        mark: &RequestMark,
    ) -> Result<MarkedChanges, Refusal>
        ensures ok { IfOk result (λ marked. marked ≡ record { changes = changes; mark = Some mark.now }) }
        ensures err { IfErr result (λ r. r ≡ Refusal.NoMemory) }
    {
        let mark = mark.copied(alloc)?;
        Ok(MarkedChanges {
            changes,
            mark: Some(mark),
        })
    }

    /// Returns the answer to the command. It is valid once the changes are committed, and does not depend
    /// on the fingerprint.
    pub fn answer(&self) -> Answer
        ensures { result ≡ answer_of self.now.changes }
    {
        self.changes.answer()
    }
}
