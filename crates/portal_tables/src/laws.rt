//! Laws of the tables. The functions do nothing: each contract is a law.

ghost use Rattle.portal_ledger.specs.Ledger.{Ledger, IsSound};
ghost use Rattle.portal_ledger.specs.States.{State as DeskState, MayBeFound, running};
ghost use Rattle.portal_tables.specs.HoldsLedger.{RowsAreOwn};
ghost use Rattle.portal_tables.specs.TablesRepresent.{
  ConnRepresents,
  CrashStatesOfConnHold,
  Files,
  FilesHold,
  CrashStatesHold,
  TablesRepresent,
};

use crate::tables::Tables;
use sqlite::{Alter, Connection};

/// Law: each crash state of the tables holds a ledger that may be found after a reopening.
#[tactic(auto, using(crate::proofs::StateLemmas::leaves))]
pub fn tables_crash_states<S: Alter>(tables: &Tables<S>)
    ensures { (s : DeskState) → TablesRepresent S.Store tables.now s
        → CrashStatesHold S.Store tables.now (MayBeFound s) }
{}

/// Law: the ledger of tables that work is sound, and so its history is legal.
#[tactic(auto, using(crate::proofs::StateLemmas::sound_at))]
pub fn tables_are_sound<S: Alter>(tables: &Tables<S>)
    ensures { (L : Ledger) → TablesRepresent S.Store tables.now (running L) → IsSound L }
{}

/// Law: the rows of a sound ledger are rows that this product writes, so that none is read as foreign.
#[tactic(auto, using(crate::proofs::OwnLedger::rows_are_own))]
pub fn rows_are_own()
    ensures { RowsAreOwn }
{}

/// Law: a ledger that files hold is sound.
#[tactic(auto, using(crate::proofs::StateLemmas::files_sound))]
pub fn files_are_sound()
    ensures { (files : Files) (L : Ledger) → FilesHold files L → IsSound L }
{}

/// Law: each crash state of a connection that represents a ledger holds that ledger.
#[tactic(auto, using(crate::proofs::StateLemmas::conn_leaves))]
pub fn connections_crash_states<S: Alter>(conn: &Connection<S>)
    ensures { (L : Ledger) → ConnRepresents S.Store conn.now L → CrashStatesOfConnHold S.Store conn.now L }
{}
