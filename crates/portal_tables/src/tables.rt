//! The tables over a connection: they read records and commit commands.

ghost use Rattle.std.specs.Prelude.{◌≡◌, ◌↔◌, ◌⊎◌, true, false, IsTrue, MatchResult, IsErrOf, is_some};
ghost use Rattle.sqlite.specs.Held.{state};
ghost use Rattle.sqlite.specs.State.{HasCleanDisk, IsUnchanged, Survives};
ghost use Rattle.portal_ledger.specs.Ledger.{Accepted, Ledger, history_of};
ghost use Rattle.portal_model.specs.History.{issued_of, voucher_of, session_of};
ghost use Rattle.portal_model.specs.History.{last_session_of};
ghost use Rattle.portal_ledger.specs.States.{State as DeskState, running};
ghost use Rattle.portal_ledger.specs.Calls.{Fits, Keeps, FailsToKeep};
ghost use Rattle.portal_tables.specs.HoldsLedger.{IsHeldUnder};
ghost use Rattle.portal_tables.specs.TablesRepresent.{
  ConnRepresents,
  ConnIsFaultFree,
  IsCrashStateOfConn,
  Files,
  IsFaultFree,
  IsCrashState,
};
ghost use Rattle.portal_tables.specs.TablesRepresent.{
  OthersKept,
  TablesRepresent,
  IsStopped,
  TablesKeepStop,
  FaultGivesStop,
};
ghost use Rattle.portal_tables.specs.TablesRepresent.{ReadsTables, GivesFault};
ghost use Rattle.portal_tables.specs.declared.errors.StoreFault.TheVariants.{Memory, Stopped};

mod audits;

use crate::errors::{StoreFault, is_memory};
use crate::questions::Question;
use portal_codes::Code;
use portal_ledger::caller::Caller;
use portal_ledger::marked::MarkedChanges;
use portal_ledger::request::{KeptRequest, RequestNumber};
use portal_model::name::Device;
use portal_model::record::{Session, Voucher};
use portal_tables_rows::commands::commit_command;
use portal_tables_rows::rows::RowError;
use sqlite::{Alter, Connection};
use std::alloc::Global;

/// The product's tables in a database.
pub struct Tables<S: Alter> {
    conn: Connection<S>,
    is_stopped: bool,
}

impl<S: Alter> Tables<S> {
    /// Makes tables that work, over a connection whose tables are ready.
    pub(crate) fn new(conn: Connection<S>) -> Tables<S>
        ensures { result ≡ record { conn = conn; is_stopped = false } }
    {
        Tables {
            conn,
            is_stopped: false,
        }
    }

    /// Returns the connection. If the tables have not stopped, it represents the same ledger. It has no
    /// crash state that the tables did not have.
    pub fn release(self) -> Connection<S>
        ensures same { result ≡ self.conn }
        ensures represents { (L : Ledger) → TablesRepresent S.Store self (running L)
            → ConnRepresents S.Store result L }
        ensures fault_free { ConnIsFaultFree S.Store result → IsFaultFree S.Store self }
        ensures left { (files : Files) → IsCrashStateOfConn S.Store result files
            → IsCrashState S.Store self files }
    {
        let Tables {
            conn,
            is_stopped: _,
        } = self;
        conn
    }

    /// Whether the tables have stopped: then each call but this and `release` fails with `Stopped`.
    pub fn is_stopped(&self) -> bool
        ensures { IsTrue result ↔ IsStopped S.Store self.now }
    {
        self.is_stopped
    }

    /// Maps an error of the rows to a `StoreFault`, and stops the tables unless it is `Memory`. It is
    /// `Memory` only if the connection still answers; then nothing has changed.
    fn stop_on_fault(&mut self, fault: RowError) -> StoreFault
        ensures { GivesFault S.Store self.old self.new result }
    {
        if is_memory(&mut self.conn, &fault) {
            return StoreFault::Memory;
        }
        self.is_stopped = true;
        StoreFault::Stopped
    }

    /// Commits a command in one transaction: its changes, and its request if it has an idempotency key.
    ///
    /// The changes must be those of a command that may come next, and the key must be free. After
    /// `Memory` nothing has changed. After `Stopped` the files hold the command as a whole or not at
    /// all. Fails with `Stopped` if the connection is inside a transaction or a number does not fit in a
    /// column. In each case all other tables keep their rows.
    pub fn commit(&mut self, marked: &MarkedChanges) -> Result<(), StoreFault>
        ensures fault_free { IsFaultFree S.Store self.new → IsFaultFree S.Store self.old }
        ensures stopped { IsStopped S.Store self.old → IsErrOf result Stopped × (self.new ≡ self.old) }
        ensures stops { TablesKeepStop S.Store self.old self.new result }
        ensures commit { IsFaultFree S.Store self.new → (old : DeskState)
            → TablesRepresent S.Store self.old old
            → (a : Accepted) → Fits old marked.now a
            → (new : DeskState) × TablesRepresent S.Store self.new new
            × MatchResult result (λ _. Keeps old a new)
            (λ fault. FailsToKeep Memory Stopped old a fault new) }
        ensures others { IsFaultFree S.Store self.new → (L : Ledger)
            → TablesRepresent S.Store self.old (running L)
            → OthersKept S.Store self.old self.new }
    {
        if self.is_stopped {
            return Err(StoreFault::Stopped);
        }
        let answer = marked.answer();
        if !self.conn.is_autocommit() {
            self.is_stopped = true;
            return Err(StoreFault::Stopped);
        }
        match commit_command(&mut self.conn, marked, &answer) {
            Ok(()) => Ok(()),
            Err(error) => Err(self.stop_on_fault(RowError::Sql(error))),
        }
    }

    /// Reads the answer to a question.
    pub fn read<Q: Question>(&mut self, question: Q) -> Result<Q::Answer, StoreFault>
        ensures { ReadsTables S.Store self.old self.new result (Q.is question) }
    {
        if self.is_stopped {
            return Err(StoreFault::Stopped);
        }
        match question.ask(&mut self.conn) {
            Ok(found) => Ok(found),
            Err(fault) => Err(self.stop_on_fault(fault)),
        }
    }
}
