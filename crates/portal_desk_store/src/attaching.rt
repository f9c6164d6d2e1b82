//! Opening a desk over a connection, and releasing the connection.
ghost use Rattle.std.specs.Prelude.{◌≡◌, ◌≢◌, ℕ, Option, IfErr, IfOk};
ghost use Rattle.portal_ledger.specs.Ledger.{Ledger};
ghost use Rattle.portal_ledger.specs.States.{running};
ghost use Rattle.portal_tables.specs.Attaching.{FailsToAttach, IsExactCause, IsReadVersion, AttachesOthers};
ghost use Rattle.portal_tables.specs.TablesRepresent.{
  ConnRepresents,
  ConnIsFaultFree,
  IsCrashStateOfConn,
  Files,
  CrashStatesHaveOthers,
};
ghost use Rattle.portal_tables.specs.declared.errors.OpenFault.TheVariants.{Store};
ghost use Rattle.portal_desk_store.specs.Attaching.{
  HasStopped,
  IsAsItWas,
  IsCause,
  IsConnOpen,
  IsSpared,
  MayBeAttached,
  IfFaultFree,
  HeadGivesVersion,
};
ghost use Rattle.portal_desk_store.specs.DeskRepresents.{
  DeskRepresents,
  DeskIsFaultFree,
  IsCrashStateOfDesk,
  settings_of,
};

use crate::desks::StoreDesk;
use portal_files::Settings;
use portal_tables::attaching::Refused;
use portal_tables::tables::Tables;
use sqlite::{Alter, Connection};

impl<S: Alter> StoreDesk<S> {
    /// Attaches the database of a connection, which has to be outside a transaction, and returns a running
    /// desk over it. A database without tables of our names gets them; one of an older schema version is
    /// migrated to this one; each in one transaction.
    ///
    /// Errors, with the connection: `NotOurs` if a table has one of our names and the head table does not
    /// have one row with a schema version; `Newer` if the schema version is newer than this one; `Memory`
    /// when out of memory; `Store` if the database failed. After all but `Store` the database is unchanged.
    /// A database that holds a ledger is never `NotOurs` or `Newer`, and still holds that ledger, and every
    /// other table keeps its rows. On an error the settings are dropped.
    pub fn adopt(conn: Connection<S>, settings: Settings) -> Result<StoreDesk<S>, Refused<S>>
        ensures fault_free { IfFaultFree S.Store result (λ _. ConnIsFaultFree S.Store conn)
            (λ _. ConnIsFaultFree S.Store conn) }
        ensures attaches { (L : Ledger) → ConnRepresents S.Store conn L
            → IfFaultFree S.Store result (λ desk. DeskRepresents S.Store desk (running L))
            (FailsToAttach S.Store L) }
        ensures others { (L : Ledger) → ConnRepresents S.Store conn L
            → IfFaultFree S.Store result (λ desk. AttachesOthers S.Store conn desk.tables)
            (λ refused. CrashStatesHaveOthers S.Store conn refused.connection) }
        ensures same_settings { IfOk result (λ desk. settings_of desk ≡ settings) }
        ensures works { IfOk result (λ desk. ¬ HasStopped S.Store desk) }
        ensures why { IfFaultFree S.Store result (λ _. MayBeAttached S.Store conn)
            (λ refused. IsCause S.Store conn refused.fault) }
        ensures exact { (version : Option ℕ) → HeadGivesVersion S.Store conn version
            → IfFaultFree S.Store result (λ _. IsReadVersion version)
            (λ refused. IsExactCause version refused.fault) }
        ensures kept { IfErr result (λ refused. ConnIsFaultFree S.Store refused.connection
            → IsConnOpen S.Store conn → refused.fault ≢ Store → IsAsItWas S.Store conn refused.connection) }
        ensures spares { IfErr result (λ refused. ¬ MayBeAttached S.Store conn
            → IsSpared S.Store conn refused.connection) }
    {
        let tables = Tables::adopt(conn)?;
        Ok(StoreDesk {
            tables,
            settings,
            open: None,
            head: None,
        })
    }

    /// Releases the connection. If the desk is running, the connection represents the same ledger. Every
    /// crash state of the connection is one of the desk.
    pub fn release(self) -> Connection<S>
        ensures same { result ≡ self.tables.conn }
        ensures represents { (L : Ledger) → DeskRepresents S.Store self (running L)
            → ConnRepresents S.Store result L }
        ensures fault_free { ConnIsFaultFree S.Store result → DeskIsFaultFree S.Store self }
        ensures left { (files : Files) → IsCrashStateOfConn S.Store result files
            → IsCrashStateOfDesk S.Store self files }
    {
        let StoreDesk {
            tables,
            settings: _,
            open: _,
            head: _,
        } = self;
        tables.release()
    }
}
