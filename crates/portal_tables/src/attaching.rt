//! Attaches the product's tables to a connection.

ghost use Rattle.std.specs.Prelude.{◌≡◌, ◌≢◌, ◌≤◌, ℕ, Option, Some, IsTrue, IfOk, IfErr, MatchResult};
ghost use Rattle.sqlite.specs.Held.{state};
ghost use Rattle.sqlite.specs.State.{HasCleanDisk, Survives};
ghost use Rattle.portal_ledger.specs.Ledger.{Ledger};
ghost use Rattle.portal_ledger.specs.States.{running};
ghost use Rattle.portal_tables.specs.Attaching.{
  FailsToAttach,
  HeadIsNoView,
  IsExactCause,
  IsUnchangedConn,
  IsKnown,
  IsCauseIn,
};
ghost use Rattle.portal_tables.specs.Attaching.{AttachesOthers};
ghost use Rattle.portal_tables_rows.specs.SchemaVersions.{GivesSchemaVersion};
ghost use Rattle.portal_tables_rows.specs.Holds.{this_schema_version};
ghost use Rattle.portal_tables.specs.StoreHolds.{IsAnyNameTaken};
ghost use Rattle.portal_tables.specs.TablesRepresent.{
  ConnRepresents,
  ConnIsFaultFree,
  IsFaultFree,
  IsStopped,
  CrashStatesHaveOthers,
};
ghost use Rattle.portal_tables.specs.TablesRepresent.{TablesRepresent};
ghost use Rattle.portal_tables.specs.declared.errors.OpenFault.TheVariants.{Store};

use crate::attach_steps::create_or_migrate;
use crate::errors::OpenFault;
use crate::tables::Tables;
use sqlite::{Alter, Connection};

/// A connection to which the tables were not attached, and why.
#[derive(Drop)]
pub struct Refused<S: Alter> {
    pub fault: OpenFault,
    pub connection: Connection<S>,
}

impl<S: Alter> Tables<S> {
    /// Attaches the tables to a connection, which must be outside a transaction.
    ///
    /// A database with none of the product's table names gets the tables, in one transaction. A database
    /// of an older schema version is migrated, in one transaction. A database of this version stays as
    /// it is, but gets its indexes if one is missing. All other tables keep their rows.
    ///
    /// If another table refers to one of the product's table names, whether that table exists or not, the error
    /// is `Store` and nothing changes. So it is if the tables would have to be made anew while another's index is
    /// on one of them.
    pub fn adopt(conn: Connection<S>) -> Result<Tables<S>, Refused<S>>
        ensures fault_free { MatchResult result (λ tables. IsFaultFree S.Store tables
            → ConnIsFaultFree S.Store conn)
            (λ refused. ConnIsFaultFree S.Store refused.connection → ConnIsFaultFree S.Store conn) }
        ensures attaches { (L : Ledger) → ConnRepresents S.Store conn L
            → MatchResult result (λ tables. IsFaultFree S.Store tables
            → TablesRepresent S.Store tables (running L))
            (λ refused. ConnIsFaultFree S.Store refused.connection → FailsToAttach S.Store L refused) }
        ensures others { (L : Ledger) → ConnRepresents S.Store conn L
            → MatchResult result (λ tables. IsFaultFree S.Store tables → AttachesOthers S.Store conn tables)
            (λ refused. ConnIsFaultFree S.Store refused.connection
            → CrashStatesHaveOthers S.Store conn refused.connection) }
        ensures works { IfOk result (λ tables. ¬ IsStopped S.Store tables) }
        ensures why { MatchResult result
            (λ tables. IsFaultFree S.Store tables → IsKnown (state S.Store conn).now)
            (λ refused. ConnIsFaultFree S.Store refused.connection
            → IsCauseIn refused.fault (state S.Store conn).now) }
        ensures exact { HeadIsNoView (state S.Store conn).now.schema
            → IsAnyNameTaken (state S.Store conn).now.schema → (version : Option ℕ)
            → GivesSchemaVersion (state S.Store conn).now version
            → MatchResult result (λ tables. IsFaultFree S.Store tables → (schema_version : ℕ)
            × (1 ≤ schema_version)
            × (schema_version ≤ this_schema_version) × (version ≡ Some schema_version))
            (λ refused. ConnIsFaultFree S.Store refused.connection → IsExactCause version refused.fault) }
        ensures kept { IfErr result
            (λ refused. ConnIsFaultFree S.Store refused.connection → IsTrue (state S.Store conn).is_open
            → refused.fault ≢ Store
            → IsUnchangedConn (state S.Store conn) (state S.Store refused.connection)) }
        ensures spares { IfErr result
            (λ refused. ¬ IsKnown (state S.Store conn).now
            → Survives (state S.Store conn) (state S.Store refused.connection) (λ _. ⊥)) }
    {
        let mut conn = conn;
        match create_or_migrate(&mut conn) {
            Ok(()) => Ok(Tables::new(conn)),
            Err(fault) => Err(Refused {
                fault,
                connection: conn,
            }),
        }
    }
}
