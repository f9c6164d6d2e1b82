//! The audit of the tables.

ghost use Rattle.std.specs.Prelude.{◌≡◌, ◌↔◌, true, IfOk, IsTrue};
ghost use Rattle.sqlite.specs.Held.{state};
ghost use Rattle.portal_tables_rows.specs.Audit.{IsAudited};
ghost use Rattle.portal_tables_rows.specs.Contents.{Contents};
ghost use Rattle.portal_tables_rows.specs.Holds.{Holds};
ghost use Rattle.portal_tables.specs.TablesRepresent.{IsFaultFree, ReadsTables};

use super::Tables;
use crate::errors::StoreFault;
use portal_tables_rows::audits::audit;
use sqlite::Alter;

impl<S: Alter> Tables<S> {
    /// Whether the rows agree with each other. No two rows of a table have the same key, and each row that
    /// another refers to is there. Each count is the number of redemptions with its code, each total is what
    /// the redemptions and the used bytes of its session give, each voucher has its count and each session
    /// its total, and the head row has the numbers of redemptions and of sessions. It is true in tables that
    /// only this product has written.
    pub fn audit(&mut self) -> Result<bool, StoreFault>
        ensures reads { ReadsTables S.Store self.old self.new result (λ L audited. audited ≡ true) }
        ensures exact { IsFaultFree S.Store self.new → IsTrue (state S.Store self.old.conn).is_open
            → (t : Contents) → Holds (state S.Store self.old.conn).now t
            → IfOk result (λ audited. IsTrue audited ↔ IsAudited t) }
    {
        if self.is_stopped {
            return Err(StoreFault::Stopped);
        }
        match audit(&mut self.conn) {
            Ok(found) => Ok(found),
            Err(fault) => Err(self.stop_on_fault(fault)),
        }
    }
}
