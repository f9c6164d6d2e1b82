//! The two orders in which sales are listed: by time and printed code, and as the vouchers were issued.
use portal_model::moment::Moment;
use portal_tables::attaching::Refused;
use portal_tables::errors::StoreFault;
use portal_tables::questions::{SalesAsIssued, SalesByMoment};
use portal_tables::tables::Tables;
use sqlite::{Alter, Connection};
use std::alloc::Global;
use std::test::Fail;

/// Three vouchers that are sold in another order than they were issued, two of them at one time.
const SOLD: &str =
    "INSERT INTO portal_plans VALUES ('hour', 300, 1, 3600, 0, 30, 1), ('gig', 500, 3, 0, 1073741824, 30, 0);
    INSERT INTO portal_batches VALUES ('b1', 'hour', 900, 2592900, 2), ('b2', 'gig', 900, 2592900, 1);
    INSERT INTO portal_vouchers VALUES ('3N55-WA4S-KH53', 'b1', 0, 1000, NULL, NULL, 0),
    ('3N55-WA4S-KH5V-JR49', 'b1', 1, 900, NULL, NULL, 0), ('2222-2222-223N', 'b2', 0, 1000, NULL, NULL, 0);
    UPDATE portal_head SET last_moment = 1000";

/// Times, each with an amount.
type Amounts = Result<Vec<(Moment, u64)>, StoreFault>;

/// Attaches a connection, and returns its tables.
fn attach_tables<S: Alter + Drop>(conn: Connection<S>) -> Result<Tables<S>, Fail> {
    match Tables::adopt(conn) {
        Ok(tables) => Ok(tables),
        Err(Refused { fault, connection }) => {
            drop(connection);
            Err(fault.into())
        }
    }
}

/// Returns the sales from a time to 1000, in both orders.
fn read_sales<S: Alter>(
    alloc: Global,
    tables: &mut Tables<S>,
    from: u64,
) -> Option<(Amounts, Amounts)> {
    let (from, to) = (Moment::new(from)?, Moment::new(1000)?);
    let by_moment = tables.read(SalesByMoment { alloc, from, to });
    Some((by_moment, tables.read(SalesAsIssued { alloc, from, to })))
}

/// Checks that the amounts are these.
fn are_amounts(amounts: &Amounts, wanted: &[(u64, u64)]) -> bool {
    let Ok(amounts) = amounts else {
        return false;
    };
    for ((at, amount), (seconds, price)) in amounts.iter().zip(wanted) {
        if at.get() != *seconds || *amount != *price {
            return false;
        }
    }
    amounts.len() == wanted.len()
}

/// Sales are listed by time and printed code, and in the order of issue.
#[test]
fn sales_in_both_orders(rt: HostRuntime) -> Result<(), Fail> {
    let mut conn = attach_tables(Connection::open_in_memory(rt.alloc())?)?.release();
    conn.execute_batch(SOLD)?;
    let mut tables = attach_tables(conn)?;
    let all = read_sales(rt.alloc(), &mut tables, 0);
    let later = read_sales(rt.alloc(), &mut tables, 901);
    drop(tables.release());
    let (by_moment, as_issued) = all.ok_or("no moments")?;
    assert!(rt;
        are_amounts(&by_moment, &[(900, 300), (1000, 500), (1000, 300)]),
        "{by_moment:?}"
    );
    assert!(rt;
        are_amounts(&as_issued, &[(1000, 300), (900, 300), (1000, 500)]),
        "{as_issued:?}"
    );
    let (by_moment, as_issued) = later.ok_or("no moments")?;
    assert!(rt;
        are_amounts(&by_moment, &[(1000, 500), (1000, 300)]),
        "{by_moment:?}"
    );
    assert!(rt;
        are_amounts(&as_issued, &[(1000, 300), (1000, 500)]),
        "{as_issued:?}"
    );
    Ok(())
}
