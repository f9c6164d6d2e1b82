//! Writes the takings report.

ghost use Rattle.std.specs.Prelude.{◌≡◌, ◌++◌, ◌∷◌, [], codes, IfOk, IfErr, length, string_bytes, sum_by};
ghost use Rattle.portal_model.specs.Takings.{TotalsFit};
ghost use Rattle.portal_files.specs.Report.{
  takings_line,
  IsDayLine,
  total_line,
  net_text,
  net_line,
  IsReport,
};

use crate::amounts::{amount_column, amount_text};
use crate::days::day_text;
use crate::fault::FileFault;
use portal_model::takings::DayTakings;
use std::alloc::{AllocError, Global};

/// The line with the names of the columns.
const HEADER: &str = "day            sold             sales refunded           refunds\n";

/// The label of the totals, padded to the width of a day.
const TOTAL: &str = "total     ";

/// Returns a line of the takings report: a label of ten characters, then the counts and the sums of sales
/// and of refunds.
///
/// The only error is out of memory.
fn takings_line(
    alloc: Global,
    label: &str,
    sold: u64,
    sales: u128,
    refunded: u64,
    refunds: u128,
) -> Result<String, AllocError>
    requires { length label.now ≡ 10 }
    ensures { IfOk result (λ line. string_bytes line ≡ takings_line label.now sold sales refunded refunds) }
{
    let sales = amount_column(alloc, sales)?;
    let refunds = amount_column(alloc, refunds)?;
    format!(in alloc; "{label} {sold:>8} {sales} {refunded:>8} {refunds}\n")
}

/// Writes the line of a day. The only error is out of memory.
fn day_line(alloc: Global, takings: &DayTakings) -> Result<String, AllocError>
    ensures { IfOk result (λ line. IsDayLine takings.now (string_bytes line)) }
{
    let date = day_text(alloc, takings.day)?;
    takings_line(
        alloc,
        date.as_str(),
        takings.sold,
        takings.sales,
        takings.refunded,
        takings.refunds,
    )
}

/// Returns the sum of the sales of the days, in hundredths.
fn total_sales(days: &[DayTakings]) -> u128
    requires { TotalsFit days.now }
    ensures { result ≡ sum_by (λ d. d.sales) days.now }
{
    days.iter().map(|day| day.sales).sum()
}

/// Returns the sum of the refunds of the days, in hundredths.
fn total_refunds(days: &[DayTakings]) -> u128
    requires { TotalsFit days.now }
    ensures { result ≡ sum_by (λ d. d.refunds) days.now }
{
    days.iter().map(|day| day.refunds).sum()
}

/// Writes the line of the totals. The only error is out of memory.
fn total_line(alloc: Global, days: &[DayTakings]) -> Result<String, AllocError>
    requires { TotalsFit days.now }
    ensures { IfOk result (λ line. string_bytes line ≡ total_line days.now) }
{
    let sold = days.iter().map(|day| day.sold).sum();
    let refunded = days.iter().map(|day| day.refunded).sum();
    takings_line(
        alloc,
        TOTAL,
        sold,
        total_sales(days),
        refunded,
        total_refunds(days),
    )
}

/// Writes the line of the net sum: the sales less the refunds. The only error is out of memory.
fn net_line(alloc: Global, days: &[DayTakings]) -> Result<String, AllocError>
    requires { TotalsFit days.now }
    ensures { IfOk result (λ line. string_bytes line ≡ net_line days.now) }
{
    let sales = total_sales(days);
    let refunds = total_refunds(days);
    if sales < refunds {
        let owed = amount_text(alloc, refunds - sales)?;
        return format!(in alloc; "net -{owed}\n");
    }
    let net = amount_text(alloc, sales - refunds)?;
    format!(in alloc; "net {net}\n")
}

/// Writes the takings report: a header, a line for each day in order, the totals, and the net sum.
///
/// Each line has the day or a word, aligned to the left in 10 columns; the count of the sales, aligned to
/// the right in 8, and their sum, in 17; and the same for the refunds. There is a space between two
/// columns. A number that needs more columns takes them. Sums are in whole units with two decimal places.
/// The net sum follows `net `, with a `-` if the refunds are greater than the sales.
///
/// Fault: `Memory`.
pub fn takings_text(alloc: Global, days: &[DayTakings]) -> Result<String, FileFault>
    requires { TotalsFit days.now }
    ensures ok { IfOk result (λ text. IsReport days.now (string_bytes text)) }
    ensures memory { IfErr result (λ e. e ≡ FileFault.Memory) }
{
    let mut text = String::from_str(alloc, HEADER)?;
    for takings in days {
        let line = day_line(alloc, takings)?;
        text.push_str(line.as_str())?;
    }
    let totals = total_line(alloc, days)?;
    text.push_str(totals.as_str())?;
    let net = net_line(alloc, days)?;
    text.push_str(net.as_str())?;
    Ok(text)
}
