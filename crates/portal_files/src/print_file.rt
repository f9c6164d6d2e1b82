//! Writes the print file of a batch.

ghost use Rattle.std.specs.Prelude.{◌≡◌, ◌++◌, IfOk, IfErr, OnOk, string_bytes};
ghost use Rattle.std.specs.List.{flat_map};
ghost use Rattle.portal_files.specs.PrintFile.{limit_text, IsPrintFile};
ghost use Rattle.portal_files.specs.Private.Written.{
  IsReady,
  written_text,
  shared_of,
  row,
  header_row,
  code_row,
};

use crate::amounts::amount_text;
use crate::fault::FileFault;
use crate::minutes::local_minute_text;
use crate::settings::Settings;
use crate::sheet::BatchSheet;
use csv::{Error, Writer};
use portal_codes::Code;
use std::alloc::{AllocError, Global};

/// Writes a limit of a plan; empty for 0, which means no limit. The only error is out of memory.
fn limit_text(alloc: Global, limit: u64) -> Result<String, AllocError>
    ensures { IfOk result (λ text. string_bytes text ≡ limit_text limit) }
{
    if limit == 0 {
        return Ok(String::new(alloc));
    }
    limit.to_string(alloc)
}

/// Writes a row of six fields. An error is that of the writer.
fn write_row<'a>(
    writer: &mut Writer<Vec<u8>>,
    first: &'a [u8],
    plan: &'a [u8],
    seconds: &'a [u8],
    bytes: &'a [u8],
    price: &'a [u8],
    expires: &'a [u8],
) -> Result<(), Error>
    requires { IsReady writer.old }
    ensures ready { OnOk result (IsReady writer.new) }
    ensures text { OnOk result (written_text writer.new ≡ written_text writer.old
        ++ row (shared_of plan.now seconds.now bytes.now price.now expires.now) first.now) }
{
    writer.write_fields(&[first, plan, seconds, bytes, price, expires])
}

/// Writes the row with the names of the columns. An error is that of the writer.
fn write_header(writer: &mut Writer<Vec<u8>>) -> Result<(), Error>
    requires { IsReady writer.old }
    ensures ready { OnOk result (IsReady writer.new) }
    ensures text { OnOk result (written_text writer.new ≡ written_text writer.old ++ header_row) }
{
    write_row(
        writer, b"code", b"plan", b"seconds", b"bytes", b"price", b"expires",
    )
}

/// Writes the header and a row for each code. The other fields are the same in all rows.
///
/// An error is that of the writer.
fn write_code_lines(
    alloc: Global,
    codes: &[Code],
    plan: &[u8],
    seconds: &[u8],
    bytes: &[u8],
    price: &[u8],
    expires: &[u8],
) -> Result<Vec<u8>, Error>
    ensures { IfOk result (λ v. v.items ≡ header_row
        ++ flat_map (code_row (shared_of plan.now seconds.now bytes.now price.now expires.now)) codes.now) }
{
    let mut writer = Writer::from_writer(Vec::new(alloc));
    write_header(&mut writer)?;
    for code in codes {
        let text = code.text();
        write_row(
            &mut writer,
            text.as_bytes(),
            plan,
            seconds,
            bytes,
            price,
            expires,
        )?;
    }
    writer.into_inner().map_err(|e| e.into_error())
}

/// Writes the print file of a batch as CSV (RFC 4180, but with a line feed alone at the end of a line).
///
/// The columns are code, plan, seconds, bytes, price and expires, with a row for each code in order of
/// issue. Seconds and bytes are empty if the plan does not limit them. The price is in whole units with two
/// decimal places. The time of expiry is the local time in the zone of the settings, to the minute.
///
/// Fault: `Memory`.
pub fn print_batch(
    alloc: Global,
    settings: &Settings,
    sheet: &BatchSheet,
) -> Result<Vec<u8>, FileFault>
    ensures ok { IfOk result (λ text. IsPrintFile settings.now.zone sheet.now text.items) }
    ensures memory { IfErr result (λ e. e ≡ FileFault.Memory) }
{
    let plan = &sheet.plan;
    let seconds = limit_text(alloc, u64::from(plan.seconds))?;
    let bytes = limit_text(alloc, plan.bytes)?;
    let price = amount_text(alloc, u128::from(plan.price))?;
    let expires = local_minute_text(alloc, settings, sheet.batch.expires)?;
    write_code_lines(
        alloc,
        sheet.codes.as_slice(),
        plan.id.text().as_bytes(),
        seconds.as_bytes(),
        bytes.as_bytes(),
        price.as_bytes(),
        expires.as_bytes(),
    )
    .or(Err(FileFault::Memory))
}
