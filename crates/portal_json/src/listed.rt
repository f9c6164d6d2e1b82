//! Writes a list as JSON text, one entry after another, so that no value is made of the whole list.
ghost use Rattle.std.specs.Prelude.{◌≡◌, ◌++◌, List, OnOk, IfOk, IfErr, string_bytes};
ghost use Rattle.serde_json.specs.Data.{Data};
ghost use Rattle.serde_json.specs.Written.{compact_text};
ghost use Rattle.portal_json.specs.Bodies.{sessions_list};
ghost use Rattle.portal_json.specs.Listed.{
  between,
  number_or_null,
  word_of_flag,
  entries_after,
  entries_between,
};

use itoa::Buffer;
use portal_model::refusal::Refusal;
use std::alloc::{AllocError, Global};

/// The usual form of an entry.
pub(crate) struct Listed;

/// An entry of a list, in a form that it has.
pub(crate) trait Entry<Form> {
    // The entry as a JSON value.
    ghost shown: { Self → Data };

    /// Appends the JSON text of the entry. The only error is out of memory.
    fn put(&self, text: &mut String) -> Result<(), AllocError>
        ensures { OnOk result
            (string_bytes text.new ≡ string_bytes text.old ++ compact_text (shown self.now)) };
}

/// Appends a number with what stands before and behind it, if there is a number. The only error is out of
/// memory.
pub(crate) fn put_integer(
    text: &mut String,
    before: &str,
    number: Option<u64>,
    behind: &str,
) -> Result<(), AllocError>
    ensures { OnOk result (string_bytes text.new
        ≡ string_bytes text.old ++ between before.now number behind.now) }
{
    let Some(number) = number else {
        return Ok(());
    };
    let mut digits = Buffer::new();
    text.push_str(before)?;
    text.push_str(digits.format(number))?;
    text.push_str(behind)
}

/// Appends a text with what stands before and behind it. The only error is out of memory.
pub(crate) fn put_text(
    text: &mut String,
    before: &str,
    value: &str,
    behind: &str,
) -> Result<(), AllocError>
    ensures { OnOk result (string_bytes text.new
        ≡ string_bytes text.old ++ (before.now ++ (value.now ++ behind.now))) }
{
    text.push_str(before)?;
    text.push_str(value)?;
    text.push_str(behind)
}

/// Appends a number, or `null` if there is none, with what stands before and behind it. The only error is out
/// of memory.
pub(crate) fn put_integer_or_null(
    text: &mut String,
    before: &str,
    number: Option<u64>,
    behind: &str,
) -> Result<(), AllocError>
    ensures { OnOk result (string_bytes text.new
        ≡ string_bytes text.old ++ (before.now ++ (number_or_null number ++ behind.now))) }
{
    match number {
        None => put_text(text, before, "null", behind),
        Some(_) => put_integer(text, before, number, behind),
    }
}

/// Returns the JSON text of a truth value.
pub(crate) fn word_of_flag(flag: bool) -> &'static str
    ensures { result.now ≡ word_of_flag flag }
{
    match flag {
        false => "false",
        true => "true",
    }
}

/// Appends the JSON texts of entries, each behind a comma. The only error is out of memory.
fn put_entries<Form, T: Entry<Form>>(text: &mut String, entries: &[T]) -> Result<(), AllocError>
    ensures { OnOk result
        (string_bytes text.new ≡ string_bytes text.old ++ entries_after T.shown entries.now) }
{
    for entry in entries {
        text.push_str(",")?;
        entry.put(text)?;
    }
    Ok(())
}

/// Appends the JSON texts of entries, with commas between them. The only error is out of memory.
fn put_all_entries<Form, T: Entry<Form>>(text: &mut String, entries: &[T]) -> Result<(), AllocError>
    ensures { OnOk result
        (string_bytes text.new ≡ string_bytes text.old ++ entries_between T.shown entries.now) }
{
    match entries.split_first() {
        None => Ok(()),
        Some((first, rest)) => {
            first.put(text)?;
            put_entries::<Form, T>(text, rest)
        }
    }
}

/// Appends the JSON texts of entries, with commas between them, and with what stands before and behind them.
/// The only error is out of memory.
pub(crate) fn put_list<Form, T: Entry<Form>>(
    text: &mut String,
    before: &str,
    entries: &[T],
    behind: &str,
) -> Result<(), AllocError>
    ensures { OnOk result (string_bytes text.new ≡ string_bytes text.old
        ++ (before.now ++ (entries_between T.shown entries.now ++ behind.now))) }
{
    text.push_str(before)?;
    put_all_entries::<Form, T>(text, entries)?;
    text.push_str(behind)
}

/// Writes the JSON object with the member `sessions`, a list of these entries, in this order.
///
/// Refusal: `NoMemory`, if there is no memory for the text.
pub(crate) fn sessions_list<T: Entry<Listed>>(
    alloc: Global,
    entries: &[T],
) -> Result<String, Refusal>
    ensures ok { IfOk result (λ text. string_bytes text ≡ compact_text (sessions_list T.shown entries.now)) }
    ensures err { IfErr result (λ refusal. refusal ≡ Refusal.NoMemory) }
{
    let mut text = String::new(alloc);
    put_list::<Listed, T>(&mut text, "{\"sessions\":[", entries, "]}")?;
    Ok(text)
}
