//! Reads the values under the keys of a TOML table.

ghost use Rattle.std.specs.Prelude.{◌≡◌, ℕ, IfSome, None, Some, option_map, option_and_then, pos};
ghost use Rattle.toml.specs.Data.{integer, as_str, as_integer, as_bool, get_member};
ghost use Rattle.toml.specs.View.{table_view};

use toml::Table;

/// Returns the integer under a key, if the key has one.
fn integer_at(table: &Table, key: &str) -> Option<i64>
    ensures { result ≡ option_and_then as_integer (get_member key.now (table_view table.now)) }
{
    table.get(key)?.as_integer()
}

/// Returns the integer under a key, if the key has one of at least 0.
pub(crate) fn number_at(table: &Table, key: &str) -> Option<u64>
    ensures some { IfSome result (λ n. get_member key.now (table_view table.now) ≡ Some (integer (pos n))) }
    ensures none { result ≡ None → (n : ℕ)
        → get_member key.now (table_view table.now) ≡ Some (integer (pos n)) → ⊥ }
{
    let number = integer_at(table, key)?;
    u64::try_from(number).ok()
}

/// Returns the boolean under a key, if the key has one.
pub(crate) fn bool_at(table: &Table, key: &str) -> Option<bool>
    ensures { result ≡ option_and_then as_bool (get_member key.now (table_view table.now)) }
{
    table.get(key)?.as_bool()
}

/// Returns the string under a key, if the key has one.
pub(crate) fn string_at<'a>(table: &'a Table, key: &str) -> Option<&'a str>
    ensures { option_map (λ s. s.now) result
        ≡ option_and_then as_str (get_member key.now (table_view table.now)) }
{
    table.get(key)?.as_str()
}
