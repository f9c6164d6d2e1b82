//! Reads a settings file.

ghost use Rattle.std.specs.Prelude.{
  ◌≡◌,
  ℕ,
  ◌≤◌,
  List,
  Option,
  IfSome,
  IfOk,
  IfErr,
  None,
  option_map,
  bytes_eq,
  codes,
  take,
  string_bytes,
  length,
};
ghost use Rattle.std.specs.List.{list_all};
ghost use Rattle.jiff.specs.ZoneView.{plain_zone};
ghost use Rattle.jiff_tz.specs.declared.timezone.TimeZone.{TimeZone as PlainZone};
ghost use Rattle.toml.specs.View.{table_view};
ghost use Rattle.portal_files.specs.SettingsFile.{
  SettingsValue,
  is_visible,
  is_url,
  is_token,
  IsTextAt,
  IsVenueAt,
  IsZoneAt,
  IsSettingsTable,
  IsSettingsFile,
};
ghost use Rattle.portal_files.specs.SettingsFile as file;
ghost use Rattle.portal_files.specs.Texts.{settings_of};
ghost use Rattle.portal_files.specs.Sample.{IsSample};

use crate::document::read_document;
use crate::fault::FileFault;
use crate::fields::string_at;
use crate::settings::Settings;
use jiff::tz::TimeZone;
use std::alloc::{AllocError, Global};
use toml::Table;

/// The settings file with the sample settings.
const SAMPLE: &str = "zone = \"UTC0\"\nportal_url = \"https://wifi.example/portal\"\n\
    desk_token = \"desk-token\"\ngateway_token = \"gate-token\"\n";

/// Whether a byte can be in a URL or a token: 33 to 126, the visible ASCII characters.
fn is_visible(b: u8) -> bool
    ensures { result ≡ is_visible b }
{
    b >= 33 && b <= 126
}

/// Whether all bytes are from 33 to 126.
fn are_visible(bytes: &[u8]) -> bool
    ensures { result ≡ list_all is_visible bytes.now }
{
    bytes.iter().all(|b| is_visible(*b))
}

/// Whether the first eight bytes are `https://`.
fn has_https_scheme(bytes: &[u8]) -> bool
    requires { 8 ≤ length bytes.now }
    ensures { result ≡ bytes_eq (take 8 bytes.now) (codes "https://") }
{
    let scheme = &bytes[..8];
    scheme == b"https://".as_slice()
}

/// Whether a text is a URL: 9 to 2,048 visible ASCII characters that begin with `https://`.
fn is_url(text: &str) -> bool
    ensures { result ≡ is_url text.now }
{
    let bytes = text.as_bytes();
    bytes.len() >= 9 && bytes.len() <= 2048 && are_visible(bytes) && has_https_scheme(bytes)
}

/// Whether a text is a token: 8 to 128 visible ASCII characters.
fn is_token(text: &str) -> bool
    ensures { result ≡ is_token text.now }
{
    let bytes = text.as_bytes();
    bytes.len() >= 8 && bytes.len() <= 128 && are_visible(bytes)
}

/// Returns the URL under a key, if the key has one.
pub(crate) fn url_at<'a>(table: &'a Table, key: &str) -> Option<&'a str>
    ensures some { IfSome result (λ u. IsTextAt is_url key.now (table_view table.now) u.now) }
    ensures none { result ≡ None → (u : List ℕ) → IsTextAt is_url key.now (table_view table.now) u → ⊥ }
{
    let text = string_at(table, key)?;
    if !is_url(text) {
        return None;
    }
    Some(text)
}

/// Returns the token under a key, if the key has one.
pub(crate) fn token_at<'a>(table: &'a Table, key: &str) -> Option<&'a str>
    ensures some { IfSome result (λ u. IsTextAt is_token key.now (table_view table.now) u.now) }
    ensures none { result ≡ None → (u : List ℕ) → IsTextAt is_token key.now (table_view table.now) u → ⊥ }
{
    let text = string_at(table, key)?;
    if !is_token(text) {
        return None;
    }
    Some(text)
}

/// Returns the URL of the venue, which the table can leave out.
///
/// The inner value is none if the key is left out, the outer one if the key has another value than a URL.
pub(crate) fn venue_at<'a>(table: &'a Table) -> Option<Option<&'a str>>
    ensures some { IfSome result (λ o. IsVenueAt (table_view table.now) (option_map (λ u. u.now) o)) }
    ensures none { result ≡ None → (o : Option (List ℕ)) → IsVenueAt (table_view table.now) o → ⊥ }
{
    if table.get("venue_url").is_none() {
        return Some(None);
    }
    let url = url_at(table, "venue_url")?;
    Some(Some(url))
}

/// Returns the time zone, if its key has a POSIX TZ rule of 1 to 64 bytes.
pub(crate) fn zone_at(table: &Table) -> Option<TimeZone<'static>>
    ensures some { IfSome result (λ zone. IsZoneAt (table_view table.now) (plain_zone zone)) }
    ensures none { result ≡ None → (zone : PlainZone) → IsZoneAt (table_view table.now) zone → ⊥ }
{
    let text = string_at(table, "zone")?;
    if text.is_empty() || text.len() > 64 {
        return None;
    }
    TimeZone::posix(text).ok()
}

/// The values of settings, borrowed from a TOML table.
#[derive(Clone, Copy)]
struct Texts<'a> {
    zone: TimeZone<'static>,
    portal_url: &'a str,
    venue_url: Option<&'a str>,
    desk_token: &'a str,
    gateway_token: &'a str,
}

/// Returns the number of keys of a settings file, with the URL of a venue or without it.
pub(crate) fn key_count(venue_url: Option<&str>) -> usize
    ensures { result ≡ file.key_count (option_map (λ u. u.now) venue_url.entry) }
{
    match venue_url {
        Some(_) => 5,
        None => 4,
    }
}

/// Reads the values of settings from a table.
///
/// None unless the table has exactly their keys, with valid values, and the tokens differ.
fn texts_of_table<'a>(table: &'a Table) -> Option<Texts<'a>>
    ensures some { IfSome result (λ t. IsSettingsTable (table_view table.now) (settings_of t)) }
    ensures none { result ≡ None → (s : SettingsValue) → IsSettingsTable (table_view table.now) s → ⊥ }
{
    let zone = zone_at(table)?;
    let portal_url = url_at(table, "portal_url")?;
    let venue_url = venue_at(table)?;
    let desk_token = token_at(table, "desk_token")?;
    let gateway_token = token_at(table, "gateway_token")?;
    if table.len() != key_count(venue_url) {
        return None;
    }
    if desk_token == gateway_token {
        return None;
    }
    Some(Texts {
        zone,
        portal_url,
        venue_url,
        desk_token,
        gateway_token,
    })
}

/// Copies a text, if there is one. The only error is out of memory.
fn copy_of_text(alloc: Global, text: Option<&str>) -> Result<Option<String>, AllocError>
    ensures { IfOk result (λ o. option_map string_bytes o ≡ option_map (λ u. u.now) text.entry) }
{
    match text {
        Some(text) => Ok(Some(String::from_str(alloc, text)?)),
        None => Ok(None),
    }
}

/// Copies borrowed values into settings. The only error is out of memory.
fn owned_settings(alloc: Global, texts: Texts<'_>) -> Result<Settings, AllocError>
    ensures { IfOk result (λ s. s ≡ settings_of texts.entry) }
{
    let portal_url = String::from_str(alloc, texts.portal_url)?;
    let venue_url = copy_of_text(alloc, texts.venue_url)?;
    let desk_token = String::from_str(alloc, texts.desk_token)?;
    let gateway_token = String::from_str(alloc, texts.gateway_token)?;
    Ok(Settings {
        zone: texts.zone,
        portal_url,
        venue_url,
        desk_token,
        gateway_token,
    })
}

/// Reads a settings file, in TOML.
///
/// It has exactly the keys `zone`, `portal_url`, `desk_token`, `gateway_token` and, if the venue has a
/// page, `venue_url`. The zone is a POSIX TZ rule of 1 to 64 bytes. A URL begins with `https://` (as RFC
/// 8908, section 5 requires) and has 9 to 2,048 bytes; a token has 8 to 128 bytes; each byte is from 33 to
/// 126. The tokens differ.
///
/// Faults: `Bad` for any other bytes; `Memory`.
pub fn read_settings(alloc: Global, bytes: &[u8]) -> Result<Settings, FileFault>
    ensures ok { IfOk result (IsSettingsFile bytes.now) }
    ensures bad { IfErr result (λ e. e ≡ FileFault.Bad
        → (s : SettingsValue) → IsSettingsFile bytes.now s → ⊥) }
{
    let table = read_document(alloc, bytes)?;
    let texts = texts_of_table(&table).ok_or(FileFault::Bad)?;
    Ok(owned_settings(alloc, texts)?)
}

/// Makes the sample settings, which are used if no settings file is given.
///
/// Zone `UTC0`, portal `https://wifi.example/portal`, tokens `desk-token` and `gate-token`, no venue.
/// Fault: `Memory`.
pub fn sample_settings(alloc: Global) -> Result<Settings, FileFault>
    ensures ok { IfOk result IsSample }
    ensures memory { IfErr result (λ e. e ≡ FileFault.Memory) }
{
    read_settings(alloc, SAMPLE.as_bytes())
}
