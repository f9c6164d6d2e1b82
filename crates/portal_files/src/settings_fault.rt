//! Finds what is wrong with a settings file that was refused.

ghost use Rattle.std.specs.Prelude.{◌≡◌, ◌≤◌, ◌==◌, IfOk, MatchOption, count_by, length};
ghost use Rattle.toml.specs.View.{table_view};
ghost use Rattle.portal_files.specs.SettingsFault.{
  name_of,
  line_at,
  IsWrongAt,
  IsTableFault,
  IsSettingsFault,
};
ghost use Rattle.portal_files.specs.declared.settings_fault.SettingsKey.{SettingsKey as Key};
ghost use Rattle.portal_files.specs.declared.settings_fault.SettingsFault.{SettingsFault as Fault};

use crate::settings_file::{key_count, token_at, url_at, venue_at, zone_at};
use std::alloc::{AllocError, Global};
use toml::Table;

/// A key of a settings file.
#[derive(Clone, Copy, Debug, PartialEq, Eq)]
pub enum SettingsKey {
    Zone,
    PortalUrl,
    VenueUrl,
    DeskToken,
    GatewayToken,
}

impl SettingsKey {
    /// Returns the name of the key in the file.
    pub fn name(self) -> &'static str
        ensures { result.now ≡ name_of self }
    {
        match self {
            SettingsKey::Zone => "zone",
            SettingsKey::PortalUrl => "portal_url",
            SettingsKey::VenueUrl => "venue_url",
            SettingsKey::DeskToken => "desk_token",
            SettingsKey::GatewayToken => "gateway_token",
        }
    }
}

/// Why a file is no settings file. No text of the file is in it.
#[derive(Clone, Copy, Debug, PartialEq, Eq)]
pub enum SettingsFault {
    /// It is not TOML in UTF-8. The line, counted from 1, is the one at which the parser stopped.
    NotToml(usize),
    /// The key is missing.
    Missing(SettingsKey),
    /// The key has a value that it must not have.
    Wrong(SettingsKey),
    /// There is a key that is none of the five.
    FurtherKey,
    /// The two tokens are the same.
    SameTokens,
}

/// Counts the line feeds.
fn count_line_feeds(bytes: &[u8]) -> usize
    ensures { result ≡ count_by (λ b. b == 10) bytes.now }
{
    bytes.iter().filter(|byte| **byte == b'\n').count()
}

/// Returns the line of a place in a file, counted from 1.
fn line_at(bytes: &[u8], place: usize) -> usize
    requires { place ≤ length bytes.now }
    ensures { result ≡ line_at place bytes.now }
{
    let (before, _) = bytes.split_at(place);
    count_line_feeds(before) + 1
}

/// Returns the first key that has no value that it may have, if there is one.
fn wrong_key(table: &Table) -> Option<SettingsKey>
    ensures { MatchOption result
        ((key : Key) → ¬ IsWrongAt (table_view table.now) key)
        (IsWrongAt (table_view table.now)) }
{
    if zone_at(table).is_none() {
        Some(SettingsKey::Zone)
    } else if url_at(table, "portal_url").is_none() {
        Some(SettingsKey::PortalUrl)
    } else if venue_at(table).is_none() {
        Some(SettingsKey::VenueUrl)
    } else if token_at(table, "desk_token").is_none() {
        Some(SettingsKey::DeskToken)
    } else if token_at(table, "gateway_token").is_none() {
        Some(SettingsKey::GatewayToken)
    } else {
        None
    }
}

/// Returns the fault of a key that has no value that it may have: it is missing, or has another one.
fn fault_at(table: &Table, key: SettingsKey) -> SettingsFault
    requires { IsWrongAt (table_view table.now) key }
    ensures { IsTableFault (table_view table.now) result }
{
    if table.get(key.name()).is_none() {
        SettingsFault::Missing(key)
    } else {
        SettingsFault::Wrong(key)
    }
}

/// Returns what is wrong with a table in which each key has a value that it may have, if anything is.
fn fault_of_whole(table: &Table) -> Option<SettingsFault>
    requires { (key : Key) → ¬ IsWrongAt (table_view table.now) key }
    ensures { MatchOption result
        ((fault : Fault) → ¬ IsTableFault (table_view table.now) fault)
        (IsTableFault (table_view table.now)) }
{
    let venue_url = venue_at(table)?;
    if table.len() != key_count(venue_url) {
        return Some(SettingsFault::FurtherKey);
    }
    let desk_token = token_at(table, "desk_token")?;
    let gateway_token = token_at(table, "gateway_token")?;
    if desk_token == gateway_token {
        return Some(SettingsFault::SameTokens);
    }
    None
}

/// Returns what is wrong with a table, if anything is.
fn table_fault(table: &Table) -> Option<SettingsFault>
    ensures { MatchOption result
        ((fault : Fault) → ¬ IsTableFault (table_view table.now) fault)
        (IsTableFault (table_view table.now)) }
{
    match wrong_key(table) {
        Some(key) => Some(fault_at(table, key)),
        None => fault_of_whole(table),
    }
}

/// Finds what is wrong with the bytes of a settings file that `read_settings` refused: the first of the
/// faults in the order of `SettingsFault`, and the first key in the order of `SettingsKey`. None, if nothing
/// is wrong. The only error is out of memory.
pub fn find_settings_fault(alloc: Global, bytes: &[u8]) -> Result<Option<SettingsFault>, AllocError>
    ensures { IfOk result (λ found. MatchOption found
        ((fault : Fault) → ¬ IsSettingsFault bytes.now fault)
        (IsSettingsFault bytes.now)) }
{
    match toml::table_from_slice(alloc, bytes) {
        Ok(table) => Ok(table_fault(&table)),
        Err(error) => match error.span() {
            Some(span) => Ok(Some(SettingsFault::NotToml(line_at(bytes, span.start)))),
            None => Err(AllocError),
        },
    }
}
