//! The settings of the server.

ghost use Rattle.std.specs.Prelude.{◌≡◌, option_map};
ghost use Rattle.jiff.specs.ZoneView.{plain_zone};

use jiff::tz::TimeZone;
use std::marker::Model;

/// The settings of the server: the time zone of the venue, the URLs for guests, and the tokens of the desk
/// and of the gateway.
#[derive(Drop)]
pub struct Settings {
    /// The time zone of the venue.
    pub(crate) zone: TimeZone<'static>,
    /// The URL of the portal.
    pub(crate) portal_url: String,
    /// The URL of the venue, if it has one.
    pub(crate) venue_url: Option<String>,
    /// The token in the requests of the desk.
    pub(crate) desk_token: String,
    /// The token in the requests of the gateway.
    pub(crate) gateway_token: String,
}

impl Model for Settings {
    ghost use Rattle.std.specs.Prelude.{string_bytes, option_map};
    ghost use Rattle.jiff.specs.ZoneView.{plain_zone};
    ghost use Rattle.portal_files.specs.SettingsFile.{SettingsValue};

    ghost Value = { SettingsValue };

    ghost view = { λ s. record {
      zone = plain_zone s.zone;
      portal_url = string_bytes s.portal_url;
      venue_url = option_map string_bytes s.venue_url;
      desk_token = string_bytes s.desk_token;
      gateway_token = string_bytes s.gateway_token;
    } };
}

impl Settings {
    /// Returns the time zone for dates and times.
    pub fn zone(&self) -> TimeZone<'static>
        ensures { plain_zone result ≡ self.now.zone }
    {
        self.zone
    }

    /// Returns the URL of the portal (`user-portal-url`, RFC 8908, section 5).
    pub fn portal_url(&self) -> &str
        ensures { result.now ≡ self.now.portal_url }
    {
        self.portal_url.as_str()
    }

    /// Returns the URL of the venue, if it has one (`venue-info-url`, RFC 8908, section 5).
    pub fn venue_url(&self) -> Option<&str>
        ensures { option_map (λ url. url.now) result ≡ self.now.venue_url }
    {
        self.venue_url.as_ref().map(|url| url.as_str())
    }

    /// Returns the token in the requests of the desk.
    pub fn desk_token(&self) -> &str
        ensures { result.now ≡ self.now.desk_token }
    {
        self.desk_token.as_str()
    }

    /// Returns the token in the requests of the gateway.
    pub fn gateway_token(&self) -> &str
        ensures { result.now ≡ self.now.gateway_token }
    {
        self.gateway_token.as_str()
    }
}
