//! A request whose path has a route.
ghost use Rattle.std.specs.Prelude.{◌≡◌, IsUtf8, bytes_eq, option_map, true};
ghost use Rattle.portal_http_message.specs.Message.{message_of_request};
ghost use Rattle.portal_http_routes.specs.Targets.{path_of, query_of};
ghost use Rattle.portal_http_request.specs.Callers.{ReadsKey};

use crate::callers::read_key;
use portal_http_message::ParsedRequest;
use portal_http_routes::split_target;
use portal_ledger::request::RequestNumber;
use portal_model::refusal::Refusal;
use std::marker::Model;

/// A request with its method and its path as texts. A contract sees the message of the request.
#[derive(Drop)]
pub struct RoutedRequest<'b> {
    request: ParsedRequest<'b>,
    method: &'b str,
    path: &'b str,
}

impl<'b> Model for RoutedRequest<'b> {
    ghost use Rattle.std.specs.Prelude.{◌≡◌};
    ghost use Rattle.portal_http_message.specs.Message.{Message, message_of_request};
    ghost use Rattle.portal_http_routes.specs.Targets.{path_of};

    ghost Value = { Message };

    ghost view = { λ a. message_of_request a.request };

    ghost invariant = { λ a. (a.method.now ≡ a.request.method.now)
        × (a.path.now ≡ path_of a.request.target.now) };
}

impl<'b> RoutedRequest<'b> {
    /// Takes a request with its own method and its own path.
    pub fn new(request: ParsedRequest<'b>, method: &'b str, path: &'b str) -> RoutedRequest<'b>
        requires method { method.now ≡ (message_of_request request).method }
        requires path { path.now ≡ path_of (message_of_request request).target }
        ensures { result ≡ message_of_request request.entry }
    {
        RoutedRequest {
            request,
            method,
            path,
        }
    }

    /// Returns its method (RFC 9110, section 9).
    pub fn method(&self) -> &str
        ensures { result.now ≡ self.now.method }
    {
        self.method
    }

    /// Returns its path, without the query.
    pub fn path(&self) -> &str
        ensures { result.now ≡ path_of self.now.target }
    {
        self.path
    }

    /// Returns its query, if it has one.
    pub fn query(&self) -> Option<&[u8]>
        ensures { option_map (λ query. query.now) result ≡ query_of self.now.target }
    {
        split_target(self.request.target).1
    }

    /// Returns the value of Portal-Token, if there is exactly one such field.
    pub fn token(&self) -> Option<&[u8]>
        ensures { option_map (λ value. value.now) result ≡ self.now.token }
    {
        self.request.token
    }

    /// Returns the value of Portal-Device, if there is exactly one such field.
    pub fn device(&self) -> Option<&[u8]>
        ensures { option_map (λ value. value.now) result ≡ self.now.device }
    {
        self.request.device
    }

    /// Reads its idempotency key, if it has one. Refusal: `BadRequest`, as for `read_key`.
    pub fn idempotency_key(&self) -> Result<Option<RequestNumber>, Refusal>
        ensures { ReadsKey self.now.number result }
    {
        read_key(self.request.number)
    }

    /// Returns the bytes of its body.
    pub fn body(&self) -> &[u8]
        ensures { result.now ≡ self.now.body }
    {
        self.request.body
    }
}
