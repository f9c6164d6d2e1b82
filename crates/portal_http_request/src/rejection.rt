//! The rejections of requests.
ghost use Rattle.std.specs.Prelude.{◌≡◌, option_map};
ghost use Rattle.portal_http_request.specs.declared.rejection.Rejection.TheVariants.{Refused};
ghost use Rattle.portal_http_request.specs.Rejection.{error_of, allow_of};

use portal_http_routes::Route;
use portal_model::refusal::Refusal;

/// Why a request is rejected before the desk is called.
#[derive(Clone, Copy, Debug, PartialEq, Eq)]
pub enum Rejection {
    /// The path has a route, but with another method (RFC 9110, section 15.5.6).
    Method(Route),
    /// Any other reason.
    Refused(Refusal),
}

impl From<Refusal> for Rejection {
    ghost from_gives = { λ r rejection. rejection ≡ Refused r };

    fn from(refusal: Refusal) -> Rejection {
        Rejection::Refused(refusal)
    }
}

impl Rejection {
    /// Returns the refusal that the response names.
    pub fn refusal(self) -> Refusal
        ensures { result ≡ error_of self }
    {
        match self {
            Rejection::Method(_) => Refusal::BadMethod,
            Rejection::Refused(refusal) => refusal,
        }
    }

    /// Returns the methods for the field `Allow`: those of the path's routes, if the request has another
    /// method. Other responses have no such field.
    pub fn allow(self) -> Option<&'static str>
        ensures { option_map (λ methods. methods.now) result ≡ allow_of self }
    {
        match self {
            Rejection::Method(route) => Some(route.allowed_methods()),
            Rejection::Refused(_) => None,
        }
    }
}
