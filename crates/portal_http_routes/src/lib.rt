//! The endpoints of the server: the path, the method and the caller's role of each, and the parsing of a
//! request's target.
#![tactic(auto)]

ghost use Rattle.std.specs.Prelude.{◌≡◌};
ghost use Rattle.portal_http_routes.specs.Route.{pattern_of, method_of, role_of, with_method, allowed_at};

pub mod laws;
mod queries;
mod router;
mod targets;

pub use queries::{has_key, only_value};
pub use router::Routes;
pub use targets::{path_parameter, split_at_byte, split_target};

/// An endpoint of the server.
#[derive(Clone, Copy, Debug, PartialEq, Eq)]
pub enum Route {
    /// `/captive`: gives the captive state of the guest's device (RFC 8908, section 5).
    Captive,
    /// `/portal/redeem`: redeems a code for the guest's device.
    Redeem,
    /// `/desk/plans`: loads plans.
    Plans,
    /// `/desk/batches`: issues a batch of vouchers.
    Batches,
    /// `/desk/batches/{id}/print`: gives the print file of a batch.
    Print,
    /// `/desk/sales`: sells a voucher.
    Sales,
    /// `/desk/refunds`: refunds a voucher.
    Refunds,
    /// `/desk/closes`: closes a session.
    Closes,
    /// `/desk/vouchers/{code}`: gives the state of a voucher.
    Voucher,
    /// `/desk/takings`: gives the takings of a range of days.
    Takings,
    /// `/gateway/reports`: reports the bytes that a session used.
    Reports,
    /// `/gateway/sessions`: lists the open sessions.
    Sessions,
    /// `/desk/sessions/{number}`: gives the details of a session.
    Session,
    /// `/desk/sessions`: gives the details of the last session of a device.
    LastSession,
    /// `/portal/session`: gives the details of the last session of the guest's device.
    OwnSession,
    /// `/gateway/sessions/details`: lists the open sessions with their details.
    SessionDetails,
    /// `/desk/batches`: lists batches, newest first.
    BatchList,
    /// `/desk/batches/{id}`: gives the state of a batch and of its vouchers.
    Batch,
    /// `/desk/vouchers`: gives the vouchers whose codes begin with some characters.
    Vouchers,
    /// `/desk/vouchers/{code}/redemptions`: lists the last redemptions of a voucher.
    Redemptions,
}

/// The role of a caller, which decides how the caller is identified.
#[derive(Clone, Copy, Debug, PartialEq, Eq)]
pub enum Role {
    /// A guest, identified by the device that the front end names.
    Guest,
    /// The desk, identified by its token.
    Desk,
    /// The gateway, identified by its token.
    Gateway,
}

/// A row of the table of the routes.
#[derive(Clone, Copy)]
struct Row {
    /// The pattern of the paths of a route: a segment in braces stands for any segment.
    path: &'static str,
    /// The method: `GET` if the route only reads, else `POST`.
    method: &'static str,
    /// The role of the callers that may use the route.
    role: Role,
}

impl Row {
    fn new(path: &'static str, method: &'static str, role: Role) -> Row
        ensures path { result.path.now ≡ path.now }
        ensures method { result.method.now ≡ method.now }
        ensures role { result.role ≡ role }
    {
        Row { path, method, role }
    }
}

impl Route {
    /// Returns the row of the route in the table of the routes.
    fn row(self) -> Row
        ensures path { result.path.now ≡ pattern_of self }
        ensures method { result.method.now ≡ method_of self }
        ensures role { result.role ≡ role_of self }
    {
        match self {
            Route::Captive => Row::new("/captive", "GET", Role::Guest),
            Route::Redeem => Row::new("/portal/redeem", "POST", Role::Guest),
            Route::Plans => Row::new("/desk/plans", "POST", Role::Desk),
            Route::Batches => Row::new("/desk/batches", "POST", Role::Desk),
            Route::BatchList => Row::new("/desk/batches", "GET", Role::Desk),
            Route::Batch => Row::new("/desk/batches/{id}", "GET", Role::Desk),
            Route::Print => Row::new("/desk/batches/{id}/print", "GET", Role::Desk),
            Route::Sales => Row::new("/desk/sales", "POST", Role::Desk),
            Route::Refunds => Row::new("/desk/refunds", "POST", Role::Desk),
            Route::Closes => Row::new("/desk/closes", "POST", Role::Desk),
            Route::Voucher => Row::new("/desk/vouchers/{code}", "GET", Role::Desk),
            Route::Vouchers => Row::new("/desk/vouchers", "GET", Role::Desk),
            Route::Redemptions => Row::new("/desk/vouchers/{code}/redemptions", "GET", Role::Desk),
            Route::Takings => Row::new("/desk/takings", "GET", Role::Desk),
            Route::Session => Row::new("/desk/sessions/{number}", "GET", Role::Desk),
            Route::LastSession => Row::new("/desk/sessions", "GET", Role::Desk),
            Route::OwnSession => Row::new("/portal/session", "GET", Role::Guest),
            Route::Reports => Row::new("/gateway/reports", "POST", Role::Gateway),
            Route::Sessions => Row::new("/gateway/sessions", "GET", Role::Gateway),
            Route::SessionDetails => Row::new("/gateway/sessions/details", "GET", Role::Gateway),
        }
    }

    /// Returns the pattern of the paths of the route: a segment in braces stands for any segment.
    pub fn path_pattern(self) -> &'static str
        ensures { result.now ≡ pattern_of self }
    {
        self.row().path
    }

    /// Returns the method of the route as text: `GET` if the route only reads, else `POST`.
    pub fn method_text(self) -> &'static str
        ensures { result.now ≡ method_of self }
    {
        self.row().method
    }

    /// Returns the route that has this method, among those at the path of this route.
    pub fn with_method(self, method: &[u8]) -> Option<Route>
        ensures { result ≡ with_method self method.now }
    {
        if method == self.method_text().as_bytes() {
            return Some(self);
        }
        match self {
            Route::Batches if method == b"GET".as_slice() => Some(Route::BatchList),
            _ => None,
        }
    }

    /// Returns the methods of the routes at the path of this route.
    ///
    /// A response to another method lists them in `Allow` (RFC 9110, section 15.5.6).
    pub fn allowed_methods(self) -> &'static str
        ensures { result.now ≡ allowed_at self }
    {
        match self {
            Route::Batches => "GET, POST",
            _ => self.method_text(),
        }
    }

    /// Returns the role of the callers that may use the route.
    pub fn role(self) -> Role
        ensures { result ≡ role_of self }
    {
        self.row().role
    }
}
