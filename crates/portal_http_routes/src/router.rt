//! The router: finds the route of a path.
ghost use Rattle.std.specs.Prelude.{◌≡◌, IfOk, OnOk, option_map};
ghost use Rattle.portal_http_routes.specs.Route.{pattern_of};
ghost use Rattle.portal_http_routes.specs.Table.{place_route, table, route_of, FindsRoute};

use crate::Route;
use crate::targets::is_path;
use matchit::{InsertError, Router};
use std::alloc::{AllocError, Global};
use std::marker::Model;

/// The table of the routes, ready to be searched. A contract sees it as the router's rows, which are always
/// the whole table.
#[derive(Drop)]
pub struct Routes {
    router: Router<Route>,
}

impl Model for Routes {
    ghost use Rattle.std.specs.Prelude.{◌≡◌};
    ghost use Rattle.matchit.specs.Rows.{RowsOf};
    ghost use Rattle.matchit.specs.Router.{RouteOf};
    ghost use Rattle.portal_http_routes.specs.declared.Route.{Route};
    ghost use Rattle.portal_http_routes.specs.Table.{table};

    ghost Value = { RowsOf (RouteOf Route) };

    ghost view = { λ routes. routes.router };

    ghost invariant = { λ routes. routes.router ≡ table };
}

/// Adds a route to the router, with the pattern of its paths.
///
/// Error: that of the router. For the patterns of this crate it is out of memory.
fn add_route(router: &mut Router<Route>, route: Route) -> Result<(), InsertError>
    ensures { OnOk result (router.new ≡ place_route (pattern_of route) route router.old) }
{
    router.insert(route.path_pattern(), route)
}

/// Makes a router with a route for each path. Error: as for `add_route`.
fn whole_router(alloc: Global) -> Result<Router<Route>, InsertError>
    ensures { IfOk result (λ router. router ≡ table) }
{
    let mut router = Router::new(alloc);
    add_route(&mut router, Route::Captive)?;
    add_route(&mut router, Route::Redeem)?;
    add_route(&mut router, Route::Plans)?;
    add_route(&mut router, Route::Batches)?;
    add_route(&mut router, Route::Print)?;
    add_route(&mut router, Route::Sales)?;
    add_route(&mut router, Route::Refunds)?;
    add_route(&mut router, Route::Closes)?;
    add_route(&mut router, Route::Voucher)?;
    add_route(&mut router, Route::Takings)?;
    add_route(&mut router, Route::Reports)?;
    add_route(&mut router, Route::Sessions)?;
    add_route(&mut router, Route::Session)?;
    add_route(&mut router, Route::LastSession)?;
    add_route(&mut router, Route::OwnSession)?;
    add_route(&mut router, Route::SessionDetails)?;
    add_route(&mut router, Route::Batch)?;
    add_route(&mut router, Route::Vouchers)?;
    add_route(&mut router, Route::Redemptions)?;
    Ok(router)
}

impl Routes {
    /// Makes the table of the routes. The only error is out of memory.
    pub fn new(alloc: Global) -> Result<Routes, AllocError>
        ensures { IfOk result (λ routes. routes ≡ table) }
    {
        let router = whole_router(alloc).map_err(|_| AllocError)?;
        Ok(Routes { router })
    }

    /// Returns the route that the router has for a path.
    fn at(&self, path: &str) -> Option<Route>
        ensures { result ≡ route_of path.now }
    {
        match self.router.at(path) {
            Ok(found) => Some(*found.value),
            Err(_) => None,
        }
    }

    /// Finds the route of a target's path.
    ///
    /// None if the path does not begin with a slash, has an empty segment, names no route, or is not UTF-8.
    /// A segment in the place of `{id}`, `{code}` or `{number}` is taken as it is: nothing is
    /// percent-decoded.
    pub fn find(&self, path: &str) -> Option<Route>
        ensures { FindsRoute path.now result }
    {
        if is_path(path.as_bytes()) {
            self.at(path)
        } else {
            None
        }
    }
}
