//! Laws of the paths of routes. The functions do nothing: each contract is a law, which `specs/` states.
ghost use Rattle.portal_http_routes.specs.Laws.{RoutesAreExact, ParametersAreExact};

/// Law: a path has a route exactly if it is one of the route's paths.
///
/// Fourteen routes have one path each. Five accept any segment in the place of their parameter. `BatchList`
/// has none: at its path is `Batches`, and the method of a request decides between the two.
pub fn routes_are_exact()
    ensures { RoutesAreExact }
{}

/// Law: the parameter of a batch's path and of a print path is the batch id, that of a voucher's path and of
/// the path of its redemptions its code, and that of a session's path its number.
pub fn parameters_are_exact()
    ensures { ParametersAreExact }
{}
