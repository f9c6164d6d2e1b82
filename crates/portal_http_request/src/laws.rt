//! A law of the checks. The function does nothing: its contract is the law, which `specs/` states.
ghost use Rattle.portal_http_request.specs.Laws.{ChecksAreExact};

/// Law: the settings, the seed and the bytes of a request determine the result of the checks.
pub fn checks_are_exact()
    ensures { ChecksAreExact }
{}
