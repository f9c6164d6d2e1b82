//! Laws of heads and of decided responses. The functions do nothing: each contract is a law, which `specs/`
//! states.
ghost use Rattle.portal_http_message.specs.Laws.{DecisionIsFinal, HasOneHead};

/// Law: bytes begin with at most one head, so the contract of `parse_request` determines its result.
pub fn one_head_at_most()
    ensures { HasOneHead }
{}

/// Law: once bytes decide the response to a request, further bytes do not change it.
pub fn decision_is_final()
    ensures { DecisionIsFinal }
{}
