//! The responses that are made before they are needed.
ghost use Rattle.std.specs.Prelude.{◌≡◌, MatchResult};
ghost use Rattle.portal_model.specs.declared.refusal.Refusal.TheVariants.{NoMemory, Stopped};
ghost use Rattle.portal_http.specs.Replies.{IsRefusal};
ghost use Rattle.portal_http.specs.Serving.{GivesRefusal};

use crate::reply::Response;
use crate::responses::refusal_response;
use portal_model::moment::Moment;
use portal_model::refusal::Refusal;
use std::alloc::Global;

/// The two responses that are made before the desk is called, for errors after which there may be no memory
/// for one. Both are those of one moment.
#[derive(Drop)]
pub struct Spare {
    /// The moment, whose date both responses have.
    moment: Moment,
    /// The response for out of memory.
    no_memory: Response,
    /// The response for a desk that has stopped.
    stopped: Response,
    ghost for_no_memory: { ∥ IsRefusal NoMemory moment no_memory.bytes.items ∥₁ },
    ghost for_stopped: { ∥ IsRefusal Stopped moment stopped.bytes.items ∥₁ },
}

impl Spare {
    /// Makes the two responses of a moment.
    ///
    /// An inner `Err` is the response of `NoMemory`, if there is memory for that one only. Refusal:
    /// `NoMemory`, if there is memory for none.
    pub(crate) fn new(alloc: Global, moment: Moment) -> Result<Result<Spare, Response>, Refusal>
        ensures { MatchResult result
            (λ made. MatchResult made (λ spare. spare.moment ≡ moment)
            (λ response. IsRefusal NoMemory moment response.bytes.items))
            (λ r. r ≡ NoMemory) }
    {
        let no_memory = refusal_response(alloc, moment, Refusal::NoMemory)?;
        match refusal_response(alloc, moment, Refusal::Stopped) {
            Ok(stopped) => Ok(Ok(Spare {
                moment,
                no_memory,
                stopped,
            })),
            Err(_) => Ok(Err(no_memory)),
        }
    }

    /// Takes the two responses of a moment: those that were kept, if they are of that moment, or new ones.
    ///
    /// None is kept after the call. The inner `Err` and the refusal are those of `new`.
    pub(crate) fn take_or_new(
        alloc: Global,
        moment: Moment,
        kept: &mut Option<Spare>,
    ) -> Result<Result<Spare, Response>, Refusal>
        ensures { MatchResult result
            (λ made. MatchResult made (λ spare. spare.moment ≡ moment)
            (λ response. IsRefusal NoMemory moment response.bytes.items))
            (λ r. r ≡ NoMemory) }
    {
        if let Some(spare) = kept.take() {
            if spare.moment == moment {
                return Ok(Ok(spare));
            }
        }
        Spare::new(alloc, moment)
    }

    /// Returns the response to a refusal: that of `Stopped`, or else that of `NoMemory`.
    pub(crate) fn into_response(self, refusal: Refusal) -> Response
        ensures { GivesRefusal refusal self.moment result.bytes.items }
    {
        match refusal {
            Refusal::Stopped => self.stopped,
            _ => self.no_memory,
        }
    }
}
