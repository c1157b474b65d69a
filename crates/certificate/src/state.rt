//! What became of a text that is read in pieces.
ghost use Rattle.std.specs.Prelude.{◌≡◌, ◌++◌, ℕ, List, IsErr, IfOk, IfErr, IsErrOf};

use crate::pieces::Reading;
use crate::{CertFault, Head};
use adv_base::NoMemory;
use std::alloc::Global;

/// What became of a text so far.
#[derive(Drop)]
pub(crate) enum State {
    /// Some certificate begins with its whole lines.
    Reading(Reading),
    /// It breaks at the line of this number.
    Broken(u64),
    /// Memory ran out.
    GivenUp,
}

impl State {
    ghost use Rattle.certificate.specs.Certificates.{Faults};
    ghost use Rattle.certificate.specs.Heads.{IsHeadOf};
    ghost use Rattle.certificate.specs.inner.States as states;

    /// What becomes of it with one more piece. Want of memory is the one error, which comes always where memory ran out
    /// before.
    pub(crate) fn after(self, alloc: Global, piece: &[u8]) -> Result<State, NoMemory>
        requires { ∥ states.IsReachedAt self ∥₁ }
        ensures text { IfOk result (λ next. (text : List ℕ) → states.StandsForAt self text → states.StandsForAt next (text ++ piece.now)) }
        ensures reached { IfOk result (λ next. ∥ states.IsReachedAt next ∥₁) }
        ensures goes_on { IfOk result (λ next. ¬ (states.HasGivenUpAt next)) }
        ensures given_up { states.HasGivenUpAt self → IsErr result }
    {
        match self {
            State::Reading(mut reading) => {
                if reading.take(alloc, piece)? {
                    Ok(State::Reading(reading))
                } else {
                    Ok(State::Broken(reading.number()))
                }
            }
            State::Broken(number) => Ok(State::Broken(number)),
            State::GivenUp => Err(NoMemory),
        }
    }

    /// The head of the certificate of the text, the line at which it breaks, or want of memory.
    pub(crate) fn end(self) -> Result<Head, CertFault>
        ensures found { IfOk result (λ head. (text : List ℕ) → states.StandsForAt self text → IsHeadOf text head) }
        ensures fault { IfErr result (λ fault. (text : List ℕ) → states.StandsForAt self text → Faults text fault) }
        ensures memory { states.HasGivenUpAt self → IsErrOf result CertFault.Memory }
        ensures enough { IsErrOf result CertFault.Memory → states.HasGivenUpAt self }
    {
        match self {
            State::Reading(reading) => reading.end(),
            State::Broken(number) => Err(CertFault::Malformed(number)),
            State::GivenUp => Err(CertFault::Memory),
        }
    }
}
