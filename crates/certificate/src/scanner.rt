//! Certificates that are read in pieces.
ghost use Rattle.certificate.specs.inner.States.{IsReachedAt};

use crate::pieces::Reading;
use crate::state::State;
use crate::{CertFault, Head};
use adv_base::NoMemory;
use adv_shelf::Taker;
use std::alloc::Global;
use std::mem;

/// A reader of a certificate's text, which is handed to it in pieces of any length. It keeps what the lines before the
/// nodes say and one open line of at most 1030 bytes, and nothing of the nodes but how many are to come. Once the text has
/// broken it keeps the number of that line alone.
#[derive(Drop)]
pub struct Scanner {
    alloc: Global,
    state: State,
    pub ghost reached: { ∥ IsReachedAt state ∥₁ },
}

impl Scanner {
    ghost use Rattle.std.specs.Prelude.{◌≡◌, [], ℕ, List, IfOk, IfErr, IsErrOf};
    ghost use Rattle.certificate.specs.Certificates.{Faults};
    ghost use Rattle.certificate.specs.Heads.{IsHeadOf};
    ghost use Rattle.certificate.specs.Scanners.{StandsFor, HasGivenUp};

    /// A scanner of the empty text. Want of memory is the one error.
    pub fn new(alloc: Global) -> Result<Scanner, NoMemory>
        ensures { IfOk result (λ scanner. StandsFor scanner []) }
    {
        let reading = Reading::new(alloc)?;
        Ok(Scanner {
            alloc,
            state: State::Reading(reading),
        })
    }

    /// The head of the certificate of the text that was handed on: its fields, and where its tree stands. `Malformed` has
    /// the line at which that text breaks, as that of `read_cert`. `Memory` comes exactly where a call of `take` answered
    /// want of memory.
    pub fn end(self) -> Result<Head, CertFault>
        ensures found { IfOk result (λ head. (text : List ℕ) → StandsFor self text → IsHeadOf text head) }
        ensures fault { IfErr result (λ fault. (text : List ℕ) → StandsFor self text → Faults text fault) }
        ensures memory { HasGivenUp self → IsErrOf result CertFault.Memory }
        ensures enough { IsErrOf result CertFault.Memory → HasGivenUp self }
    {
        self.state.end()
    }
}

impl Taker for Scanner {
    ghost use Rattle.certificate.specs.Scanners.{StandsFor, HasGivenUp};

    ghost stands_for = { StandsFor };

    ghost has_given_up = { HasGivenUp };

    /// Takes the next piece of the text. Time is linear in its bytes.
    fn take(&mut self, piece: &[u8]) -> Result<(), NoMemory> {
        let state = mem::replace(&mut self.state, State::GivenUp);
        self.state = state.after(self.alloc, piece)?;
        Ok(())
    }
}
