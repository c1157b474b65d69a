//! Why a session isn't made, or doesn't take a step.
ghost use Rattle.std.specs.Prelude.{◌≡◌};
ghost use Rattle.retune.specs.declared.fault.RetuneFault.TheVariants.{Memory};

use adv_base::NoMemory;
use std::alloc::{AllocError, AllocFailed};

/// Why a session isn't made, or doesn't take a step. Statements are numbered from 1.
#[derive(Clone, Copy, Debug, PartialEq, Eq)]
pub enum RetuneFault {
    /// Memory ran out.
    Memory,
    /// There is no statement of this number.
    NoStatement(u32),
    /// There are `MOST_STATEMENTS` already.
    TooManyStatements,
    /// All statements would have more than `MOST_SLOTS_IN_ALL` slots together.
    TooManySlots,
    /// The block of the statement of this number has this many combinations of interesting orders, more than
    /// `MOST_COMBINATIONS`.
    TooManyCombinations(u32, u64),
}

impl From<NoMemory> for RetuneFault {
    ghost from_gives = { λ _ fault. fault ≡ Memory };

    fn from(_: NoMemory) -> RetuneFault {
        RetuneFault::Memory
    }
}

impl From<AllocError> for RetuneFault {
    ghost from_gives = { λ _ fault. fault ≡ Memory };

    fn from(_: AllocError) -> RetuneFault {
        RetuneFault::Memory
    }
}

impl<T: Drop> From<AllocFailed<T>> for RetuneFault {
    ghost from_gives = { λ _ fault. fault ≡ Memory };

    fn from(_: AllocFailed<T>) -> RetuneFault {
        RetuneFault::Memory
    }
}
