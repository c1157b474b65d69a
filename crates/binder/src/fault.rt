//! Why a workload can't be bound.
ghost use Rattle.std.specs.Prelude.{◌≡◌};
ghost use Rattle.binder.specs.declared.fault.BindFault.TheVariants.{Memory};

use std::alloc::{AllocError, AllocFailed};
use thiserror::Error;

/// Why the names of a workload have no meaning over a catalogue. A place is the 1-based offset of a token's first byte.
#[derive(Clone, Copy, Debug, PartialEq, Eq, Error)]
pub enum BindFault {
    /// Memory ran out.
    #[error("out of memory")]
    Memory,
    /// No table has the name at this place.
    #[error("no table at {0}")]
    NoTable(u64),
    /// The name at this place means no column, or no source.
    #[error("no column at {0}")]
    NoColumn(u64),
    /// Two sources have a column of the name at this place.
    #[error("ambiguous at {0}")]
    Ambiguous(u64),
    /// An earlier source of the statement goes by the name at this place.
    #[error("alias twice at {0}")]
    TwoAliases(u64),
    /// The ninth source of a statement begins at this place.
    #[error("more than 8 slots at {0}")]
    TooManySlots(u64),
    /// The joins of the statement at this place don't connect its sources.
    #[error("unjoined at {0}")]
    Unjoined(u64),
    /// The statement at this place has the 2001st source of the workload.
    #[error("more than 2000 slots at {0}")]
    TooManySlotsInAll(u64),
}

impl From<AllocError> for BindFault {
    ghost from_gives = { λ _ e. e ≡ Memory };

    fn from(_e: AllocError) -> BindFault {
        BindFault::Memory
    }
}

impl<T: Drop> From<AllocFailed<T>> for BindFault {
    ghost from_gives = { λ _ e. e ≡ Memory };

    fn from(_e: AllocFailed<T>) -> BindFault {
        BindFault::Memory
    }
}
