//! Why rules aren't taken.
ghost use Rattle.std.specs.Prelude.{◌≡◌};
ghost use Rattle.dba_rules.specs.declared.fault.RuleFault.TheVariants.{Memory};

use adv_base::NoMemory;
use std::alloc::{AllocError, AllocFailed};

/// Why rules aren't taken. Lines and candidates are numbered from 1, sizes are in pages.
#[derive(Clone, Copy, Debug, PartialEq, Eq)]
pub enum RuleFault {
    /// Memory ran out.
    Memory,
    /// A line is none of rules.
    BadLine(u32),
    /// The first name of a line that means nothing is that of a table.
    NoTable(u32),
    /// It is that of a column.
    NoColumn(u32),
    /// The index that has to be is no candidate.
    NotCandidate(u32),
    /// A line says the opposite of what an earlier one says of a candidate, which is the least such.
    Contrary(u32, u16),
    /// The candidates that have to be take more pages together than the budget has: the size and the budget.
    TooLarge(u128, u64),
    /// Two of them are clustered on one table, the lesser number first.
    Clash(u16, u16),
}

impl From<AllocError> for RuleFault {
    ghost from_gives = { λ _ e. e ≡ Memory };

    fn from(_e: AllocError) -> RuleFault {
        RuleFault::Memory
    }
}

impl<T: Drop> From<AllocFailed<T>> for RuleFault {
    ghost from_gives = { λ _ e. e ≡ Memory };

    fn from(_e: AllocFailed<T>) -> RuleFault {
        RuleFault::Memory
    }
}

impl From<NoMemory> for RuleFault {
    ghost from_gives = { λ _ e. e ≡ Memory };

    fn from(_e: NoMemory) -> RuleFault {
        RuleFault::Memory
    }
}
