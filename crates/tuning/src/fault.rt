//! Why there is no programme.
ghost use Rattle.std.specs.Prelude.{◌≡◌};
ghost use Rattle.tuning.specs.declared.fault.TuneFault.TheVariants.{Memory};

use adv_base::NoMemory;

/// Why a setting has no programme.
#[derive(Clone, Copy, Debug, PartialEq, Eq)]
pub enum TuneFault {
    /// Memory ran out.
    Memory,
    /// The block of the statement of this number, from 1, has this many combinations of interesting orders, more than
    /// `MOST_COMBINATIONS`. It is the first such statement.
    TooManyCombinations(u32, u64),
}

impl From<NoMemory> for TuneFault {
    ghost from_gives = { λ _ fault. fault ≡ Memory };

    fn from(_: NoMemory) -> TuneFault {
        TuneFault::Memory
    }
}
