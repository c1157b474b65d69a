//! What a check of a certificate answers.
ghost use Rattle.std.specs.Prelude.{◌≡◌};
ghost use Rattle.gap_checker.specs.declared.fault.AtFault.TheVariants as at_faults;
ghost use Rattle.gap_checker.specs.declared.fault.CheckFault.TheVariants.{Memory};
ghost use Rattle.gap_checker.specs.inner.AtFaults.{at_fault};

use adv_base::NoMemory;
use adv_shelf::Failed;

/// What a certificate proves: under the space budget, in pages, its configuration costs `cost`, and no fitting one costs
/// less than `bound`, both in thousandths of a page read.
#[derive(Clone, Copy, Debug, PartialEq, Eq)]
pub struct Checked {
    pub budget: u64,
    pub cost: u128,
    pub bound: i128,
}

/// Why a certificate proves nothing: the first of its parts that fails. Candidates, sets, entries and nodes are counted
/// from 1, nodes in preorder.
#[derive(Clone, Copy, Debug, PartialEq, Eq)]
pub enum CheckFault {
    /// Memory ran out.
    Memory,
    /// The configuration has this number, which is no candidate's.
    BadConfig(u16),
    /// The configuration has so many pages, more than the budget's.
    OverBudget(u128, u64),
    /// The workload costs the second number under the configuration, and not the first, which is claimed.
    CostDiffers(u128, u128),
    /// In this set this entry names no slot of a statement with a candidate on its table.
    BadPair(u8, u32),
    /// This node branches on what is no candidate, or isn't free there.
    BadBranch(u32),
    /// This leaf has a Lagrangian value, the first number, below the bound that is claimed, the second.
    LeafBelow(u32, i128, i128),
    /// This leaf is called overfull, and isn't in the certificate's version; its candidates have so many pages, which fit.
    NotInfeasible(u32, u128),
    /// Two candidates of the configuration are clustered on one table, the lesser number first.
    Clash(u16, u16),
}

impl From<NoMemory> for CheckFault {
    ghost from_gives = { λ _ e. e ≡ Memory };

    fn from(_e: NoMemory) -> CheckFault {
        CheckFault::Memory
    }
}

/// Why a certificate whose tree stands in a file proves nothing.
#[derive(Clone, Copy, Debug, PartialEq, Eq)]
pub enum AtFault {
    /// Memory ran out.
    Memory,
    /// A read of the file failed, and the shelf has counted it.
    Failed,
    /// No tree of so many nodes as the head has goes on with this line of the file, counted from its first, which is 1.
    Malformed(u64),
    /// The first part of the certificate that fails, which isn't for want of memory.
    Fault(CheckFault),
}

impl From<NoMemory> for AtFault {
    ghost from_gives = { λ _ e. e ≡ at_faults.Memory };

    fn from(_e: NoMemory) -> AtFault {
        AtFault::Memory
    }
}

impl From<Failed> for AtFault {
    ghost from_gives = { λ _ e. e ≡ at_faults.Failed };

    fn from(_e: Failed) -> AtFault {
        AtFault::Failed
    }
}

impl From<CheckFault> for AtFault {
    ghost from_gives = { λ fault e. e ≡ at_fault fault };

    fn from(fault: CheckFault) -> AtFault {
        match fault {
            CheckFault::Memory => AtFault::Memory,
            _ => AtFault::Fault(fault),
        }
    }
}
