//! Certificates.
ghost use Rattle.std.specs.Prelude.{◌≡◌};
ghost use Rattle.certificate.specs.declared.cert.CertFault.TheVariants.{Memory};

use adv_base::{List, NoMemory};
use bip_model::Node;
use thiserror::Error;

/// A multiplier other than 0: the rent, from 1 to 10^18 thousandths of a page read, of one use of a candidate at a slot of
/// a statement. All three are counted from 1.
#[derive(Clone, Copy, Debug, PartialEq, Eq)]
pub struct Entry {
    pub statement: u16,
    pub slot: u8,
    pub candidate: u16,
    pub lambda: u64,
}

/// A set of Lagrangian multipliers: the price `mu` of a page of the budget, in parts of 65536 and at most 10^20, and the
/// rents that aren't 0, by statement, slot and candidate.
#[derive(Debug, Drop)]
pub struct SparseSet {
    pub mu: u128,
    pub entries: List<Entry>,
}

/// A certificate: the version of its format, the space budget in pages, the numbers of the chosen candidates, what the
/// workload costs under them and a bound on that of all fitting configurations, in thousandths of a page read, at most 16
/// sets of multipliers, and a search tree in preorder, whose leaves name one of the sets.
#[derive(Debug, Drop)]
pub struct Cert {
    /// The version of the format, 1 or 2.
    pub version: u8,
    pub budget: u64,
    pub config: List<u16>,
    pub cost: u128,
    pub bound: i128,
    pub sets: List<SparseSet>,
    pub tree: List<Node>,
}

/// Why a text isn't read.
#[derive(Clone, Copy, Debug, PartialEq, Eq, Error)]
pub enum CertFault {
    /// Memory ran out.
    #[error("out of memory")]
    Memory,
    /// No certificate's text begins with the lines up to this one, counted from 1.
    #[error("line {0} is that of no certificate")]
    Malformed(u64),
}

impl From<NoMemory> for CertFault {
    ghost from_gives = { λ _ e. e ≡ Memory };

    fn from(_e: NoMemory) -> CertFault {
        CertFault::Memory
    }
}
