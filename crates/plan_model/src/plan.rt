//! Plans.
use adv_base::{Item, List};

/// What valid plans stay below, in thousandths of a page read: 10^21.
pub const MOST_COST: u128 = 1_000_000_000_000_000_000_000;

/// What the total of a workload stays below, in thousandths of a page read: 10^31.
pub const MOST_TOTAL: u128 = 10_000_000_000_000_000_000_000_000_000_000;

/// How to read and join a set of slots.
#[derive(Drop)]
pub enum Plan {
    /// A slot, by one of its offers.
    Leaf {
        slot: u8,
        offer: u32,
    },
    /// The input, sorted by a list.
    Sort {
        order: List<Item>,
        input: Box<Plan>,
    },
    /// A merge join on the edge of that number.
    Merge {
        edge: u32,
        left: Box<Plan>,
        right: Box<Plan>,
    },
    /// A hash join; the right side is hashed.
    Hash {
        left: Box<Plan>,
        right: Box<Plan>,
    },
}

/// How a whole plan groups.
#[derive(Clone, Copy, Debug, PartialEq, Eq)]
pub enum GroupStep {
    /// Not at all.
    Nothing,
    /// One group after the other, from an input in the order of the list to group by.
    Sorted,
    /// By hashing.
    Hashed,
}

/// A plan of a whole block: the joins, then the group step, then perhaps a final sort by the list to order by.
#[derive(Drop)]
pub struct Whole {
    pub body: Plan,
    pub group: GroupStep,
    pub final_sort: bool,
}
