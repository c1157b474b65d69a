//! Groups so far.
ghost use Rattle.std.specs.Prelude.{◌≤◌};
ghost use Rattle.adv_base.specs.declared.limits.TheConstants.{MOST_WEIGHT};

use adv_base::Statement;

/// A group so far: its first statement with its number, the sum of the weights, and the digest of the first statement.
#[derive(Clone, Copy)]
pub struct Gathered<'a> {
    pub number: u16,
    pub first: &'a Statement,
    pub weight: u32,
    pub digest: u64,
    pub ghost few: { weight ≤ MOST_WEIGHT },
}
