//! Folded workloads.
ghost use Rattle.std.specs.Prelude.{◌≡◌, length};

use adv_base::List;

/// The groups of a workload: for each the number of its first statement, from 1, and the sum of the weights of its
/// statements, from 1 to 10^6.
#[derive(Debug, Drop)]
pub struct Folded {
    pub first: List<u16>,
    pub weights: List<u32>,
    /// Each group has both.
    pub ghost paired: { length first ≡ length weights },
}
