//! The range of a column's values.
ghost use Rattle.std.specs.Prelude.{◌<◌};
ghost use Rattle.adv_base.specs.Sums as sum;
ghost use Rattle.adv_base.specs.declared.limits.TheConstants.{WHOLE};

use crate::sums::{clamped_part, height};
use adv_base::Column;
use adv_base::limits::WHOLE;

/// The ends of a column's values, where both are known and lie apart.
#[derive(Clone, Copy)]
pub struct Range {
    pub low: i64,
    pub high: i64,
    ghost apart: { 0 < sum.height high low },
}

impl Range {
    ghost use Rattle.std.specs.Prelude.{◌≡◌, ℕ, ◌≤◌, ◌*◌, ℤ};
    ghost use Rattle.adv_base.specs.Parts as part;
    ghost use Rattle.cardinality.specs.Ranges.{share_or};

    /// The range of a column; None where an end isn't known or the low one isn't below the high one.
    pub fn of(column: &Column) -> Option<Range>
        ensures { (share : ℤ → ℤ → ℕ) (unknown : ℕ) → part.range_part column.now.low column.now.high share unknown ≡ share_or result share unknown }
    {
        let Some(low) = column.low else {
            return None;
        };
        let Some(high) = column.high else {
            return None;
        };
        if height(high, low) > 0 {
            Some(Range { low, high })
        } else {
            None
        }
    }

    /// The part of the range that a length is.
    pub fn share(&self, length: u64) -> u64
        ensures exact { result ≡ sum.clamped_part (WHOLE * length) (sum.height self.now.high self.now.low) }
        ensures least { 1 ≤ result }
        ensures most { result ≤ WHOLE }
    {
        clamped_part(WHOLE as u128 * length as u128, height(self.high, self.low))
    }
}
