//! Shares of the rows, by histograms.
ghost use Rattle.std.specs.Prelude.{◌≡◌, ◌+◌, ◌-◌, ◌<◌, ◌≤◌, ◌<ℤ◌, length};
ghost use Rattle.adv_base.specs.Limits.Numbers.{BoundsLimits};
ghost use Rattle.adv_base.specs.Shares as histogram;
ghost use Rattle.adv_base.specs.declared.limits.TheConstants.{WHOLE};

use crate::sums::height;
use adv_base::limits::WHOLE;

/// The bucket of a value between the first end and the last, by bisection.
fn bucket_of(ends: &[i64], value: i64) -> usize
    requires limits { BoundsLimits ends.now }
    requires above { histogram.end_at ends.now 0 <ℤ value }
    requires below { value <ℤ histogram.end_at ends.now (length ends.now - 1) }
    ensures exact { result ≡ histogram.bucket ends.now value (length ends.now - 1) }
    ensures inner { result + 1 < length ends.now }
{
    ends.partition_point(|end| *end <= value) - 1
}

/// The share of the rows at most a value, of 10^9, by the ends of a histogram's buckets.
pub fn share(ends: &[i64], value: i64) -> u64
    requires some { 1 ≤ length ends.now }
    requires limits { BoundsLimits ends.now }
    ensures exact { result ≡ histogram.share ends.now value }
    ensures most { result ≤ WHOLE }
{
    let buckets = ends.len() - 1;
    if value <= ends[0] {
        return 0;
    }
    if value >= ends[buckets] {
        return WHOLE;
    }
    let bucket = bucket_of(ends, value);
    let width = height(ends[bucket + 1], ends[bucket]) as u128;
    let before = bucket as u128 * width + height(value, ends[bucket]) as u128;
    (WHOLE as u128 * before / (buckets as u128 * width)) as u64
}
