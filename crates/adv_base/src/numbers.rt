//! The two sums of the cost model.
ghost use Rattle.std.specs.Prelude.{◌≡◌, ◌≤◌, ◌<◌, ◌^◌, ◌-◌, ◌*◌};
ghost use Rattle.adv_base.specs.declared.limits.TheConstants.{MOST_ROWS, WHOLE};
ghost use Rattle.adv_base.specs.Sums.{times_part as part_of_number, binary_digits as digits_of};

use crate::limits::WHOLE;

/// A number taken through a selectivity: `n * part / 10^9`, rounded up. Parts are of 10^9, from 1 to 10^9.
pub fn times_part(n: u64, part: u64) -> u64
    requires some { 1 ≤ n }
    requires most { n ≤ 10 * MOST_ROWS }
    requires part_some { 1 ≤ part }
    requires part_most { part ≤ WHOLE }
    ensures exact { result ≡ part_of_number n part }
    ensures least { 1 ≤ result }
    ensures shrinks { result ≤ n }
{
    (n as u128 * part as u128).div_ceil(WHOLE as u128) as u64
}

/// The number of binary digits, which is 0 for 0.
pub fn binary_digits(n: u64) -> u32
    ensures exact { result ≡ digits_of n }
    ensures above { n < 2 ^ result }
    ensures least { 0 < n → 2 ^ (result - 1) ≤ n }
{
    64 - n.leading_zeros()
}
