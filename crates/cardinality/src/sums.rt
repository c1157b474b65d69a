//! Heights and quotients.
ghost use Rattle.std.specs.Prelude.{◌≡◌, ◌<◌, ◌≤◌};
ghost use Rattle.adv_base.specs.Sums as sum;
ghost use Rattle.adv_base.specs.declared.limits.TheConstants.{WHOLE};

use adv_base::limits::WHOLE;

/// How far `top` is above `bottom`, and 0 where it isn't.
#[tactic(auto, unfolding(adv_base::specs::Sums::height))]
pub fn height(top: i64, bottom: i64) -> u64
    ensures { result ≡ sum.height top bottom }
{
    if top > bottom {
        (top as i128 - bottom as i128) as u64
    } else {
        0
    }
}

/// `n / d` rounded up, and then kept from 1 to 10^9.
#[tactic(auto, unfolding(adv_base::specs::Sums::clamped_part))]
pub fn clamped_part(n: u128, d: u64) -> u64
    requires { 0 < d }
    ensures exact { result ≡ sum.clamped_part n d }
    ensures least { 1 ≤ result }
    ensures most { result ≤ WHOLE }
{
    n.div_ceil(d as u128).min(WHOLE as u128).max(1) as u64
}
