//! The configuration of every candidate.
ghost use Rattle.std.specs.Prelude.{◌≤◌};
ghost use Rattle.adv_base.specs.declared.limits.TheConstants.{MOST_CANDIDATES};
ghost use Rattle.programme_parts.specs.inner.Every.{IsEvery};

use adv_base::Config;
use adv_base::limits::MOST_CANDIDATES;

/// The configuration with each of so many candidates.
pub(crate) fn every_candidate(count: usize) -> Config
    requires { count ≤ MOST_CANDIDATES }
    ensures { IsEvery count result }
{
    let mut on = [false; MOST_CANDIDATES];
    for a in 0..count {
        on[a] = true;
    }
    Config { on }
}
