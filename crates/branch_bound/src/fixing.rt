//! States of candidates at nodes of a search.
ghost use Rattle.std.specs.Prelude.{◌≡◌, ◌<◌};
ghost use Rattle.adv_base.specs.declared.limits.TheConstants.{MOST_CANDIDATES};
ghost use Rattle.branch_bound.specs.Sides as sides;

use bip_model::{Fix, State};

/// Whether a candidate is free.
pub(crate) fn is_free(state: State) -> bool
    ensures { result ≡ sides.is_free_state state }
{
    match state {
        State::Free => true,
        _ => false,
    }
}

/// A node with one candidate fixed, by its index from 0.
pub(crate) fn fixed(fix: &Fix, index: usize, state: State) -> Fix
    requires { index < MOST_CANDIDATES }
    ensures { result ≡ sides.fixed fix.now index state }
{
    let mut next = *fix;
    next.state[index] = state;
    next
}
