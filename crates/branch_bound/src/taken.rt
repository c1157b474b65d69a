//! What is taken of a proposed configuration: it is tested against the root and the budget, and priced.
ghost use Rattle.std.specs.Prelude.{◌≡◌, true, length};
ghost use Rattle.adv_base.specs.declared.limits.TheConstants.{MOST_CANDIDATES};
ghost use Rattle.branch_bound.specs.inner.Climbs as climbs;

use crate::climb::Costed;
use crate::task::Task;
use adv_base::Config;
use adv_base::limits::MOST_CANDIDATES;
use bip_model::{State, value};

/// Whether a flag is as the root's state wants it; it isn't on where it is no candidate's.
fn agrees(state: State, on: bool, is_candidate: bool) -> bool
    ensures { result ≡ climbs.agrees state on is_candidate }
{
    match state {
        State::In => on && is_candidate,
        State::Out => !on,
        State::Free => !on || is_candidate,
    }
}

/// Whether the flags of a configuration of so many candidates obey the root's states.
fn obeys(states: &[State], flags: &[bool], count: usize) -> bool
    requires states { length states.now ≡ MOST_CANDIDATES }
    requires flags { length flags.now ≡ MOST_CANDIDATES }
    ensures obeys { result ≡ true → climbs.ObeysBelow states.now flags.now count MOST_CANDIDATES }
    ensures states { length states.now ≡ MOST_CANDIDATES }
    ensures flags { length flags.now ≡ MOST_CANDIDATES }
{
    for index in 0..MOST_CANDIDATES {
        if !agrees(states[index], flags[index], index < count) {
            return false;
        }
    }
    true
}

/// The cheaper of the configuration that is known and of one that is proposed, where that obeys the root and fits.
pub(crate) fn taken(task: &Task<'_>, known: Costed, config: Config) -> Costed
    requires { climbs.IsSoundHere task.now.programme.now task.now.shapes.now task.now.budget task.now.root.now known }
    ensures { climbs.IsSoundHere task.now.programme.now task.now.shapes.now task.now.budget task.now.root.now result }
{
    let count = task.programme.sizes.len();
    if !obeys(&task.root.state, &config.on, count) || !task.fits(&config) {
        return known;
    }
    let cost = value(task.programme, &config);
    if cost < known.cost {
        Costed { config, cost }
    } else {
        known
    }
}
