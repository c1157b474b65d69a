//! From a configuration to one that no single addition or removal makes cheaper.
ghost use Rattle.std.specs.Prelude.{◌≡◌, ◌<◌, ◌≤◌, length};
ghost use Rattle.adv_base.specs.declared.limits.TheConstants.{MOST_CANDIDATES};
ghost use Rattle.branch_bound.specs.inner.Climbs as climbs;

use crate::fixing::is_free;
use crate::task::Task;
use adv_base::Config;
use bip_model::value;

/// A configuration with its cost, in thousandths of a page read.
#[derive(Clone, Copy)]
pub(crate) struct Costed {
    pub config: Config,
    pub cost: u128,
}

/// A configuration with one flag changed.
pub(crate) fn changed(config: &Config, index: usize, flag: bool) -> Config
    requires { index < MOST_CANDIDATES }
    ensures { result ≡ climbs.changed config.now index flag }
{
    let mut next = *config;
    next.on[index] = flag;
    next
}

/// The configuration without a candidate, where that costs as little.
fn removed(task: &Task<'_>, from: &Costed, index: usize) -> Option<Costed>
    requires { index < MOST_CANDIDATES }
    ensures { climbs.IsRemoved task.now.programme.now from.now index result }
{
    let config = changed(&from.config, index, false);
    let cost = value(task.programme, &config);
    if cost <= from.cost {
        Some(Costed { config, cost })
    } else {
        None
    }
}

/// The configuration with a candidate more, where that fits and costs less.
fn added(task: &Task<'_>, from: &Costed, index: usize) -> Option<Costed>
    requires { index < MOST_CANDIDATES }
    ensures { climbs.IsAdded task.now.programme.now task.now.shapes.now task.now.budget from.now index result }
{
    let config = changed(&from.config, index, true);
    if !task.fits(&config) {
        return None;
    }
    let cost = value(task.programme, &config);
    if cost < from.cost {
        Some(Costed { config, cost })
    } else {
        None
    }
}

/// The configuration with one flag changed, where the root leaves the candidate free and that gains something.
fn tried(task: &Task<'_>, from: &Costed, index: usize) -> Option<Costed>
    requires within { index < length task.now.programme.now.sizes }
    requires sound { climbs.IsSoundHere task.now.programme.now task.now.shapes.now task.now.budget task.now.root.now from.now }
    ensures { climbs.IsTrial task.now.programme.now task.now.shapes.now task.now.budget task.now.root.now from.now index result }
{
    if !is_free(task.root.state[index]) {
        return None;
    }
    if from.config.on[index] {
        removed(task, from, index)
    } else {
        added(task, from, index)
    }
}

/// A configuration that a single addition or removal makes cheaper, or no larger in cost and smaller in number.
fn lower(task: &Task<'_>, from: &Costed) -> Option<Costed>
    requires { climbs.IsSoundHere task.now.programme.now task.now.shapes.now task.now.budget task.now.root.now from.now }
    ensures { climbs.AreTrials task.now.programme.now task.now.shapes.now task.now.budget task.now.root.now from.now (length task.now.programme.now.sizes) result }
{
    for index in 0..task.programme.sizes.len() {
        if let Some(to) = tried(task, from, index) {
            return Some(to);
        }
    }
    None
}

/// From a configuration to one that no single addition or removal of a candidate that the root leaves free makes
/// cheaper, and no removal leaves as cheap.
pub(crate) fn climb(task: &Task<'_>, from: Costed) -> Costed
    requires { climbs.IsSoundHere task.now.programme.now task.now.shapes.now task.now.budget task.now.root.now from }
    ensures sound { climbs.IsSoundHere task.now.programme.now task.now.shapes.now task.now.budget task.now.root.now result }
    ensures cheaper { result.cost ≤ from.cost }
    ensures top { climbs.IsTop task.now.programme.now task.now.shapes.now task.now.budget task.now.root.now result.config result.cost }
{
    let mut best = from;
    while let Some(to) = lower(task, &best) {
        best = to;
    }
    best
}
