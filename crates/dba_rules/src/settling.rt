//! Whether what has to be fits, and what obeys rules.
ghost use Rattle.std.specs.Prelude.{◌≡◌, length, count_by, OnOk, IfErr, MatchOption};
ghost use Rattle.adv_base.specs.Configs as configs;
ghost use Rattle.adv_base.specs.Nodes as nodes;
ghost use Rattle.adv_base.specs.Settings.{the_setting};
ghost use Rattle.adv_base.specs.declared.limits.TheConstants.{MOST_CANDIDATES};
ghost use Rattle.bip_model.specs.Views as views;
ghost use Rattle.dba_rules.specs.Settled as settled;

use crate::fault::RuleFault;
use adv_base::limits::MOST_CANDIDATES;
use adv_base::{Config, Setting, first_clash};
use bip_model::{Fix, is_in, is_out};
use hypo_indexes::config_pages;

/// Judges whether the candidates that rules make in fit a budget of pages, no two of them clustered on one table. Else
/// `TooLarge` has their pages and the budget, exactly where they exceed it, and `Clash` else: the second is the least that
/// clashes with a lesser one, which is the first. Takes no memory.
pub fn settle(setting: &Setting<'_>, root: &Fix, budget: u64) -> Result<(), RuleFault>
    ensures fits { OnOk result (configs.Fits setting.now.cat.now setting.now.shapes.now (views.node_of root.now).inside budget) }
    ensures fault { IfErr result (settled.IsFault (the_setting setting.now) (views.node_of root.now).inside budget) }
{
    let inside = root.inside();
    let pages = config_pages(setting.cat, setting.shapes, &inside);
    if pages > budget {
        return Err(RuleFault::TooLarge(pages as u128, budget));
    }
    match first_clash(setting.shapes, &inside) {
        Some((first, second)) => Err(RuleFault::Clash(first, second)),
        None => Ok(()),
    }
}

/// The candidates that are out at a root, which has a state for each that there may be.
fn outside_of(root: &Fix) -> Config
    ensures exact { result ≡ (views.node_of root.now).outside }
    ensures long { length root.now.state ≡ MOST_CANDIDATES }
{
    let _root = *root;
    root.outside()
}

/// Whether a configuration lacks a candidate that is in, or has one that is out.
fn is_broken(root: &Fix, outside: &Config, config: &Config, number: u16) -> bool
    requires { outside.now ≡ (views.node_of root.now).outside }
    ensures { result ≡ settled.is_broken (views.node_of root.now) config.now number }
{
    let chosen = config.has(number);
    (root.is_in(number) && !chosen) || (outside.has(number) && chosen)
}

/// The least candidate at which a configuration isn't below a root, as it lacks one that is in or has one that is out. `None`
/// exactly where it is below. Takes no memory.
pub fn broken(root: &Fix, config: &Config) -> Option<u16>
    ensures { MatchOption result (nodes.IsBelow (views.node_of root.now) config.now) (settled.IsFirstBroken (views.node_of root.now) config.now) }
{
    let outside = outside_of(root);
    for number in 1..MOST_CANDIDATES as u16 + 1 {
        if is_broken(root, &outside, config, number) {
            return Some(number);
        }
    }
    None
}

/// How many candidates a root makes in.
pub fn in_count(root: &Fix) -> u32
    ensures { result ≡ count_by views.is_in root.now.state }
{
    root.state.iter().filter(|state| is_in(**state)).count() as u32
}

/// How many it makes out.
pub fn out_count(root: &Fix) -> u32
    ensures { result ≡ count_by views.is_out root.now.state }
{
    root.state.iter().filter(|state| is_out(**state)).count() as u32
}
