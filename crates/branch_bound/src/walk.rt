//! The walks of a search: along the plan, and beyond it where that leaves something open though nodes are left.
ghost use Rattle.std.specs.Prelude.{◌≡◌, ◌+◌, ◌<◌, ◌≤◌, ◌⊎◌, ◌≤ℤ◌, [], All, length, pos, true};
ghost use Rattle.std.specs.Vec.{vec_capacity};
ghost use Rattle.adv_base.specs.declared.limits.TheConstants.{MOST_NODES, MOST_SETS};
ghost use Rattle.bip_model.specs.Views.{AreMultipliers};
ghost use Rattle.lagrange_bound.specs.Ledgers.{AreCheaperParts};
ghost use Rattle.branch_bound.specs.inner.Runs as runs;

use crate::climb::Costed;
use crate::explore::{Walk, explore};
use crate::found::Found;
use crate::frame::Frame;
use crate::node::reaches;
use crate::task::Task;
use bip_model::Multipliers;
use lagrange_bound::CheaperParts;
use relaxations::Step;

/// What a walk goes by: zeros, the sets and the plan, and which parts each candidate can make cheaper.
#[derive(Clone, Copy)]
pub(crate) struct Guidance<'a> {
    pub zeros: &'a Multipliers,
    pub sets: &'a [Multipliers],
    pub plan: &'a [Step],
    pub cheaper: &'a CheaperParts,
}

/// What a search knows at its root, where a configuration is known.
fn started(known: &Costed) -> Found
    ensures exact { result ≡ runs.started known.now }
    ensures made { result.made ≡ 1 }
{
    Found {
        config: known.config,
        cost: known.cost,
        low: i128::MAX,
        made: 1,
    }
}

/// Explores the tree below the root; where the plan ends the walk gives up, or goes on.
fn explored(
    task: &Task<'_>,
    nodes: u32,
    guidance: &Guidance<'_>,
    stops: bool,
    known: &Costed,
    walk: &mut Walk,
) -> Found
    requires some_node { 1 ≤ nodes }
    requires nodes { nodes ≤ MOST_NODES }
    requires zeros { AreMultipliers task.now.programme.now guidance.now.zeros.now }
    requires sets { All (AreMultipliers task.now.programme.now) guidance.now.sets.now }
    requires few { length guidance.now.sets.now ≤ MOST_SETS }
    requires cheaper { AreCheaperParts task.now.programme.now guidance.now.cheaper.now }
    requires empty { walk.old.tree.items ≡ [] }
    requires room { nodes ≤ vec_capacity walk.old.tree }
    requires ledgers { runs.AreLedgers (runs.rules_for task.now nodes guidance.now.zeros.now guidance.now.sets.now stops) walk.old.ledgers.each.items }
    ensures explored { runs.IsExplored (runs.rules_for task.now nodes guidance.now.zeros.now guidance.now.sets.now stops) task.now.root.now (runs.started known.now) [] result walk.new.tree.items }
    ensures most { result.made ≤ nodes }
    ensures room { nodes ≤ vec_capacity walk.new.tree }
    ensures ledgers { runs.AreLedgers (runs.rules_for task.now nodes guidance.now.zeros.now guidance.now.sets.now stops) walk.new.ledgers.each.items }
{
    let frame = Frame {
        programme: task.programme,
        shapes: task.shapes,
        budget: task.budget,
        nodes,
        zeros: guidance.zeros,
        sets: guidance.sets,
        useful: task.useful,
        plan: guidance.plan,
        stops,
        cheaper: guidance.cheaper,
    };
    let before = started(known);
    explore(&frame, task.root, task.bare.cost, before, 0, walk)
}

/// Walks the tree along the plan; and anew, beyond the plan, where that gave up and nodes are left.
pub(crate) fn walked(
    task: &Task<'_>,
    nodes: u32,
    guidance: &Guidance<'_>,
    known: &Costed,
    walk: &mut Walk,
) -> Found
    requires some_node { 1 ≤ nodes }
    requires nodes { nodes ≤ MOST_NODES }
    requires zeros { AreMultipliers task.now.programme.now guidance.now.zeros.now }
    requires sets { All (AreMultipliers task.now.programme.now) guidance.now.sets.now }
    requires few { length guidance.now.sets.now ≤ MOST_SETS }
    requires cheaper { AreCheaperParts task.now.programme.now guidance.now.cheaper.now }
    requires empty { walk.old.tree.items ≡ [] }
    requires room { nodes ≤ vec_capacity walk.old.tree }
    requires ledgers { runs.AreOpen task.now.programme.now guidance.now.zeros.now guidance.now.sets.now (length guidance.now.sets.now) walk.old.ledgers.each.items }
    ensures walked { runs.IsWalked (runs.rules_for task.now nodes guidance.now.zeros.now guidance.now.sets.now) task.now.root.now (runs.started known.now) result walk.new.tree.items }
    ensures most { result.made ≤ nodes }
{
    let found = explored(task, nodes, guidance, true, known, walk);
    if reaches(found.low, found.cost) || nodes <= found.made + 1 {
        return found;
    }
    walk.tree.clear();
    explored(task, nodes, guidance, false, known, walk)
}
