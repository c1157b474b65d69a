//! Branch and bound.
ghost use Rattle.std.specs.Prelude.{◌≡◌, ◌≤◌, length};
ghost use Rattle.adv_base.specs.declared.limits.TheConstants.{MOST_CANDIDATES, MOST_NODES, MOST_PAGES};
ghost use Rattle.branch_bound.specs.Answers.{IsBestForEach};
ghost use Rattle.branch_bound.specs.Rooms.{IsRoomFor};
ghost use Rattle.branch_bound.specs.Sides as sides;
ghost use Rattle.branch_bound.specs.inner.Climbs as climbs;
ghost use Rattle.branch_bound.specs.inner.Runs as runs;

use crate::climb::{Costed, climb};
use crate::explore::Walk;
use crate::found::Found;
use crate::ledgers::open_all;
use crate::proposing::propose;
use crate::room::{Room, set_limit};
use crate::task::Task;
use crate::useful::useful_of;
use crate::walk::{Guidance, walked};
use adv_base::{IndexShape, List};
use bip_model::{Answer, Fix, Multipliers, Node, Programme, value};
use relaxations::Proposals;

/// What nothing that fits costs less than: the cost, or the least value of the leaves at which the search gave up.
fn least_bound(cost: u128, low: i128) -> i128
    ensures { result ≡ runs.least_bound cost low }
{
    if low < 0 || (low as u128) < cost {
        low
    } else {
        cost as i128
    }
}

/// The configuration of what a root has in, with its cost.
fn bare(programme: &Programme, shapes: &[IndexShape], budget: u64, root: &Fix) -> Costed
    requires { sides.IsRoot programme.now shapes.now budget root.now }
    ensures sound { climbs.IsSoundHere programme.now shapes.now budget root.now result }
    ensures inside { result.config ≡ sides.inside root.now }
    ensures long { length root.now.state ≡ MOST_CANDIDATES }
{
    let _root = *root;
    let config = root.inside();
    let cost = value(programme, &config);
    Costed { config, cost }
}

/// Climbs from the cheapest configuration in the tree.
fn climbed(task: &Task<'_>, found: &Found) -> Costed
    requires { climbs.IsSound task.now.programme.now task.now.shapes.now task.now.budget task.now.root.now found.now.config found.now.cost }
    ensures sound { climbs.IsSoundHere task.now.programme.now task.now.shapes.now task.now.budget task.now.root.now result }
    ensures cheaper { result.cost ≤ found.now.cost }
    ensures top { climbs.IsTop task.now.programme.now task.now.shapes.now task.now.budget task.now.root.now result.config result.cost }
{
    let from = Costed {
        config: found.config,
        cost: found.cost,
    };
    climb(task, from)
}

/// What a search answers with the cheapest configuration that it found.
fn answer(best: Costed, low: i128, sets: Vec<Multipliers>, tree: Vec<Node>, useful: u32) -> Answer
    ensures { result ≡ runs.answer best low sets.items tree.items useful }
{
    Answer {
        config: best.config,
        cost: best.cost,
        bound: least_bound(best.cost, low),
        sets: List { items: sets },
        tree: List { items: tree },
        useful,
    }
}

/// Branch and bound: a configuration of the programme below a root that fits a budget of pages and has no two candidates
/// that are clustered on one table, by depth-first search over CoPhy's programme with Lagrangian bounds, of at most so
/// many nodes. The programme stands for a setting whose candidates are the shapes. The answer holds the tree that shows
/// that none costs less than the bound; where the nodes sufficed, the bound is the cost, and the configuration a best
/// one. Costs are in thousandths of a page read. All memory is the room's and that of the proposals, with which a later
/// search of the same programme may go on.
pub fn search(
    programme: &Programme,
    shapes: &[IndexShape],
    root: &Fix,
    budget: u64,
    nodes: u32,
    room: Room,
    proposed: &mut Proposals,
) -> Answer
    requires budget { budget ≤ MOST_PAGES }
    requires some_node { 1 ≤ nodes }
    requires nodes { nodes ≤ MOST_NODES }
    requires root { sides.IsRoot programme.now shapes.now budget root.now }
    requires room { IsRoomFor programme.now nodes room }
    ensures { IsBestForEach programme.now shapes.now budget nodes root.now result }
{
    let Room {
        tree,
        zeros,
        spares,
        mut sets,
        cheaper,
        mut ledgers,
    } = room;
    let useful = useful_of(programme, budget);
    let task = Task {
        programme,
        shapes,
        budget,
        useful: &useful.flags,
        root,
        bare: bare(programme, shapes, budget, root),
        most: set_limit(programme),
    };
    let known = propose(&task, nodes, proposed, spares, &mut sets);
    let guidance = Guidance {
        zeros: &zeros,
        sets: sets.as_slice(),
        plan: proposed.steps(),
        cheaper: &cheaper,
    };
    open_all(&task, &cheaper, &zeros, guidance.sets, &mut ledgers);
    let mut walk = Walk { tree, ledgers };
    let found = walked(&task, nodes, &guidance, &known, &mut walk);
    let best = climbed(&task, &found);
    answer(best, found.low, sets, walk.tree, useful.count)
}
