//! One search of a sweep.
ghost use Rattle.std.specs.Prelude.{◌≤◌, IfOk};
ghost use Rattle.adv_base.specs.declared.limits.TheConstants.{MOST_NODES, MOST_PAGES};
ghost use Rattle.budget_sweep.specs.inner.Passes as passes;

use adv_base::{IndexShape, NoMemory};
use bip_model::{Answer, Fix, Programme};
use branch_bound::{Proposals, Room, search};
use std::alloc::Global;

/// A best answer for a budget. The search goes on with what the one before found.
pub(crate) fn searched(
    alloc: Global,
    programme: &Programme,
    shapes: &[IndexShape],
    budget: u64,
    nodes: u32,
    proposed: &mut Proposals,
) -> Result<Answer, NoMemory>
    requires budget { budget ≤ MOST_PAGES }
    requires some_node { 1 ≤ nodes }
    requires nodes { nodes ≤ MOST_NODES }
    ensures { IfOk result (passes.IsFreeBest programme.now shapes.now budget nodes) }
{
    let root = Fix::free();
    let room = Room::new(alloc, programme, nodes)?;
    Ok(search(programme, shapes, &root, budget, nodes, room, proposed))
}
