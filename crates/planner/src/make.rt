//! What a search knows of its task, made once.
ghost use Rattle.std.specs.Prelude.{◌≡◌, IfOk};

use crate::cuts::cuts_of;
use crate::needs::needs_of;
use crate::ways::Ways;
use adv_base::NoMemory;
use plan_model::Task;
use std::alloc::Global;

/// The fronts, links and cuts of a task.
pub fn ways_of<'a>(alloc: Global, task: &'a Task) -> Result<Ways<'a>, NoMemory>
    ensures { IfOk result (λ ways. ways.task.now ≡ task.now) }
{
    let needs = needs_of(alloc, task)?;
    let made = cuts_of(alloc, task, needs.links.as_slice())?;
    Ok(Ways {
        task,
        fronts: needs.fronts,
        heads: needs.heads,
        links: needs.links,
        cuts: made.cuts,
        merges: made.merges,
        starts: made.starts,
        covered: made.covered,
    })
}
