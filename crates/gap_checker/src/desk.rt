//! What plans a statement over and over.
ghost use Rattle.std.specs.Prelude.{◌≡◌};
ghost use Rattle.planner.specs.Tables.{task_of};

use crate::part::Part;
use adv_base::NoMemory;
use planner::Search;
use std::alloc::Global;

/// The task and the offers of a statement's block, and the search of the task, which is made once.
#[derive(Drop)]
pub(crate) struct Desk<'a> {
    pub part: &'a Part,
    pub search: Search<'a>,
    pub ghost task: { task_of search ≡ part.now.task },
}

impl<'a> Desk<'a> {
    ghost use Rattle.std.specs.Prelude.{IfOk};
    ghost use Rattle.gap_checker.specs.inner.Parts as kept;

    /// The desk of a statement, where it has a block. Want of memory is the one error.
    pub(crate) fn of_part(
        alloc: Global,
        part: &'a Option<Part>,
    ) -> Result<Option<Desk<'a>>, NoMemory>
        ensures { IfOk result (kept.IsDeskOf part.now) }
    {
        match part {
            Some(part) => {
                let search = Search::new(alloc, &part.task)?;
                Ok(Some(Desk { part, search }))
            }
            None => Ok(None),
        }
    }
}
