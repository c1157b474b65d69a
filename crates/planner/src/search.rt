//! The search of least plans, made once a task.
ghost use Rattle.std.specs.Prelude.{◌≡◌, ◌<◌, ◌≤◌, ◌^◌, IfOk, length};
ghost use Rattle.adv_base.specs.OfferTables.{HasOffers};
ghost use Rattle.plan_model.specs.declared.plan.TheConstants.{MOST_COST};
ghost use Rattle.plan_model.specs.Least.{Least};
ghost use Rattle.planner.specs.Rows.{IsTable, width};

use crate::cell::Cell;
use crate::fill::{blank_row, blank_rows, fill};
use crate::make::ways_of;
use crate::row::width_of;
use crate::ways::Ways;
use crate::whole::least_shape;
use adv_base::NoMemory;
use plan_model::{Offers, Task};
use std::alloc::Global;

/// A search of least plans of one task, over any offers. What depends on the task alone is found when it is made, and each
/// call of `cost` fills the search's own table in place.
#[derive(Drop)]
pub struct Search<'a> {
    pub(crate) ways: Ways<'a>,
    pub(crate) cells: Vec<Cell>,
    pub(crate) row: Vec<Cell>,
    pub ghost table: { IsTable ways cells.items },
    pub ghost row_each: { length row.items ≡ width ways },
}

/// The first set that has a slot.
fn first_set(slot: u8) -> usize
    requires { slot ≤ 8 }
    ensures { result ≡ 2 ^ slot }
{
    1 << slot
}

impl<'a> Search<'a> {
    ghost use Rattle.planner.specs.Tables.{Holds, HoldsBelow, task_of};

    /// A search of least plans of the task. `NoMemory` is want of memory.
    pub fn new(alloc: Global, task: &'a Task) -> Result<Search<'a>, NoMemory>
        ensures { IfOk result (λ search. task_of search ≡ task.now) }
    {
        let ways = ways_of(alloc, task)?;
        let width = width_of(&ways);
        let row = blank_row(alloc, width)?;
        let cells = blank_rows(alloc, row.as_slice(), ways.task.rows.len())?;
        Ok(Search { ways, cells, row })
    }

    /// The task that is searched.
    pub fn task(&self) -> &'a Task
        ensures { result.now ≡ task_of self.now }
    {
        self.ways.task
    }

    /// What a least plan of the task over these offers costs, in thousandths of a page read: less than 10^21. Each slot has
    /// an offer. It takes no memory.
    pub fn cost<O: Offers>(&mut self, offers: &O) -> u128
        requires { HasOffers (task_of self.old).slots (O.table offers.now) }
        ensures same { task_of self.new ≡ task_of self.old }
        ensures least { Least (task_of self.old) (O.table offers.now) result }
        ensures most { result < MOST_COST }
        ensures holds { Holds self.new (O.table offers.now) }
    {
        offers.limits();
        fill(
            self.cells.as_mut_slice(),
            self.row.as_mut_slice(),
            &self.ways,
            offers,
            0,
        );
        least_shape(&self.ways, self.cells.as_slice()).cost
    }

    /// The same, where the search holds the costs over offers from which these differ only at slots from this one on: the
    /// rows of sets of lower slots stay.
    pub fn cost_from<O: Offers>(&mut self, offers: &O, slot: u8) -> u128
        requires offers { HasOffers (task_of self.old).slots (O.table offers.now) }
        requires slot_in { slot ≤ (task_of self.old).slots }
        requires held { HoldsBelow self.old (O.table offers.now) slot }
        ensures same { task_of self.new ≡ task_of self.old }
        ensures least { Least (task_of self.old) (O.table offers.now) result }
        ensures most { result < MOST_COST }
        ensures holds { Holds self.new (O.table offers.now) }
    {
        offers.limits();
        fill(
            self.cells.as_mut_slice(),
            self.row.as_mut_slice(),
            &self.ways,
            offers,
            first_set(slot),
        );
        least_shape(&self.ways, self.cells.as_slice()).cost
    }
}
