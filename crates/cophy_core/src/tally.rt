//! The costs of statements, added up.
ghost use Rattle.std.specs.Prelude.{◌≤◌, ◌<◌, ◌*◌, All, length};
ghost use Rattle.adv_base.specs.declared.limits.TheConstants.{MOST_STATEMENTS, MOST_WEIGHT};
ghost use Rattle.cophy_core.specs.Causes.{most_statement_cost};

use adv_base::{List, NoMemory, Statement};
use report::Prices;
use std::alloc::Global;

/// The costs of the first statements of a workload, each without its weight, in thousandths of a sequential page read, and
/// the sum of weight times cost.
#[derive(Drop)]
pub(crate) struct Tally {
    pub costs: Vec<u128>,
    pub total: u128,
    pub ghost few: { length costs.items ≤ MOST_STATEMENTS },
    pub ghost low: { All (λ cost. cost < most_statement_cost) costs.items },
    pub ghost small: { total ≤ length costs.items * (MOST_WEIGHT * most_statement_cost) },
}

impl Tally {
    ghost use Rattle.std.specs.Prelude.{◌≡◌, ◌+◌, ◌*◌, ◌<◌, ◌++◌, ◌∷◌, [], All, OnOk, length};
    ghost use Rattle.adv_base.specs.declared.limits.TheConstants.{MOST_STATEMENTS};
    ghost use Rattle.plan_model.specs.declared.plan.TheConstants.{MOST_TOTAL};
    ghost use Rattle.cophy_core.specs.Causes.{most_statement_cost};

    /// No statement yet.
    pub(crate) fn new(alloc: Global) -> Tally
        ensures none { result.costs.items ≡ [] }
        ensures zero { result.total ≡ 0 }
    {
        Tally {
            costs: Vec::new(alloc),
            total: 0,
        }
    }

    /// Adds the cost of the next statement.
    pub(crate) fn add(&mut self, statement: &Statement, cost: u128) -> Result<(), NoMemory>
        requires room { length self.old.costs.items < MOST_STATEMENTS }
        requires low { cost < most_statement_cost }
        ensures costs { OnOk result (self.new.costs.items ≡ self.old.costs.items ++ cost ∷ []) }
        ensures total { OnOk result (self.new.total ≡ self.old.total + statement.now.weight * cost) }
    {
        self.costs.push(cost)?;
        self.total += statement.weight as u128 * cost;
        Ok(())
    }

    /// The prices of the statements, beside the pages of their configuration, where there is one.
    pub(crate) fn prices(self, size: Option<u128>) -> Prices
        ensures size { result.size ≡ size }
        ensures costs { result.costs ≡ self.costs.items }
        ensures total { result.total ≡ self.total }
        ensures low { All (λ cost. cost < most_statement_cost) result.costs }
        ensures bound { result.total < MOST_TOTAL }
    {
        Prices {
            size,
            costs: List { items: self.costs },
            total: self.total,
        }
    }
}
