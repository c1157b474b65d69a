//! Laws of plans and their costs, each proved of all tasks and tables of offers. They are what an index advisor stands on:
//! System R's interesting orders, INUM's plans with exchanged leaves, and the cost that a cache of such plans gives.
ghost use Rattle.plan_model.specs.Combinations.{EnoughDecompose, EachDecompose, KeptListDecompose, CacheDecomposes, KeptDecompose, DecomposingAskNothing};
ghost use Rattle.plan_model.specs.Comparisons.{LeastIsOne, LeastNeverRises, AddedNeverRaises, RaisedLiesBetween, BestIsEnough};
ghost use Rattle.plan_model.specs.Least.{PlansExist};
ghost use Rattle.plan_model.specs.Lagrangian.{UnrentedIsPlain, RentsBound, WeakDuality};
ghost use Rattle.plan_model.specs.Totals.{TotalStaysBelow};
ghost use Rattle.plan_model.specs.Uniqueness.{TaskIsOne, BlockCostIsOne, CostIsOne, TotalIsOne, LagrangianIsOne};
ghost use Rattle.plan_model.specs.Exchange.{CostSplits, WholeCostSplits, LeavesExchange, WholeLeavesExchange};

/// A valid plan costs what its operators cost above the leaves, and the price of one offer for each slot (INUM's internal
/// and access costs).
pub fn cost_splits()
    ensures plan { CostSplits }
    ensures whole { WholeCostSplits }
{}

/// Leaves can be exchanged for others that serve the same interesting orders: the plan stays valid, and costs the same
/// above its leaves.
pub fn leaves_exchange()
    ensures plan { LeavesExchange }
    ensures whole { WholeLeavesExchange }
{}

/// The least cost that enough templates give for a table of offers is the cost of a least plan. One template for each
/// combination of interesting orders is enough; so is one for each that no weaker one replaces.
pub fn templates_decompose()
    ensures enough { EnoughDecompose }
    ensures each { EachDecompose }
    ensures kept { KeptListDecompose }
{}

/// Each task has a plan wherever each of its slots has an offer: hash joins of one slot after the other. So one of the
/// templates that decompose it asks for no order.
pub fn plans_exist()
    ensures plan { PlansExist }
    ensures template { DecomposingAskNothing }
{}

/// The cached cost, over a least plan for each combination of interesting orders, is the cost of a least plan; so is the
/// least over the combinations that no weaker one replaces.
pub fn cache_decomposes()
    ensures each { CacheDecomposes }
    ensures kept { KeptDecompose }
{}

/// A least cost is one number.
pub fn least_is_one()
    ensures { LeastIsOne }
{}

/// Least costs never rise where offers are added, or give way to such as serve no less and cost no more.
pub fn least_never_rises()
    ensures better { LeastNeverRises }
    ensures added { AddedNeverRaises }
{}

/// Where prices are raised by charges, as by Lagrangian multipliers, the least cost lies between the old one and that with
/// the charges of the leaves of any old plan of that cost.
pub fn raised_lies_between()
    ensures { RaisedLiesBetween }
{}

/// The least cost is that over the best offer for each interesting order.
pub fn best_is_enough()
    ensures { BestIsEnough }
{}

/// A block has one task, and each cost is one number: that of a block, of a statement, of a workload; so is the
/// Lagrangian value of a node.
pub fn costs_are_one()
    ensures task { TaskIsOne }
    ensures block { BlockCostIsOne }
    ensures statement { CostIsOne }
    ensures total { TotalIsOne }
    ensures lagrangian { LagrangianIsOne }
{}

/// A least cost with rents on candidates is a block's cost where they are 0. Over more candidates it is at most a block's
/// cost and the rents of the candidates that the block may use.
pub fn rents_bound()
    ensures none { UnrentedIsPlain }
    ensures more { RentsBound }
{}

/// The total of a workload within the limits is less than 10^31.
pub fn total_stays_below()
    ensures { TotalStaysBelow }
{}

/// Weak duality, CoPhy's bound: whatever the multipliers, a fitting configuration below a node costs at least the node's
/// Lagrangian value.
pub fn weak_duality()
    ensures { WeakDuality }
{}
