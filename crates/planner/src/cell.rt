//! What the search keeps for a set of slots and a front.
ghost use Rattle.std.specs.Prelude.{◌≡◌, ◌+◌, ◌<◌, ◌^◌, length};
ghost use Rattle.std.specs.Option.{ForSome};
ghost use Rattle.planner.specs.Cells as row_cells;
ghost use Rattle.planner.specs.inner.Steps as steps;

use adv_base::Item;

/// The cost where there is no plan, above that of every plan.
pub(crate) const IMPOSSIBLE: u128 = 1_000_000_000_000_000_000_000_000_000_000;

/// How a plan without a sort at its top is made.
#[derive(Clone, Copy)]
pub(crate) enum Choice {
    /// An offer of a slot.
    Read {
        slot: u8,
        offer: u32,
    },
    /// A merge on an edge; the left side has the set `left`, and the sides serve these fronts.
    MergeOf {
        edge: u32,
        left: usize,
        left_front: usize,
        right_front: usize,
    },
    /// A hash join; the left side has the set `left`.
    HashOf {
        left: usize,
    },
}

/// The least costs of plans of a set of slots whose order begins with a front.
#[derive(Clone, Copy)]
pub(crate) struct Cell {
    /// Without a sort at the top.
    pub cost: u128,
    /// With or without one.
    pub any: u128,
}

/// The cell, or what is cheaper.
#[inline]
pub(crate) fn better(cell: Cell, cost: u128) -> Cell
    ensures { result ≡ steps.better cell cost }
{
    if cost < cell.cost {
        Cell {
            cost,
            any: cell.any,
        }
    } else {
        cell
    }
}

/// The cell after a merge whose left side serves the front given, if any; `base` is the cost of all else.
#[inline]
pub(crate) fn merged(cell: Cell, front: Option<usize>, left: &[Cell], base: u128) -> Cell
    requires within { ForSome front (λ g. g < length left.now) }
    requires fits { ForSome front (λ g. row_cells.any_at left.now g + base < 2 ^ 128) }
    ensures { result ≡ steps.merged cell front left.now base }
{
    match front {
        None => cell,
        Some(g) => better(cell, left[g].any + base),
    }
}

/// The cell after a hash join of that cost, which serves only a front that asks nothing.
pub(crate) fn hashed(cell: Cell, head: Option<Item>, cost: u128) -> Cell
    ensures { result ≡ steps.hashed cell head cost }
{
    match head {
        None => better(cell, cost),
        Some(_) => cell,
    }
}

/// What a front's cell costs without a sort at the top.
pub(crate) fn cost_of(row: &[Cell], front: usize) -> u128
    requires { front < length row.now }
    ensures { result ≡ row_cells.cost_at row.now front }
{
    row[front].cost
}

/// What a front's cell costs with or without one.
pub(crate) fn any_of(row: &[Cell], front: usize) -> u128
    requires { front < length row.now }
    ensures { result ≡ row_cells.any_at row.now front }
{
    row[front].any
}

/// No plan.
pub(crate) fn blank() -> Cell
    ensures { result ≡ row_cells.blank }
{
    Cell {
        cost: IMPOSSIBLE,
        any: IMPOSSIBLE,
    }
}

/// The cell once it is known what a sort of the set costs, and whether the front's columns can be sorted by.
pub(crate) fn finished(cell: Cell, can_sort: bool, sorted: u128) -> Cell
    ensures { result ≡ steps.finished cell can_sort sorted }
{
    let any = if can_sort && sorted < cell.cost {
        sorted
    } else {
        cell.cost
    };
    Cell {
        cost: cell.cost,
        any,
    }
}
