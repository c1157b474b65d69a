//! Fronts of orders that the operators above a plan can want.
ghost use Rattle.std.specs.Prelude.{◌≡◌, ◌<◌};
ghost use Rattle.std.specs.List.{list_all};
ghost use Rattle.plan_model.specs.Plans as plans;
ghost use Rattle.planner.specs.Fronts as order_fronts;
ghost use Rattle.planner.specs.inner.Growing.{turned_link};

use adv_base::Item;
use plan_model::{begins_with, is_column_of};

/// How an order is to begin.
#[derive(Clone, Copy, PartialEq, Eq)]
pub enum Front {
    /// In any way.
    Any,
    /// With the list to group by; where the task doesn't group, with the list to order by.
    Listed,
    /// With one item, by which an edge wants its side.
    Need(Item),
}

/// Two slots that an edge joins, each as a set of its own, and the numbers of the fronts that ask for its needs. Edges alike
/// in all of these, either way round, have one link, with the number of the first of them.
#[derive(Clone, Copy)]
pub struct Link {
    pub edge: u32,
    pub left: usize,
    pub right: usize,
    pub left_front: usize,
    pub right_front: usize,
}

impl Link {
    /// The link with its sides exchanged.
    pub(crate) fn turned(&self) -> Link
        ensures { result ≡ turned_link self.now }
    {
        Link {
            edge: self.edge,
            left: self.right,
            right: self.left,
            left_front: self.right_front,
            right_front: self.left_front,
        }
    }
}

/// Of a need's front `x` and a front `f`, given by their first items, the one that asks for more; none where no order
/// begins as both ask.
pub fn longer(need: Option<Item>, head: Option<Item>, x: usize, f: usize) -> Option<usize>
    ensures { result ≡ order_fronts.longer_front need head x f }
{
    match (need, head) {
        (None, _) => Some(f),
        (Some(_), None) => Some(x),
        (Some(y), Some(z)) => { if y == z { Some(f) } else { None } }
    }
}

/// Whether two sets have a slot in common.
#[inline]
fn do_meet(one: usize, other: usize) -> bool
    ensures { result ≡ order_fronts.meet one other }
{
    one & other != 0
}

/// Whether a link has one end in each of two sets.
#[inline]
pub(crate) fn crosses(a: usize, b: usize, link: &Link) -> bool
    ensures { result ≡ order_fronts.crosses_link a b link.now }
{
    do_meet(a, link.left) && do_meet(b, link.right)
        || do_meet(a, link.right) && do_meet(b, link.left)
}

/// The front that a set's side of a merge on the link has to serve.
pub(crate) fn side(link: &Link, set: usize) -> usize
    ensures { result ≡ order_fronts.side_front link.now set }
{
    if do_meet(set, link.left) {
        link.left_front
    } else {
        link.right_front
    }
}

/// Whether an order begins with another.
#[inline(always)]
pub fn has_front(order: &[Item], list: &[Item]) -> bool
    ensures { result ≡ order_fronts.begins_test order.now list.now }
{
    order.starts_with(list)
}

/// Whether an order begins as a front asks; `list` is what `Listed` stands for.
pub fn serves(order: &[Item], front: Front, list: &[Item]) -> bool
    ensures { result ≡ order_fronts.begins_test order.now (order_fronts.front_order list.now front) }
{
    match front {
        Front::Any => true,
        Front::Listed => has_front(order, list),
        Front::Need(item) => !order.is_empty() && order[0] == item,
    }
}

/// Whether each item of an order is a column of a slot in the set.
fn are_columns(set: usize, order: &[Item]) -> bool
    ensures { result ≡ list_all (plans.is_column_of set) order.now }
{
    for item in order {
        if !is_column_of(set, item) {
            return false;
        }
    }
    true
}

/// Whether the set can be sorted by what a front asks for.
pub fn can_sort(set: usize, front: Front, list: &[Item]) -> bool
    ensures { result ≡ list_all (plans.is_column_of set) (order_fronts.front_order list.now front) }
{
    match front {
        Front::Any => true,
        Front::Listed => are_columns(set, list),
        Front::Need(item) => is_column_of(set, &item),
    }
}
