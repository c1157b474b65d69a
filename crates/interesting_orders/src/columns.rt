//! Marks on the columns of one slot that have an order of their own.
ghost use Rattle.std.specs.Prelude.{◌≡◌, ◌<◌, ◌≤◌, ◌++◌, ◌∷◌, [], List, if◌then◌else◌, true, fold, count_by};
ghost use Rattle.std.specs.Option.{ForSome};
ghost use Rattle.adv_base.specs.Items.{Order};
ghost use Rattle.plan_model.specs.Limits.Tasks.{AreNumbered};
ghost use Rattle.adv_base.specs.declared.limits.TheConstants.{MOST_COLUMNS};
ghost use Rattle.plan_model.specs.Orders as interesting;
ghost use Rattle.interesting_orders.specs.inner.Marks.{add_order, column_orders, is_marked, AreMarks, IsEdge};

use adv_base::limits::MOST_COLUMNS;
use adv_base::{Item, is_own_list};
use plan_model::TaskEdge;

/// The column of an edge at a slot, where it has one there that isn't bound.
pub fn column_at(edge: &TaskEdge, slot: u8) -> Option<u16>
    requires { IsEdge edge.now }
    ensures exact { interesting.edge_orders slot edge.now ≡ column_orders slot result }
    ensures small { ForSome result (λ column. column < MOST_COLUMNS) }
{
    if edge.left == slot && edge.left_need.is_some() {
        return Some(edge.left_column);
    }
    if edge.right == slot && edge.right_need.is_some() {
        return Some(edge.right_column);
    }
    None
}

/// Marks the column of an edge at a slot.
pub fn mark_column(edge: &TaskEdge, slot: u8, seen: &mut [bool; MOST_COLUMNS])
    requires { IsEdge edge.now }
    ensures { (orders : List Order) → AreMarks slot seen.old orders → AreMarks slot seen.new (fold add_order orders (interesting.edge_orders slot edge.now)) }
{
    if let Some(column) = column_at(edge, slot) {
        seen[column as usize] = true;
    }
}

/// How many columns are marked.
pub fn mark_count(seen: &[bool; MOST_COLUMNS]) -> u64
    ensures exact { result ≡ count_by (λ mark. mark) seen.now }
    ensures most { result ≤ MOST_COLUMNS }
{
    seen.iter().filter(|mark| **mark).count() as u64
}

/// Whether a list is a single column that is marked.
fn is_seen(list: &[Item], seen: &[bool; MOST_COLUMNS]) -> bool
    requires { AreNumbered list.now }
    ensures { result ≡ is_marked seen.now list.now }
{
    match list.split_first() {
        Some((Item::Up { column, .. }, [])) => seen[*column as usize],
        _ => false,
    }
}

/// Whether a list is of the slot alone and not one of the orders of the columns that are marked.
pub fn is_new_list(list: &[Item], slot: u8, seen: &[bool; MOST_COLUMNS]) -> bool
    requires { AreNumbered list.now }
    ensures { (orders : List Order) → AreMarks slot seen.now orders → fold add_order orders (interesting.own_list slot list.now) ≡ (if result then orders ++ list.now ∷ [] else orders) }
{
    is_own_list(list, slot) && !is_seen(list, seen)
}
