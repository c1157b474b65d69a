//! The lists by which a block groups and orders.
ghost use Rattle.std.specs.Prelude.{◌≡◌, ◌||◌, ◌∷◌, ◌++◌, [], not, if◌then◌else◌, map, IfOk, OnOk};
ghost use Rattle.binder.specs.declared.gathered.SlotColumn.{SlotColumn};
ghost use Rattle.binder.specs.Scopes.{is_same};
ghost use Rattle.std.specs.List.{list_any, list_all, filter_map};
ghost use Rattle.binder.specs.Marks.{is_marked, Marks, KeepsMarks, BoundMarks};
ghost use Rattle.binder.specs.Items as select_items;
ghost use Rattle.binder.specs.Lists as lists;
ghost use Rattle.binder.specs.Orders as order_by;
ghost use Rattle.binder.specs.Plain.{plain_pred, plain_preds};

use crate::gathered::{BoundItem, SlotColumn};
use adv_base::{Item, List, Pred};
use indexmap::IndexSet;
use sql_reader::ParsedOrder;
use std::alloc::{AllocError, Global};

/// The column of an item that isn't made.
fn column_of(item: Item) -> Option<SlotColumn>
    ensures { result ≡ order_by.column_of_item item }
{
    match item {
        Item::Up { slot, column } => Some(SlotColumn { slot, column }),
        Item::Down { slot, column } => Some(SlotColumn { slot, column }),
        Item::Made(_) => None,
    }
}

/// Marks a column; says whether it was new.
fn mark(marked: &mut IndexSet<SlotColumn>, c: SlotColumn) -> Result<bool, AllocError>
    ensures is_new { IfOk result (λ is_new. is_new ≡ not (is_marked marked.old.keys c)) }
    ensures marks { OnOk result ((q : SlotColumn) → is_marked marked.new.keys q ≡ (is_marked marked.old.keys q || is_same q c)) }
{
    let is_new = marked.insert(c)?;
    Ok(is_new)
}

/// Marks a column where a predicate gives it a literal.
fn mark_bound(marked: &mut IndexSet<SlotColumn>, pred: &Pred) -> Result<(), AllocError>
    ensures { OnOk result (BoundMarks (plain_pred pred.now) marked.old.keys marked.new.keys) }
{
    if !pred.test.is_equality() {
        return Ok(());
    }
    let c = SlotColumn {
        slot: pred.slot,
        column: pred.column,
    };
    mark(marked, c)?;
    Ok(())
}

/// The columns to which predicates give a literal.
fn bound_columns(alloc: Global, preds: &[Pred]) -> Result<IndexSet<SlotColumn>, AllocError>
    ensures { IfOk result (λ marked. Marks (plain_preds preds.now) [] marked.keys) }
{
    let mut marked = IndexSet::new(alloc);
    for pred in preds {
        mark_bound(&mut marked, pred)?;
    }
    Ok(marked)
}

/// Items that are kept, and the columns that are marked: those that are bound or stand among the items.
#[derive(Drop)]
struct Kept {
    marked: IndexSet<SlotColumn>,
    items: List<Item>,
}

/// An item behind the others, where it is to be kept.
fn put_kept(items: &mut List<Item>, item: Item, is_kept: bool) -> Result<(), AllocError>
    ensures { OnOk result (items.new ≡ (if is_kept then items.old ++ item ∷ [] else items.old)) }
{
    if is_kept {
        items.items.push(item)?;
    }
    Ok(())
}

/// Keeps an item unless its column is marked, and marks its column.
fn keep(kept: &mut Kept, item: Item) -> Result<(), AllocError>
    ensures { OnOk result (KeepsMarks item kept.old.marked.keys kept.old.items kept.new.marked.keys kept.new.items) }
{
    match column_of(item) {
        None => put_kept(&mut kept.items, item, true),
        Some(c) => {
            let is_new = mark(&mut kept.marked, c)?;
            put_kept(&mut kept.items, item, is_new)
        }
    }
}

/// Items without bound columns, and each other column at its first place alone.
fn kept_items(alloc: Global, preds: &[Pred], items: &[Item]) -> Result<List<Item>, AllocError>
    ensures { IfOk result (λ x. x ≡ lists.kept_items (plain_preds preds.now) items.now) }
{
    let mut kept = Kept {
        marked: bound_columns(alloc, preds)?,
        items: List::new(alloc),
    };
    for item in items {
        keep(&mut kept, *item)?;
    }
    let Kept { items, .. } = kept;
    Ok(items)
}

/// A column upwards.
fn upward(c: SlotColumn) -> Item
    ensures { result ≡ lists.upward c }
{
    Item::Up {
        slot: c.slot,
        column: c.column,
    }
}

/// Columns as items that go upwards.
fn upward_items(alloc: Global, columns: &[SlotColumn]) -> Result<Vec<Item>, AllocError>
    ensures { IfOk result (λ v. v.items ≡ map lists.upward columns.now) }
{
    columns.iter().map(|c| upward(*c)).collect(alloc)
}

/// The same of columns, which go upwards.
fn kept_columns(
    alloc: Global,
    preds: &[Pred],
    columns: &[SlotColumn],
) -> Result<List<Item>, AllocError>
    ensures { IfOk result (λ x. x ≡ lists.kept_columns (plain_preds preds.now) columns.now) }
{
    let items = upward_items(alloc, columns)?;
    Ok(kept_items(alloc, preds, items.as_slice())?)
}

/// Whether an item calls an aggregate.
fn items_aggregate(items: &[BoundItem]) -> bool
    ensures { result ≡ list_any select_items.has_aggregate items.now }
{
    items.iter().any(|item| item.has_aggregate())
}

/// Whether an ORDER BY item calls an aggregate.
fn orders_aggregate(orders: &[ParsedOrder]) -> bool
    ensures { result ≡ list_any (λ order. order.expr.aggregate) orders.now }
{
    orders.iter().any(|order| order.expr.aggregate)
}

/// Whether an aggregate stands in a select item or an ORDER BY item.
pub fn aggregates(items: &[BoundItem], orders: &[ParsedOrder]) -> bool
    ensures { result ≡ lists.aggregates items.now orders.now }
{
    let in_items = items_aggregate(items);
    let in_orders = orders_aggregate(orders);
    in_items || in_orders
}

/// The columns that items exactly are.
fn plain_columns(alloc: Global, items: &[BoundItem]) -> Result<Vec<SlotColumn>, AllocError>
    ensures { IfOk result (λ v. v.items ≡ filter_map select_items.item_column items.now) }
{
    items.iter().filter_map(|item| item.column()).collect(alloc)
}

/// Whether all items are exactly columns.
fn are_plain(items: &[BoundItem]) -> bool
    ensures { result ≡ list_all select_items.is_plain items.now }
{
    items.iter().all(|item| item.is_plain())
}

/// The list by which DISTINCT over plain columns groups.
fn distinct_group(
    alloc: Global,
    distinct: bool,
    preds: &[Pred],
    items: &[BoundItem],
) -> Result<Option<List<Item>>, AllocError>
    ensures { IfOk result (λ x. x ≡ lists.distinct_group distinct (plain_preds preds.now) items.now) }
{
    if !distinct {
        return Ok(None);
    }
    if !are_plain(items) {
        return Ok(None);
    }
    let columns = plain_columns(alloc, items)?;
    Ok(Some(kept_columns(alloc, preds, columns.as_slice())?))
}

/// The list by which a SELECT groups.
pub fn group_list(
    alloc: Global,
    distinct: bool,
    aggregate: bool,
    preds: &[Pred],
    group: &[SlotColumn],
    items: &[BoundItem],
) -> Result<Option<List<Item>>, AllocError>
    ensures { IfOk result (λ x. x ≡ lists.group_list distinct aggregate (plain_preds preds.now) group.now items.now) }
{
    if !group.is_empty() {
        return Ok(Some(kept_columns(alloc, preds, group)?));
    }
    if aggregate {
        return Ok(None);
    }
    distinct_group(alloc, distinct, preds, items)
}

/// The list by which a SELECT orders.
pub fn order_list(
    alloc: Global,
    aggregate: bool,
    preds: &[Pred],
    group: &[SlotColumn],
    orders: &[Item],
) -> Result<List<Item>, AllocError>
    ensures { IfOk result (λ x. x ≡ lists.order_list aggregate (plain_preds preds.now) group.now orders.now) }
{
    if aggregate && group.is_empty() {
        return Ok(List::new(alloc));
    }
    kept_items(alloc, preds, orders)
}
