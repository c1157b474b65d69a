//! The words of lines, pushed to a text.
ghost use Rattle.std.specs.Prelude.{◌≡◌, ◌++◌, ◌*◌, ◌<◌, ◌≤◌, [], decimal, replicate, slice_index_or};
ghost use Rattle.std.specs.Result.{OnOk};
ghost use Rattle.plan_model.specs.PlanTexts as texts;

use crate::edge::TaskEdge;
use crate::labels::Labels;
use adv_base::{Item, List, Name, NoMemory, has_slot, push_decimal};
use std::alloc::Global;

/// Pushes bytes.
pub(crate) fn push(text: &mut Vec<u8>, bytes: &[u8]) -> Result<(), NoMemory>
    ensures { OnOk result (text.new.items ≡ text.old.items ++ bytes.now) }
{
    text.extend_from_slice(bytes)?;
    Ok(())
}

/// Pushes a number in decimal.
pub(crate) fn push_number(alloc: Global, text: &mut Vec<u8>, number: u128) -> Result<(), NoMemory>
    ensures { OnOk result (text.new.items ≡ text.old.items ++ decimal number) }
{
    push_decimal(alloc, text, number)?;
    Ok(())
}

/// Pushes two spaces for each level.
pub(crate) fn push_indent(text: &mut Vec<u8>, depth: usize) -> Result<(), NoMemory>
    requires { depth ≤ 1000 }
    ensures { OnOk result (text.new.items ≡ text.old.items ++ replicate (2 * depth) 32) }
{
    text.resize(text.len() + 2 * depth, b' ')?;
    Ok(())
}

/// A name of a list, which is empty where there is none.
fn name_at(names: &[Name], at: usize) -> &[u8]
    ensures { result.now ≡ texts.name_at names.now at }
{
    match names.get(at) {
        Some(name) => name.as_slice(),
        None => &[],
    }
}

/// The names of a slot, of which there are none where there is no such slot.
fn names_of(lists: &List<List<Name>>, slot: u8) -> &[Name]
    ensures { result.now ≡ slice_index_or lists.now slot [] }
{
    match lists.as_slice().get(slot as usize) {
        Some(names) => names.as_slice(),
        None => &[],
    }
}

fn push_column(text: &mut Vec<u8>, labels: &Labels, slot: u8, column: u16) -> Result<(), NoMemory>
    ensures { OnOk result (text.new.items ≡ text.old.items ++ texts.column_words labels.now slot column) }
{
    push(text, name_at(labels.slots.as_slice(), slot as usize))?;
    push(text, b".")?;
    push(
        text,
        name_at(names_of(&labels.columns, slot), column as usize),
    )
}

fn push_item(
    alloc: Global,
    text: &mut Vec<u8>,
    labels: &Labels,
    item: &Item,
) -> Result<(), NoMemory>
    ensures { OnOk result (text.new.items ≡ text.old.items ++ texts.item_words labels.now item.now) }
{
    match item {
        Item::Up { slot, column } => push_column(text, labels, *slot, *column),
        Item::Down { slot, column } => {
            push_column(text, labels, *slot, *column)?;
            push(text, b" desc")
        }
        Item::Made(number) => {
            push(text, b"item ")?;
            push_number(alloc, text, *number as u128)
        }
    }
}

/// Pushes items with commas between them.
pub(crate) fn push_items(
    alloc: Global,
    text: &mut Vec<u8>,
    labels: &Labels,
    items: &[Item],
) -> Result<(), NoMemory>
    ensures { OnOk result (text.new.items ≡ text.old.items ++ texts.items_words labels.now items.now) }
{
    let Some((first, rest)) = items.split_first() else {
        return Ok(());
    };
    push_item(alloc, text, labels, first)?;
    for item in rest {
        push(text, b", ")?;
        push_item(alloc, text, labels, item)?;
    }
    Ok(())
}

/// Pushes how a slot is read, and which.
pub(crate) fn push_leaf(
    text: &mut Vec<u8>,
    labels: &Labels,
    slot: u8,
    offer: u32,
) -> Result<(), NoMemory>
    ensures { OnOk result (text.new.items ≡ text.old.items ++ texts.leaf_words labels.now slot offer) }
{
    push(
        text,
        name_at(names_of(&labels.offers, slot), offer as usize),
    )?;
    push(text, b" on ")?;
    push(text, name_at(labels.slots.as_slice(), slot as usize))
}

/// Pushes the columns of an edge, that of the side which covers the set first.
pub(crate) fn push_edge(
    text: &mut Vec<u8>,
    labels: &Labels,
    set: usize,
    edge: &TaskEdge,
) -> Result<(), NoMemory>
    ensures { OnOk result (text.new.items ≡ text.old.items ++ texts.edge_words labels.now set edge.now) }
{
    if has_slot(set, edge.left) {
        push_column(text, labels, edge.left, edge.left_column)?;
        push(text, b" = ")?;
        return push_column(text, labels, edge.right, edge.right_column);
    }
    push_column(text, labels, edge.right, edge.right_column)?;
    push(text, b" = ")?;
    push_column(text, labels, edge.left, edge.left_column)
}
