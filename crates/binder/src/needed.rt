//! The columns that a statement mentions.
ghost use Rattle.std.specs.Prelude.{◌≡◌, ◌<◌, ◌||◌, ◌∷◌, ◌++◌, [], ℕ, false, if◌then◌else◌, length, IfOk, slice_index_or};
ghost use Rattle.std.specs.List.{list_any};
ghost use Rattle.adv_base.specs.Lookups as lookups;
ghost use Rattle.binder.specs.Items as select_items;
ghost use Rattle.binder.specs.Needed as needs;

use crate::gathered::{BoundItem, SlotColumn};
use crate::scope::Visible;
use adv_base::{Catalogue, List, Name, Slot};
use std::alloc::{AllocError, Global};

/// Sets the flag of a mention's column, where it is of this slot.
fn mark(flags: &mut [bool], slot: u8, mention: SlotColumn)
    ensures { (c : ℕ) → c < length flags.old → slice_index_or flags.new c false ≡ (slice_index_or flags.old c false || needs.is_at slot c mention) }
{
    if mention.slot == slot && (mention.column as usize) < flags.len() {
        flags[mention.column as usize] = true;
    }
}

/// For each column of a slot whether it is mentioned; all are where the slot is taken whole.
fn flags(
    alloc: Global,
    count: u16,
    slot: u8,
    whole: bool,
    mentions: &[SlotColumn],
) -> Result<Vec<bool>, AllocError>
    ensures len { IfOk result (λ v. length v.items ≡ count) }
    ensures each { IfOk result (λ v. (c : ℕ) → c < count → slice_index_or v.items c false ≡ (whole || list_any (needs.is_at slot c) mentions.now)) }
{
    let mut flags = vec![in alloc; whole; count as usize]?;
    for mention in mentions {
        mark(&mut flags, slot, *mention);
    }
    Ok(flags)
}

/// A column behind the others, where its flag is set.
fn put_flagged(mut columns: List<u16>, column: u16, flag: bool) -> Result<List<u16>, AllocError>
    ensures { IfOk result (λ x. x ≡ (if flag then columns ++ column ∷ [] else columns)) }
{
    if flag {
        columns.items.push(column)?;
    }
    Ok(columns)
}

/// The columns of a slot that are mentioned, in the order of the catalogue.
fn needed_columns(
    alloc: Global,
    count: u16,
    slot: u8,
    whole: bool,
    mentions: &[SlotColumn],
) -> Result<List<u16>, AllocError>
    ensures { IfOk result (λ x. x ≡ needs.needed_columns count slot whole mentions.now) }
{
    let flags = flags(alloc, count, slot, whole, mentions)?;
    let mut columns = List::new(alloc);
    for column in 0..count {
        columns = put_flagged(columns, column, flags[column as usize])?;
    }
    Ok(columns)
}

/// How many columns a table has.
fn column_count(cat: &Catalogue, table: u16) -> u16
    ensures { result ≡ lookups.column_count cat.now table }
{
    let tables = cat.tables.as_slice();
    if table as usize >= tables.len() {
        return 0;
    }
    tables[table as usize].columns.len() as u16
}

/// Whether one of the items mentions all columns of a slot.
fn is_whole(items: &[BoundItem], slot: u8) -> bool
    ensures { result ≡ list_any (select_items.takes_whole slot) items.now }
{
    items.iter().any(|item| item.takes_whole(slot))
}

/// A source as a slot.
fn slot_of(
    alloc: Global,
    cat: &Catalogue,
    items: &[BoundItem],
    mentions: &[SlotColumn],
    slot: u8,
    source: &Visible,
) -> Result<Slot, AllocError>
    ensures { IfOk result (λ x. x ≡ needs.slot_of cat.now items.now mentions.now slot source.now) }
{
    let count = column_count(cat, source.table);
    let needed = needed_columns(alloc, count, slot, is_whole(items, slot), mentions)?;
    let name = Name {
        items: Vec::from_slice(alloc, source.name.as_slice())?,
    };
    Ok(Slot {
        table: source.table,
        name,
        needed,
    })
}

/// The sources as slots.
pub fn slots(
    alloc: Global,
    cat: &Catalogue,
    items: &[BoundItem],
    mentions: &[SlotColumn],
    sources: &[Visible],
) -> Result<List<Slot>, AllocError>
    requires { length sources.now < 256 }
    ensures { IfOk result (λ x. x ≡ needs.slots_from cat.now items.now mentions.now 0 sources.now) }
{
    let mut slots = Vec::new(alloc);
    for (slot, source) in sources.iter().enumerate() {
        let next = slot_of(alloc, cat, items, mentions, slot as u8, source)?;
        slots.push(next)?;
    }
    Ok(List { items: slots })
}
