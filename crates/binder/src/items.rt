//! The items of a select list.
ghost use Rattle.std.specs.Prelude.{◌≡◌, IfOk, All};
ghost use Rattle.std.specs.List.{flat_map};
ghost use Rattle.binder.specs.Items as select_items;
ghost use Rattle.binder.specs.Limits.{NameLimits, ItemLimits};
ghost use Rattle.binder.specs.Faults.{Gives};
ghost use Rattle.binder.specs.View.{names_of};

use crate::fault::BindFault;
use crate::gathered::{BoundItem, SlotColumn};
use crate::meaning::{meaning, source};
use crate::scope::Scope;
use adv_base::List;
use sql_reader::{NameUse, ParsedItem};
use std::alloc::{AllocError, Global};

/// The columns that names mean, in written order.
pub fn columns(
    alloc: Global,
    scope: &Scope<'_>,
    uses: &[NameUse],
) -> Result<List<SlotColumn>, BindFault>
    requires { All NameLimits uses.now }
    ensures { Gives (λ x. x) result (select_items.columns_of (names_of scope.now) uses.now) }
{
    let mut items = Vec::new(alloc);
    for name in uses {
        let column = meaning(alloc, scope, *name)?;
        items.push(column)?;
    }
    Ok(List { items })
}

/// What an item stands for.
#[tactic(auto, unfolding(crate::specs::Items::item_of))]
fn item(alloc: Global, scope: &Scope<'_>, written: &ParsedItem) -> Result<BoundItem, BindFault>
    requires { ItemLimits written.now }
    ensures { Gives (λ x. x) result (select_items.item_of (names_of scope.now) written.now) }
{
    match written {
        ParsedItem::Star => Ok(BoundItem::Star),
        ParsedItem::SlotStar(span) => Ok(BoundItem::SlotStar(source(scope, *span)?)),
        ParsedItem::Made { expr, .. } => {
            let columns = columns(alloc, scope, expr.uses.as_slice())?;
            Ok(BoundItem::Made {
                columns,
                plain: expr.plain,
                aggregate: expr.aggregate,
            })
        }
    }
}

/// What the items of a select list stand for.
pub fn items(
    alloc: Global,
    scope: &Scope<'_>,
    written: &[ParsedItem],
) -> Result<List<BoundItem>, BindFault>
    requires { All ItemLimits written.now }
    ensures { Gives (λ x. x) result (select_items.items_of (names_of scope.now) written.now) }
{
    let mut items = Vec::new(alloc);
    for one in written {
        let bound = item(alloc, scope, one)?;
        items.push(bound)?;
    }
    Ok(List { items })
}

impl BoundItem {
    /// The column that the item is, where it is exactly a column.
    pub fn column(&self) -> Option<SlotColumn>
        ensures { result ≡ select_items.item_column self.now }
    {
        match self {
            BoundItem::Made {
                columns,
                plain: true,
                ..
            } => columns.as_slice().first().copied(),
            _ => None,
        }
    }

    /// Whether the item is exactly a column.
    pub fn is_plain(&self) -> bool
        ensures { result ≡ select_items.is_plain self.now }
    {
        match self {
            BoundItem::Made { plain, .. } => *plain,
            _ => false,
        }
    }

    /// Whether the item calls an aggregate.
    pub fn has_aggregate(&self) -> bool
        ensures { result ≡ select_items.has_aggregate self.now }
    {
        match self {
            BoundItem::Made { aggregate, .. } => *aggregate,
            _ => false,
        }
    }

    /// Whether the item mentions all columns of a slot.
    pub fn takes_whole(&self, slot: u8) -> bool
        ensures { result ≡ select_items.takes_whole slot self.now }
    {
        match self {
            BoundItem::Star => true,
            BoundItem::SlotStar(s) => *s == slot,
            BoundItem::Made { .. } => false,
        }
    }

    /// The columns that the item mentions by their names.
    fn mentions(&self) -> &[SlotColumn]
        ensures { result.now ≡ select_items.item_mentions self.now }
    {
        match self {
            BoundItem::Made { columns, .. } => columns.as_slice(),
            _ => &[],
        }
    }
}

/// The column that the item of a number is, counted from 0.
pub fn column_at(items: &[BoundItem], number: usize) -> Option<SlotColumn>
    ensures { result ≡ select_items.column_at items.now number }
{
    if number >= items.len() {
        return None;
    }
    items[number].column()
}

/// The columns that items mention by their names.
pub fn mentions_of(alloc: Global, items: &[BoundItem]) -> Result<Vec<SlotColumn>, AllocError>
    ensures { IfOk result (λ v. v.items ≡ flat_map select_items.item_mentions items.now) }
{
    let mut mentions = Vec::new(alloc);
    for item in items {
        mentions.extend_from_slice(item.mentions())?;
    }
    Ok(mentions)
}
