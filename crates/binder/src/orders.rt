//! HAVING and ORDER BY.
ghost use Rattle.std.specs.Prelude.{◌≡◌, ◌<◌, ◌^◌, ◌+◌, length, IfOk, IfSome, All};
ghost use Rattle.binder.specs.Items.{IndexesAliases, PutsAlias};
ghost use Rattle.binder.specs.Limits.{NameLimits, OrderLimits};
ghost use Rattle.binder.specs.Orders as order_by;
ghost use Rattle.binder.specs.Faults.{Gives};
ghost use Rattle.binder.specs.View.{names_of, list_of};

use crate::fault::BindFault;
use crate::gathered::{BoundItem, SlotColumn, SortKey, SortKeys, Term};
use crate::index::NameIndex;
use crate::items::column_at;
use crate::meaning::meaning;
use crate::names::{name_bytes, word};
use crate::scope::{Scope, SelectList};
use adv_base::{Item, List};
use sql_reader::{Expr, NameUse, ParsedItem, ParsedOrder};
use std::alloc::{AllocError, Global};

/// Puts the alias of an item into an index, where it has one.
fn put_alias(
    alloc: Global,
    text: &[u8],
    mut index: NameIndex,
    item: &ParsedItem,
    number: usize,
) -> Result<NameIndex, AllocError>
    ensures { IfOk result (PutsAlias text.now item.now number index) }
{
    if let ParsedItem::Made {
        alias: Some(span),
        ..
    } = item
    {
        index.put(alloc, name_bytes(text, *span), number)?;
    }
    Ok(index)
}

/// An index of the aliases of a select list. The number that is put last stays, so it is the first item of its alias.
fn index_aliases(alloc: Global, text: &[u8], items: &[ParsedItem]) -> Result<NameIndex, AllocError>
    ensures { IfOk result (IndexesAliases text.now items.now) }
{
    let mut index = NameIndex::new(alloc);
    for number in (0..items.len()).rev() {
        index = put_alias(alloc, text, index, &items[number], number)?;
    }
    Ok(index)
}

impl<'a> SelectList<'a> {
    /// A select list with an index of its aliases.
    pub fn new(
        alloc: Global,
        scope: &'a Scope<'a>,
        written: &'a [ParsedItem],
        bound: &'a [BoundItem],
    ) -> Result<SelectList<'a>, AllocError>
        ensures { IfOk result (λ list. (list.scope.now ≡ scope.now) × (list.written.now ≡ written.now) × (list.bound.now ≡ bound.now)) }
    {
        let aliases = index_aliases(alloc, scope.text, written)?;
        Ok(SelectList {
            scope,
            written,
            bound,
            aliases,
        })
    }
}

/// The item for which a name stands, where it is an alias.
fn alias_meant(
    alloc: Global,
    list: &SelectList<'_>,
    name: NameUse,
) -> Result<Option<usize>, AllocError>
    ensures { IfOk result (λ n. n ≡ order_by.alias_meant list.now.scope.now.text.now (list_of list.now) name.qualifier name.name) }
{
    if name.qualifier.is_some() {
        return Ok(None);
    }
    let word = word(alloc, list.scope.text, name.name)?;
    Ok(list.aliases.find(word.as_slice()))
}

/// What a name in HAVING or ORDER BY stands for.
#[tactic(auto, unfolding(crate::specs::Orders::term_of))]
fn term(alloc: Global, list: &SelectList<'_>, name: NameUse) -> Result<Term, BindFault>
    requires { NameLimits name }
    ensures { Gives (λ x. x) result (order_by.term_of (names_of list.now.scope.now) (list_of list.now) name) }
{
    match alias_meant(alloc, list, name)? {
        Some(number) => Ok(Term::Alias(number)),
        None => Ok(Term::Column(meaning(alloc, list.scope, name)?)),
    }
}

/// The columns so far, and the one that a name mentions.
fn with_mention(mut mentions: List<SlotColumn>, term: Term) -> Result<List<SlotColumn>, AllocError>
    ensures { IfOk result (λ x. x ≡ order_by.with_mention mentions term) }
{
    if let Term::Column(c) = term {
        mentions.items.push(c)?;
    }
    Ok(mentions)
}

/// The columns so far, and those that names mention.
pub fn mentions(
    alloc: Global,
    list: &SelectList<'_>,
    mut so_far: List<SlotColumn>,
    uses: &[NameUse],
) -> Result<List<SlotColumn>, BindFault>
    requires { All NameLimits uses.now }
    ensures { Gives (λ x. x) result (order_by.mentions_from (names_of list.now.scope.now) (list_of list.now) so_far uses.now) }
{
    for name in uses {
        let meant = term(alloc, list, *name)?;
        so_far = with_mention(so_far, meant)?;
    }
    Ok(so_far)
}

/// The column that a name alone stands for.
fn term_column(list: &SelectList<'_>, term: Term) -> Option<SlotColumn>
    ensures { result ≡ order_by.term_column (list_of list.now) term }
{
    match term {
        Term::Column(c) => Some(c),
        Term::Alias(number) => column_at(list.bound, number),
    }
}

/// The column for which the number of an item stands, counted from 1.
fn ordinal_column(list: &SelectList<'_>, number: u32) -> Option<SlotColumn>
    ensures { result ≡ order_by.ordinal_column (list_of list.now) number }
{
    if number == 0 {
        return None;
    }
    column_at(list.bound, number as usize - 1)
}

/// What an ORDER BY item that is exactly a name stands for.
fn sorted_by_name(
    alloc: Global,
    list: &SelectList<'_>,
    mentions: List<SlotColumn>,
    name: Option<NameUse>,
) -> Result<SortKey, BindFault>
    requires { IfSome name NameLimits }
    ensures { Gives (λ x. x) result (order_by.sorted_by_name (names_of list.now.scope.now) (list_of list.now) mentions name) }
{
    let Some(name) = name else {
        return Ok(SortKey {
            column: None,
            mentions,
        });
    };
    let term = term(alloc, list, name)?;
    let column = term_column(list, term);
    let mentions = with_mention(mentions, term)?;
    Ok(SortKey { column, mentions })
}

/// What an ORDER BY item stands for.
#[tactic(auto, unfolding(crate::specs::Orders::sorted_by))]
fn sorted_by(
    alloc: Global,
    list: &SelectList<'_>,
    so_far: List<SlotColumn>,
    expr: &Expr,
) -> Result<SortKey, BindFault>
    requires { All NameLimits expr.now.uses }
    ensures { Gives (λ x. x) result (order_by.sorted_by (names_of list.now.scope.now) (list_of list.now) so_far expr.now) }
{
    if let Some(number) = expr.ordinal {
        let column = ordinal_column(list, number);
        return Ok(SortKey {
            column,
            mentions: so_far,
        });
    }
    if expr.plain {
        let name = expr.uses.as_slice().first().copied();
        return sorted_by_name(alloc, list, so_far, name);
    }
    let mentions = mentions(alloc, list, so_far, expr.uses.as_slice())?;
    Ok(SortKey {
        column: None,
        mentions,
    })
}

/// An item of an order: a column, or the number of the ORDER BY item, counted from 1, which is made.
fn order_item(number: u32, down: bool, column: Option<SlotColumn>) -> Item
    ensures { result ≡ order_by.order_item number down column }
{
    match column {
        None => Item::Made(number),
        Some(c) if down => Item::Down {
            slot: c.slot,
            column: c.column,
        },
        Some(c) => Item::Up {
            slot: c.slot,
            column: c.column,
        },
    }
}

/// The items of ORDER BY with one more.
#[tactic(auto, unfolding(crate::specs::Orders::with_order))]
fn with_order(
    alloc: Global,
    list: &SelectList<'_>,
    so_far: SortKeys,
    order: &ParsedOrder,
) -> Result<SortKeys, BindFault>
    requires few { length so_far.items + 1 < 2 ^ 32 }
    requires limits { OrderLimits order.now }
    ensures exact { Gives (λ x. x) result (order_by.with_order (names_of list.now.scope.now) (list_of list.now) so_far order.now) }
    ensures count { IfOk result (λ x. length x.items ≡ length so_far.items + 1) }
{
    let SortKeys {
        mut items,
        mentions,
    } = so_far;
    let key = sorted_by(alloc, list, mentions, &order.expr)?;
    let number = items.len() as u32 + 1;
    items
        .items
        .push(order_item(number, order.down, key.column))?;
    let SortKey { mentions, .. } = key;
    Ok(SortKeys { items, mentions })
}

/// The items of ORDER BY, behind the columns that HAVING mentions.
pub fn orders(
    alloc: Global,
    list: &SelectList<'_>,
    mentions: List<SlotColumn>,
    orders: &[ParsedOrder],
) -> Result<SortKeys, BindFault>
    requires few { length orders.now < 2 ^ 32 }
    requires limits { All OrderLimits orders.now }
    ensures { Gives (λ x. x) result (order_by.orders_from (names_of list.now.scope.now) (list_of list.now) mentions orders.now) }
{
    let mut so_far = SortKeys {
        items: List::new(alloc),
        mentions,
    };
    for order in orders {
        so_far = with_order(alloc, list, so_far, order)?;
    }
    Ok(so_far)
}
