//! The block of a SELECT.
ghost use Rattle.std.specs.Prelude.{◌≡◌, ◌≢◌, ◌<◌, ◌≤◌, true, false, length, All, IfOk, IfErr, OnOk, Ok};
ghost use Rattle.binder.specs.declared.fault.BindFault.TheVariants as faults;
ghost use Rattle.binder.specs.Blocks as blocks;
ghost use Rattle.binder.specs.Joins as joins;
ghost use Rattle.binder.specs.Limits.{SelectLimits};
ghost use Rattle.binder.specs.Lists as lists;
ghost use Rattle.binder.specs.Needed.{slots_from};
ghost use Rattle.binder.specs.Plain.{plain_block};
ghost use Rattle.binder.specs.Faults.{Gives};
ghost use Rattle.binder.specs.View.{names_of, list_of, plain_clauses};

use crate::conditions::tests;
use crate::directory::Directory;
use crate::fault::BindFault;
use crate::gathered::{BlockParts, BoundItem, Clauses, SlotColumn, SortKeys};
use crate::items::{columns, items, mentions_of};
use crate::joins::is_joined;
use crate::lists::{aggregates, group_list, order_list};
use crate::needed::slots;
use crate::orders::{mentions, orders};
use crate::scope::{Scope, SelectList};
use crate::sources::sources;
use adv_base::{Block, Item, List, Slot};
use sql_reader::ParsedSelect;
use std::alloc::{AllocError, Global};

/// The items of ORDER BY, with the columns that HAVING and they mention, which see a select list.
fn sorted(
    alloc: Global,
    list: &SelectList<'_>,
    select: &ParsedSelect,
) -> Result<SortKeys, BindFault>
    requires { SelectLimits select.now }
    ensures { Gives (λ x. x) result (blocks.sorted_of (names_of list.now.scope.now) (list_of list.now) select.now) }
{
    let having = mentions(alloc, list, List::new(alloc), select.having.as_slice())?;
    orders(alloc, list, having, select.order.as_slice())
}

/// The items of ORDER BY, with the columns that HAVING and they mention, behind a bound select list.
#[tactic(auto, unfolding(crate::specs::Blocks::sort_keys_of))]
fn sort_keys(
    alloc: Global,
    scope: &Scope<'_>,
    select: &ParsedSelect,
    items: &[BoundItem],
) -> Result<SortKeys, BindFault>
    requires { SelectLimits select.now }
    ensures { Gives (λ x. x) result (blocks.sort_keys_of (names_of scope.now) select.now items.now) }
{
    let list = SelectList::new(alloc, scope, select.items.as_slice(), items)?;
    sorted(alloc, &list, select)
}

/// The clauses of a SELECT, their names looked up in written order.
#[tactic(auto, unfolding(crate::specs::Blocks::clauses_of))]
fn clauses(alloc: Global, scope: &Scope<'_>, select: &ParsedSelect) -> Result<Clauses, BindFault>
    requires { SelectLimits select.now }
    ensures { Gives plain_clauses result (blocks.clauses_of (names_of scope.now) select.now) }
{
    let items = items(alloc, scope, select.items.as_slice())?;
    let tests = tests(alloc, scope, select.conditions.as_slice())?;
    let group = columns(alloc, scope, select.group.as_slice())?;
    let order = sort_keys(alloc, scope, select, items.as_slice())?;
    Ok(Clauses {
        items,
        tests,
        group,
        order,
    })
}

/// Answers that the slots of a SELECT whose statement begins at a place are unjoined, where its join edges don't connect
/// them.
fn check_joined(
    alloc: Global,
    scope: &Scope<'_>,
    place: u64,
    clauses: &Clauses,
) -> Result<(), BindFault>
    requires some { 1 ≤ length scope.now.sources }
    requires lefts { All (λ edge. edge.left < length scope.now.sources) clauses.now.tests.edges }
    requires rights { All (λ edge. edge.right < length scope.now.sources) clauses.now.tests.edges }
    ensures joined { OnOk result (joins.is_joined (length scope.now.sources) (plain_clauses clauses.now).tests.edges ≡ true) }
    ensures unjoined { IfErr result (λ e. e ≢ faults.Memory →
        (e ≡ faults.Unjoined place) × (joins.is_joined (length scope.now.sources) (plain_clauses clauses.now).tests.edges ≡ false)) }
{
    let count = scope.sources.len() as u8;
    if !is_joined(alloc, count, clauses.tests.edges.as_slice())? {
        return Err(BindFault::Unjoined(place));
    }
    Ok(())
}

/// The columns that the clauses mention by their names.
fn clause_mentions(alloc: Global, clauses: &Clauses) -> Result<Vec<SlotColumn>, AllocError>
    ensures { IfOk result (λ v. v.items ≡ blocks.clause_mentions (plain_clauses clauses.now)) }
{
    let mut mentions = mentions_of(alloc, clauses.items.as_slice())?;
    mentions.extend_from_slice(clauses.tests.mentions.as_slice())?;
    mentions.extend_from_slice(clauses.group.as_slice())?;
    mentions.extend_from_slice(clauses.order.mentions.as_slice())?;
    Ok(mentions)
}

/// The slots of a SELECT, with the columns that its clauses mention.
fn block_slots(
    alloc: Global,
    scope: &Scope<'_>,
    clauses: &Clauses,
) -> Result<List<Slot>, AllocError>
    ensures { let names = names_of scope.now in let seen = plain_clauses clauses.now in
        IfOk result (λ x. x ≡ slots_from names.cat seen.items (blocks.clause_mentions seen) 0 names.sources) }
{
    let mentions = clause_mentions(alloc, clauses)?;
    slots(
        alloc,
        scope.directory.cat,
        clauses.items.as_slice(),
        &mentions,
        scope.sources.as_slice(),
    )
}

/// The lists by which a SELECT groups and orders.
fn block_lists(
    alloc: Global,
    select: &ParsedSelect,
    clauses: &Clauses,
) -> Result<(Option<List<Item>>, List<Item>), AllocError>
    ensures group { let seen = plain_clauses clauses.now in
        IfOk result (λ x. x.0 ≡ lists.group_list select.now.distinct (lists.aggregates seen.items select.now.order) seen.tests.preds seen.group seen.items) }
    ensures order { let seen = plain_clauses clauses.now in
        IfOk result (λ x. x.1 ≡ lists.order_list (lists.aggregates seen.items select.now.order) seen.tests.preds seen.group seen.order.items) }
{
    let items = clauses.items.as_slice();
    let preds = clauses.tests.preds.as_slice();
    let columns = clauses.group.as_slice();
    let aggregate = aggregates(items, select.order.as_slice());
    let group = group_list(alloc, select.distinct, aggregate, preds, columns, items)?;
    let order = order_list(
        alloc,
        aggregate,
        preds,
        columns,
        clauses.order.items.as_slice(),
    )?;
    Ok((group, order))
}

/// The parts of a block that are made of the clauses of a SELECT.
fn block_parts(
    alloc: Global,
    scope: &Scope<'_>,
    select: &ParsedSelect,
    clauses: &Clauses,
) -> Result<BlockParts, AllocError>
    ensures slots { let names = names_of scope.now in let seen = plain_clauses clauses.now in
        IfOk result (λ x. x.slots ≡ slots_from names.cat seen.items (blocks.clause_mentions seen) 0 names.sources) }
    ensures group { let seen = plain_clauses clauses.now in
        IfOk result (λ x. x.group ≡ lists.group_list select.now.distinct (lists.aggregates seen.items select.now.order) seen.tests.preds seen.group seen.items) }
    ensures order { let seen = plain_clauses clauses.now in
        IfOk result (λ x. x.order ≡ lists.order_list (lists.aggregates seen.items select.now.order) seen.tests.preds seen.group seen.order.items) }
{
    let slots = block_slots(alloc, scope, clauses)?;
    let (group, order) = block_lists(alloc, select, clauses)?;
    Ok(BlockParts {
        slots,
        group,
        order,
    })
}

/// The block that the clauses of a SELECT make, without a look at its joins.
fn block_of(
    alloc: Global,
    scope: &Scope<'_>,
    select: &ParsedSelect,
    clauses: Clauses,
) -> Result<Block, AllocError>
    requires some { 1 ≤ length scope.now.sources }
    requires limits { SelectLimits select.now }
    requires bound { blocks.clauses_of (names_of scope.now) select.now ≡ Ok (plain_clauses clauses) }
    requires joined { joins.is_joined (length scope.now.sources) (plain_clauses clauses).tests.edges ≡ true }
    ensures exact { IfOk result (λ block. plain_block block ≡ blocks.select_block (names_of scope.now) select.now (plain_clauses clauses)) }
    ensures covers { IfOk result (λ block. block.may_cover ≡ true) }
{
    let parts = block_parts(alloc, scope, select, &clauses)?;
    let Clauses { tests, .. } = clauses;
    Ok(Block {
        slots: parts.slots,
        preds: tests.preds,
        edges: tests.edges,
        group: parts.group,
        order: parts.order,
        may_cover: true,
    })
}

/// The block of a SELECT whose statement begins at a place.
#[tactic(auto, unfolding(crate::specs::Blocks::select_of, crate::specs::Blocks::joined_clauses))]
pub fn select_block(
    alloc: Global,
    directory: &Directory<'_>,
    text: &[u8],
    place: u64,
    select: &ParsedSelect,
) -> Result<Block, BindFault>
    requires { SelectLimits select.now }
    ensures exact { Gives plain_block result (blocks.select_of directory.now.cat.now text.now place select.now) }
    ensures covers { IfOk result (λ block. block.may_cover ≡ true) }
{
    let sources = sources(alloc, directory, text, select.sources.as_slice())?;
    let scope = Scope {
        directory,
        text,
        sources,
    };
    let clauses = clauses(alloc, &scope, select)?;
    check_joined(alloc, &scope, place, &clauses)?;
    Ok(block_of(alloc, &scope, select, clauses)?)
}
