//! Digests of statements, by which most that aren't alike are told apart at once.
ghost use Rattle.std.specs.Prelude.{◌≡◌, ◌<◌, ◌^◌, ◌*◌, ◌%◌, fold, length, Contains, All};
ghost use Rattle.adv_base.specs.Named.{NamesBlock, NamesWork};
ghost use Rattle.workload_fold.specs.inner.Digests as digests;

use crate::sameness::test_number;
use adv_base::{Block, Catalogue, Edge, Item, List, Pred, Slot, Work};
use cardinality::part_of;

/// Knuth's multiplier of 64 bits.
const MULTIPLIER: u64 = 6_364_136_223_846_793_005;

/// A digest with one number more.
#[tactic(auto, unfolding(crate::specs::inner::Digests::mixed))]
fn mixed(digest: u64, number: u64) -> u64
    ensures { result ≡ digests.mixed digest number }
{
    digest.wrapping_mul(MULTIPLIER).wrapping_add(number)
}

/// A digest with more columns.
fn with_columns(digest: u64, columns: &[u16]) -> u64
    ensures { result ≡ fold digests.mixed digest columns.now }
{
    let mut so_far = digest;
    'columns: for column in columns {
        so_far = mixed(so_far, *column as u64);
    }
    so_far
}

/// A digest with one slot more.
fn with_slot(digest: u64, slot: &Slot) -> u64
    ensures { result ≡ digests.with_slot digest slot.now }
{
    with_columns(mixed(digest, slot.table as u64), slot.needed.as_slice())
}

/// A digest with more slots.
fn with_slots(digest: u64, slots: &[Slot]) -> u64
    ensures { result ≡ fold digests.with_slot digest slots.now }
{
    let mut so_far = digest;
    'slots: for slot in slots {
        so_far = with_slot(so_far, slot);
    }
    so_far
}

/// A digest with one predicate of the block more.
fn with_pred(digest: u64, cat: &Catalogue, block: &Block, pred: &Pred) -> u64
    requires named { NamesBlock cat.now block.now }
    requires own { Contains block.now.preds pred.now }
    ensures { result ≡ digests.with_pred cat.now block.now digest pred.now }
{
    let column = mixed(mixed(digest, pred.slot as u64), pred.column as u64);
    mixed(
        mixed(column, test_number(pred.test) as u64),
        part_of(cat, block, pred),
    )
}

/// A digest with the predicates of a block.
fn with_preds(digest: u64, cat: &Catalogue, block: &Block) -> u64
    requires named { NamesBlock cat.now block.now }
    ensures { result ≡ fold (digests.with_pred cat.now block.now) digest block.now.preds }
{
    let mut so_far = digest;
    'preds: for pred in block.preds.items.iter() {
        so_far = with_pred(so_far, cat, block, pred);
    }
    so_far
}

/// A digest with one edge more.
fn with_edge(digest: u64, edge: &Edge) -> u64
    ensures { result ≡ digests.with_edge digest edge.now }
{
    let left = mixed(mixed(digest, edge.left as u64), edge.left_column as u64);
    mixed(mixed(left, edge.right as u64), edge.right_column as u64)
}

/// A digest with more edges.
fn with_edges(digest: u64, edges: &[Edge]) -> u64
    ensures { result ≡ fold digests.with_edge digest edges.now }
{
    let mut so_far = digest;
    'edges: for edge in edges {
        so_far = with_edge(so_far, edge);
    }
    so_far
}

/// A digest with one item more.
fn with_item(digest: u64, item: Item) -> u64
    ensures { result ≡ digests.with_item digest item }
{
    match item {
        Item::Up { slot, column } => mixed(mixed(mixed(digest, 0), slot as u64), column as u64),
        Item::Down { slot, column } => mixed(mixed(mixed(digest, 1), slot as u64), column as u64),
        Item::Made(number) => mixed(mixed(digest, 2), number as u64),
    }
}

/// A digest with a list of items.
fn with_items(digest: u64, items: &[Item]) -> u64
    ensures { result ≡ digests.with_items digest items.now }
{
    let mut so_far = mixed(digest, 3);
    'items: for item in items {
        so_far = with_item(so_far, *item);
    }
    so_far
}

/// A digest with a list to group by.
fn with_group(digest: u64, group: &Option<List<Item>>) -> u64
    ensures { result ≡ digests.with_group digest group.now }
{
    match group {
        None => mixed(digest, 4),
        Some(items) => with_items(digest, items.as_slice()),
    }
}

/// A digest with a block.
#[tactic(auto, unfolding(crate::specs::inner::Digests::with_block))]
fn with_block(digest: u64, cat: &Catalogue, block: &Block) -> u64
    requires named { NamesBlock cat.now block.now }
    ensures { result ≡ digests.with_block cat.now block.now digest }
{
    let slots = with_slots(digest, block.slots.as_slice());
    let preds = with_preds(slots, cat, block);
    let edges = with_edges(preds, block.edges.as_slice());
    with_items(with_group(edges, &block.group), block.order.as_slice())
}

/// The digest of what a statement does. Alike statements have one.
pub fn digest(cat: &Catalogue, work: &Work) -> u64
    requires { NamesWork cat.now work.now }
    ensures { result ≡ digests.digest_of cat.now work.now }
{
    match work {
        Work::Select(block) => with_block(1, cat, block),
        Work::Update(block, set) => with_columns(with_block(2, cat, block), set.as_slice()),
        Work::Delete(block) => with_block(3, cat, block),
        Work::Insert { table, rows } => mixed(mixed(4, *table as u64), *rows),
    }
}
