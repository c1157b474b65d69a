//! The pages and levels that an index takes.
ghost use Rattle.std.specs.Prelude.{◌≡◌, ◌+◌, ◌*◌, ◌<◌, ◌≤◌, All, length};
ghost use Rattle.adv_base.specs.Named.{NamesShape};
ghost use Rattle.adv_base.specs.Sizes as size;
ghost use Rattle.adv_base.specs.declared.limits.TheConstants.{MOST_INDEX_PAGES, MOST_KEYS, MOST_ROWS, MOST_WIDTH};

use adv_base::{Catalogue, IndexShape, Table, table_column};
use cardinality::table_rows;

/// The bytes of a page.
const PAGE_BYTES: u64 = 8192;
/// What an entry takes beside its keys.
const ENTRY_EXTRA_BYTES: u64 = 12;

/// The bytes of an entry: the widths of its keys, and 12 more.
fn entry_bytes(table: &Table, keys: &[u16]) -> u64
    requires few { length keys.now ≤ MOST_KEYS }
    requires named { All (λ key. key < length table.now.columns) keys.now }
    ensures exact { result ≡ size.entry_bytes table.now keys.now }
    ensures least { 12 ≤ result }
    ensures most { result ≤ MOST_KEYS * MOST_WIDTH + 12 }
{
    let mut bytes = 0;
    for key in keys {
        bytes += table_column(table, *key).width as u64;
    }
    bytes + ENTRY_EXTRA_BYTES
}

/// How many entries a page holds, which are some.
fn entries_per_page(table: &Table, keys: &[u16]) -> u64
    requires few { length keys.now ≤ MOST_KEYS }
    requires named { All (λ key. key < length table.now.columns) keys.now }
    ensures exact { result ≡ size.entries_per_page table.now keys.now }
    ensures least { 1 ≤ result }
{
    PAGE_BYTES / entry_bytes(table, keys)
}

/// The pages of the leaves: an entry a row, and as many to a page as fit whole.
#[tactic(auto, unfolding(adv_base::specs::Sizes::leaf_pages))]
fn leaf_pages(table: &Table, keys: &[u16]) -> u64
    requires few { length keys.now ≤ MOST_KEYS }
    requires named { All (λ key. key < length table.now.columns) keys.now }
    ensures exact { result ≡ size.leaf_pages table.now keys.now }
    ensures least { 1 ≤ result }
    ensures most { result ≤ MOST_ROWS }
{
    table_rows(table).div_ceil(entries_per_page(table, keys))
}

/// The pages of an index with these keys over a table: one level of leaves with an entry a row, as many to a page as
/// fit whole, and one level of as wide pages above them, each rounded up. System R's NINDX.
#[tactic(auto, unfolding(adv_base::specs::Sizes::index_pages))]
pub fn index_pages(table: &Table, keys: &[u16]) -> u64
    requires few { length keys.now ≤ MOST_KEYS }
    requires named { All (λ key. key < length table.now.columns) keys.now }
    ensures exact { result ≡ size.index_pages table.now keys.now }
    ensures least { 2 ≤ result }
    ensures most { result ≤ MOST_INDEX_PAGES }
{
    let leaves = leaf_pages(table, keys);
    leaves + leaves.div_ceil(entries_per_page(table, keys))
}

/// How many levels a search goes down: one where there is one leaf, else two.
#[tactic(auto, unfolding(adv_base::specs::Sizes::index_levels))]
pub(crate) fn index_levels(table: &Table, keys: &[u16]) -> u64
    requires few { length keys.now ≤ MOST_KEYS }
    requires named { All (λ key. key < length table.now.columns) keys.now }
    ensures exact { result ≡ size.index_levels table.now keys.now }
    ensures most { result ≤ 2 }
{
    if leaf_pages(table, keys) == 1 { 1 } else { 2 }
}

/// The pages of an index of this shape, at most 2 * 10^12.
#[tactic(auto, unfolding(adv_base::specs::Sizes::shape_pages))]
pub fn pages(cat: &Catalogue, shape: &IndexShape) -> u64
    requires { NamesShape cat.now shape.now }
    ensures exact { result ≡ size.shape_pages cat.now shape.now }
    ensures least { 2 ≤ result }
    ensures most { result ≤ MOST_INDEX_PAGES }
{
    let table = &cat.tables.items[shape.table as usize];
    index_pages(table, shape.keys.as_slice())
}
