//! Prices of the ways to read a slot, in thousandths of a page read.
ghost use Rattle.std.specs.Prelude.{◌≡◌, ◌<◌, ◌≤◌, ◌*◌, ◌==◌, All, length, if◌then◌else◌};
ghost use Rattle.std.specs.List.{list_any, list_all};
ghost use Rattle.adv_base.specs.Access as access;
ghost use Rattle.adv_base.specs.Named.{NamesBlock};
ghost use Rattle.adv_base.specs.Predicates as predicates;
ghost use Rattle.adv_base.specs.Rows as row;
ghost use Rattle.adv_base.specs.Sums as sum;
ghost use Rattle.adv_base.specs.declared.limits.TheConstants.{MOST_INDEX_PRICE, MOST_RATE, MOST_ROWS, MOST_TABLE_PRICE, WHOLE};

use crate::matching::matched_part;
use crate::predicates::is_bound;
use adv_base::{Block, Catalogue, IndexShape, Slot, Table, times_part};
use cardinality::{table_pages, table_rows};
use hypo_indexes::index_pages;

/// Whether each key is bound.
fn are_bound(block: &Block, slot: u8, keys: &[u16]) -> bool
    ensures { result ≡ list_all (predicates.is_bound block.now.preds slot) keys.now }
{
    keys.iter().all(|key| is_bound(block, slot, *key))
}

/// Whether an index finds at most one row: each of its keys is bound, and no two rows agree on all.
fn finds_one_row(block: &Block, slot: u8, shape: &IndexShape) -> bool
    ensures { result ≡ access.finds_one_row block.now slot shape.now }
{
    shape.unique && are_bound(block, slot, shape.keys.as_slice())
}

/// The rows that an index finds, from the part of its entries that it matches.
fn matched_rows(block: &Block, slot: u8, table: &Table, shape: &IndexShape, part: u64) -> u64
    requires some { 1 ≤ part }
    requires most { part ≤ WHOLE }
    ensures exact { result ≡ (if access.finds_one_row block.now slot shape.now then 1 else sum.times_part (row.table_rows table.now) part) }
    ensures least { 1 ≤ result }
    ensures few { result ≤ MOST_ROWS }
{
    if finds_one_row(block, slot, shape) {
        1
    } else {
        times_part(table_rows(table), part)
    }
}

/// Whether a column is among the keys.
fn holds_column(keys: &[u16], column: u16) -> bool
    ensures { result ≡ list_any (λ key. key == column) keys.now }
{
    keys.iter().any(|key| *key == column)
}

/// Whether each column is among the keys.
fn holds_columns(keys: &[u16], columns: &[u16]) -> bool
    ensures { result ≡ list_all (λ column. list_any (λ key. key == column) keys.now) columns.now }
{
    columns.iter().all(|column| holds_column(keys, *column))
}

/// Whether an index covers a slot: it may stand for the table's rows, and its keys hold each column that is needed.
fn covers_slot(block: &Block, source: &Slot, shape: &IndexShape) -> bool
    ensures { result ≡ access.covers_slot block.now source.now shape.now }
{
    block.may_cover && holds_columns(shape.keys.as_slice(), source.needed.as_slice())
}

/// What fetching the table's rows costs behind an index: nothing where the index covers the slot, a run of pages where
/// it is clustered, and else a page at random for each row.
fn fetch_cost(
    cat: &Catalogue,
    table: &Table,
    covers: bool,
    clustered: bool,
    part: u64,
    matched: u64,
) -> u64
    requires some { 1 ≤ part }
    requires most { part ≤ WHOLE }
    requires few { matched ≤ MOST_ROWS }
    ensures exact { result ≡ (if covers then 0 else (if clustered then sum.times_part (row.table_pages table.now) part * cat.now.rates.seq_page else matched * cat.now.rates.rand_page)) }
    ensures bound { result ≤ MOST_ROWS * MOST_RATE }
{
    if covers {
        0
    } else if clustered {
        times_part(table_pages(table), part) * cat.rates.seq_page
    } else {
        matched * cat.rates.rand_page
    }
}

/// The price of reading a slot through an index: the pages of the part that it matches, the fetch, and the rows that it
/// finds. At most 4 * 10^18.
#[tactic(auto, unfolding(adv_base::specs::Access::index_price, adv_base::specs::Access::fetch_cost, adv_base::specs::Access::matched_rows))]
pub fn index_price(
    cat: &Catalogue,
    block: &Block,
    slot: u8,
    source: &Slot,
    table: &Table,
    shape: &IndexShape,
) -> u64
    requires named { NamesBlock cat.now block.now }
    requires keys { All (λ key. key < length table.now.columns) shape.now.keys }
    ensures exact { result ≡ access.index_price cat.now block.now slot source.now table.now shape.now }
    ensures bound { result ≤ MOST_INDEX_PRICE }
{
    let part = matched_part(cat, block, slot, shape.keys.as_slice());
    let matched = matched_rows(block, slot, table, shape, part);
    let read = times_part(index_pages(table, shape.keys.as_slice()), part) * cat.rates.seq_page;
    let fetch = fetch_cost(
        cat,
        table,
        covers_slot(block, source, shape),
        shape.clustered,
        part,
        matched,
    );
    read + fetch + matched * cat.rates.row_cpu
}

/// The price of reading a whole table: its pages in sequence, and each row. At most 2 * 10^18.
#[tactic(auto, unfolding(adv_base::specs::Access::table_price))]
pub fn table_price(cat: &Catalogue, table: &Table) -> u64
    ensures exact { result ≡ access.table_price cat.now table.now }
    ensures bound { result ≤ MOST_TABLE_PRICE }
{
    table_pages(table) * cat.rates.seq_page + table_rows(table) * cat.rates.row_cpu
}
