//! What writes cost at the indexes of their table, in thousandths of a page read.
ghost use Rattle.std.specs.Prelude.{◌≡◌, ◌==◌, ◌≤◌, ◌*◌, All, if◌then◌else◌};
ghost use Rattle.std.specs.List.{list_any};
ghost use Rattle.adv_base.specs.Named.{NamesShape, NamesWork};
ghost use Rattle.adv_base.specs.Upkeep as write;
ghost use Rattle.hypo_indexes.specs.inner.Writes as writes;
ghost use Rattle.adv_base.specs.declared.limits.TheConstants.{MOST_INDEXES, MOST_RATE, MOST_ROWS, MOST_UPKEEP};

use crate::size::index_levels;
use adv_base::limits::MOST_CANDIDATES;
use adv_base::{Block, Catalogue, Config, IndexShape, Statement, Table, Work};
use cardinality::slot_rows;

/// Whether the block's one slot is on the index's table.
fn is_on_table(block: &Block, shape: &IndexShape) -> bool
    ensures { result ≡ write.is_on_table block.now shape.now }
{
    match block.slots.as_slice().get(0) {
        Some(slot) => slot.table == shape.table,
        None => false,
    }
}

/// Whether a column is among those that are set.
fn is_set(columns: &[u16], key: u16) -> bool
    ensures { result ≡ list_any (λ column. column == key) columns.now }
{
    columns.iter().any(|column| *column == key)
}

/// Whether some key is a column that is set.
fn holds_some(keys: &[u16], columns: &[u16]) -> bool
    ensures { result ≡ write.holds_some keys.now columns.now }
{
    keys.iter().any(|key| is_set(columns, *key))
}

/// Whether a statement writes an index: INSERT and DELETE each of the table, UPDATE those with a key that it sets.
fn touches(work: &Work, shape: &IndexShape) -> bool
    ensures { result ≡ write.touches work.now shape.now }
{
    match work {
        Work::Select(_) => false,
        Work::Update(block, columns) => {
            is_on_table(block, shape) && holds_some(shape.keys.as_slice(), columns.as_slice())
        }
        Work::Delete(block) => is_on_table(block, shape),
        Work::Insert { table, .. } => *table == shape.table,
    }
}

/// The rows that a statement changes.
fn changed_rows(cat: &Catalogue, statement: &Statement) -> u64
    requires { NamesWork cat.now statement.now.work }
    ensures exact { result ≡ write.changed_rows cat.now statement.now.work }
    ensures most { result ≤ MOST_ROWS }
{
    match &statement.work {
        Work::Select(_) => 0,
        Work::Update(block, _) => slot_rows(cat, block, 0),
        Work::Delete(block) => slot_rows(cat, block, 0),
        Work::Insert { rows, .. } => *rows,
    }
}

/// How often an entry is written for a row; an UPDATE takes one out and puts one in.
fn writes_per_row(work: &Work) -> u64
    ensures exact { result ≡ write.writes_per_row work.now }
    ensures most { result ≤ 2 }
{
    match work {
        Work::Select(_) => 0,
        Work::Update(_, _) => 2,
        Work::Delete(_) => 1,
        Work::Insert { .. } => 1,
    }
}

/// One write goes down the levels at random and handles a row.
fn write_cost(cat: &Catalogue, shape: &IndexShape) -> u64
    requires { NamesShape cat.now shape.now }
    ensures exact { result ≡ write.write_cost cat.now shape.now }
    ensures most { result ≤ 3 * MOST_RATE }
{
    let table = &cat.tables.items[shape.table as usize];
    cat.rates.rand_page * index_levels(table, shape.keys.as_slice()) + cat.rates.row_cpu
}

/// What one statement costs in upkeep of one index, in thousandths of a page read and without the statement's weight: a
/// write of each row that it changes, two for UPDATE, each going down the index at random. An index that the statement
/// doesn't touch costs 0. It takes no memory.
#[tactic(auto, unfolding(adv_base::specs::Upkeep::upkeep))]
pub fn upkeep(cat: &Catalogue, statement: &Statement, shape: &IndexShape) -> u128
    requires named { NamesWork cat.now statement.now.work }
    requires shape_named { NamesShape cat.now shape.now }
    ensures exact { result ≡ write.upkeep cat.now statement.now.work shape.now }
    ensures most { result ≤ MOST_UPKEEP }
{
    if !touches(&statement.work, shape) {
        return 0;
    }
    let each = changed_rows(cat, statement) as u128 * write_cost(cat, shape) as u128;
    writes_per_row(&statement.work) as u128 * each
}

/// The upkeep of the indexes that exist on a table.
fn table_upkeep(cat: &Catalogue, statement: &Statement, table: &Table) -> u128
    requires named { NamesWork cat.now statement.now.work }
    requires shapes_named { All (λ index. NamesShape cat.now index.shape) table.now.indexes }
    ensures { result ≡ writes.table_upkeep cat.now statement.now.work table.now }
{
    let mut sum = 0;
    for index in table.indexes.items.iter() {
        sum += upkeep(cat, statement, &index.shape);
    }
    sum
}

/// What one statement costs in upkeep of all indexes that exist, without its weight. It takes no memory.
#[tactic(auto, unfolding(adv_base::specs::Upkeep::kept_upkeep))]
pub fn kept_upkeep(cat: &Catalogue, statement: &Statement) -> u128
    requires { NamesWork cat.now statement.now.work }
    ensures exact { result ≡ write.kept_upkeep cat.now statement.now.work }
    ensures most { result ≤ MOST_INDEXES * MOST_UPKEEP }
{
    let mut sum = 0;
    for table in cat.tables.items.iter() {
        sum += table_upkeep(cat, statement, table);
    }
    sum
}

/// The upkeep of an index that is chosen, and else 0.
fn upkeep_if(cat: &Catalogue, statement: &Statement, shape: &IndexShape, chosen: bool) -> u128
    requires named { NamesWork cat.now statement.now.work }
    requires shape_named { NamesShape cat.now shape.now }
    ensures exact { result ≡ (if chosen then write.upkeep cat.now statement.now.work shape.now else 0) }
    ensures most { result ≤ MOST_UPKEEP }
{
    if chosen {
        upkeep(cat, statement, shape)
    } else {
        0
    }
}

/// What one statement costs in upkeep of a configuration's candidates, without its weight. It takes no memory.
#[tactic(auto, unfolding(adv_base::specs::Upkeep::config_upkeep))]
pub fn config_upkeep(
    cat: &Catalogue,
    statement: &Statement,
    shapes: &[IndexShape],
    config: &Config,
) -> u128
    requires named { NamesWork cat.now statement.now.work }
    requires shapes_named { All (NamesShape cat.now) shapes.now }
    ensures exact { result ≡ write.config_upkeep cat.now shapes.now config.now statement.now.work }
    ensures most { result ≤ MOST_CANDIDATES * MOST_UPKEEP }
{
    let mut sum = 0;
    for (i, shape) in shapes.iter().enumerate() {
        if i >= MOST_CANDIDATES {
            return sum;
        }
        sum += upkeep_if(cat, statement, shape, config.on[i]);
    }
    sum
}
