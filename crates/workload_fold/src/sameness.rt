//! Whether statements are alike.
ghost use Rattle.std.specs.Prelude.{◌≡◌, nat_eq, All, List};
ghost use Rattle.std.specs.Cmp.Lexicographic.{pointwise};
ghost use Rattle.adv_base.specs.Items.{is_same_item};
ghost use Rattle.adv_base.specs.Named.{NamesBlock, NamesWork};
ghost use Rattle.workload_fold.specs.Alike as sameness;

use adv_base::{Block, Catalogue, Edge, Item, List, Pred, Slot, Statement, Test, Work};
use cardinality::part_of;

/// Whether two slots are alike.
fn alike_slot(first: &Slot, second: &Slot) -> bool
    ensures { result ≡ sameness.alike_slots first.now second.now }
{
    first.table == second.table && first.needed.as_slice() == second.needed.as_slice()
}

/// Whether slots are alike, each to the one at its place.
fn alike_slots(first: &[Slot], second: &[Slot]) -> bool
    ensures { result ≡ pointwise sameness.alike_slots first.now second.now }
{
    if first.len() != second.len() {
        return false;
    }
    'places: for at in 0..first.len() {
        if !alike_slot(&first[at], &second[at]) {
            return false;
        }
    }
    true
}

/// Whether two edges are alike.
fn alike_edge(first: &Edge, second: &Edge) -> bool
    ensures { result ≡ sameness.alike_edges first.now second.now }
{
    first.left == second.left
        && first.left_column == second.left_column
        && first.right == second.right
        && first.right_column == second.right_column
}

/// Whether edges are alike, each to the one at its place.
fn alike_edges(first: &[Edge], second: &[Edge]) -> bool
    ensures { result ≡ pointwise sameness.alike_edges first.now second.now }
{
    if first.len() != second.len() {
        return false;
    }
    'places: for at in 0..first.len() {
        if !alike_edge(&first[at], &second[at]) {
            return false;
        }
    }
    true
}

/// A number for each kind of test, and for each second column.
pub(crate) fn test_number(test: Test) -> u32
    ensures { result ≡ sameness.test_number test }
{
    match test {
        Test::Equal => 0,
        Test::NotEqual => 1,
        Test::Below(_) => 2,
        Test::Above(_) => 3,
        Test::Between(_, _) => 4,
        Test::OneOf(_) => 5,
        Test::Like => 6,
        Test::IsNull => 7,
        Test::NotNull => 8,
        Test::Same(column) => 9 + column as u32,
    }
}

/// Two blocks over one catalogue.
#[derive(Clone, Copy)]
struct Pair<'a> {
    cat: &'a Catalogue,
    first: &'a Block,
    second: &'a Block,
    ghost first_named: { NamesBlock cat.now first.now },
    ghost second_named: { NamesBlock cat.now second.now },
}

impl Pair<'_> {
    ghost use Rattle.std.specs.Prelude.{◌<◌, length, slice_get, Some, Contains};

    /// Whether a predicate of the first block is alike to one of the second.
    fn alike_pred(&self, pred: &Pred, other: &Pred) -> bool
        requires own { Contains self.now.first.now.preds pred.now }
        requires others { Contains self.now.second.now.preds other.now }
        ensures { result ≡ sameness.alike_preds self.now.cat.now self.now.first.now self.now.second.now pred.now other.now }
    {
        pred.slot == other.slot
            && pred.column == other.column
            && test_number(pred.test) == test_number(other.test)
            && part_of(self.cat, self.first, pred) == part_of(self.cat, self.second, other)
    }

    /// Whether the predicates are alike, each to the one at its place.
    fn alike_preds(&self) -> bool
        ensures { result ≡ pointwise (sameness.alike_preds self.now.cat.now self.now.first.now self.now.second.now) self.now.first.now.preds self.now.second.now.preds }
    {
        let first = self.first.preds.as_slice();
        let second = self.second.preds.as_slice();
        if first.len() != second.len() {
            return false;
        }
        'places: for at in 0..first.len() {
            if !self.alike_pred(&first[at], &second[at]) {
                return false;
            }
        }
        true
    }
}

/// Whether two items are the same.
fn same_item(first: Item, second: Item) -> bool
    ensures { result ≡ is_same_item first second }
{
    match (first, second) {
        (Item::Up { slot, column }, Item::Up { slot: s, column: c }) => slot == s && column == c,
        (Item::Down { slot, column }, Item::Down { slot: s, column: c }) => slot == s
            && column == c,
        (Item::Made(number), Item::Made(other)) => number == other,
        _ => false,
    }
}

/// Whether two lists of items are the same.
fn same_items(first: &[Item], second: &[Item]) -> bool
    ensures { result ≡ pointwise is_same_item first.now second.now }
{
    if first.len() != second.len() {
        return false;
    }
    'places: for at in 0..first.len() {
        if !same_item(first[at], second[at]) {
            return false;
        }
    }
    true
}

/// Whether two lists to group by are the same, or there is none.
fn alike_groups(first: &Option<List<Item>>, second: &Option<List<Item>>) -> bool
    ensures { result ≡ sameness.alike_groups first.now second.now }
{
    match first {
        None => second.is_none(),
        Some(items) => match second {
            None => false,
            Some(others) => same_items(items.as_slice(), others.as_slice()),
        },
    }
}

/// Whether two blocks are alike.
#[tactic(auto, unfolding(crate::specs::Alike::alike_blocks))]
fn alike_blocks(cat: &Catalogue, first: &Block, second: &Block) -> bool
    requires first_named { NamesBlock cat.now first.now }
    requires second_named { NamesBlock cat.now second.now }
    ensures { result ≡ sameness.alike_blocks cat.now first.now second.now }
{
    let pair = Pair { cat, first, second };
    alike_slots(first.slots.as_slice(), second.slots.as_slice())
        && pair.alike_preds()
        && alike_edges(first.edges.as_slice(), second.edges.as_slice())
        && alike_groups(&first.group, &second.group)
        && same_items(first.order.as_slice(), second.order.as_slice())
        && first.may_cover == second.may_cover
}

/// Whether statements that do this are alike.
fn alike_works(cat: &Catalogue, first: &Work, second: &Work) -> bool
    requires first_named { NamesWork cat.now first.now }
    requires second_named { NamesWork cat.now second.now }
    ensures { result ≡ sameness.is_alike cat.now first.now second.now }
{
    match (first, second) {
        (Work::Select(block), Work::Select(other)) => alike_blocks(cat, block, other),
        (Work::Update(block, set), Work::Update(other, columns)) => {
            alike_blocks(cat, block, other) && set.as_slice() == columns.as_slice()
        }
        (Work::Delete(block), Work::Delete(other)) => alike_blocks(cat, block, other),
        (
            Work::Insert { table, rows },
            Work::Insert {
                table: other,
                rows: more,
            },
        ) => *table == *other && *rows == *more,
        _ => false,
    }
}

/// Whether two statements are alike: they are of one kind, read the same columns of the same tables by the same joins and
/// predicates of equal parts, group and order alike, may be answered from an index alike, and set the same columns or add as
/// many rows. Names of sources, literals and weights may differ. The statements name what the catalogue has. It takes no
/// memory.
pub fn alike(cat: &Catalogue, first: &Statement, second: &Statement) -> bool
    requires first_named { NamesWork cat.now first.now.work }
    requires second_named { NamesWork cat.now second.now.work }
    ensures { result ≡ sameness.is_alike cat.now first.now.work second.now.work }
{
    alike_works(cat, &first.work, &second.work)
}
