//! What is gathered of a statement and of all statements, with names turned into numbers.

use adv_base::{Edge, Item, List, Pred, Slot, Statement};

/// A column of a slot, both by number.
#[derive(Clone, Copy, PartialEq, Eq, Hash)]
pub struct SlotColumn {
    pub slot: u8,
    pub column: u16,
}

/// What a name in HAVING or ORDER BY stands for: a column, or the select item of this number, counted from 0.
#[derive(Clone, Copy)]
pub enum Term {
    Alias(usize),
    Column(SlotColumn),
}

/// What an item of a select list stands for: all columns of all slots, all columns of one, or an expression over
/// columns, which are in written order. `plain` says that it is exactly a column, `aggregate` that it calls an aggregate.
#[derive(Drop)]
pub enum BoundItem {
    Star,
    SlotStar(u8),
    Made {
        columns: List<SlotColumn>,
        plain: bool,
        aggregate: bool,
    },
}

/// Predicates and join edges in written order, and the columns that they mention.
#[derive(Drop)]
pub struct Tests {
    pub preds: List<Pred>,
    pub edges: List<Edge>,
    pub mentions: List<SlotColumn>,
}

/// The column for which an ORDER BY item stands, where it does, and the columns that were mentioned by then.
#[derive(Drop)]
pub struct SortKey {
    pub column: Option<SlotColumn>,
    pub mentions: List<SlotColumn>,
}

/// The items of ORDER BY, and the columns that HAVING and they mention.
#[derive(Drop)]
pub struct SortKeys {
    pub items: List<Item>,
    pub mentions: List<SlotColumn>,
}

/// The select items, the conditions, the columns of GROUP BY and the items of ORDER BY, which come with the columns that
/// HAVING and they mention.
#[derive(Drop)]
pub struct Clauses {
    pub items: List<BoundItem>,
    pub tests: Tests,
    pub group: List<SlotColumn>,
    pub order: SortKeys,
}

/// The slots of a block, and the lists by which it groups and orders.
#[derive(Drop)]
pub struct BlockParts {
    pub slots: List<Slot>,
    pub group: Option<List<Item>>,
    pub order: List<Item>,
}

/// The statements so far, and how many slots they have in all.
#[derive(Drop)]
pub struct Bound {
    pub slots: u64,
    pub statements: List<Statement>,
}
