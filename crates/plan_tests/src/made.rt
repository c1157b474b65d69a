//! Small tasks and offers, made from numbers that look random.
ghost use Rattle.std.specs.Prelude.{◌<◌, ◌≤◌};
ghost use Rattle.adv_base.specs.declared.limits.TheConstants.{MOST_PRICE};

use crate::table::{Reads, Table};
use crate::tasks::up;
use adv_base::{Item, List, Rates};
use plan_model::{Task, TaskEdge, checked_task};
use std::alloc::{AllocError, Global};
use std::process::Abort;

/// A linear congruential generator.
#[derive(Drop)]
pub struct Draws {
    state: u64,
}

impl Draws {
    pub fn new(seed: u64) -> Draws {
        Draws { state: seed }
    }

    /// A number below another.
    pub fn below(&mut self, bound: u8) -> u8
        requires { 0 < bound }
        ensures { result < bound }
    {
        self.state = self
            .state
            .wrapping_mul(6364136223846793005)
            .wrapping_add(1442695040888963407);
        ((self.state >> 33) % bound as u64) as u8
    }

    /// Whether one of so many equal chances came.
    fn comes(&mut self, of: u8) -> bool
        requires { 0 < of }
    {
        self.below(of) == 0
    }
}

fn need(draws: &mut Draws, slot: u8, column: u16) -> Option<Item> {
    if draws.comes(5) {
        return None;
    }
    Some(up(slot, column))
}

/// An edge between two slots, whichever way round, perhaps with bound columns.
fn edge(draws: &mut Draws, one: u8, other: u8) -> TaskEdge {
    let (left, right) = if draws.comes(2) {
        (one, other)
    } else {
        (other, one)
    };
    let left_column = draws.below(2) as u16;
    let right_column = draws.below(2) as u16;
    TaskEdge {
        left,
        left_column,
        left_need: need(draws, left, left_column),
        right,
        right_column,
        right_need: need(draws, right, right_column),
    }
}

/// Edges that connect up to three slots, in half of the cases with one more.
fn edges(alloc: Global, draws: &mut Draws, slots: u8) -> Result<List<TaskEdge>, AllocError> {
    let mut items = Vec::new(alloc);
    if slots > 1 {
        items.push(edge(draws, 0, 1))?;
    }
    if slots > 2 {
        let other = draws.below(2);
        items.push(edge(draws, other, 2))?;
    }
    if slots > 1 && draws.comes(2) {
        let one = draws.below(slots);
        let other = if one == 0 { slots - 1 } else { one - 1 };
        items.push(edge(draws, one, other))?;
    }
    Ok(List { items })
}

fn row_count(draws: &mut Draws) -> u64 {
    let some = draws.below(50) as u64 + 1;
    match draws.below(3) {
        0 => some,
        1 => 10 * some,
        _ => 40 * some,
    }
}

/// Rows for each set of slots.
fn row_counts(alloc: Global, draws: &mut Draws, slots: u8) -> Result<List<u64>, AllocError> {
    let sets = match slots {
        1 => 2,
        2 => 4,
        _ => 8,
    };
    let mut items = Vec::new(alloc);
    for _ in 0..sets {
        items.push(row_count(draws))?;
    }
    Ok(List { items })
}

/// Whether an item is the same column as another, whichever way each goes.
fn is_column(item: &Item, slot: u8, column: u16) -> bool {
    match item {
        Item::Up { slot: s, column: c } => *s == slot && *c == column,
        Item::Down { slot: s, column: c } => *s == slot && *c == column,
        Item::Made(_) => false,
    }
}

/// Columns of the slots, none twice, upwards.
fn columns(alloc: Global, draws: &mut Draws, slots: u8) -> Result<Vec<Item>, AllocError>
    requires { 0 < slots }
{
    let mut items: Vec<Item> = Vec::new(alloc);
    for _ in 0..draws.below(3) {
        let slot = draws.below(slots);
        let column = draws.below(2) as u16;
        if !items.iter().any(|item| is_column(item, slot, column)) {
            items.push(up(slot, column))?;
        }
    }
    Ok(items)
}

/// In half of the cases a column that the first edge wants, then columns of the slots, either way, and made items; no
/// column twice.
fn items(
    alloc: Global,
    draws: &mut Draws,
    slots: u8,
    edges: &[TaskEdge],
) -> Result<Vec<Item>, AllocError>
    requires { 0 < slots }
{
    let mut items: Vec<Item> = Vec::new(alloc);
    if let Some(edge) = edges.first() {
        if let Some(item) = edge.left_need {
            if draws.comes(2) {
                items.push(item)?;
            }
        }
    }
    for _ in 0..draws.below(3) {
        let slot = draws.below(slots);
        let column = draws.below(2) as u16;
        let item = match draws.below(8) {
            0..=2 => Item::Down { slot, column },
            3 => Item::Made(draws.below(3) as u32),
            _ => up(slot, column),
        };
        if !items.iter().any(|item| is_column(item, slot, column)) {
            items.push(item)?;
        }
    }
    Ok(items)
}

/// Rates that are small, so that each operator is the cheapest at times.
fn rates(draws: &mut Draws) -> Rates {
    Rates {
        seq_page: 1000,
        rand_page: 4000,
        row_cpu: draws.below(10) as u64,
        sort_cpu: draws.below(4) as u64,
        merge_cpu: draws.below(8) as u64,
        hash_cpu: draws.below(16) as u64,
        group_cpu: draws.below(8) as u64,
    }
}

/// A task of one to three slots.
pub fn made_task(rt: &impl Abort, alloc: Global, draws: &mut Draws) -> Task {
    let slots = draws.below(3) + 1;
    let edges = edges(alloc, draws, slots).expect(rt, "memory");
    let rows = row_counts(alloc, draws, slots).expect(rt, "memory");
    let rates = rates(draws);
    let group_rows = row_count(draws);
    let group = columns(alloc, draws, slots).expect(rt, "memory");
    let order = if draws.comes(4) {
        Vec::from_slice(alloc, group.as_slice()).expect(rt, "memory")
    } else {
        items(alloc, draws, slots, edges.as_slice()).expect(rt, "memory")
    };
    let group = if draws.comes(3) {
        Some(List { items: group })
    } else {
        None
    };
    let order = List { items: order };
    checked_task(slots, edges, rows, group, group_rows, order, rates).expect(rt, "a task")
}

fn price(draws: &mut Draws) -> u32 {
    100 * (draws.below(200) as u32 + 1)
}

/// A charge for the use of an index, which `raise` scales.
fn charge(draws: &mut Draws, raise: u16) -> u64
    ensures { result ≤ 13041465 }
{
    if raise == 0 {
        return 0;
    }
    raise as u64 * draws.below(200) as u64
}

/// The price of an index with its charge.
fn charged(draws: &mut Draws, raise: u16) -> u64
    ensures { result ≤ MOST_PRICE }
{
    let charge = charge(draws, raise);
    price(draws) as u64 + 1_000_000_000 * charge
}

/// The columns of an index: one of both, or both.
fn keys(draws: &mut Draws) -> &'static [u16] {
    match draws.below(5) {
        0 => &[],
        1 => &[0],
        2 => &[1],
        3 => &[0, 1],
        _ => &[1, 0],
    }
}

/// Offers for the slots of a task: the whole table and two indexes, with charges that `raise` scales; 0 for none.
pub fn made_table(
    alloc: Global,
    draws: &mut Draws,
    slots: u8,
    raise: u16,
) -> Result<Table, AllocError> {
    let mut reads = Vec::new(alloc);
    for slot in 0..slots {
        let heap = price(draws);
        let first = (charged(draws, raise), keys(draws));
        let second = (charged(draws, raise), keys(draws));
        reads.push(Reads::new(alloc, slot, heap, first, second)?)?;
    }
    Ok(Table { slots: reads })
}

/// A column below another, in half of the cases this one.
fn column(draws: &mut Draws, common: u8, columns: u8) -> u16
    requires { 0 < columns }
{
    if draws.comes(2) {
        return common as u16;
    }
    draws.below(columns) as u16
}

/// Offers for the slots of a task: the whole table, an index of one of so many columns and an index of two of them. One
/// column is in many of a table's indexes, so that joins find it in both slots.
pub fn made_indexes(
    alloc: Global,
    draws: &mut Draws,
    slots: u8,
    columns: u8,
) -> Result<Table, AllocError>
    requires { 0 < columns }
{
    let common = draws.below(columns);
    let mut reads = Vec::new(alloc);
    for slot in 0..slots {
        let heap = price(draws);
        let one = [column(draws, common, columns)];
        let first = (charged(draws, 0), one.as_slice());
        let two = [
            column(draws, common, columns),
            column(draws, common, columns),
        ];
        let second = (charged(draws, 0), two.as_slice());
        reads.push(Reads::new(alloc, slot, heap, first, second)?)?;
    }
    Ok(Table { slots: reads })
}
