//! Tasks that are written down.
//!
//! An item is two letters: its slot, a capital where it goes down, and its column, from `0` to `9` and then `:`, `;` and `<`; or `#` and
//! the number of a made item. An edge is two such, a capital where the column is bound.
use adv_base::{Item, List, Rates};
use plan_model::{Task, TaskEdge, checked_task};
use std::alloc::Global;
use std::process::Abort;

pub fn up(slot: u8, column: u16) -> Item {
    Item::Up { slot, column }
}

/// An edge whose columns aren't bound.
pub fn edge(left: u8, left_column: u16, right: u8, right_column: u16) -> TaskEdge {
    TaskEdge {
        left,
        left_column,
        left_need: Some(up(left, left_column)),
        right,
        right_column,
        right_need: Some(up(right, right_column)),
    }
}

/// A list of copies.
pub fn list<T: Copy>(rt: &impl Abort, alloc: Global, items: &[T]) -> List<T> {
    List {
        items: Vec::from_slice(alloc, items).expect(rt, "memory"),
    }
}

/// The item of two bytes.
fn item(kind: u8, number: u8) -> Item {
    match kind {
        b'a'..=b'h' => up(kind - b'a', number as u16),
        b'A'..=b'H' => Item::Down {
            slot: kind - b'A',
            column: number as u16,
        },
        _ => Item::Made(number as u32),
    }
}

/// The items of a text.
fn items_of(rt: &impl Abort, alloc: Global, text: &str) -> Vec<Item> {
    let bytes = text.as_bytes();
    let mut items = Vec::new(alloc);
    for at in 0..bytes.len() / 2 {
        let next = item(bytes[2 * at], bytes[2 * at + 1] & 15);
        items.push(next).expect(rt, "memory");
    }
    items
}

/// An end of an edge: its slot, its column, and the order that it wants.
fn end(item: Item) -> (u8, u16, Option<Item>) {
    match item {
        Item::Up { slot, column } => (slot, column, Some(item)),
        Item::Down { slot, column } => (slot, column, None),
        Item::Made(_) => (0, 0, None),
    }
}

/// The edges of a text.
fn edges_of(rt: &impl Abort, alloc: Global, text: &str) -> Vec<TaskEdge> {
    let ends = items_of(rt, alloc, text);
    let mut edges = Vec::new(alloc);
    for at in 0..ends.len() / 2 {
        let (left, left_column, left_need) = end(ends[2 * at]);
        let (right, right_column, right_need) = end(ends[2 * at + 1]);
        let edge = TaskEdge {
            left,
            left_column,
            left_need,
            right,
            right_column,
            right_need,
        };
        edges.push(edge).expect(rt, "memory");
    }
    edges
}

/// Numbers with a blank between them.
fn numbers(rt: &impl Abort, alloc: Global, text: &str) -> Vec<u64> {
    let mut numbers = Vec::new(alloc);
    for word in text.split(' ') {
        let number = word.parse::<u64>().expect(rt, "a number");
        numbers.push(number).expect(rt, "memory");
    }
    numbers
}

/// A task: its edges, the rows of each set of slots, what it groups by, a dash for nothing, with the number of the groups behind it,
/// and what it orders by.
pub fn task_of(
    rt: &impl Abort,
    alloc: Global,
    edges: &str,
    rows: &str,
    group: &str,
    order: &str,
) -> Task {
    let edges = edges_of(rt, alloc, edges);
    let rows = numbers(rt, alloc, rows);
    let order = items_of(rt, alloc, order);
    let (keys, groups) = group.split_once(' ').unwrap_or((group, "1"));
    let keys = items_of(rt, alloc, keys);
    let groups = groups.parse::<u64>().expect(rt, "a number");
    let group = if group == "-" {
        None
    } else {
        Some((keys.as_slice(), groups))
    };
    let slots = match rows.len() {
        2 => 1,
        4 => 2,
        8 => 3,
        16 => 4,
        _ => 5,
    };
    task(
        rt,
        alloc,
        slots,
        edges.as_slice(),
        rows.as_slice(),
        group,
        order.as_slice(),
    )
}

/// The task that begins a line, the four parts of which have strokes between them, and what stands behind it.
pub fn task_ahead<'a>(rt: &impl Abort, alloc: Global, line: &'a str) -> (Task, &'a str) {
    let (edges, rest) = line.split_once('|').expect(rt, "edges");
    let (rows, rest) = rest.split_once('|').expect(rt, "rows");
    let (group, rest) = rest.split_once('|').expect(rt, "a list to group by");
    let (order, rest) = rest.split_once('|').expect(rt, "a list to order by");
    (task_of(rt, alloc, edges, rows, group, order), rest)
}

/// A star of five slots: its hub is tied to three others by three columns each and to the fourth by four.
pub fn star(rt: &impl Abort, alloc: Global) -> Task {
    let edges = "a0b0a1b1a2b2a3c3a4c4a5c5a6d6a7d7a8d8a9e9a:e:a;e;a<e<";
    let rows = [1; 32];
    let edges = edges_of(rt, alloc, edges);
    task(rt, alloc, 5, edges.as_slice(), &rows, None, &[])
}

/// A task at the default rates; what it groups by has the number of the groups beside it.
pub fn task(
    rt: &impl Abort,
    alloc: Global,
    slots: u8,
    edges: &[TaskEdge],
    rows: &[u64],
    group: Option<(&[Item], u64)>,
    order: &[Item],
) -> Task {
    let rates = Rates::default();
    let edges = list(rt, alloc, edges);
    let rows = list(rt, alloc, rows);
    let order = list(rt, alloc, order);
    let (group, group_rows) = match group {
        None => (None, 1),
        Some((items, rows)) => (Some(list(rt, alloc, items)), rows),
    };
    checked_task(slots, edges, rows, group, group_rows, order, rates).expect(rt, "a task")
}
