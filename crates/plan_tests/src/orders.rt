//! The interesting orders of the slots of tasks that are written down.
use crate::tasks::{star, task_of};
use adv_base::Item;
use interesting_orders::{combinations, slot_orders};
use plan_model::Task;
use std::alloc::Global;
use std::process::Abort;

/// Tasks of one or two slots: the edges, the list to group by, a dash for none, and the one to order by; the orders of each
/// slot, a stroke before each; their combinations; and what the case is about.
const CASES: &str = r#"a0b0b1a0a1b2|-||//a0/a1 //b0/b1/b2|12|repeated columns
A0b0|-||/ //b0|2|a bound column
a0b0|-|b2b1|//a0 //b0/b2b1|6|a list of one slot
a0b0|-|b0|//a0 //b0|4|a list that an edge wants too
a0b0|-|b2a1|//a0 //b0|4|a list of two slots
a0b0|-|b1B2|//a0 //b0|4|a list that goes down
a0b0|-|#1|//a0 //b0|4|a list of a made item
a0b0|a2a0|b1|//a0/a2a0 //b0|6|a list to group by
a0b0||b1|//a0 //b0|4|an empty list to group by
|-||/|1|a table alone"#;

fn push_item(rt: &impl Abort, text: &mut Vec<u8>, item: &Item) {
    let (slot, column) = match item {
        Item::Up { slot, column } => (b'a'.wrapping_add(*slot), b'0' + (*column % 10) as u8),
        _ => (b'?', b'?'),
    };
    text.push(slot).expect(rt, "memory");
    text.push(column).expect(rt, "memory");
}

/// The orders of a slot as a text.
fn told(rt: &impl Abort, alloc: Global, task: &Task, slot: u8) -> Vec<u8> {
    let mut text = Vec::new(alloc);
    assert!(rt; slot < task.slots);
    let orders = slot_orders(alloc, task, slot).expect(rt, "memory");
    for order in orders.as_slice() {
        text.push(b'/').expect(rt, "memory");
        for item in order.as_slice() {
            push_item(rt, &mut text, item);
        }
    }
    text
}

/// The slots of a case have the orders that are said.
fn has_orders(rt: &impl Abort, alloc: Global, case: &str) {
    let (edges, rest) = case.split_once('|').expect(rt, "edges");
    let (group, rest) = rest.split_once('|').expect(rt, "a list to group by");
    let (order, rest) = rest.split_once('|').expect(rt, "a list to order by");
    let (orders, rest) = rest.split_once('|').expect(rt, "orders");
    let (count, _) = rest.split_once('|').expect(rt, "a count");
    let rows = if edges.is_empty() { "1 1" } else { "1 1 1 1" };
    let task = task_of(rt, alloc, edges, rows, group, order);
    let mut slot: u8 = 0;
    for wanted in orders.split(' ') {
        let text = told(rt, alloc, &task, slot);
        assert!(rt; text.as_slice() == wanted.as_bytes(), "{case}");
        slot = slot.wrapping_add(1);
    }
    assert!(rt; slot == task.slots, "{case}");
    let count = count.parse::<u64>().expect(rt, "a number");
    assert!(rt; combinations(&task) == count, "{case}");
}

/// A column of an edge counts once, and one that is bound not at all. The list to order by counts where it is upwards and of
/// one slot, and doesn't count beside a list to group by. A star of five slots whose hub is tied to three others by three
/// columns each and to the fourth by four has a combination for each choice.
#[test]
fn orders_of_slots(rt: HostRuntime) {
    let alloc = rt.alloc();
    for case in CASES.lines() {
        has_orders(&rt, alloc, case);
    }
    let star = star(&rt, alloc);
    assert!(rt; combinations(&star) == 4480);
}
