//! Plans that are written down by their steps.
use crate::tasks::{list, up};
use adv_base::Item;
use plan_model::Plan;
use std::alloc::Global;
use std::process::Abort;

/// A plan of a step above what the last steps made.
fn step(rt: &impl Abort, alloc: Global, kind: u8, number: u8, made: &mut Vec<Plan>) -> Plan {
    match kind {
        b'a'..=b'd' => Plan::Leaf {
            slot: kind - b'a',
            offer: number as u32,
        },
        b'A'..=b'D' => sorted(rt, alloc, up(kind - b'A', number as u16), made),
        b'X' => sorted(rt, alloc, Item::Made(number as u32), made),
        b'M' => merged(rt, alloc, number as u32, made),
        _ => hashed(rt, alloc, made),
    }
}

fn sorted(rt: &impl Abort, alloc: Global, item: Item, made: &mut Vec<Plan>) -> Plan {
    let input = made.pop().expect(rt, "input");
    Plan::Sort {
        order: list(rt, alloc, &[item]),
        input: Box::new(alloc, input).expect(rt, "memory"),
    }
}

fn merged(rt: &impl Abort, alloc: Global, edge: u32, made: &mut Vec<Plan>) -> Plan {
    let right = made.pop().expect(rt, "right side");
    let left = made.pop().expect(rt, "left side");
    Plan::Merge {
        edge,
        left: Box::new(alloc, left).expect(rt, "memory"),
        right: Box::new(alloc, right).expect(rt, "memory"),
    }
}

fn hashed(rt: &impl Abort, alloc: Global, made: &mut Vec<Plan>) -> Plan {
    let right = made.pop().expect(rt, "right side");
    let left = made.pop().expect(rt, "left side");
    Plan::Hash {
        left: Box::new(alloc, left).expect(rt, "memory"),
        right: Box::new(alloc, right).expect(rt, "memory"),
    }
}

/// A plan by its steps of two bytes, inputs first: `a1` reads slot a by offer 1, `B0` sorts by column 0 of slot b, `X1`
/// sorts by a made item, `M0` merges on edge 0, `H.` hashes.
pub fn plan(rt: &impl Abort, alloc: Global, steps: &str) -> Plan {
    let steps = steps.as_bytes();
    let mut made = Vec::new(alloc);
    for at in 0..steps.len() / 2 {
        let next = step(rt, alloc, steps[2 * at], steps[2 * at + 1] & 15, &mut made);
        made.push(next).expect(rt, "memory");
    }
    made.pop().expect(rt, "plan")
}
