//! Proposals that go on with the answer to a programme that differs in little.

use crate::configuration::Chosen;
use crate::planner::{MOST_SETS, OVERFULL, PlanNode};
use crate::proposals::{MOST_COST, Proposals};
use adv_base::NoMemory;
use adv_base::limits::{MOST_PAGE_PRICE, MOST_RENT};
use bip_model::{Answer, Multipliers, Node, Programme};
use interior_point::{at, put};
use std::alloc::Global;

/// The numbers that candidates have, by those that they had, both from 1: 0 for one that has gone.
pub type NewNumbers = [u16; 257];

/// In place of a candidate that has gone.
const GONE: u16 = 257;

/// The answer of an earlier search, the numbers that its candidates have now, and for each grant of the programme now where its
/// rent stands in the answer's sets, past their ends where it isn't there.
#[derive(Clone, Copy)]
pub struct Earlier<'a> {
    pub answer: &'a Answer,
    pub numbers: &'a NewNumbers,
    pub places: &'a [u32],
}

/// How many leaves of a tree name each set.
fn uses_of(tree: &[Node]) -> [usize; MOST_SETS] {
    let mut uses = [0usize; MOST_SETS];
    for node in tree {
        if let Node::Bounded(set) = node {
            let set = *set as usize;
            if set < MOST_SETS {
                uses[set] = uses[set].saturating_add(1);
            }
        }
    }
    uses
}

/// The number that a candidate of a branch has now: one past all where it has gone, so that it stays out.
fn number_now(numbers: &NewNumbers, number: u16) -> u16 {
    match at(numbers, number as usize, 0) {
        0 => GONE,
        now => now,
    }
}

impl Proposals {
    /// The same as `new`, of a programme that differs in little from one for which an answer is known: the first
    /// search goes along its tree, with its configuration and sets.
    pub fn after(
        alloc: Global,
        programme: &Programme,
        nodes: u32,
        earlier: &Earlier<'_>,
    ) -> Result<Proposals, NoMemory> {
        let mut own = Proposals::new(alloc, programme, nodes)?;
        own.recall_configuration(&earlier.answer.config.on, earlier.numbers);
        let sets = own.recall_sets(earlier);
        own.recall_tree(alloc, earlier, &sets)?;
        Ok(own)
    }

    /// Recalls a configuration of candidates that had other numbers.
    fn recall_configuration(&mut self, on: &Chosen, numbers: &NewNumbers) {
        let mut known = [false; 256];
        for (number, new) in numbers.iter().enumerate() {
            if *new > 0 && at(on, number.wrapping_sub(1), false) {
                put(&mut known, (*new as usize).wrapping_sub(1), true);
            }
        }
        self.known = Some(known);
    }

    /// Recalls the first set of an answer, and then the others, those first that most leaves name; the place of each by its
    /// number in the answer.
    fn recall_sets(&mut self, earlier: &Earlier<'_>) -> [u8; MOST_SETS] {
        let mut uses = uses_of(earlier.answer.tree.as_slice());
        let mut own = [0; MOST_SETS];
        let sets = earlier.answer.sets.as_slice();
        let mut next = 0;
        for place in 1..self.planner.ledgers.len().min(MOST_SETS) {
            if next >= sets.len() {
                break;
            }
            self.recall_set(place, &sets[next], earlier.places);
            self.recalled = place.saturating_add(1);
            put(&mut own, next.saturating_add(1), (place & 255) as u8);
            next = usize::MAX;
            let mut most = 0;
            for set in 1..sets.len() {
                let times = at(&uses, set.saturating_add(1), 0);
                if times > most {
                    most = times;
                    next = set;
                }
            }
            put(&mut uses, next.saturating_add(1), 0);
        }
        own
    }

    /// Recalls the tree of an answer without a gap, whose sets stand at these places now.
    fn recall_tree(
        &mut self,
        alloc: Global,
        earlier: &Earlier<'_>,
        sets: &[u8; MOST_SETS],
    ) -> Result<(), NoMemory> {
        if earlier.answer.bound < earlier.answer.cost.min(MOST_COST) as i128 {
            return Ok(());
        }
        let tree = earlier.answer.tree.as_slice();
        self.tree = Vec::with_capacity(alloc, tree.len())?;
        for node in tree {
            let (candidate, set) = match node {
                Node::Branch(number) => (number_now(earlier.numbers, *number), 0),
                Node::Bounded(set) => (0, at(sets, *set as usize, 0)),
                Node::Overfull => (0, OVERFULL),
            };
            let _ = self.tree.push(PlanNode {
                candidate,
                set,
                is_open: false,
            });
        }
        Ok(())
    }

    /// Writes a set of an answer into the ledger at a place.
    fn recall_set(&mut self, place: usize, set: &Multipliers, places: &[u32]) {
        if place >= self.planner.ledgers.len() {
            return;
        }
        let ledger = &mut self.planner.ledgers[place];
        for (rent, link) in ledger.rents.iter_mut().zip(self.matrix.links.iter()) {
            let old = at(places, link.rent, u32::MAX) as usize;
            *rent = at(set.lambda.as_slice(), old, 0).min(MOST_RENT) as i64;
        }
        ledger.page = set.mu.min(MOST_PAGE_PRICE) as i128;
    }
}
