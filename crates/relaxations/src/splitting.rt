//! Splitting: what a plan leaves open is branched on, least bound first, while there are nodes.

use crate::planner::{OVERFULL, PlanNode, Planner, Task};
use adv_base::NoMemory;
use interior_point::{at, put};
use std::alloc::Global;

/// In place of a node where there is none.
const NO_NODE: usize = usize::MAX;
/// The most branches above a node.
const MOST_LEVELS: usize = 256;

/// A node of the plan, with the node above it, on which side of this it is, and those of its own sides.
#[derive(Clone, Copy)]
pub(crate) struct SplitNode {
    pub node: PlanNode,
    above: usize,
    is_inside: bool,
    pub sides: [usize; 2],
}

/// No node.
const NO_SPLIT: SplitNode = SplitNode {
    node: PlanNode {
        candidate: 0,
        set: 0,
        is_open: false,
    },
    above: NO_NODE,
    is_inside: false,
    sides: [NO_NODE; 2],
};

/// An open leaf, with its value.
#[derive(Clone, Copy)]
struct OpenLeaf {
    value: i128,
    place: usize,
}

/// No leaf, which comes last.
const NO_LEAF: OpenLeaf = OpenLeaf {
    value: i128::MAX,
    place: NO_NODE,
};

/// The nodes of a plan as a tree, its open leaves as a heap, of which the first has the least value, and the branches above a
/// node with their sides, the last first.
#[derive(Drop)]
pub(crate) struct Splitter {
    pub nodes: Vec<SplitNode>,
    heap: Vec<OpenLeaf>,
    way: Vec<(usize, bool)>,
}

impl Splitter {
    /// All memory of plans of at most so many nodes. Want of memory is the one error.
    pub(crate) fn new(alloc: Global, nodes: usize) -> Result<Splitter, NoMemory> {
        Ok(Splitter {
            nodes: Vec::with_capacity(alloc, nodes)?,
            heap: Vec::with_capacity(alloc, nodes)?,
            way: Vec::with_capacity(alloc, MOST_LEVELS)?,
        })
    }

    /// Appends a node on a side of another.
    fn add(&mut self, node: PlanNode, above: usize, is_inside: bool) -> usize {
        let place = self.nodes.len();
        if above < self.nodes.len() {
            if is_inside {
                self.nodes[above].sides[0] = place;
            } else {
                self.nodes[above].sides[1] = place;
            }
        }
        let _ = self.nodes.push(SplitNode {
            node,
            above,
            is_inside,
            sides: [NO_NODE; 2],
        });
        place
    }

    /// The node at a place.
    fn node(&self, place: usize) -> SplitNode {
        at(self.nodes.as_slice(), place, NO_SPLIT)
    }

    /// The nearest node from one on upwards that has no outer side yet.
    fn unfinished(&self, from: usize) -> usize {
        let mut place = from;
        for _level in 0..=MOST_LEVELS {
            let node = self.node(place);
            if node.sides[1] == NO_NODE {
                break;
            }
            place = node.above;
        }
        place
    }

    /// Reads a plan.
    pub(crate) fn read(&mut self, plan: &[PlanNode]) {
        self.nodes.clear();
        self.heap.clear();
        let mut above = NO_NODE;
        let mut is_inside = true;
        for node in plan {
            let place = self.add(*node, above, is_inside);
            is_inside = node.candidate > 0;
            above = if is_inside {
                place
            } else {
                self.unfinished(above)
            };
        }
    }

    /// The open leaf at a place of the heap.
    fn leaf(&self, place: usize) -> OpenLeaf {
        at(self.heap.as_slice(), place, NO_LEAF)
    }

    /// Puts an open leaf onto the heap.
    fn put(&mut self, leaf: OpenLeaf) {
        let mut hole = self.heap.len();
        let _ = self.heap.push(leaf);
        for _level in 0..64 {
            let above = self.leaf(hole.saturating_sub(1) / 2);
            if hole == 0 || above.value <= leaf.value {
                break;
            }
            put(self.heap.as_mut_slice(), hole, above);
            hole = hole.saturating_sub(1) / 2;
        }
        put(self.heap.as_mut_slice(), hole, leaf);
    }

    /// Takes the open leaf of the least value.
    fn take(&mut self) -> Option<usize> {
        let last = self.heap.pop()?;
        if self.heap.is_empty() {
            return Some(last.place);
        }
        let least = self.leaf(0);
        let mut hole = 0usize;
        for _level in 0..64 {
            let mut below = hole.saturating_mul(2).saturating_add(1);
            if self.leaf(below.saturating_add(1)).value < self.leaf(below).value {
                below = below.saturating_add(1);
            }
            let leaf = self.leaf(below);
            if leaf.value >= last.value {
                break;
            }
            put(self.heap.as_mut_slice(), hole, leaf);
            hole = below;
        }
        put(self.heap.as_mut_slice(), hole, last);
        Some(least.place)
    }

    /// Writes the way to a node.
    fn write_way(&mut self, to: usize) {
        self.way.clear();
        let mut place = to;
        for _level in 0..MOST_LEVELS {
            let node = self.node(place);
            if node.above == NO_NODE {
                break;
            }
            place = node.above;
            let candidate = self.node(place).node.candidate as usize;
            let _ = self.way.push((candidate.wrapping_sub(1), node.is_inside));
        }
        self.way.as_mut_slice().reverse();
    }

    /// Goes to a node, from where its way parts with the path; whether each candidate was open there.
    fn go_to(&mut self, task: &Task<'_>, planner: &mut Planner, to: usize) -> bool {
        self.write_way(to);
        let mut depth = 0usize;
        for (number, (candidate, is_inside)) in self.way.iter().enumerate() {
            let step = planner.path.step(number);
            let is_same = number < planner.path.depth()
                && step.candidate as usize == *candidate
                && step.is_inside == *is_inside;
            if depth != number || !is_same {
                break;
            }
            depth = number.saturating_add(1);
        }
        planner.go_back(task, depth);
        for number in depth..self.way.len() {
            let (candidate, is_inside) = self.way[number];
            if !planner.path.is_open(candidate) {
                return false;
            }
            planner.path.go(task.matrix, candidate, is_inside);
        }
        true
    }

    /// Looks at a leaf: the best set there, and whether it is open.
    fn look(&mut self, task: &Task<'_>, planner: &mut Planner, place: usize) {
        if !self.go_to(task, planner, place) {
            return;
        }
        let best = planner.best(task);
        let is_open = best.value <= planner.target;
        if place >= self.nodes.len() {
            return;
        }
        let node = &mut self.nodes[place].node;
        node.set = (best.set & 255) as u8;
        node.is_open = is_open;
        if is_open {
            let value = best.value;
            self.put(OpenLeaf { value, place });
        } else {
            planner.hint = best.set;
        }
    }

    /// Branches at an open leaf.
    fn branch(&mut self, task: &Task<'_>, planner: &mut Planner, place: usize) {
        if !self.go_to(task, planner, place) {
            return;
        }
        let best = planner.best(task);
        let Some(choice) = planner.split_choice(task, best) else {
            return;
        };
        if place >= self.nodes.len() {
            return;
        }
        let own = &mut self.nodes[place].node;
        own.candidate = (choice & 255) as u16 + 1;
        own.is_open = false;
        let is_overfull = planner.path.is_clash(choice);
        for is_inside in [true, false] {
            let is_closed = is_overfull && is_inside;
            let leaf = PlanNode {
                candidate: 0,
                set: if is_closed {
                    OVERFULL
                } else {
                    (best.set & 255) as u8
                },
                is_open: !is_closed,
            };
            let below = self.add(leaf, place, is_inside);
            if !is_closed {
                self.look(task, planner, below);
            }
        }
    }

    /// Splits open leaves while there are nodes.
    pub(crate) fn split(&mut self, task: &Task<'_>, planner: &mut Planner) {
        for place in 0..self.nodes.len() {
            if self.node(place).node.is_open {
                self.look(task, planner, place);
            }
        }
        for _split in 0..task.nodes {
            if self.nodes.len().saturating_add(2) > task.nodes {
                break;
            }
            let Some(place) = self.take() else {
                break;
            };
            self.branch(task, planner, place);
        }
    }
}
