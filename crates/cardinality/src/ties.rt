//! The join edges of a block, each with its part.
ghost use Rattle.std.specs.Prelude.{◌≡◌, ◌<◌, ◌≤◌, map, fold, if◌then◌else◌, IfOk};
ghost use Rattle.adv_base.specs.Named.{NamesBlock};
ghost use Rattle.adv_base.specs.Parts as selectivity;
ghost use Rattle.adv_base.specs.Rows as row;
ghost use Rattle.adv_base.specs.Sums as sum;
ghost use Rattle.adv_base.specs.declared.limits.TheConstants.{MOST_ROWS, WHOLE};

use crate::parts::edge_part;
use adv_base::{Block, Catalogue, Edge, NoMemory, has_slot, times_part};
use std::alloc::Global;

/// A block whose names the catalogue has, with the part of each of its edges.
#[derive(Drop)]
pub struct Ties<'a> {
    pub cat: &'a Catalogue,
    pub block: &'a Block,
    pub parts: Vec<u64>,
    pub ghost named: { NamesBlock cat.now block.now },
    pub ghost exact: { parts.items ≡ map (selectivity.edge_part cat.now block.now) block.now.edges },
}

/// Whether an edge is between the slot and an earlier one of the set.
fn ties_back(edge: &Edge, set: usize, slot: u8) -> bool
    requires { slot < 64 }
    ensures { result ≡ row.ties_back set slot edge.now }
{
    (edge.left == slot && edge.right < slot && has_slot(set, edge.right))
        || (edge.right == slot && edge.left < slot && has_slot(set, edge.left))
}

/// The rows of a join after one more edge, which counts where it ties.
fn rows_after(rows: u64, ties: bool, part: u64) -> u64
    requires some { 1 ≤ rows }
    requires few { rows ≤ MOST_ROWS }
    requires part_some { 1 ≤ part }
    requires part_most { part ≤ WHOLE }
    ensures exact { result ≡ (if ties then sum.times_part rows part else rows) }
    ensures least { 1 ≤ result }
    ensures most { result ≤ MOST_ROWS }
{
    if ties { times_part(rows, part) } else { rows }
}

impl<'a> Ties<'a> {
    /// Computes the part of each edge, once.
    pub fn new(alloc: Global, cat: &'a Catalogue, block: &'a Block) -> Result<Ties<'a>, NoMemory>
        requires { NamesBlock cat.now block.now }
        ensures { IfOk result (λ ties. (ties.cat.now ≡ cat.now) × (ties.block.now ≡ block.now)) }
    {
        let mut parts = Vec::new(alloc);
        for edge in block.edges.items.iter() {
            parts.push(edge_part(cat, block, edge))?;
        }
        Ok(Ties { cat, block, parts })
    }

    /// What is left of a number of rows after each edge between the slot and an earlier one of the set, in written order.
    pub fn through(&self, set: usize, slot: u8, rows: u64) -> u64
        requires slot_few { slot < 64 }
        requires some { 1 ≤ rows }
        requires few { rows ≤ MOST_ROWS }
        ensures exact { result ≡ fold sum.times_part rows (map (selectivity.edge_part self.now.cat.now self.now.block.now) (row.edges_back self.now.block.now set slot)) }
        ensures least { 1 ≤ result }
        ensures most { result ≤ MOST_ROWS }
    {
        let block = self.block;
        let mut left = rows;
        for (i, edge) in block.edges.items.iter().enumerate() {
            left = rows_after(left, ties_back(edge, set, slot), self.parts[i]);
        }
        left
    }
}
