//! Whether join edges connect the slots of a block, by quick-find (Sedgewick): slots that hang together have one label.
ghost use Rattle.std.specs.Prelude.{◌≡◌, ◌==◌, ◌<◌, ◌≤◌, length, IfOk, All};
ghost use Rattle.std.specs.List.{list_all, range_with_len};
ghost use Rattle.binder.specs.Joins as joins;
ghost use Rattle.binder.specs.inner.Labels as steps;
ghost use Rattle.binder.specs.Plain.{plain_edge, plain_edges};

use adv_base::Edge;
use std::alloc::{AllocError, Global};

/// A label in place of another.
fn renamed(from: u8, to: u8, label: u8) -> u8
    ensures { result ≡ steps.renamed from to label }
{
    if label == from { to } else { label }
}

/// Gives all slots that hang together with the edge's left one the label of its right one.
fn relabel(labels: &mut [u8], edge: &Edge)
    requires left { edge.now.left < length labels.old }
    requires right { edge.now.right < length labels.old }
    ensures { labels.new ≡ steps.relabelled labels.old (plain_edge edge.now) }
{
    let from = labels[edge.left as usize];
    let to = labels[edge.right as usize];
    for label in labels.iter_mut() {
        *label = renamed(from, to, *label);
    }
}

/// A label for each slot, its own number.
fn own_labels(alloc: Global, slots: u8) -> Result<Vec<u8>, AllocError>
    ensures { IfOk result (λ v. v.items ≡ range_with_len 0 slots) }
{
    let mut labels = Vec::new(alloc);
    for slot in 0..slots {
        labels.push(slot)?;
    }
    Ok(labels)
}

/// The labels of slots behind all edges.
#[tactic(auto, unfolding(crate::specs::inner::Labels::labels_of))]
fn labels(alloc: Global, slots: u8, edges: &[Edge]) -> Result<Vec<u8>, AllocError>
    requires lefts { All (λ edge. edge.left < slots) edges.now }
    requires rights { All (λ edge. edge.right < slots) edges.now }
    ensures exact { IfOk result (λ v. v.items ≡ steps.labels_of slots (plain_edges edges.now)) }
    ensures len { IfOk result (λ v. length v.items ≡ slots) }
{
    let mut labels = own_labels(alloc, slots)?;
    for edge in edges {
        relabel(&mut labels, edge);
    }
    Ok(labels)
}

/// Whether all labels are this one.
fn all_same(labels: &[u8], first: u8) -> bool
    ensures { result ≡ list_all (λ label. label == first) labels.now }
{
    labels.iter().all(|label| *label == first)
}

/// Whether the edges connect the slots, which is whether all have one label behind them.
pub fn is_joined(alloc: Global, slots: u8, edges: &[Edge]) -> Result<bool, AllocError>
    requires some { 1 ≤ slots }
    requires lefts { All (λ edge. edge.left < slots) edges.now }
    requires rights { All (λ edge. edge.right < slots) edges.now }
    // Whichever way the slots are cut in two, some edge crosses the cut.
    ensures { IfOk result (λ joined. joined ≡ joins.is_joined slots (plain_edges edges.now)) }
{
    let labels = labels(alloc, slots, edges)?;
    let first = labels[0];
    Ok(all_same(&labels, first))
}
