//! Walking over a tree, from node to node.
ghost use Rattle.std.specs.Prelude.{◌≡◌, ◌<◌, ◌≤◌, ◌++◌, ◌∷◌, [], IfErr, OnOk, Some, None, length, slice_get};
ghost use Rattle.std.specs.List.{AllByRecursion};
ghost use Rattle.adv_base.specs.declared.limits.TheConstants.{MOST_NODES};
ghost use Rattle.bip_model.specs.Views.{node_of};
ghost use Rattle.certificate.specs.Limits as limits;
ghost use Rattle.gap_checker.specs.Faults as faults;
ghost use Rattle.gap_checker.specs.Views as views;
ghost use Rattle.gap_checker.specs.inner.Judges as judges;
ghost use Rattle.gap_checker.specs.inner.Memos.{IsMemo};
ghost use Rattle.gap_checker.specs.inner.Nodes as kept;
ghost use Rattle.gap_checker.specs.inner.Walks as walks;

use crate::fault::CheckFault;
use crate::judge::Judge;
use crate::memo::Memo;
use adv_base::NoMemory;
use bip_model::{Fix, Node};
use std::alloc::Global;

/// Puts a node of the search at the end.
pub(crate) fn put(starts: &mut Vec<Fix>, start: Fix) -> Result<(), NoMemory>
    ensures { OnOk result (starts.new.items ≡ starts.old.items ++ start ∷ []) }
{
    starts.push(start)?;
    Ok(())
}

/// Keeps the sides of a branch for later, the in-side to be taken first; a leaf has none.
fn keep_sides(starts: &mut Vec<Fix>, at: &Fix, node: Node) -> Result<(), NoMemory>
    requires { walks.HasSides (node_of at.now) node }
    ensures { OnOk result (kept.starts_of starts.new.items ≡ walks.sides (node_of at.now) node (kept.starts_of starts.old.items)) }
{
    match node {
        Node::Branch(candidate) => {
            put(starts, at.out_side(candidate))?;
            put(starts, at.in_side(candidate))
        }
        Node::Bounded(_) => Ok(()),
        Node::Overfull => Ok(()),
    }
}

/// The node of the search that was kept last.
fn next_start(starts: &mut Vec<Fix>) -> Fix
    requires { 0 < length starts.old.items }
    ensures { starts.old.items ≡ starts.new.items ++ result ∷ [] }
{
    match starts.pop() {
        Some(start) => start,
        None => unreachable!(),
    }
}

/// The node of a place.
fn node_at(tree: &[Node], place: usize) -> Node
    requires { place < length tree.now }
    ensures { slice_get tree.now place ≡ Some result }
{
    match tree.get(place) {
        Some(node) => *node,
        None => unreachable!(),
    }
}

impl Judge<'_> {
    /// Judges the next node of a tree, whatever was read before it.
    pub(crate) fn judge_next(
        &self,
        alloc: Global,
        memo: &mut Memo<'_>,
        starts: &mut Vec<Fix>,
        number: u32,
        node: Node,
    ) -> Result<(), CheckFault>
        requires judge { judges.IsJudge self.now }
        requires memo_is { IsMemo (judges.setting_of self.now) self.now.claims.sets.now memo.old }
        requires limits { limits.NodeLimits (length self.now.claims.sets.now) node }
        requires some { 0 < length starts.old.items }
        ensures memo { OnOk result (IsMemo (judges.setting_of self.now) self.now.claims.sets.now memo.new) }
        ensures count { OnOk result (length starts.new.items ≡ walks.trees_after (length starts.old.items) node) }
        ensures walk { OnOk result (judges.WalksOn self.now (kept.starts_of starts.old.items) node (kept.starts_of starts.new.items)) }
        ensures fault { IfErr result (judges.IsNextFault self.now (kept.starts_of starts.old.items) number node) }
    {
        let at = next_start(starts);
        self.judge_node(alloc, memo, number, &at, node)?;
        keep_sides(starts, &at, node)?;
        Ok(())
    }

    /// Judges the nodes of a tree in preorder.
    pub(crate) fn judge_tree(
        &self,
        alloc: Global,
        memo: &mut Memo<'_>,
        tree: &[Node],
    ) -> Result<(), CheckFault>
        requires judge { judges.IsJudge self.now }
        requires memo_is { IsMemo (judges.setting_of self.now) self.now.claims.sets.now memo.old }
        requires sound { judges.AreSound self.now }
        requires few { length tree.now ≤ MOST_NODES }
        requires nodes { AllByRecursion (limits.NodeLimits (length self.now.claims.sets.now)) tree.now }
        requires tree { limits.AreTrees 1 tree.now }
        ensures proof { OnOk result (views.IsProof (judges.setting_of self.now) (judges.root_of self.now) (judges.cert_of self.now tree.now)) }
        ensures fault { IfErr result (faults.IsFault (judges.setting_of self.now) (judges.root_of self.now) (judges.cert_of self.now tree.now)) }
    {
        let mut starts = Vec::new(alloc);
        put(&mut starts, *self.root)?;
        for i in 0..tree.len() {
            let node = node_at(tree, i);
            self.judge_next(alloc, memo, &mut starts, i as u32 + 1, node)?;
        }
        Ok(())
    }
}
