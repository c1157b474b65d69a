//! Cuts of the sets of a task's slots in two parts, found once.
ghost use Rattle.std.specs.Prelude.{◌≡◌, ℕ, [], ◌∷◌, ◌++◌, ◌+◌, ◌-◌, ◌^◌, ◌<◌, ◌≤◌, ◌&&◌, bit_and, IfOk, IsTrue, length};
ghost use Rattle.planner.specs.Cuts.{merges_of, is_covered, AreCuts, IsCut};
ghost use Rattle.planner.specs.inner.Cutting.{AddsCuts};

use crate::front::{Link, crosses, side};
use plan_model::{Task, hash_price, merge_price};
use std::alloc::{AllocError, Global};

/// A cut of a set in two parts that some edge crosses and that plans cover, with what joining them costs. Its merges
/// stand from `from` to before `to` in the list of all.
#[derive(Clone, Copy)]
pub struct Cut {
    pub left: usize,
    pub right: usize,
    /// Hashing the right part and looking up the left.
    pub hash_price: u128,
    /// Merging the parts.
    pub merge_price: u128,
    pub from: usize,
    pub to: usize,
}

/// A merge of two parts on an edge: the front that asks for the need of the left one, and that of the right one.
#[derive(Clone, Copy)]
pub struct Merge {
    pub edge: u32,
    pub left_need: usize,
    pub right_front: usize,
}

/// The cuts of all sets, as they are found.
#[derive(Drop)]
pub(crate) struct Cuts {
    pub cuts: Vec<Cut>,
    pub merges: Vec<Merge>,
    pub starts: Vec<usize>,
    pub covered: Vec<bool>,
}

/// Adds a merge of two sets, where the link has an end in each.
fn add_merge(merges: &mut Vec<Merge>, link: &Link, a: usize, b: usize) -> Result<(), AllocError>
    ensures { IfOk result (λ _. merges.new.items ≡ merges.old.items ++ merges_of (link.now ∷ []) a b) }
{
    if !crosses(a, b, link) {
        return Ok(());
    }
    merges.push(Merge {
        edge: link.edge,
        left_need: side(link, a),
        right_front: side(link, b),
    })?;
    Ok(())
}

/// Adds the merges of two sets.
fn add_merges(merges: &mut Vec<Merge>, links: &[Link], a: usize, b: usize) -> Result<(), AllocError>
    ensures { IfOk result (λ _. merges.new.items ≡ merges.old.items ++ merges_of links.now a b) }
{
    for link in links {
        add_merge(merges, link, a, b)?;
    }
    Ok(())
}

/// The largest part of a set that is below another one. From the set itself down to the empty part it gives each part once.
fn part_below(set: usize, part: usize) -> usize
    requires within { part ≤ set }
    requires apart { bit_and part (set - part) ≡ 0 }
    ensures within { result ≤ set }
    ensures apart { bit_and result (set - result) ≡ 0 }
    ensures less { 0 < part → result < part }
    ensures none_between { (x : ℕ) → result < x → x < part → ¬ (bit_and x (set - x) ≡ 0) }
{
    part.saturating_sub(1) & set
}

/// Whether plans can cover both parts of a cut.
fn are_covered(covered: &[bool], left: usize, right: usize) -> bool
    requires left_in { left < length covered.now }
    requires right_in { right < length covered.now }
    ensures { result ≡ is_covered covered.now left && is_covered covered.now right }
{
    covered[left] && covered[right]
}

/// Adds the cut of a set whose right part is given, where both parts can be covered and some link crosses it.
fn add_cut(
    cuts: &mut Vec<Cut>,
    merges: &mut Vec<Merge>,
    covered: &[bool],
    task: &Task,
    links: &[Link],
    set: usize,
    right: usize,
) -> Result<(), AllocError>
    requires set_in { set < length task.now.rows }
    requires done { length covered.now ≡ set }
    requires parts { IsCut set right }
    ensures { IfOk result (λ _. AddsCuts task.now links.now covered.now set (set - right) (set - right + 1) cuts.old.items merges.old.items cuts.new.items merges.new.items) }
{
    let left = set - right;
    if !are_covered(covered, left, right) {
        return Ok(());
    }
    let from = merges.len();
    add_merges(merges, links, left, right)?;
    let to = merges.len();
    if from == to {
        return Ok(());
    }
    cuts.push(Cut {
        left,
        right,
        hash_price: hash_price(task, left, right),
        merge_price: merge_price(task, left, right),
        from,
        to,
    })?;
    Ok(())
}

/// Adds all cuts of a set, by increasing left parts.
fn add_cuts(
    cuts: &mut Vec<Cut>,
    merges: &mut Vec<Merge>,
    covered: &[bool],
    task: &Task,
    links: &[Link],
    set: usize,
) -> Result<(), AllocError>
    requires set_in { set < length task.now.rows }
    requires done { length covered.now ≡ set }
    ensures { IfOk result (λ _. AddsCuts task.now links.now covered.now set 1 set cuts.old.items merges.old.items cuts.new.items merges.new.items) }
{
    let mut right = part_below(set, set);
    'parts: while right > 0 {
        add_cut(cuts, merges, covered, task, links, set, right)?;
        right = part_below(set, right);
    }
    Ok(())
}

/// Whether a set is one of so many slots.
fn is_slot(set: usize, slots: u8) -> bool
    requires { slots ≤ 8 }
    ensures { (slot : ℕ) → slot < slots → 2 ^ slot ≡ set → IsTrue result }
{
    for slot in 0..slots {
        if 1 << slot == set {
            return true;
        }
    }
    false
}

/// Whether plans can cover a set of so many slots, whose cuts stand from a place to before an end.
fn can_cover(set: usize, slots: u8, from: usize, end: usize) -> bool
    requires { slots ≤ 8 }
    ensures slot { (slot : ℕ) → slot < slots → 2 ^ slot ≡ set → IsTrue result }
    ensures cuts { from < end → IsTrue result }
{
    from < end || is_slot(set, slots)
}

/// Adds the next set.
fn add_set(made: &mut Cuts, task: &Task, links: &[Link], set: usize) -> Result<(), AllocError>
    requires set_in { set < length task.now.rows }
    requires done { AreCuts task.now links.now made.old.cuts.items made.old.merges.items made.old.starts.items made.old.covered.items set }
    ensures { IfOk result (λ _. AreCuts task.now links.now made.new.cuts.items made.new.merges.items made.new.starts.items made.new.covered.items (set + 1)) }
{
    let before = made.cuts.len();
    let covered = made.covered.as_slice();
    add_cuts(&mut made.cuts, &mut made.merges, covered, task, links, set)?;
    let end = made.cuts.len();
    let covers = can_cover(set, task.slots, before, end);
    made.starts.push(end)?;
    made.covered.push(covers)?;
    Ok(())
}

/// The cuts of all sets. A set can be covered if it is one slot, or has a cut: one that a link crosses, into two parts that
/// can be covered.
pub(crate) fn cuts_of(alloc: Global, task: &Task, links: &[Link]) -> Result<Cuts, AllocError>
    ensures { IfOk result (λ made. AreCuts task.now links.now made.cuts.items made.merges.items made.starts.items made.covered.items (length task.now.rows)) }
{
    let mut made = Cuts {
        cuts: Vec::new(alloc),
        merges: Vec::new(alloc),
        starts: vec![in alloc; 0]?,
        covered: Vec::new(alloc),
    };
    for set in 0..task.rows.len() {
        add_set(&mut made, task, links, set)?;
    }
    Ok(made)
}
