//! One node of a search: its bounds, and what becomes of it.
ghost use Rattle.std.specs.Prelude.{◌≡◌, suc, ◌+◌, ◌<◌, ◌≤◌, ◌⊎◌, false, true, length, IfNone, IfSome};
ghost use Rattle.adv_base.specs.Nodes as nodes;
ghost use Rattle.bip_model.specs.Views as views;
ghost use Rattle.bip_model.specs.Views.{AreMultipliers};
ghost use Rattle.branch_bound.specs.inner.Runs as runs;

use crate::found::Found;
use crate::frame::Frame;
use crate::ledgers::Ledgers;
use bip_model::{Fix, Multipliers};
use lagrange_bound::bound_by;

/// What becomes of a node.
#[derive(Clone, Copy)]
pub(crate) enum Fate {
    /// A leaf below which nothing is cheaper than what was found, by the set of this number.
    Closed(u8),
    /// A leaf where the walk gives up, under the set of this number, which gives the highest value.
    Forced(u8),
    /// A branch on the candidate of this index.
    Branch(usize),
}

/// What was found, with a node whose in-candidates cost so much, which may be less.
pub(crate) fn visited(fix: &Fix, cost: u128, before: Found) -> Found
    ensures made { result.made ≡ before.made }
    ensures exact { result ≡ runs.visited_at fix.now cost before }
{
    if cost < before.cost {
        Found {
            config: fix.inside(),
            cost,
            low: before.low,
            made: before.made,
        }
    } else {
        before
    }
}

/// Whether a value is at least a cost.
pub(crate) fn reaches(value: i128, cost: u128) -> bool
    ensures { result ≡ runs.reaches value cost }
{
    value >= 0 && cost <= value as u128
}

/// Whether a candidate is useful and open at a node, by its index.
fn is_choice(frame: &Frame<'_>, fix: &Fix, index: usize) -> bool
    requires { index < length frame.now.programme.now.sizes }
    ensures { result ≡ runs.is_choice (runs.rules_of frame.now) fix.now index }
{
    let space = frame.programme.space(frame.budget);
    frame.useful[index] && space.is_open(fix, index as u16 + 1)
}

/// The first open useful candidate.
fn first_choice(frame: &Frame<'_>, fix: &Fix) -> Option<usize>
    ensures { runs.IsChoiceBelow (runs.rules_of frame.now) fix.now (length frame.now.programme.now.sizes) result }
{
    for index in 0..frame.programme.sizes.len() {
        if is_choice(frame, fix, index) {
            return Some(index);
        }
    }
    None
}

/// The candidate of a number where it is open and useful, by its index.
fn planned_choice(frame: &Frame<'_>, fix: &Fix, number: u16) -> Option<usize>
    ensures { IfSome result (runs.IsChoice (runs.rules_of frame.now) fix.now) }
{
    let index = (number as usize).checked_sub(1)?;
    if index < frame.programme.sizes.len() && is_choice(frame, fix, index) {
        Some(index)
    } else {
        None
    }
}

/// The set of a number: 0 is that of zeros.
fn own_set<'a>(frame: &Frame<'a>, set: u8) -> &'a Multipliers
    requires { set ≤ length frame.now.sets.now }
    ensures exact { result.now ≡ runs.set_of (runs.rules_of frame.now) set }
    ensures fit { AreMultipliers frame.now.programme.now result.now }
{
    if set == 0 {
        frame.zeros
    } else {
        &frame.sets[set as usize - 1]
    }
}

/// The Lagrangian value of a node under the set of a number, to which its ledger is carried.
pub(crate) fn lag(frame: &Frame<'_>, fix: &Fix, set: u8, ledgers: &mut Ledgers) -> i128
    requires set { set ≤ length frame.now.sets.now }
    requires ledgers { runs.AreLedgers (runs.rules_of frame.now) ledgers.old.each.items }
    ensures value { result ≡ runs.lag (runs.rules_of frame.now) fix.now set }
    ensures ledgers { runs.AreLedgers (runs.rules_of frame.now) ledgers.new.each.items }
{
    let own = own_set(frame, set);
    bound_by(
        frame.programme,
        frame.cheaper,
        frame.budget,
        fix,
        own,
        &mut ledgers.each[set as usize],
        &mut ledgers.rows,
    )
}

/// The number of a set, and its Lagrangian value at a node.
#[derive(Clone, Copy)]
struct Valued {
    set: u8,
    value: i128,
}

/// The set of the higher value: that which was the highest, or the one of the next number.
fn higher(frame: &Frame<'_>, fix: &Fix, best: Valued, set: u8, ledgers: &mut Ledgers) -> Valued
    requires within { set < length frame.now.sets.now }
    requires best { runs.IsHighest (runs.rules_of frame.now) fix.now set best.set best.value }
    requires ledgers { runs.AreLedgers (runs.rules_of frame.now) ledgers.old.each.items }
    ensures best { runs.IsHighest (runs.rules_of frame.now) fix.now (set + 1) result.set result.value }
    ensures ledgers { runs.AreLedgers (runs.rules_of frame.now) ledgers.new.each.items }
{
    let value = lag(frame, fix, set + 1, ledgers);
    if value > best.value {
        Valued {
            set: set + 1,
            value,
        }
    } else {
        best
    }
}

/// The set of the highest value at a node, or one whose value is at least a cost, where that of zeros isn't.
fn highest(frame: &Frame<'_>, fix: &Fix, cost: u128, zero: i128, ledgers: &mut Ledgers) -> Valued
    requires zero { zero ≡ runs.lag (runs.rules_of frame.now) fix.now 0 }
    requires ledgers { runs.AreLedgers (runs.rules_of frame.now) ledgers.old.each.items }
    ensures ledgers { runs.AreLedgers (runs.rules_of frame.now) ledgers.new.each.items }
    ensures set { result.set ≤ length frame.now.sets.now }
    ensures value { result.value ≡ runs.lag (runs.rules_of frame.now) fix.now result.set }
    ensures over { runs.reaches result.value cost ≡ false → runs.IsHighest (runs.rules_of frame.now) fix.now (length frame.now.sets.now) result.set result.value }
{
    let mut best = Valued {
        set: 0,
        value: zero,
    };
    for set in 0..frame.sets.len() {
        best = higher(frame, fix, best, set as u8, ledgers);
        if reaches(best.value, cost) {
            return best;
        }
    }
    best
}

/// A candidate to branch on beyond the plan, where two more nodes are left; none where the walk stops.
fn branch(frame: &Frame<'_>, fix: &Fix, found: &Found) -> Option<usize>
    requires { found.now.made ≤ frame.now.nodes }
    ensures none { IfNone result (runs.MayGiveUp (runs.rules_of frame.now) fix.now found.now) }
    ensures some { IfSome result (λ i. (found.now.made + 2 ≤ frame.now.nodes) × runs.IsChoice (runs.rules_of frame.now) fix.now i) }
{
    if frame.stops || found.made + 2 > frame.nodes {
        return None;
    }
    first_choice(frame, fix)
}

/// What becomes of a node that neither zeros nor the plan decide: a leaf of the set that closes it, a branch, or a leaf
/// of the set of the highest value.
fn unplanned_fate(
    frame: &Frame<'_>,
    fix: &Fix,
    found: &Found,
    zero: i128,
    ledgers: &mut Ledgers,
) -> Fate
    requires made { found.now.made ≤ frame.now.nodes }
    requires zero { zero ≡ runs.lag (runs.rules_of frame.now) fix.now 0 }
    requires promising { runs.reaches (runs.lag (runs.rules_of frame.now) fix.now 0) found.now.cost ≡ false }
    requires ledgers { runs.AreLedgers (runs.rules_of frame.now) ledgers.old.each.items }
    ensures fate { runs.IsFate (runs.rules_of frame.now) fix.now found.now result }
    ensures ledgers { runs.AreLedgers (runs.rules_of frame.now) ledgers.new.each.items }
{
    let best = highest(frame, fix, found.cost, zero, ledgers);
    if reaches(best.value, found.cost) {
        return Fate::Closed(best.set);
    }
    match branch(frame, fix, found) {
        Some(index) => Fate::Branch(index),
        None => Fate::Forced(best.set),
    }
}

/// Whether the set that the plan names for a leaf closes it.
fn is_closed(frame: &Frame<'_>, fix: &Fix, cost: u128, set: u8, ledgers: &mut Ledgers) -> bool
    requires ledgers { runs.AreLedgers (runs.rules_of frame.now) ledgers.old.each.items }
    ensures closed { result ≡ true → (set ≤ length frame.now.sets.now) × (runs.reaches (runs.lag (runs.rules_of frame.now) fix.now set) cost ≡ true) }
    ensures ledgers { runs.AreLedgers (runs.rules_of frame.now) ledgers.new.each.items }
{
    set as usize <= frame.sets.len() && reaches(lag(frame, fix, set, ledgers), cost)
}

/// What becomes of a node at a place of the plan, after it is visited.
pub(crate) fn fate_of(
    frame: &Frame<'_>,
    fix: &Fix,
    found: &Found,
    place: usize,
    ledgers: &mut Ledgers,
) -> Fate
    requires made { found.now.made ≤ frame.now.nodes }
    requires ledgers { runs.AreLedgers (runs.rules_of frame.now) ledgers.old.each.items }
    ensures fate { runs.IsFate (runs.rules_of frame.now) fix.now found.now result }
    ensures ledgers { runs.AreLedgers (runs.rules_of frame.now) ledgers.new.each.items }
{
    let step = frame.step(place);
    if step.candidate == 0 && is_closed(frame, fix, found.cost, step.set, ledgers) {
        return Fate::Closed(step.set);
    }
    let zero = lag(frame, fix, 0, ledgers);
    if reaches(zero, found.cost) {
        return Fate::Closed(0);
    }
    if found.made + 2 <= frame.nodes {
        if let Some(index) = planned_choice(frame, fix, step.candidate) {
            return Fate::Branch(index);
        }
    }
    unplanned_fate(frame, fix, found, zero, ledgers)
}
