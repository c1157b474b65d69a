//! What made a cell's cost, found again.
ghost use Rattle.std.specs.Prelude.{◌≡◌, ℕ, ◌+◌, ◌*◌, ◌<◌, ◌≤◌, ◌^◌, ◌==◌, ◌&&◌, IsTrue, length, None, Some};
ghost use Rattle.std.specs.Option.{ForSome};
ghost use Rattle.adv_base.specs.OfferTables.{price_at, order_at};
ghost use Rattle.planner.specs.declared.cell.TheConstants as constant;
ghost use Rattle.planner.specs.Fronts as order_fronts;
ghost use Rattle.planner.specs.Cells.{cost_at, any_at, row_of};
ghost use Rattle.planner.specs.Cuts.{cut_at, merge_at};
ghost use Rattle.planner.specs.Choices.{IsMerged, IsMergedBy, IsOffered, IsRead};
ghost use Rattle.planner.specs.Rows as set_rows;
ghost use Rattle.planner.specs.inner.Built.{GivesOffer, IsChosen, IsCutChoice, IsJoinChoice};

use crate::cell::{Cell, Choice, any_of, cost_of};
use crate::cuts::{Cut, Merge};
use crate::front::{Front, longer, serves};
use crate::row::{cuts_at, merges_at, row_in};
use crate::ways::Ways;
use adv_base::Item;
use plan_model::Offers;

/// Whether an offer serves a front at that cost; `list` is what `Listed` stands for.
fn offer_gives<O: Offers>(
    offers: &O,
    slot: u8,
    offer: u32,
    front: Front,
    list: &[Item],
    cost: u128,
) -> bool
    requires { offer < length (O.table offers.now slot) }
    ensures { result ≡ (price_at (O.table offers.now) slot offer == cost) && order_fronts.begins_test (order_at (O.table offers.now) slot offer) (order_fronts.front_order list.now front) }
{
    offers.price(slot, offer) as u128 == cost && serves(offers.order(slot, offer), front, list)
}

/// An offer of a slot that serves a front at that cost.
fn find_offer<O: Offers>(
    offers: &O,
    slot: u8,
    front: Front,
    list: &[Item],
    cost: u128,
) -> Option<u32>
    ensures found { ForSome result (λ k. GivesOffer (O.table offers.now) slot (order_fronts.front_order list.now front) cost k) }
    ensures none { result ≡ None → (k : ℕ) → ¬ (GivesOffer (O.table offers.now) slot (order_fronts.front_order list.now front) cost k) }
{
    for offer in 0..offers.count(slot) {
        if offer_gives(offers, slot, offer, front, list, cost) {
            return Some(offer);
        }
    }
    None
}

/// Whether the set is a slot alone.
fn is_slot_set(set: usize, slot: u8) -> bool
    requires { slot < 64 }
    ensures yes { IsTrue result → 2 ^ slot ≡ set }
    ensures no { 2 ^ slot ≡ set → IsTrue result }
{
    1 << slot == set
}

/// The same, where the slot is the set's only one.
fn find_in_slot<O: Offers>(
    ways: &Ways,
    offers: &O,
    set: usize,
    slot: u8,
    f: usize,
    cost: u128,
) -> Option<u32>
    requires front_in { f < set_rows.width ways.now }
    requires slot_in { slot < ways.now.task.now.slots }
    ensures found { ForSome result (λ k. IsRead ways.now.task.now (O.table offers.now) (set_rows.order_of ways.now f) set cost slot k) }
    ensures none { result ≡ None → (k : ℕ) → ¬ (IsRead ways.now.task.now (O.table offers.now) (set_rows.order_of ways.now f) set cost slot k) }
{
    if !is_slot_set(set, slot) {
        return None;
    }
    let fronts = ways.fronts.as_slice();
    find_offer(offers, slot, fronts[f], ways.task.wanted_list(), cost)
}

/// An offer of the set's one slot that serves a front at that cost.
fn find_read<O: Offers>(
    ways: &Ways,
    offers: &O,
    set: usize,
    f: usize,
    cost: u128,
) -> Option<(u8, u32)>
    requires { f < set_rows.width ways.now }
    ensures found { ForSome result (λ r. IsRead ways.now.task.now (O.table offers.now) (set_rows.order_of ways.now f) set cost r.0 r.1) }
    ensures none { result ≡ None → ¬ (IsOffered ways.now.task.now (O.table offers.now) (set_rows.order_of ways.now f) set cost) }
{
    for slot in 0..ways.task.slots {
        if let Some(offer) = find_in_slot(ways, offers, set, slot, f, cost) {
            return Some((slot, offer));
        }
    }
    None
}

/// The front of the left side with which a merge gives that cost.
fn left_front(
    heads: &[Option<Item>],
    left: &[Cell],
    right: &[Cell],
    price: u128,
    merge: Merge,
    f: usize,
    cost: u128,
) -> Option<usize>
    requires front_in { f < length heads.now }
    requires left_each { length left.now ≡ length heads.now }
    requires right_each { length right.now ≡ length heads.now }
    requires left_capped { set_rows.IsCapped left.now }
    requires right_capped { set_rows.IsCapped right.now }
    requires price_most { price ≤ 4000000000000000000 }
    requires need_in { merge.left_need < length heads.now }
    requires right_in { merge.right_front < length heads.now }
    ensures serves { ForSome result (λ g. order_fronts.longer_front (order_fronts.head_at heads.now merge.left_need) (order_fronts.head_at heads.now f) merge.left_need f ≡ Some g) }
    ensures costs { ForSome result (λ g. cost ≡ any_at left.now g + (any_at right.now merge.right_front + price)) }
    ensures none { result ≡ None → (g : ℕ) → order_fronts.longer_front (order_fronts.head_at heads.now merge.left_need) (order_fronts.head_at heads.now f) merge.left_need f ≡ Some g → ¬ (cost ≡ any_at left.now g + (any_at right.now merge.right_front + price)) }
{
    let base = any_of(right, merge.right_front) + price;
    let front = longer(heads[merge.left_need], heads[f], merge.left_need, f)?;
    if any_of(left, front) + base == cost {
        Some(front)
    } else {
        None
    }
}

/// The number of a merge of the list that gives that cost, with the front of its left side.
fn find_merge(
    heads: &[Option<Item>],
    left: &[Cell],
    right: &[Cell],
    price: u128,
    merges: &[Merge],
    f: usize,
    cost: u128,
) -> Option<(usize, usize)>
    requires front_in { f < length heads.now }
    requires left_each { length left.now ≡ length heads.now }
    requires right_each { length right.now ≡ length heads.now }
    requires left_capped { set_rows.IsCapped left.now }
    requires right_capped { set_rows.IsCapped right.now }
    requires price_most { price ≤ 4000000000000000000 }
    requires needs_in { (j : ℕ) → j < length merges.now → (merge_at merges.now j).left_need < length heads.now }
    requires fronts_in { (j : ℕ) → j < length merges.now → (merge_at merges.now j).right_front < length heads.now }
    ensures found { ForSome result (λ r. IsMergedBy heads.now left.now right.now price merges.now f cost r.0 r.1) }
    ensures none { result ≡ None → ¬ (IsMerged heads.now left.now right.now price merges.now f cost) }
{
    for j in 0..merges.len() {
        if let Some(front) = left_front(heads, left, right, price, merges[j], f, cost) {
            return Some((j, front));
        }
    }
    None
}

/// Whether a hash join of that cost gives the cost to a front.
fn hash_gives(heads: &[Option<Item>], f: usize, hash: u128, cost: u128) -> bool
    requires { f < length heads.now }
    ensures yes { IsTrue result → (order_fronts.head_at heads.now f ≡ None) × (cost ≡ hash) }
    ensures no { order_fronts.head_at heads.now f ≡ None → cost ≡ hash → IsTrue result }
{
    match heads[f] {
        None => cost == hash,
        Some(_) => false,
    }
}

/// A merge of the list, as a choice.
fn choose(merges: &[Merge], left: usize, j: usize, left_front: usize) -> Choice
    requires { j < length merges.now }
    ensures { result ≡ Choice.MergeOf (merge_at merges.now j).edge left left_front (merge_at merges.now j).right_front }
{
    Choice::MergeOf {
        edge: merges[j].edge,
        left,
        left_front,
        right_front: merges[j].right_front,
    }
}

/// A join of a cut's parts that gives that cost.
fn find_in_cut(
    ways: &Ways,
    cells: &[Cell],
    set: usize,
    k: usize,
    cut: &Cut,
    f: usize,
    cost: u128,
) -> Option<Choice>
    requires front_in { f < set_rows.width ways.now }
    requires whole { length cells.now ≡ set_rows.sets_of ways.now * set_rows.width ways.now }
    requires done { (s : ℕ) → s < set → set_rows.IsCapped (row_of (set_rows.width ways.now) cells.now s) }
    requires set_in { set < set_rows.sets_of ways.now }
    requires number { k < length (set_rows.cuts_of ways.now set) }
    requires cut_is { cut.now ≡ cut_at (set_rows.cuts_of ways.now set) k }
    ensures found { ForSome result (λ choice. IsCutChoice ways.now (row_of (set_rows.width ways.now) cells.now) cut.now f cost choice) }
    ensures none { result ≡ None → ¬ (set_rows.IsCutBy ways.now (row_of (set_rows.width ways.now) cells.now) cut.now f cost) }
{
    let left = row_in(ways, cells, cut.left);
    let right = row_in(ways, cells, cut.right);
    let heads = ways.heads.as_slice();
    let hash = cost_of(left, 0) + cost_of(right, 0) + cut.hash_price;
    if hash_gives(heads, f, hash, cost) {
        return Some(Choice::HashOf { left: cut.left });
    }
    let merges = merges_at(ways, cut);
    match find_merge(heads, left, right, cut.merge_price, merges, f, cost) {
        None => None,
        Some((j, front)) => Some(choose(merges, cut.left, j, front)),
    }
}

/// A join of parts of a set that gives that cost.
fn find_join(ways: &Ways, cells: &[Cell], set: usize, f: usize, cost: u128) -> Option<Choice>
    requires front_in { f < set_rows.width ways.now }
    requires whole { length cells.now ≡ set_rows.sets_of ways.now * set_rows.width ways.now }
    requires done { (s : ℕ) → s < set → set_rows.IsCapped (row_of (set_rows.width ways.now) cells.now s) }
    requires set_in { set < set_rows.sets_of ways.now }
    ensures found { ForSome result (λ choice. IsJoinChoice ways.now (row_of (set_rows.width ways.now) cells.now) (set_rows.cuts_of ways.now set) f cost choice) }
    ensures none { result ≡ None → ¬ (set_rows.IsJoined ways.now (row_of (set_rows.width ways.now) cells.now) (set_rows.cuts_of ways.now set) f cost) }
{
    let cuts = cuts_at(ways, set);
    for k in 0..cuts.len() {
        if let Some(choice) = find_in_cut(ways, cells, set, k, &cuts[k], f, cost) {
            return Some(choice);
        }
    }
    None
}

/// How a cheapest plan without a sort at its top is made, where there is one.
pub(crate) fn choice_of<O: Offers>(
    ways: &Ways,
    cells: &[Cell],
    offers: &O,
    set: usize,
    front: usize,
) -> Choice
    requires whole { length cells.now ≡ set_rows.sets_of ways.now * set_rows.width ways.now }
    requires done { set_rows.AreRows ways.now (O.table offers.now) (row_of (set_rows.width ways.now) cells.now) (set_rows.sets_of ways.now) }
    requires set_in { set < set_rows.sets_of ways.now }
    requires front_in { front < set_rows.width ways.now }
    requires possible { cost_at (row_of (set_rows.width ways.now) cells.now set) front < constant.IMPOSSIBLE }
    ensures { IsChosen ways.now.task.now (O.table offers.now) (order_fronts.listed ways.now.task.now) ways.now.fronts.items (row_of (set_rows.width ways.now) cells.now) set front (cost_at (row_of (set_rows.width ways.now) cells.now set) front) result }
{
    let cost = cost_of(row_in(ways, cells, set), front);
    if let Some((slot, offer)) = find_read(ways, offers, set, front, cost) {
        return Choice::Read { slot, offer };
    }
    match find_join(ways, cells, set, front, cost) {
        Some(choice) => choice,
        None => unreachable!(),
    }
}
