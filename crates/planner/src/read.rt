//! Offers of a slot, in the row of the set that has that slot alone.
ghost use Rattle.std.specs.Prelude.{◌≡◌, ℕ, ◌<◌, ◌≤◌, ◌^◌, length};
ghost use Rattle.adv_base.specs.OfferTables.{price_at, order_at};
ghost use Rattle.planner.specs.Fronts as order_fronts;
ghost use Rattle.planner.specs.Cells.{cell_at, cost_at};
ghost use Rattle.planner.specs.inner.Steps as steps;
ghost use Rattle.planner.specs.Rows.{OffersBound};

use crate::cell::{Cell, better};
use crate::front::{Front, serves};
use adv_base::Item;
use plan_model::{Offers, Task};

/// The cell after an offer, which serves the cell's front or not.
fn offered(cell: Cell, fits: bool, price: u64) -> Cell
    ensures { result ≡ steps.offered cell fits price }
{
    if fits {
        better(cell, price as u128)
    } else {
        cell
    }
}

/// Offers each cell of a row an offer of the slot; `list` is what `Listed` stands for.
fn read_offer<O: Offers>(
    row: &mut [Cell],
    offers: &O,
    fronts: &[Front],
    list: &[Item],
    slot: u8,
    offer: u32,
)
    requires row_each { length row.old ≡ length fronts.now }
    requires offer_in { offer < length (O.table offers.now slot) }
    ensures { (f : ℕ) → f < length fronts.now → cell_at row.new f ≡ steps.offered (cell_at row.old f) (order_fronts.begins_test (order_at (O.table offers.now) slot offer) (order_fronts.asked list.now fronts.now f)) (price_at (O.table offers.now) slot offer) }
{
    let price = offers.price(slot, offer);
    let order = offers.order(slot, offer);
    for f in 0..fronts.len() {
        let fits = serves(order, fronts[f], list);
        row[f] = offered(row[f], fits, price);
    }
}

/// Offers each cell of a row all offers of the slot, which is the set's only one.
fn read_slot<O: Offers>(
    row: &mut [Cell],
    task: &Task,
    offers: &O,
    fronts: &[Front],
    set: usize,
    slot: u8,
)
    requires row_each { length row.old ≡ length fronts.now }
    requires offers { steps.AreOffers task.now (O.table offers.now) (order_fronts.listed task.now) fronts.now set row.old }
    requires slot_in { slot < task.now.slots }
    requires set_is { 2 ^ slot ≡ set }
    ensures offers { steps.AreOffers task.now (O.table offers.now) (order_fronts.listed task.now) fronts.now set row.new }
    ensures lower { (f : ℕ) → f < length fronts.now → cost_at row.new f ≤ cost_at row.old f }
    ensures bounds { (f : ℕ) → f < length fronts.now → steps.SlotBound (O.table offers.now) (order_fronts.asked (order_fronts.listed task.now) fronts.now f) slot (cost_at row.new f) }
{
    let list = task.wanted_list();
    for offer in 0..offers.count(slot) {
        read_offer(row, offers, fronts, list, slot, offer);
    }
}

/// Offers each cell of a row all offers of the slot, where it is the set's only one.
fn read_if<O: Offers>(
    row: &mut [Cell],
    task: &Task,
    offers: &O,
    fronts: &[Front],
    set: usize,
    slot: u8,
)
    requires row_each { length row.old ≡ length fronts.now }
    requires offers { steps.AreOffers task.now (O.table offers.now) (order_fronts.listed task.now) fronts.now set row.old }
    requires slot_in { slot < task.now.slots }
    ensures offers { steps.AreOffers task.now (O.table offers.now) (order_fronts.listed task.now) fronts.now set row.new }
    ensures lower { (f : ℕ) → f < length fronts.now → cost_at row.new f ≤ cost_at row.old f }
    ensures bounds { 2 ^ slot ≡ set → (f : ℕ) → f < length fronts.now → steps.SlotBound (O.table offers.now) (order_fronts.asked (order_fronts.listed task.now) fronts.now f) slot (cost_at row.new f) }
{
    if 1 << slot == set {
        read_slot(row, task, offers, fronts, set, slot);
    }
}

/// Offers each cell of a set's row all offers of the set's slot, where it has one alone.
pub(crate) fn read_row<O: Offers>(
    row: &mut [Cell],
    task: &Task,
    offers: &O,
    fronts: &[Front],
    set: usize,
)
    requires row_each { length row.old ≡ length fronts.now }
    requires offers { steps.AreOffers task.now (O.table offers.now) (order_fronts.listed task.now) fronts.now set row.old }
    ensures offers { steps.AreOffers task.now (O.table offers.now) (order_fronts.listed task.now) fronts.now set row.new }
    ensures lower { (f : ℕ) → f < length fronts.now → cost_at row.new f ≤ cost_at row.old f }
    ensures bounds { (f : ℕ) → f < length fronts.now → OffersBound task.now (O.table offers.now) (order_fronts.asked (order_fronts.listed task.now) fronts.now f) set (cost_at row.new f) }
{
    for slot in 0..task.slots {
        read_if(row, task, offers, fronts, set, slot);
    }
}
