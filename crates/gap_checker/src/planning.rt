//! Least plans with rents.
ghost use Rattle.std.specs.Prelude.{◌≡◌, ◌+◌, ◌<◌, ◌≤◌, ◌++◌, ◌∷◌, [], IfOk, OnOk, length};
ghost use Rattle.access_paths.specs.ConfigOffers as paths;
ghost use Rattle.adv_base.specs.Named.{NamesBlock, NamesWork};
ghost use Rattle.adv_base.specs.Offers as offers;
ghost use Rattle.adv_base.specs.OfferTables as tables;
ghost use Rattle.adv_base.specs.declared.limits.TheConstants.{MOST_INDEX_PRICE, MOST_SLOTS};
ghost use Rattle.certificate.specs.Limits.{EntriesFrom};
ghost use Rattle.plan_model.specs.Lagrangian as lagrangian;
ghost use Rattle.plan_model.specs.declared.plan.TheConstants.{MOST_COST};
ghost use Rattle.adv_base.specs.Settings.{the_setting};
ghost use Rattle.gap_checker.specs.inner.Charges.{charge_of};
ghost use Rattle.gap_checker.specs.inner.Parts as kept;
ghost use Rattle.gap_checker.specs.inner.Rows as rows;

use crate::board::Board;
use crate::desk::Desk;
use crate::multipliers::Terms;
use crate::part::Part;
use crate::row::{Row, Shown};
use adv_base::{Block, NoMemory, Setting, Statement};
use plan_model::Offers;
use std::alloc::Global;

/// Puts an offer at the end.
fn put<'a>(row: &mut Vec<Shown<'a>>, shown: Shown<'a>) -> Result<(), NoMemory>
    ensures put { OnOk result (rows.offers_of row.new.items ≡ rows.offers_of row.old.items ++ rows.offer_of shown.entry ∷ []) }
    ensures one { OnOk result (length row.new.items ≡ length row.old.items + 1) }
{
    row.push(shown)?;
    Ok(())
}

/// Puts an offer of a slot at the end, where it is one of what exists, or of a candidate that is available.
fn show<'a>(
    row: &mut Vec<Shown<'a>>,
    part: &'a Part,
    terms: &Terms<'_>,
    statement: u16,
    slot: u8,
    offer: u32,
) -> Result<(), NoMemory>
    requires slot_in { slot < MOST_SLOTS }
    requires offer_in { offer < length (paths.table_of part.now.offers.slots.items slot) }
    requires prices { tables.PricesWithin MOST_INDEX_PRICE (paths.table_of part.now.offers.slots.items) }
    requires rise { EntriesFrom 0 terms.now.rents.entries.now }
    ensures few { OnOk result (length row.new.items ≤ length row.old.items + 1) }
    ensures shown { OnOk result (rows.offers_of row.new.items ≡ rows.offers_of row.old.items ++ rows.shown_of terms.now.config.now (charge_of terms.now statement slot) (paths.candidate_at part.now.offers.slots.items slot offer) (tables.order_at (paths.table_of part.now.offers.slots.items) slot offer, tables.price_at (paths.table_of part.now.offers.slots.items) slot offer)) }
{
    let order = part.offers.order(slot, offer);
    let price = part.offers.price(slot, offer);
    match part.offers.candidate_of(slot, offer) {
        None => put(row, Shown { order, price }),
        Some(number) => {
            if !terms.config.has(number) {
                return Ok(());
            }
            let price = price + terms.rents.rent(statement, slot, number);
            put(row, Shown { order, price })
        }
    }
}

/// The offers of a slot that are shown.
fn row_of<'a>(
    alloc: Global,
    part: &'a Part,
    terms: &Terms<'_>,
    statement: u16,
    slot: u8,
) -> Result<Row<'a>, NoMemory>
    requires slot_in { slot < MOST_SLOTS }
    requires prices { tables.PricesWithin MOST_INDEX_PRICE (paths.table_of part.now.offers.slots.items) }
    requires rise { EntriesFrom 0 terms.now.rents.entries.now }
    ensures { IfOk result (λ row. rows.offers_of row.shown.items ≡ rows.shown_from terms.now.config.now (charge_of terms.now statement slot) (paths.candidate_at part.now.offers.slots.items slot) 0 (paths.table_of part.now.offers.slots.items slot)) }
{
    let mut shown = Vec::new(alloc);
    for offer in 0..part.offers.count(slot) {
        show(&mut shown, part, terms, statement, slot, offer)?;
    }
    Ok(Row { shown })
}

/// Puts the offers of the next slot at the end.
fn put_row<'a>(list: &mut Vec<Row<'a>>, row: Row<'a>) -> Result<(), NoMemory>
    ensures { OnOk result (list.new.items ≡ list.old.items ++ row.entry ∷ []) }
{
    list.push(row)?;
    Ok(())
}

/// The offers of all slots of a block that are shown: those of what is available, with the rents of its uses.
fn board_of<'a>(
    alloc: Global,
    setting: &Setting<'_>,
    block: &Block,
    part: &'a Part,
    terms: &Terms<'_>,
    statement: u16,
) -> Result<Board<'a>, NoMemory>
    requires part_is { kept.IsPart (the_setting setting.now) block.now part.now }
    requires rise { EntriesFrom 0 terms.now.rents.entries.now }
    ensures { IfOk result (λ board. rows.table_of board.rows.items ≡ offers.charged_offers (charge_of terms.now statement) setting.now.cat.now block.now setting.now.shapes.now terms.now.config.now) }
{
    let mut list = Vec::new(alloc);
    for slot in 0..part.task.slots {
        let row = row_of(alloc, part, terms, statement, slot)?;
        put_row(&mut list, row)?;
    }
    Ok(Board { rows: list })
}

/// What a least plan of a block costs over what is available, the rent added to each use of a candidate.
fn block_cost(
    alloc: Global,
    setting: &Setting<'_>,
    block: &Block,
    desk: &mut Desk<'_>,
    terms: &Terms<'_>,
    statement: u16,
) -> Result<u128, NoMemory>
    requires named { NamesBlock setting.now.cat.now block.now }
    requires part_is { kept.IsPart (the_setting setting.now) block.now desk.old.part.now }
    requires rise { EntriesFrom 0 terms.now.rents.entries.now }
    ensures least { IfOk result (lagrangian.IsRentedCost (the_setting setting.now) terms.now.config.now (charge_of terms.now statement) block.now) }
    ensures most { IfOk result (λ cost. cost < MOST_COST) }
    ensures same { OnOk result (desk.new.part.now ≡ desk.old.part.now) }
{
    let part = desk.part;
    let board = board_of(alloc, setting, block, part, terms, statement)?;
    board.limits();
    Ok(desk.search.cost(&board))
}

/// The same of the block of a statement.
fn desk_cost(
    alloc: Global,
    setting: &Setting<'_>,
    statement: &Statement,
    desk: &mut Desk<'_>,
    terms: &Terms<'_>,
    number: u16,
) -> Result<u128, NoMemory>
    requires named { NamesWork setting.now.cat.now statement.now.work }
    requires part_is { kept.IsPlanned (the_setting setting.now) statement.now desk.old.part.now }
    requires rise { EntriesFrom 0 terms.now.rents.entries.now }
    ensures least { IfOk result (lagrangian.IsRentedPlan (the_setting setting.now) terms.now.config.now (charge_of terms.now number) statement.now.work) }
    ensures most { IfOk result (λ cost. cost < MOST_COST) }
    ensures same { OnOk result (desk.new.part.now ≡ desk.old.part.now) }
{
    match statement.work.block() {
        Some(block) => block_cost(alloc, setting, block, desk, terms, number),
        None => unreachable!(),
    }
}

/// The same of the statement of a number, from 1; an INSERT has no plan.
pub(crate) fn plan_cost(
    alloc: Global,
    setting: &Setting<'_>,
    statement: &Statement,
    desk: &mut Option<Desk<'_>>,
    terms: &Terms<'_>,
    number: u16,
) -> Result<u128, NoMemory>
    requires named { NamesWork setting.now.cat.now statement.now.work }
    requires desk_is { kept.HasDesk (the_setting setting.now) statement.now desk.old }
    requires rise { EntriesFrom 0 terms.now.rents.entries.now }
    ensures least { IfOk result (lagrangian.IsRentedPlan (the_setting setting.now) terms.now.config.now (charge_of terms.now number) statement.now.work) }
    ensures most { IfOk result (λ cost. cost < MOST_COST) }
    ensures desk { OnOk result (kept.HasDesk (the_setting setting.now) statement.now desk.new) }
{
    match desk {
        Some(desk) => desk_cost(alloc, setting, statement, desk, terms, number),
        None => Ok(0),
    }
}
