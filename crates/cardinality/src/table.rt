//! The rows of each set of slots.
ghost use Rattle.std.specs.Prelude.{◌≡◌, ◌<◌, ◌≤◌, ◌^◌, ◌+◌, ◌-◌, ◌*◌, ◌++◌, ◌∷◌, [], length, slice_index, IfOk, OnOk};
ghost use Rattle.adv_base.specs.Named.{NamesBlock};
ghost use Rattle.adv_base.specs.Sums as sum;
ghost use Rattle.cardinality.specs.Tables.{HoldsRows};
ghost use Rattle.adv_base.specs.declared.limits.TheConstants.{MOST_ROWS};

use crate::rows::slot_rows;
use crate::ties::Ties;
use adv_base::limits::MOST_ROWS;
use adv_base::{Block, Catalogue, List, NoMemory};
use std::alloc::Global;

/// The rows of the join of each set of slots, by the set as a number whose binary digit of weight 2^s says whether slot
/// s is in it.
#[derive(Debug, Drop)]
pub struct Rows {
    pub of: List<u64>,
}

impl Rows {
    /// The rows of the join of all slots, which is the last number.
    pub fn of_all(&self) -> u64
        requires { 0 < length self.now.of }
        ensures { result ≡ slice_index self.now.of (length self.now.of - 1) }
    {
        self.of.items[self.of.len() - 1]
    }
}

/// Puts a number at the end of a table.
fn put(of: &mut Vec<u64>, rows: u64) -> Result<(), NoMemory>
    ensures { OnOk result (of.new.items ≡ of.old.items ++ rows ∷ []) }
{
    of.push(rows)?;
    Ok(())
}

/// At each slot the rows so far times the slot's own, at most 10^12.
pub fn crossed(rows: u64, own: u64) -> u64
    requires rows_some { 1 ≤ rows }
    requires rows_few { rows ≤ MOST_ROWS }
    requires own_some { 1 ≤ own }
    requires own_few { own ≤ MOST_ROWS }
    ensures exact { result ≡ sum.capped (rows * own) }
    ensures least { 1 ≤ result }
    ensures most { result ≤ MOST_ROWS }
{
    (rows as u128 * own as u128).min(MOST_ROWS as u128) as u64
}

/// Goes from the sets of the slots below `slot` to those with that slot as well, which doubles the table.
fn add_slot(ties: &Ties<'_>, slot: u8, of: &mut Vec<u64>) -> Result<(), NoMemory>
    requires there { slot < length ties.now.block.now.slots }
    requires below { HoldsRows ties.now.cat.now ties.now.block.now (2 ^ slot) of.old.items }
    ensures { OnOk result (HoldsRows ties.now.cat.now ties.now.block.now (2 ^ (slot + 1)) of.new.items) }
{
    let own = slot_rows(ties.cat, ties.block, slot);
    let below = of.len();
    for rest in 0..below {
        let joined = ties.through(rest, slot, crossed(of[rest], own));
        put(of, joined)?;
    }
    Ok(())
}

/// The rows of the join of each set of the block's slots. The slots of a set are walked upwards from one row: at each
/// the number is multiplied by the slot's filtered rows, at most 10^12, and then taken through each edge between that
/// slot and an earlier one of the set. There are 2^n numbers for n slots; that of the empty set is 1.
pub fn rows_table(alloc: Global, cat: &Catalogue, block: &Block) -> Result<Rows, NoMemory>
    requires { NamesBlock cat.now block.now }
    ensures { IfOk result (λ rows. HoldsRows cat.now block.now (2 ^ length block.now.slots) rows.of) }
{
    let ties = Ties::new(alloc, cat, block)?;
    let mut of = Vec::new(alloc);
    put(&mut of, 1)?;
    let slots = block.slots.len() as u8;
    for slot in 0..slots {
        add_slot(&ties, slot, &mut of)?;
    }
    Ok(Rows {
        of: List { items: of },
    })
}
