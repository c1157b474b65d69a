//! The memory of a search.
ghost use Rattle.std.specs.Prelude.{◌≡◌, ◌<◌, All, IfOk, length, replicate};
ghost use Rattle.adv_base.specs.declared.limits.TheConstants.{MOST_ENTRIES, MOST_SETS};
ghost use Rattle.bip_model.specs.Values.{grant_count};
ghost use Rattle.bip_model.specs.Views.{AreMultipliers};
ghost use Rattle.lagrange_bound.specs.Ledgers.{HasPlaces, HasRoom};
ghost use Rattle.branch_bound.specs.Rooms.{IsSetLimit};

use crate::ledgers::Ledgers;
use crate::proposing::Spares;
use adv_base::NoMemory;
use adv_base::limits::{MOST_ENTRIES, MOST_SETS};
use bip_model::{Multipliers, Node, Programme, grant_count};
use lagrange_bound::{CheaperParts, Ledger, PriceRows};
use std::alloc::Global;

/// All the memory that a search takes beside that of `Proposals`, in bytes: 4 for each node of its budget; 8 for each
/// grant of the programme in each set of multipliers, of which there are zeros, one that is worked on and as many as
/// `set_limit` says, so that these are at most 1500000 numbers or one set; 17 for each part and 5 thousand in each of
/// 17 ledgers, and 16 thousand and 8 for each order of each slot for what they are priced in; 8 for each part and 256
/// thousand for the parts that each candidate can make cheaper, and for the lists of prices at most 16 for each slot
/// and each order of it, 18 for each grant, and 32 for each price of a grant below what exists, and half as much again
/// while they grow.
#[derive(Drop)]
pub struct Room {
    pub(crate) tree: Vec<Node>,
    pub(crate) zeros: Multipliers,
    pub(crate) spares: Spares,
    pub(crate) sets: Vec<Multipliers>,
    pub(crate) cheaper: CheaperParts,
    pub(crate) ledgers: Ledgers,
}

/// How many sets of multipliers a search of a programme may keep: 16, or fewer where these were more rents than an
/// answer may have, and at least one.
pub(crate) fn set_limit(programme: &Programme) -> usize
    ensures { IsSetLimit programme.now result }
{
    let grants = grant_count(programme);
    if grants == 0 {
        return MOST_SETS;
    }
    (MOST_ENTRIES / grants).min(MOST_SETS).max(1)
}

/// Multipliers of zeros.
fn zero_set(alloc: Global, programme: &Programme) -> Result<Multipliers, NoMemory>
    ensures page { IfOk result (λ set. set.mu ≡ 0) }
    ensures rents { IfOk result (λ set. set.lambda ≡ replicate (grant_count programme.now) 0) }
    ensures fit { IfOk result (AreMultipliers programme.now) }
{
    Multipliers::zero(alloc, programme)
}

/// So many sets of multipliers, of zeros.
fn zero_sets(
    alloc: Global,
    programme: &Programme,
    count: usize,
) -> Result<Vec<Multipliers>, NoMemory>
    ensures { IfOk result (λ sets. All (AreMultipliers programme.now) sets.items) }
{
    let mut sets = Vec::with_capacity(alloc, count)?;
    for round in 0..count {
        let set = zero_set(alloc, programme)?;
        sets.push(set)?;
    }
    Ok(sets)
}

/// So many ledgers, of which none is open.
fn closed_ledgers(
    alloc: Global,
    programme: &Programme,
    count: usize,
) -> Result<Vec<Ledger>, NoMemory>
    ensures all { IfOk result (λ ledgers. All (HasRoom programme.now) ledgers.items) }
    ensures count { IfOk result (λ ledgers. length ledgers.items ≡ count) }
{
    let mut ledgers = Vec::with_capacity(alloc, count)?;
    for round in 0..count {
        let ledger = Ledger::new(alloc, programme)?;
        ledgers.push(ledger)?;
    }
    Ok(ledgers)
}

impl Spares {
    /// Multipliers for the sets of a search of a programme.
    fn new(alloc: Global, programme: &Programme) -> Result<Spares, NoMemory>
        ensures first { IfOk result (λ spares. AreMultipliers programme.now spares.first) }
        ensures spare { IfOk result (λ spares. AreMultipliers programme.now spares.spare) }
        ensures others { IfOk result (λ spares. All (AreMultipliers programme.now) spares.others.items) }
    {
        let first = zero_set(alloc, programme)?;
        let spare = zero_set(alloc, programme)?;
        let others = zero_sets(alloc, programme, set_limit(programme) - 1)?;
        Ok(Spares {
            first,
            spare,
            others,
        })
    }
}

impl Ledgers {
    /// The ledgers of a search of a programme, of which none is open.
    fn new(
        alloc: Global,
        programme: &Programme,
        cheaper: &CheaperParts,
    ) -> Result<Ledgers, NoMemory>
        ensures ledgers { IfOk result (λ ledgers. All (HasRoom programme.now) ledgers.each.items) }
        ensures most { IfOk result (λ ledgers. MOST_SETS < length ledgers.each.items) }
        ensures places { IfOk result (λ ledgers. HasPlaces cheaper.now ledgers.rows) }
    {
        let each = closed_ledgers(alloc, programme, MOST_SETS + 1)?;
        let rows = PriceRows::new(alloc, cheaper)?;
        Ok(Ledgers { each, rows })
    }
}

impl Room {
    ghost use Rattle.branch_bound.specs.Rooms.{IsRoomFor};

    /// The room of a search of a programme with at most so many nodes. Want of memory is the one error.
    pub fn new(alloc: Global, programme: &Programme, nodes: u32) -> Result<Room, NoMemory>
        ensures { IfOk result (IsRoomFor programme.now nodes) }
    {
        let tree = Vec::with_capacity(alloc, nodes as usize)?;
        let sets = Vec::with_capacity(alloc, MOST_SETS)?;
        let zeros = zero_set(alloc, programme)?;
        let spares = Spares::new(alloc, programme)?;
        let cheaper = CheaperParts::new(alloc, programme)?;
        let ledgers = Ledgers::new(alloc, programme, &cheaper)?;
        Ok(Room {
            tree,
            zeros,
            spares,
            sets,
            cheaper,
            ledgers,
        })
    }
}
