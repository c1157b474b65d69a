//! Lagrangian multipliers.
ghost use Rattle.std.specs.Prelude.{◌≡◌, ◌*◌, ◌≤◌, IfOk, replicate};
ghost use Rattle.adv_base.specs.declared.limits.TheConstants.{MOST_CANDIDATES, MOST_SLOTS, MOST_STATEMENTS};
ghost use Rattle.bip_model.specs.Values as values;

use crate::part::Part;
use crate::programme::Programme;
use adv_base::{List, NoMemory};
use std::alloc::Global;

/// Multipliers of CoPhy's programme: `mu` is the price of a page of the budget, in parts of 65536 and at most 10^20;
/// `lambda` has, part by part, slot by slot and grant by grant, the rent of one use of the grant's candidate, in thousandths
/// of a page read and at most 10^18.
#[derive(Debug, Drop)]
pub struct Multipliers {
    pub mu: u128,
    pub lambda: List<u64>,
}

/// How many grants a part has.
pub fn part_grants(part: &Part) -> usize
    ensures exact { result ≡ values.part_grants part.now }
    ensures most { result ≤ MOST_SLOTS * MOST_CANDIDATES }
{
    let mut count = 0;
    for slot in part.slots.as_slice() {
        count += slot.grants.len();
    }
    count
}

/// How many grants a programme has: at most 2048000. Multipliers of it have as many rents.
#[tactic(auto, unfolding(crate::specs::Values::grant_count))]
pub fn grant_count(programme: &Programme) -> usize
    ensures exact { result ≡ values.grant_count programme.now }
    ensures most { result ≤ MOST_STATEMENTS * (MOST_SLOTS * MOST_CANDIDATES) }
{
    let mut count = 0;
    for part in programme.parts.as_slice() {
        count += part_grants(part);
    }
    count
}

impl Multipliers {
    /// The multipliers of a programme that are all 0. Want of memory is the one error.
    pub fn zero(alloc: Global, programme: &Programme) -> Result<Multipliers, NoMemory>
        ensures page { IfOk result (λ multipliers. multipliers.mu ≡ 0) }
        ensures rents { IfOk result (λ multipliers. multipliers.lambda ≡ replicate (values.grant_count programme.now) 0) }
    {
        Ok(Multipliers {
            mu: 0,
            lambda: List {
                items: vec![in alloc; 0; grant_count(programme)]?,
            },
        })
    }
}
