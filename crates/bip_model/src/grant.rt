//! Grants.
ghost use Rattle.bip_model.specs.Limits.Grants.{GrantLimits};

use adv_base::List;

/// What a candidate gives at a slot: for each interesting order of the slot its price, in thousandths of a page read and at
/// most 10^19, or None where its offer doesn't begin with the order. Candidates are counted from 1.
#[derive(Debug, Drop)]
pub struct Grant {
    pub candidate: u16,
    pub prices: List<Option<u64>>,
    pub ghost limits: { GrantLimits candidate prices },
}
