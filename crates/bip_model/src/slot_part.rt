//! Slots of the parts of a programme.
ghost use Rattle.bip_model.specs.Limits.SlotParts.{SlotLimits};

use crate::grant::Grant;
use adv_base::List;

/// A slot of a block: for each of its at most 256 interesting orders the least price at which the table or an index that
/// exists gives it, and the grants of the candidates on its table, each with a price or None for each order.
#[derive(Debug, Drop)]
pub struct SlotPart {
    pub base: List<Option<u64>>,
    pub grants: List<Grant>,
    pub ghost limits: { SlotLimits base grants },
}
