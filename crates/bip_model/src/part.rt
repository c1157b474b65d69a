//! Parts of a programme.
ghost use Rattle.bip_model.specs.Limits.Parts.{PartLimits};

use crate::slot_part::SlotPart;
use adv_base::List;
use plan_model::Template;

/// The part of a statement, which is counted from 1: its weight, from 1 to 10^6, its templates (INUM's), each of which needs
/// an order of each slot by its number, and its 1 to 8 slots.
#[derive(Debug, Drop)]
pub struct Part {
    pub statement: u16,
    pub weight: u32,
    pub templates: List<Template>,
    pub slots: List<SlotPart>,
    pub ghost limits: { PartLimits statement weight templates slots },
}
