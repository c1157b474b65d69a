//! Sets of a block's slots, as numbers: slot s is in a set where its binary digit of weight 2 ^ s is one.
ghost use Rattle.std.specs.Prelude.{◌≡◌, ◌<◌, ◌≤◌};
ghost use Rattle.adv_base.specs.declared.limits.TheConstants.{MOST_SLOTS};
ghost use Rattle.adv_base.specs.Sets as sets;

/// Whether a set has a slot.
pub fn has_slot(set: usize, slot: u8) -> bool
    ensures { result ≡ sets.has_slot set slot }
{
    slot < 64 && set & (1 << slot) != 0
}

/// The set of all slots of a block with that many.
pub fn all_slots(slots: u8) -> usize
    requires { slots ≤ MOST_SLOTS }
    ensures exact { result ≡ sets.all_slots slots }
    ensures small { result < 256 }
{
    (1 << slots) - 1
}
