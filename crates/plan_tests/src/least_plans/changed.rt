//! Offers that differ from others only at some slots.
ghost use Rattle.std.specs.Prelude.{nat_lt, if◌then◌else◌};

use adv_base::Item;
use plan_model::Offers;

/// The first offers at slots below this one, the second at those from it on.
#[derive(Drop)]
pub struct Changed<'a, O> {
    pub first: &'a O,
    pub second: &'a O,
    pub slot: u8,
}

impl<O: Offers> Offers for Changed<'_, O> {
    ghost table = { λ t slot. if nat_lt slot t.slot then O.table t.first.now slot else O.table t.second.now slot };

    fn count(&self, slot: u8) -> u32 {
        if slot < self.slot {
            self.first.count(slot)
        } else {
            self.second.count(slot)
        }
    }

    fn price(&self, slot: u8, offer: u32) -> u64 {
        if slot < self.slot {
            self.first.price(slot, offer)
        } else {
            self.second.price(slot, offer)
        }
    }

    fn order(&self, slot: u8, offer: u32) -> &[Item] {
        if slot < self.slot {
            self.first.order(slot, offer)
        } else {
            self.second.order(slot, offer)
        }
    }

    fn limits(&self) {
        self.first.limits();
        self.second.limits();
    }
}
