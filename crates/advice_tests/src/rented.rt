//! Offers at which each use of a candidate pays a rent.
ghost use Rattle.std.specs.Prelude.{◌≡◌};
ghost use Rattle.advice_tests.specs.Rents as renting;

use access_paths::ConfigOffers;
use adv_base::Item;
use adv_base::limits::MOST_PRICE;
use plan_model::Offers;

/// The rent of a use of a candidate at a slot, which stands at place 8 * number + slot; what is no candidate pays none.
pub(crate) fn rent_at(rents: &[u64], number: Option<u16>, slot: u8) -> u64
    ensures { result ≡ renting.rent_at rents.now number slot }
{
    match number {
        None => 0,
        Some(number) => {
            let place = 8 * number as usize + slot as usize;
            rents.get(place).copied().unwrap_or(0)
        }
    }
}

/// The offers of a block under a configuration, with the rents of its candidates. A price is at most 10^19, which bites
/// nowhere: an index costs at most 4 * 10^18, and a rent is at most 10^18.
#[derive(Drop)]
pub(crate) struct Rented<'a> {
    pub offers: &'a ConfigOffers,
    pub rents: &'a [u64],
}

impl Offers for Rented<'_> {
    ghost table = { λ t. renting.rented_table t.rents.now t.offers.now.slots.items };

    #[tactic(auto, using(crate::proofs::Rents::rented_length))]
    fn count(&self, slot: u8) -> u32 {
        self.offers.count(slot)
    }

    #[tactic(auto, using(crate::proofs::Rents::rented_length, crate::proofs::Rents::rented_price))]
    fn price(&self, slot: u8, offer: u32) -> u64 {
        let rent = rent_at(self.rents, self.offers.candidate_of(slot, offer), slot);
        self.offers
            .price(slot, offer)
            .saturating_add(rent)
            .min(MOST_PRICE)
    }

    #[tactic(auto, using(crate::proofs::Rents::rented_length, crate::proofs::Rents::rented_order))]
    fn order(&self, slot: u8, offer: u32) -> &[Item] {
        self.offers.order(slot, offer)
    }

    #[tactic(auto, using(crate::proofs::Rents::rented_limits))]
    fn limits(&self) {
        self.offers.limits();
    }
}
