//! The Lagrangian value of a node, by a plain program that keeps nothing and saves no work.

use bip_model::{Fix, Grant, Multipliers, Part, Programme, SlotPart, State};
use plan_model::Template;

/// A number of a programme, with a sign.
fn signed(n: u128) -> i128 {
    i128::try_from(n).unwrap_or(i128::MAX)
}

/// The pages of all candidates that are in.
fn pages_inside(programme: &Programme, fix: &Fix) -> u64 {
    let mut pages: u64 = 0;
    for (size, state) in programme.sizes.as_slice().iter().zip(fix.state.as_slice()) {
        if *state == State::In {
            pages = pages.saturating_add(*size);
        }
    }
    pages
}

/// The state of the candidate of a number, from 1.
fn state_of(fix: &Fix, number: u16) -> State {
    match fix.state.get((number as usize).saturating_sub(1)) {
        Some(state) => *state,
        None => State::Out,
    }
}

/// The pages of the candidate of a number.
fn size_of(programme: &Programme, number: u16) -> u64 {
    programme
        .sizes
        .as_slice()
        .get((number as usize).saturating_sub(1))
        .copied()
        .unwrap_or(0)
}

/// Whether a candidate is free and fits the budget beside those that are in.
fn is_open(programme: &Programme, budget: u64, fix: &Fix, number: u16) -> bool {
    let pages = pages_inside(programme, fix).saturating_add(size_of(programme, number));
    state_of(fix, number) == State::Free && pages <= budget
}

/// A node with its multipliers.
#[derive(Drop)]
pub(crate) struct Priced<'a> {
    pub programme: &'a Programme,
    pub budget: u64,
    pub fix: &'a Fix,
    pub multipliers: &'a Multipliers,
}

impl Priced<'_> {
    /// The rent of the grant of a number, among all grants.
    fn rent(&self, at: usize) -> u128 {
        self.multipliers
            .lambda
            .as_slice()
            .get(at)
            .copied()
            .unwrap_or(0) as u128
    }

    fn may_use(&self, number: u16) -> bool {
        state_of(self.fix, number) == State::In
            || is_open(self.programme, self.budget, self.fix, number)
    }

    /// The price of an order by a grant with its rent.
    fn grant_price(&self, grant: &Grant, at: usize, order: usize) -> Option<u128> {
        if !self.may_use(grant.candidate) {
            return None;
        }
        let price = grant.prices.as_slice().get(order).copied().flatten()?;
        Some((price as u128).saturating_add(self.rent(at)))
    }

    /// The least price of an order at a slot whose first grant has a number.
    fn price(&self, slot: &SlotPart, first: usize, order: usize) -> Option<u128> {
        let mut least = slot
            .base
            .as_slice()
            .get(order)
            .copied()
            .flatten()
            .map(u128::from);
        let mut at = first;
        for grant in slot.grants.as_slice() {
            least = match (least, self.grant_price(grant, at, order)) {
                (Some(a), Some(b)) => Some(a.min(b)),
                (None, b) => b,
                (a, None) => a,
            };
            at = at.saturating_add(1);
        }
        least
    }

    /// What a template costs.
    fn template_cost(&self, part: &Part, first: usize, template: &Template) -> Option<u128> {
        let mut cost = template.internal;
        let mut at = first;
        for (slot, need) in part.slots.as_slice().iter().zip(template.needs.as_slice()) {
            cost = cost.saturating_add(self.price(slot, at, *need as usize)?);
            at = at.saturating_add(slot.grants.len());
        }
        Some(cost)
    }

    /// The least cost of a part over its templates.
    fn part_cost(&self, part: &Part, first: usize) -> u128 {
        let mut least = u128::MAX;
        for template in part.templates.as_slice() {
            least = least.min(
                self.template_cost(part, first, template)
                    .unwrap_or(u128::MAX),
            );
        }
        least
    }

    /// The weighted rents of the candidate of a number.
    fn rents(&self, number: u16) -> i128 {
        let mut sum: i128 = 0;
        let mut at: usize = 0;
        for part in self.programme.parts.as_slice() {
            for slot in part.slots.as_slice() {
                for grant in slot.grants.as_slice() {
                    if grant.candidate == number {
                        let rent = signed(self.rent(at)).saturating_mul(i128::from(part.weight));
                        sum = sum.saturating_add(rent);
                    }
                    at = at.saturating_add(1);
                }
            }
        }
        sum
    }

    /// What a candidate costs less its rents, in parts of 65536.
    fn net_cost(&self, number: u16) -> i128 {
        let place = (number as usize).saturating_sub(1);
        let upkeep = self
            .programme
            .upkeep
            .as_slice()
            .get(place)
            .copied()
            .unwrap_or(0);
        let net = signed(upkeep).saturating_sub(self.rents(number));
        let pages = i128::from(size_of(self.programme, number));
        net.saturating_mul(65536)
            .saturating_add(signed(self.multipliers.mu).saturating_mul(pages))
    }

    /// The Lagrangian value.
    pub(crate) fn value(&self) -> i128 {
        let mut plans: i128 = signed(self.programme.kept);
        let mut at: usize = 0;
        for part in self.programme.parts.as_slice() {
            let cost = signed(self.part_cost(part, at)).saturating_mul(i128::from(part.weight));
            plans = plans.saturating_add(cost);
            for slot in part.slots.as_slice() {
                at = at.saturating_add(slot.grants.len());
            }
        }
        let mut sum = plans.saturating_mul(65536);
        for number in 1..7u16 {
            let net = self.net_cost(number);
            if state_of(self.fix, number) == State::In {
                sum = sum.saturating_add(net);
            } else if is_open(self.programme, self.budget, self.fix, number) {
                sum = sum.saturating_add(net.min(0));
            }
        }
        let price = signed(self.multipliers.mu).saturating_mul(i128::from(self.budget));
        let less = price.saturating_sub(sum);
        0i128.saturating_sub(less.div_euclid(65536))
    }
}
