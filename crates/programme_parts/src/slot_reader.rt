//! The prices of one slot.
ghost use Rattle.std.specs.Prelude.{◌≡◌, ◌++◌, ◌∷◌, [], OnOk};
ghost use Rattle.bip_model.specs.Values as values;

use access_paths::ConfigOffers;
use adv_base::limits::MOST_CANDIDATES;
use adv_base::{Item, List, NoMemory};
use bip_model::{Grant, SlotPart};
use plan_model::{Offers, begins_with};
use std::alloc::Global;

/// A slot of a block, with the offers of its table, of the table's indexes and of every candidate on it.
#[derive(Clone, Copy)]
pub(crate) struct SlotReader<'a> {
    pub offers: &'a ConfigOffers,
    pub slot: u8,
}

/// The lesser of two prices, of which either may be missing.
fn lesser(a: Option<u64>, b: Option<u64>) -> Option<u64>
    ensures { result ≡ values.lesser a b }
{
    match (a, b) {
        (Some(a), Some(b)) => Some(a.min(b)),
        (None, b) => b,
        (a, None) => a,
    }
}

/// Puts a grant at the end.
fn put(grants: &mut Vec<Grant>, grant: Grant) -> Result<(), NoMemory>
    ensures { OnOk result (grants.new.items ≡ grants.old.items ++ grant ∷ []) }
{
    grants.push(grant)?;
    Ok(())
}

impl SlotReader<'_> {
    ghost use Rattle.std.specs.Prelude.{◌≡◌, ◌+◌, ◌<◌, ◌≤◌, None, IfOk, OnOk, if◌then◌else◌, is_some, length, map};
    ghost use Rattle.bip_model.specs.Limits.Grants.{MOST_ORDERS};
    ghost use Rattle.bip_model.specs.StandsFor as stands;
    ghost use Rattle.programme_parts.specs.inner.Offered.{IsNumber};
    ghost use Rattle.programme_parts.specs.inner.Readers as reads;

    /// The price at which an offer gives an order: it does where its own begins with it.
    fn given(&self, offer: u32, order: &[Item]) -> Option<u64>
        requires { offer < length (reads.offers_of self.now) }
        ensures { result ≡ stands.given order.now (reads.offer_at self.now offer) }
    {
        if begins_with(self.offers.order(self.slot, offer), order) {
            Some(self.offers.price(self.slot, offer))
        } else {
            None
        }
    }

    /// The same of the table and of the indexes that exist: a candidate gives nothing here.
    fn given_already(&self, offer: u32, order: &[Item]) -> Option<u64>
        requires { offer < length (reads.offers_of self.now) }
        ensures { result ≡ (if is_some (reads.candidate_at self.now offer) then None else stands.given order.now (reads.offer_at self.now offer)) }
    {
        if self.offers.candidate_of(self.slot, offer).is_some() {
            return None;
        }
        self.given(offer, order)
    }

    /// The least price at which the table or an index that exists gives an order.
    fn base_price(&self, order: &[Item]) -> Option<u64>
        ensures { reads.IsBase self.now order.now result }
    {
        let mut best = None;
        for offer in 0..self.offers.count(self.slot) {
            best = lesser(best, self.given_already(offer, order));
        }
        best
    }

    /// That price for each order.
    fn base(&self, alloc: Global, orders: &[List<Item>]) -> Result<List<Option<u64>>, NoMemory>
        ensures { IfOk result (reads.AreBases self.now orders.now) }
    {
        let mut prices = Vec::with_capacity(alloc, orders.len())?;
        for order in orders {
            prices.push(self.base_price(order.as_slice()))?;
        }
        Ok(List { items: prices })
    }

    /// The price at which an offer gives each order.
    fn prices(
        &self,
        alloc: Global,
        offer: u32,
        orders: &[List<Item>],
    ) -> Result<List<Option<u64>>, NoMemory>
        requires { offer < length (reads.offers_of self.now) }
        ensures { IfOk result (λ prices. prices ≡ map (λ order. stands.given order (reads.offer_at self.now offer)) orders.now) }
    {
        let mut prices = Vec::with_capacity(alloc, orders.len())?;
        for order in orders {
            prices.push(self.given(offer, order.as_slice()))?;
        }
        Ok(List { items: prices })
    }

    /// The grant of a candidate, by its offer.
    fn grant(
        &self,
        alloc: Global,
        offer: u32,
        candidate: u16,
        orders: &[List<Item>],
    ) -> Result<Grant, NoMemory>
        requires within { offer < length (reads.offers_of self.now) }
        requires number { IsNumber candidate }
        ensures candidate_is { IfOk result (λ grant. grant.candidate ≡ candidate) }
        ensures prices_are { IfOk result (λ grant. grant.prices ≡ map (λ order. stands.given order (reads.offer_at self.now offer)) orders.now) }
    {
        let prices = self.prices(alloc, offer, orders)?;
        Ok(Grant { candidate, prices })
    }

    /// Pushes the grant of an offer, where it is a candidate's.
    fn push_grant(
        &self,
        alloc: Global,
        offer: u32,
        orders: &[List<Item>],
        grants: &mut Vec<Grant>,
    ) -> Result<(), NoMemory>
        requires within { offer < length (reads.offers_of self.now) }
        requires parted { reads.HasParted self.now }
        requires before { reads.AreGrantsBelow self.now orders.now offer grants.old.items }
        ensures { OnOk result (reads.AreGrantsBelow self.now orders.now (offer + 1) grants.new.items) }
    {
        match self.offers.candidate_of(self.slot, offer) {
            None => Ok(()),
            Some(candidate) => {
                let grant = self.grant(alloc, offer, candidate, orders)?;
                put(grants, grant)?;
                Ok(())
            }
        }
    }

    /// The grants of the candidates on the slot's table, in increasing number.
    fn grants(&self, alloc: Global, orders: &[List<Item>]) -> Result<List<Grant>, NoMemory>
        requires { reads.HasParted self.now }
        ensures { IfOk result (reads.AreGrants self.now orders.now) }
    {
        let count = self.offers.count(self.slot);
        let mut grants = Vec::with_capacity(alloc, (count as usize).min(MOST_CANDIDATES))?;
        for offer in 0..count {
            self.push_grant(alloc, offer, orders, &mut grants)?;
        }
        Ok(List { items: grants })
    }

    /// The slot's prices of these orders.
    pub(crate) fn part(&self, alloc: Global, orders: &[List<Item>]) -> Result<SlotPart, NoMemory>
        requires parted { reads.HasParted self.now }
        requires few { length orders.now ≤ MOST_ORDERS }
        ensures { IfOk result (reads.IsPriced self.now orders.now) }
    {
        let base = self.base(alloc, orders)?;
        let grants = self.grants(alloc, orders)?;
        Ok(SlotPart { base, grants })
    }
}
