//! Programmes and answers that are made by hand. Prices don't matter to a certificate, so that no slot has an order.
ghost use Rattle.std.specs.Prelude.{◌≡◌, ◌<◌, ◌≤◌, [], ◌∷◌, All, length, replicate, sum_by};
ghost use Rattle.std.specs.List.{AllByRecursion};
ghost use Rattle.adv_base.specs.declared.limits.TheConstants.{MOST_PAGE_PRICE, MOST_RENT};
ghost use Rattle.bip_model.specs.Values as values;
ghost use Rattle.certificate.specs.Answers as answers;

use adv_base::List;
use adv_base::limits::{MOST_CANDIDATES, MOST_PAGE_PRICE, MOST_RENT};
use bip_model::{Grant, Multipliers, Part, Programme, SlotPart};
use std::alloc::Global;
use std::process::Abort;

fn grant(alloc: Global, candidate: u16) -> Grant
    requires least { 1 ≤ candidate }
    requires most { candidate ≤ 256 }
    ensures number { result.candidate ≡ candidate }
    ensures none { length result.prices ≡ 0 }
{
    Grant {
        candidate,
        prices: List::new(alloc),
    }
}

/// A slot with grants of two candidates.
pub fn slot(rt: &impl Abort, alloc: Global, first: u16, second: u16) -> SlotPart
    requires least { 1 ≤ first }
    requires rise { first < second }
    requires most { second ≤ 256 }
    ensures rise { answers.GrantsRise 1 result.grants }
    ensures two { length result.grants ≡ 2 }
{
    let mut grants = Vec::new(alloc);
    grants.push(grant(alloc, first)).expect(rt, "memory");
    grants.push(grant(alloc, second)).expect(rt, "memory");
    SlotPart {
        base: List::new(alloc),
        grants: List { items: grants },
    }
}

/// The part of a statement with two slots.
pub fn part(
    rt: &impl Abort,
    alloc: Global,
    statement: u16,
    first: SlotPart,
    second: SlotPart,
) -> Part
    requires least { 1 ≤ statement }
    requires most { statement ≤ 1000 }
    requires first_rises { answers.GrantsRise 1 first.grants }
    requires second_rises { answers.GrantsRise 1 second.grants }
    requires first_two { length first.grants ≡ 2 }
    requires second_two { length second.grants ≡ 2 }
    ensures number { result.statement ≡ statement }
    ensures rise { AllByRecursion (λ slot. answers.GrantsRise 1 slot.grants) result.slots }
    ensures four { values.part_grants result ≡ 4 }
{
    let mut slots = Vec::new(alloc);
    slots.push(first).expect(rt, "memory");
    slots.push(second).expect(rt, "memory");
    Part {
        statement,
        weight: 1,
        templates: List::new(alloc),
        slots: List { items: slots },
    }
}

/// Two parts, whose statements rise.
pub fn two(rt: &impl Abort, alloc: Global, first: Part, second: Part) -> List<Part>
    requires least { 1 ≤ first.statement }
    requires order { first.statement < second.statement }
    requires first_rises { AllByRecursion (λ slot. answers.GrantsRise 1 slot.grants) first.slots }
    requires second_rises { AllByRecursion (λ slot. answers.GrantsRise 1 slot.grants) second.slots }
    requires first_four { values.part_grants first ≡ 4 }
    requires second_four { values.part_grants second ≡ 4 }
    ensures order { answers.PartsRise 1 result }
    ensures eight { sum_by values.part_grants result ≡ 8 }
    ensures count { length result ≡ 2 }
{
    let mut parts = Vec::new(alloc);
    parts.push(first).expect(rt, "memory");
    parts.push(second).expect(rt, "memory");
    List { items: parts }
}

fn sizes(rt: &impl Abort, alloc: Global) -> List<u64>
    ensures { result ≡ replicate 256 0 }
{
    List {
        items: vec![in alloc; 0; MOST_CANDIDATES].expect(rt, "memory"),
    }
}

fn upkeep(rt: &impl Abort, alloc: Global) -> List<u128>
    ensures { result ≡ replicate 256 0 }
{
    List {
        items: vec![in alloc; 0; MOST_CANDIDATES].expect(rt, "memory"),
    }
}

/// A programme of parts that are in order.
#[tactic(auto, unfolding(bip_model::specs::Values::grant_count))]
pub fn programme(rt: &impl Abort, alloc: Global, parts: List<Part>) -> Programme
    requires order { answers.PartsRise 1 parts }
    requires eight { sum_by values.part_grants parts ≡ 8 }
    requires few { length parts ≤ 1000 }
    ensures order { answers.InOrder result }
    ensures eight { values.grant_count result ≡ 8 }
{
    Programme {
        sizes: sizes(rt, alloc),
        upkeep: upkeep(rt, alloc),
        kept: 0,
        parts,
    }
}

/// Two sets of multipliers.
pub fn both(
    rt: &impl Abort,
    alloc: Global,
    first: Multipliers,
    second: Multipliers,
) -> List<Multipliers>
    ensures { result ≡ first ∷ second ∷ [] }
{
    let mut sets = Vec::new(alloc);
    sets.push(first).expect(rt, "memory");
    sets.push(second).expect(rt, "memory");
    List { items: sets }
}

/// Multipliers with these rents.
pub fn set(rt: &impl Abort, alloc: Global, mu: u128, rents: [u64; 8]) -> Multipliers
    requires price { mu ≤ MOST_PAGE_PRICE }
    ensures price { result.mu ≤ MOST_PAGE_PRICE }
    ensures eight { length result.lambda ≡ 8 }
    ensures most { All (λ rent. rent ≤ MOST_RENT) result.lambda }
{
    let mut lambda = Vec::new(alloc);
    'rents: for at in 0..8 {
        lambda.push(rents[at].min(MOST_RENT)).expect(rt, "memory");
    }
    Multipliers {
        mu,
        lambda: List { items: lambda },
    }
}
