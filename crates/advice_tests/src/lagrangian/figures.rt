//! What Lagrangian values are made of, by their definition.
ghost use Rattle.adv_base.specs.Named.{NamesShape};

use crate::lagrangian::readers::Reader;
use crate::lagrangian::{SETS, numbered_set};
use adv_base::{Config, IndexShape, Setting};
use bip_model::{Fix, State};
use hypo_indexes::{kept_upkeep, pages, upkeep};
use std::alloc::Global;
use std::process::Abort;

/// A number with a sign.
pub(crate) fn signed(n: u128) -> i128 {
    i128::try_from(n).unwrap_or(i128::MAX)
}

/// What a candidate takes: its pages, and its upkeep less what it earns, weighted.
#[derive(Clone, Copy)]
struct Candidate {
    pages: u64,
    net: i128,
}

/// What Lagrangian values are made of: the price of a page, the upkeep of what exists, what the least plans cost with each
/// set of candidates, by its number, and the candidates.
#[derive(Drop)]
pub(crate) struct Figures {
    page: u128,
    kept: i128,
    plans: Vec<i128>,
    candidates: Vec<Candidate>,
}

/// The upkeep of what exists, weighted.
fn kept_in_all(setting: &Setting<'_>) -> i128 {
    let mut sum: i128 = 0;
    for statement in setting.statements {
        let kept = signed(kept_upkeep(setting.cat, statement));
        sum = sum.saturating_add(kept.saturating_mul(i128::from(statement.weight)));
    }
    sum
}

/// The upkeep of a candidate, weighted.
fn upkeep_in_all(setting: &Setting<'_>, shape: &IndexShape) -> i128
    requires { NamesShape setting.now.cat.now shape.now }
{
    let mut sum: i128 = 0;
    for statement in setting.statements {
        let cost = signed(upkeep(setting.cat, statement, shape));
        sum = sum.saturating_add(cost.saturating_mul(i128::from(statement.weight)));
    }
    sum
}

/// What a candidate earns, weighted.
fn earned_in_all(readers: &[Reader<'_>], number: u16) -> i128 {
    let mut sum: i128 = 0;
    for reader in readers {
        sum = sum.saturating_add(reader.earned(number));
    }
    sum
}

/// What the least plans cost where the candidates of a configuration are rented, weighted.
fn rented_plans(rt: &impl Abort, alloc: Global, readers: &[Reader<'_>], config: &Config) -> i128 {
    let mut sum: i128 = 0;
    for reader in readers {
        let cost = signed(reader.cost(alloc, config).expect(rt, "memory"));
        sum = sum.saturating_add(cost.saturating_mul(i128::from(reader.weight)));
    }
    sum
}

/// The figures of a setting.
pub(crate) fn figures_of(
    rt: &impl Abort,
    alloc: Global,
    setting: &Setting<'_>,
    readers: &[Reader<'_>],
    page: u128,
) -> Figures {
    let mut plans = Vec::new(alloc);
    for set in 0..SETS {
        let cost = rented_plans(rt, alloc, readers, &numbered_set(set));
        plans.push(cost).expect(rt, "memory");
    }
    let mut candidates = Vec::new(alloc);
    let mut number: u16 = 1;
    for shape in setting.shapes {
        let candidate = Candidate {
            pages: pages(setting.cat, shape),
            net: upkeep_in_all(setting, shape).saturating_sub(earned_in_all(readers, number)),
        };
        candidates.push(candidate).expect(rt, "memory");
        number = number.saturating_add(1);
    }
    Figures {
        page,
        kept: kept_in_all(setting),
        plans,
        candidates,
    }
}

impl Figures {
    /// The pages of the candidates that are in.
    fn pages_inside(&self, fix: &Fix) -> u64 {
        let mut sum: u64 = 0;
        for (candidate, state) in self.candidates.as_slice().iter().zip(fix.state.iter()) {
            if *state == State::In {
                sum = sum.saturating_add(candidate.pages);
            }
        }
        sum
    }

    /// What a candidate costs with its pages, less what it earns, in parts of 65536.
    fn net_cost(&self, candidate: &Candidate) -> i128 {
        let paid = signed(self.page).saturating_mul(i128::from(candidate.pages));
        candidate.net.saturating_mul(65536).saturating_add(paid)
    }

    /// The Lagrangian value of a node. A candidate is open that is free and fits the budget beside those that are in.
    pub(crate) fn value(&self, budget: u64, fix: &Fix) -> i128 {
        let inside = self.pages_inside(fix);
        let mut available: usize = 0;
        let mut bit: usize = 1;
        let mut costs: i128 = 0;
        for (candidate, state) in self.candidates.as_slice().iter().zip(fix.state.iter()) {
            let net = self.net_cost(candidate);
            let fits = inside.saturating_add(candidate.pages) <= budget;
            if *state == State::In {
                available = available.saturating_add(bit);
                costs = costs.saturating_add(net);
            } else if *state == State::Free && fits {
                available = available.saturating_add(bit);
                costs = costs.saturating_add(net.min(0));
            }
            bit = bit.saturating_mul(2);
        }
        let plans = self.plans.as_slice().get(available).copied().unwrap_or(0);
        let sum = plans
            .saturating_add(self.kept)
            .saturating_mul(65536)
            .saturating_add(costs);
        let price = signed(self.page).saturating_mul(i128::from(budget));
        0i128.saturating_sub(price.saturating_sub(sum).div_euclid(65536))
    }
}
