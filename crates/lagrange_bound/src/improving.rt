//! Better multipliers.
ghost use Rattle.std.specs.Prelude.{◌≡◌, ◌≤ℤ◌, ◌≤◌, ◌<◌, ℕ, min};
ghost use Rattle.adv_base.specs.declared.limits.TheConstants.{MOST_PAGES};
ghost use Rattle.bip_model.specs.Views.{AreMultipliers};
ghost use Rattle.lagrange_bound.specs.Bounds as bounds;
ghost use Rattle.lagrange_bound.specs.Laws as laws;
ghost use Rattle.lagrange_bound.specs.Rents as rents;

use crate::bounds::bound;
use crate::sharing::rent;
use bip_model::{Fix, Multipliers, Programme};
use std::mem;

/// The prices of a page that are tried: 0, and the powers of two from 1 to 2^39.
const MOST_ROUNDS: u32 = 41;

/// The price of a page that a round tries.
fn tried_price(round: u32) -> u64
    requires { round < 41 }
    ensures { result ≡ rents.tried_price round }
{
    if round == 0 { 0 } else { 1 << (round - 1) }
}

/// Takes the rent multipliers of the price of a page in place of multipliers whose bound is `best`, where theirs is higher,
/// and answers the higher bound.
fn try_rents(
    programme: &Programme,
    budget: u64,
    fix: &Fix,
    price: u64,
    best: i128,
    mult: &mut Multipliers,
    spare: &mut Multipliers,
) -> i128
    requires budget { budget ≤ MOST_PAGES }
    requires multipliers { AreMultipliers programme.now mult.old }
    requires room { AreMultipliers programme.now spare.old }
    requires best { best ≡ bounds.lagrangian programme.now budget fix.now mult.old }
    ensures within { AreMultipliers programme.now mult.new }
    ensures room { AreMultipliers programme.now spare.new }
    ensures best { result ≡ bounds.lagrangian programme.now budget fix.now mult.new }
    ensures keeps { best ≤ℤ result }
    ensures tried { bounds.lagrangian programme.now budget fix.now (rents.rent_multipliers programme.now price) ≤ℤ result }
{
    rent(programme, price, spare);
    let value = bound(programme, budget, fix, spare);
    if value <= best {
        return best;
    }
    mem::swap(mult, spare);
    value
}

/// Improves multipliers at a node, with others as room: afterwards the bound there is at least what it was, and at least
/// that of the rent multipliers of each of the first `rounds` prices of a page, of at most 41: 0, 1, 2, 4 and so on. Rounds
/// beyond these change nothing. Takes no memory.
pub fn improve(
    programme: &Programme,
    budget: u64,
    fix: &Fix,
    mult: &mut Multipliers,
    spare: &mut Multipliers,
    rounds: u32,
)
    requires budget { budget ≤ MOST_PAGES }
    requires multipliers { AreMultipliers programme.now mult.old }
    requires room { AreMultipliers programme.now spare.old }
    ensures within { AreMultipliers programme.now mult.new }
    ensures room { AreMultipliers programme.now spare.new }
    ensures keeps { bounds.lagrangian programme.now budget fix.now mult.old ≤ℤ bounds.lagrangian programme.now budget fix.now mult.new }
    ensures tried { (i : ℕ) → i < min rounds 41 → bounds.lagrangian programme.now budget fix.now (rents.rent_multipliers programme.now (rents.tried_price i)) ≤ℤ bounds.lagrangian programme.now budget fix.now mult.new }
    ensures reached { (i : ℕ) → i < min rounds 41 → laws.ReachesRentsInEach programme.now budget fix.now mult.new (rents.tried_price i) }
{
    let mut best = bound(programme, budget, fix, mult);
    for round in 0..rounds.min(MOST_ROUNDS) {
        best = try_rents(
            programme,
            budget,
            fix,
            tried_price(round),
            best,
            mult,
            spare,
        );
    }
}
