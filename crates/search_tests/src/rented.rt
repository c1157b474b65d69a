//! Bounds under multipliers whose rents are drawn grant by grant: at all nodes of small programmes against a plain
//! program and against what configurations cost, and carried from the root down each path of four branches.
ghost use Rattle.std.specs.Prelude.{◌≡◌, ◌<◌, ◌≤◌, All, length};
ghost use Rattle.adv_base.specs.declared.limits.TheConstants.{MOST_PAGE_PRICE, MOST_RENT};
ghost use Rattle.bip_model.specs.Views.{AreMultipliers};
ghost use Rattle.lagrange_bound.specs.Bounds as bounds;

use crate::bounds::{agree, no_terms, numbered_node, with_lists, zero};
use crate::made::{Draws, knapsack, mixed, shared};
use crate::problems::{configuration, pages};
use adv_base::Config;
use bip_model::{Fix, Multipliers, Programme, State, value};
use lagrange_bound::{Terms, bound, carry, terms, total};
use std::alloc::Global;
use std::process::Abort;

/// How many multipliers are drawn for each programme.
const DRAWN: u32 = 12;

/// A rent of one of so many sizes: none, small, like a price, and large up to the greatest.
fn drawn_rent(draws: &mut Draws, sizes: u32) -> u64
    requires { 0 < sizes }
    ensures { result ≤ MOST_RENT }
{
    match draws.below(sizes) {
        0 => 0,
        1 => draws.below(100) as u64,
        2 => draws.below(100000) as u64,
        _ => draws.below(1000000000) as u64 * 1000000000 + draws.below(1000000001) as u64,
    }
}

/// A price of a page: none, small, like the prices of plans, and large up to 2^39.
fn drawn_page_price(draws: &mut Draws) -> u128
    ensures { result ≤ MOST_PAGE_PRICE }
{
    match draws.below(4) {
        0 => 0,
        1 => draws.below(1048576) as u128,
        2 => draws.below(2147483648) as u128,
        _ => draws.below(1048576) as u128 * 524288 + draws.below(524289) as u128,
    }
}

/// Puts a drawn rent at each place.
fn write_rents(rents: &mut [u64], draws: &mut Draws, sizes: u32)
    requires sizes { 0 < sizes }
    requires most { All (λ rent. rent ≤ MOST_RENT) rents.old }
    ensures one_each { length rents.new ≡ length rents.old }
    ensures most { All (λ rent. rent ≤ MOST_RENT) rents.new }
{
    for at in 0..rents.len() {
        rents[at] = drawn_rent(draws, sizes);
    }
}

/// The multipliers of a seed, whose rents are of the two, three or four least sizes.
fn drawn_multipliers(
    rt: &impl Abort,
    alloc: Global,
    programme: &Programme,
    seed: u32,
) -> Multipliers
    ensures { AreMultipliers programme.now result }
{
    let mut draws = Draws::new(seed as u64);
    let mut multipliers = zero(rt, alloc, programme);
    multipliers.mu = drawn_page_price(&mut draws);
    let sizes = 2 + seed % 3;
    write_rents(multipliers.lambda.items.as_mut_slice(), &mut draws, sizes);
    multipliers
}

/// `bound`, ledgers and the plain program agree under drawn multipliers.
fn agree_when_drawn(rt: &impl Abort, alloc: Global, programme: &Programme) {
    let listed = with_lists(rt, alloc, programme);
    for seed in 0..DRAWN {
        let multipliers = drawn_multipliers(rt, alloc, listed.programme, seed);
        agree(rt, &listed, &multipliers);
    }
}

#[test]
fn bounds_under_drawn_rents_are_those_of_a_plain_program(rt: HostRuntime) {
    let alloc = rt.alloc();
    agree_when_drawn(&rt, alloc, &knapsack(&rt, alloc));
    agree_when_drawn(&rt, alloc, &mixed(&rt, alloc));
    agree_when_drawn(&rt, alloc, &shared(&rt, alloc));
}

/// A state leaves it open that a configuration has the candidate, or has it not.
fn allows(state: State, has: bool) -> bool {
    match state {
        State::Free => true,
        State::In => has,
        State::Out => !has,
    }
}

/// A configuration is below a node of the first four candidates.
fn obeys(fix: &Fix, config: &Config) -> bool {
    for place in 0..4 {
        if !allows(fix.state[place], config.on[place]) {
            return false;
        }
    }
    true
}

/// No configuration below a node that fits the budget costs less than the bound there. Answers how many there are.
fn bounds_costs_at(
    rt: &impl Abort,
    programme: &Programme,
    budget: u64,
    number: u32,
    multipliers: &Multipliers,
) -> u32
    requires budget { budget ≤ 1000 }
    requires multipliers { AreMultipliers programme.now multipliers.now }
{
    let fix = numbered_node(number);
    let least = bound(programme, budget, &fix, multipliers);
    let mut fitting: u32 = 0;
    for chosen in 0..16 {
        let config = configuration(chosen);
        if obeys(&fix, &config) && pages(programme, &config) <= budget {
            let cost = i128::try_from(value(programme, &config)).expect(rt, "cost");
            assert!(rt;
                cost >= least,
                "node {number} within {budget}: configuration {chosen}"
            );
            fitting = fitting.saturating_add(1);
        }
    }
    fitting
}

/// So it is at each node. A configuration is below 16 of them: each candidate is free there, or as it has it.
fn bounds_costs(
    rt: &impl Abort,
    programme: &Programme,
    budget: u64,
    multipliers: &Multipliers,
    fitting: u32,
)
    requires budget { budget ≤ 1000 }
    requires multipliers { AreMultipliers programme.now multipliers.now }
{
    let mut pairs: u32 = 0;
    for number in 0..81 {
        let more = bounds_costs_at(rt, programme, budget, number, multipliers);
        pairs = pairs.saturating_add(more);
    }
    assert!(rt; pairs == fitting.saturating_mul(16));
}

/// So it is under drawn multipliers. Of the 16 configurations of candidates of 3, 4, 2 and 9 pages the empty one fits
/// 1 page, six fit 6 pages, and all fit 18.
fn bounds_costs_when_drawn(rt: &impl Abort, alloc: Global, programme: &Programme) {
    for seed in 0..DRAWN {
        let multipliers = drawn_multipliers(rt, alloc, programme, seed);
        bounds_costs(rt, programme, 1, &multipliers, 1);
        bounds_costs(rt, programme, 6, &multipliers, 6);
        bounds_costs(rt, programme, 18, &multipliers, 16);
    }
}

#[test]
fn no_configuration_costs_less_than_a_bound_above_it(rt: HostRuntime) {
    let alloc = rt.alloc();
    bounds_costs_when_drawn(&rt, alloc, &knapsack(&rt, alloc));
    bounds_costs_when_drawn(&rt, alloc, &mixed(&rt, alloc));
    bounds_costs_when_drawn(&rt, alloc, &shared(&rt, alloc));
}

/// The terms at a node, whose total is the bound there.
fn anew(
    rt: &impl Abort,
    alloc: Global,
    programme: &Programme,
    budget: u64,
    fix: &Fix,
    multipliers: &Multipliers,
) -> Terms
    requires budget { budget ≤ 1000 }
    requires multipliers { AreMultipliers programme.now multipliers.now }
    ensures { result.least ≡ bounds.costs_at programme.now budget fix.now multipliers.now }
{
    let mut made = no_terms(rt, alloc, programme);
    terms(programme, budget, fix, multipliers, &mut made);
    assert!(rt;
        total(programme, budget, fix, multipliers, &made)
            == bound(programme, budget, fix, multipliers)
    );
    made
}

/// The terms at a node, carried there from another one: they are those that are made there anew, and so is their total.
fn carried(
    rt: &impl Abort,
    alloc: Global,
    programme: &Programme,
    budget: u64,
    from: &Fix,
    to: &Fix,
    multipliers: &Multipliers,
    above: &Terms,
) -> Terms
    requires budget { budget ≤ 1000 }
    requires multipliers { AreMultipliers programme.now multipliers.now }
    requires above { above.now.least ≡ bounds.costs_at programme.now budget from.now multipliers.now }
    ensures { result.least ≡ bounds.costs_at programme.now budget to.now multipliers.now }
{
    let mut below = no_terms(rt, alloc, programme);
    carry(programme, budget, from, to, multipliers, above, &mut below);
    let made = anew(rt, alloc, programme, budget, to, multipliers);
    assert!(rt; below.least.as_slice() == made.least.as_slice());
    assert!(rt;
        total(programme, budget, to, multipliers, &below)
            == bound(programme, budget, to, multipliers)
    );
    below
}

/// The node below another at which the candidate at a place is in or out, as the binary digit of a path says.
fn branch(fix: &Fix, place: usize, path: usize) -> Fix
    requires { place < 4 }
{
    let mut below = *fix;
    below.state[place] = if (path >> place) & 1 == 1 {
        State::In
    } else {
        State::Out
    };
    below
}

/// Terms are carried from the root down a path that branches at each of the first four candidates.
fn carry_down(
    rt: &impl Abort,
    alloc: Global,
    programme: &Programme,
    budget: u64,
    path: usize,
    mult: &Multipliers,
)
    requires budget { budget ≤ 1000 }
    requires multipliers { AreMultipliers programme.now mult.now }
{
    let root = Fix::free();
    let first = branch(&root, 0, path);
    let second = branch(&first, 1, path);
    let third = branch(&second, 2, path);
    let fourth = branch(&third, 3, path);
    let at_root = anew(rt, alloc, programme, budget, &root, mult);
    let at_first = carried(rt, alloc, programme, budget, &root, &first, mult, &at_root);
    let at_second = carried(
        rt, alloc, programme, budget, &first, &second, mult, &at_first,
    );
    let at_third = carried(
        rt, alloc, programme, budget, &second, &third, mult, &at_second,
    );
    carried(
        rt, alloc, programme, budget, &third, &fourth, mult, &at_third,
    );
}

/// They are carried down each path under drawn multipliers.
fn carry_when_drawn(rt: &impl Abort, alloc: Global, programme: &Programme) {
    for seed in 0..DRAWN {
        let multipliers = drawn_multipliers(rt, alloc, programme, seed);
        for path in 0..16 {
            carry_down(rt, alloc, programme, 1, path, &multipliers);
            carry_down(rt, alloc, programme, 6, path, &multipliers);
            carry_down(rt, alloc, programme, 18, path, &multipliers);
        }
    }
}

#[test]
fn terms_are_carried_down_each_path(rt: HostRuntime) {
    let alloc = rt.alloc();
    carry_when_drawn(&rt, alloc, &knapsack(&rt, alloc));
    carry_when_drawn(&rt, alloc, &mixed(&rt, alloc));
    carry_when_drawn(&rt, alloc, &shared(&rt, alloc));
}
