//! Bounds that are worked out by hand, and those of small programmes at all nodes against a plain program.
ghost use Rattle.std.specs.Prelude.{◌≡◌, ◌<◌, ◌≤◌, length, replicate};
ghost use Rattle.adv_base.specs.declared.limits.TheConstants.{MOST_PAGES};
ghost use Rattle.bip_model.specs.declared.fix.State.TheVariants.{Free};
ghost use Rattle.bip_model.specs.Views.{AreMultipliers};
ghost use Rattle.lagrange_bound.specs.Ledgers as ledgers;

use crate::made::{knapsack, mixed};
use crate::plain::Priced;
use bip_model::{Fix, Multipliers, Programme, State};
use lagrange_bound::{
    CheaperParts, Ledger, PriceRows, Terms, bound, bound_by, carry, improve, open_ledger, rent,
    terms, total,
};
use std::alloc::Global;
use std::process::Abort;

/// The node that says so much of the first four candidates; the others are free.
fn node(states: [State; 4]) -> Fix {
    let mut fix = Fix::free();
    fix.state[0] = states[0];
    fix.state[1] = states[1];
    fix.state[2] = states[2];
    fix.state[3] = states[3];
    fix
}

/// The node at which the first candidate is in.
fn first_in() -> Fix {
    node([State::In, State::Free, State::Free, State::Free])
}

/// What a digit in base 3 stands for.
fn state(number: u32, place: u32) -> State
    requires { 0 < place }
{
    match number / place % 3 {
        0 => State::Free,
        1 => State::In,
        _ => State::Out,
    }
}

/// The node of a number below 81, which has in base 3 a digit for each of the first four candidates.
pub(crate) fn numbered_node(number: u32) -> Fix {
    node([
        state(number, 1),
        state(number, 3),
        state(number, 9),
        state(number, 27),
    ])
}

/// The multipliers that are all 0.
pub(crate) fn zero(rt: &impl Abort, alloc: Global, programme: &Programme) -> Multipliers
    ensures { AreMultipliers programme.now result }
{
    Multipliers::zero(alloc, programme).expect(rt, "memory")
}

/// Terms of which nothing is known yet.
pub(crate) fn no_terms(rt: &impl Abort, alloc: Global, programme: &Programme) -> Terms
    ensures { length result.least ≡ length programme.now.parts }
{
    Terms::new(alloc, programme).expect(rt, "memory")
}

/// At the root the first costs 10 * 13000 + 11 * 14000; with the first in, the second no more fits beside it. A page at 2^17
/// thousandths makes the rents 3 * 2^17 / 10 and 4 * 2^17 / 11, and takes 4 * 2^17 for the budget.
#[test]
fn knapsack_by_hand(rt: HostRuntime) {
    let programme = knapsack(&rt, rt.alloc());
    let mut multipliers = zero(&rt, rt.alloc(), &programme);
    assert!(rt; bound(&programme, 4, &Fix::free(), &multipliers) == 284000);
    assert!(rt; bound(&programme, 4, &first_in(), &multipliers) == 1010000);
    rent(&programme, 8589934592, &mut multipliers);
    assert!(rt; multipliers.lambda.as_slice() == [39321u64, 47662].as_slice());
    assert!(rt; bound(&programme, 4, &Fix::free(), &multipliers) == 677204);
}

/// A programme with its prices in lists.
#[derive(Drop)]
pub(crate) struct Listed<'a> {
    pub programme: &'a Programme,
    cheaper: CheaperParts,
    alloc: Global,
    ghost cheaper_are: { ledgers.AreCheaperParts programme.now cheaper },
}

/// The lists of a programme.
pub(crate) fn with_lists<'a>(
    rt: &impl Abort,
    alloc: Global,
    programme: &'a Programme,
) -> Listed<'a> {
    Listed {
        programme,
        cheaper: CheaperParts::new(alloc, programme).expect(rt, "memory"),
        alloc,
    }
}

/// What `bound` tells of a node, what a ledger that is opened at the root tells when it is carried there, and what it tells
/// when it is opened there anew.
#[tactic(auto, using(crate::proofs::Ledgers::ledger_room))]
fn told(
    rt: &impl Abort,
    listed: &Listed<'_>,
    budget: u64,
    fix: &Fix,
    multipliers: &Multipliers,
) -> [i128; 3]
    requires budget { budget ≤ MOST_PAGES }
    requires multipliers { AreMultipliers listed.now.programme.now multipliers.now }
{
    let programme = listed.programme;
    let cheaper = &listed.cheaper;
    let mut ledger = Ledger::new(listed.alloc, programme).expect(rt, "memory");
    let mut rows = PriceRows::new(listed.alloc, cheaper).expect(rt, "memory");
    open_ledger(
        programme,
        cheaper,
        budget,
        &Fix::free(),
        multipliers,
        &mut ledger,
        &mut rows,
    );
    let carried = bound_by(
        programme,
        cheaper,
        budget,
        fix,
        multipliers,
        &mut ledger,
        &mut rows,
    );
    let opened = open_ledger(
        programme,
        cheaper,
        budget,
        fix,
        multipliers,
        &mut ledger,
        &mut rows,
    );
    [bound(programme, budget, fix, multipliers), carried, opened]
}

/// `bound`, ledgers and the plain program agree at each node.
fn agree_within(rt: &impl Abort, listed: &Listed<'_>, budget: u64, multipliers: &Multipliers)
    requires budget { budget ≤ 1000 }
    requires multipliers { AreMultipliers listed.now.programme.now multipliers.now }
{
    for number in 0..81 {
        let fix = numbered_node(number);
        let plain = Priced {
            programme: listed.programme,
            budget,
            fix: &fix,
            multipliers,
        };
        let told = told(rt, listed, budget, &fix, multipliers);
        assert!(rt; told == [plain.value(); 3], "node {number} within {budget}");
    }
}

/// They agree within budgets that no, some and all candidates fit.
pub(crate) fn agree(rt: &impl Abort, listed: &Listed<'_>, multipliers: &Multipliers)
    requires { AreMultipliers listed.now.programme.now multipliers.now }
{
    agree_within(rt, listed, 1, multipliers);
    agree_within(rt, listed, 6, multipliers);
    agree_within(rt, listed, 18, multipliers);
}

/// They agree for rents with their own price of a page and with a third of it.
fn agree_at_price(rt: &impl Abort, listed: &Listed<'_>, price: u64) {
    let mut multipliers = zero(rt, listed.alloc, listed.programme);
    rent(listed.programme, price, &mut multipliers);
    agree(rt, listed, &multipliers);
    multipliers.mu = (price / 3) as u128;
    agree(rt, listed, &multipliers);
}

/// They agree for the multipliers that are 0, and at prices of a page that are small, middling and great.
fn agree_on(rt: &impl Abort, alloc: Global, programme: &Programme) {
    let listed = with_lists(rt, alloc, programme);
    agree(rt, &listed, &zero(rt, alloc, listed.programme));
    agree_at_price(rt, &listed, 1048577);
    agree_at_price(rt, &listed, 8589934592);
    agree_at_price(rt, &listed, 549755813888);
}

#[test]
fn bounds_of_the_knapsack_are_those_of_a_plain_program(rt: HostRuntime) {
    agree_on(&rt, rt.alloc(), &knapsack(&rt, rt.alloc()));
}

#[test]
fn bounds_of_a_join_and_writes_are_those_of_a_plain_program(rt: HostRuntime) {
    agree_on(&rt, rt.alloc(), &mixed(&rt, rt.alloc()));
}

/// With the first candidate in, the second fits no more, and its part is priced anew.
#[test]
fn terms_are_carried(rt: HostRuntime) {
    let programme = knapsack(&rt, rt.alloc());
    let multipliers = zero(&rt, rt.alloc(), &programme);
    let mut above = no_terms(&rt, rt.alloc(), &programme);
    let mut below = no_terms(&rt, rt.alloc(), &programme);
    let root = Fix::free();
    let inside = first_in();
    terms(&programme, 4, &root, &multipliers, &mut above);
    assert!(rt; above.least.as_slice() == [13000u128, 14000].as_slice());
    assert!(rt; total(&programme, 4, &root, &multipliers, &above) == 284000);
    carry(
        &programme,
        4,
        &root,
        &inside,
        &multipliers,
        &above,
        &mut below,
    );
    assert!(rt; below.least.as_slice() == [13000u128, 80000].as_slice());
    assert!(rt; total(&programme, 4, &inside, &multipliers, &below) == 1010000);
}

/// The 35th price is 2^33.
#[test]
fn multipliers_improve(rt: HostRuntime) {
    let programme = knapsack(&rt, rt.alloc());
    let mut multipliers = zero(&rt, rt.alloc(), &programme);
    let mut spare = zero(&rt, rt.alloc(), &programme);
    improve(
        &programme,
        4,
        &Fix::free(),
        &mut multipliers,
        &mut spare,
        35,
    );
    assert!(rt; bound(&programme, 4, &Fix::free(), &multipliers) >= 677204);
}
