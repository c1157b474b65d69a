//! Programmes of two statements, each over a table of its own with one candidate index, and what they say that
//! configurations cost: worked out by hand.
ghost use Rattle.std.specs.Prelude.{◌≤◌, All};

use crate::made::{knapsack, ordered, part, programme, slot};
use adv_base::Config;
use bip_model::{Multipliers, Part, Programme, grant_count, part_cost, value};
use std::alloc::Global;
use std::process::Abort;

/// The part of a statement over a table of its own, whose candidate has the same number: what it costs to read the table as
/// it is, to sort its rows, and to read them in that order through the candidate's index.
fn own_part(
    rt: &impl Abort,
    alloc: Global,
    statement: u16,
    weight: u32,
    prices: (u32, u32, u32),
) -> Part
    requires number { 1 ≤ statement }
    requires most { statement ≤ 2 }
    requires weight_least { 1 ≤ weight }
    requires weight_most { weight ≤ 1000 }
    ensures grants_are { All (λ slot. All (λ grant. grant.candidate ≤ 6) slot.grants) result.slots }
{
    let (table, sort, index) = prices;
    let slot = slot(rt, alloc, table, ordered(rt, alloc, statement, index));
    part(rt, alloc, statement, weight, sort, slot)
}

/// A programme of two such statements. The four last candidates serve none.
fn programme_of(
    rt: &impl Abort,
    alloc: Global,
    kept: u32,
    upkeep: [u32; 2],
    one: Part,
    two: Part,
) -> Programme
    requires one_is { All (λ slot. All (λ grant. grant.candidate ≤ 6) slot.grants) one.slots }
    requires two_is { All (λ slot. All (λ grant. grant.candidate ≤ 6) slot.grants) two.slots }
{
    let upkeep = [upkeep[0], upkeep[1], 0, 0, 0, 0];
    programme(rt, alloc, [3, 4, 1, 1, 1, 1], upkeep, kept, one, two)
}

/// The four configurations: none, 1, 2, and both.
fn configurations() -> [Config; 4] {
    let none = Config::none();
    let mut first = none;
    first.on[0] = true;
    let mut second = none;
    second.on[1] = true;
    let mut both = first;
    both.on[1] = true;
    [none, first, second, both]
}

/// The values of the four configurations, and the costs of both parts.
fn costs(
    rt: &impl Abort,
    programme: &Programme,
    values: [u128; 4],
    first: [u128; 4],
    second: [u128; 4],
) {
    let configs = configurations();
    for i in 0..4 {
        assert!(rt; value(programme, &configs[i]) == values[i]);
        assert!(rt;
            (programme
                .parts
                .as_slice()
                .first()
                .map(|part| part_cost(part, &configs[i])))
                == Some(first[i])
        );
        assert!(rt;
            (programme
                .parts
                .as_slice()
                .last()
                .map(|part| part_cost(part, &configs[i])))
                == Some(second[i])
        );
    }
}

/// Without its index each statement costs 80000, with it 13000 and 14000.
#[test]
fn knapsack_by_hand(rt: HostRuntime) {
    costs(
        &rt,
        &knapsack(&rt, rt.alloc()),
        [1680000, 1010000, 954000, 284000],
        [80000, 13000, 80000, 13000],
        [80000, 80000, 14000, 14000],
    );
}

/// Upkeep of what exists and of what is chosen; an index that is of no use.
#[test]
fn upkeep(rt: HostRuntime) {
    let alloc = rt.alloc();
    let one = own_part(&rt, alloc, 1, 1, (30000, 50000, 13000));
    let two = own_part(&rt, alloc, 2, 2, (5, 0, 9));
    costs(
        &rt,
        &programme_of(&rt, alloc, 7, [16020000, 100], one, two),
        [80017, 16033017, 80117, 16033117],
        [80000, 13000, 80000, 13000],
        [5, 5, 5, 5],
    );
}

/// An index that is dearer than its table and saves the sort, and one that is too dear for that.
#[test]
fn dear_indexes(rt: HostRuntime) {
    let alloc = rt.alloc();
    let one = own_part(&rt, alloc, 1, 3, (30000, 50000, 40000));
    let two = own_part(&rt, alloc, 2, 1, (30000, 50000, 90000));
    costs(
        &rt,
        &programme_of(&rt, alloc, 0, [0, 1], one, two),
        [320000, 200000, 320001, 200001],
        [80000, 40000, 80000, 40000],
        [80000, 80000, 80000, 80000],
    );
}

/// The multipliers of zeros have one rent for each of the two grants.
#[test]
fn zeros(rt: HostRuntime) {
    let programme = knapsack(&rt, rt.alloc());
    assert!(&rt; grant_count(&programme) == 2);
    let zeros = Multipliers::zero(rt.alloc(), &programme).expect(&rt, "memory");
    assert!(&rt; zeros.mu == 0);
    assert!(&rt; zeros.lambda.as_slice() == [0u64, 0].as_slice());
}
