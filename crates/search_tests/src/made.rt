//! Programmes of six candidates, made by hand or drawn, at whose slots there are two interesting orders: none, and one for
//! which rows are sorted or read through an index.
ghost use Rattle.std.specs.Prelude.{◌≡◌, ◌*◌, ◌<◌, ◌≤◌, length, All};
ghost use Rattle.adv_base.specs.declared.limits.TheConstants.{MOST_INDEX_PAGES, MOST_STATEMENTS, MOST_UPKEEP, MOST_WEIGHT};

use adv_base::List;
use bip_model::{Grant, Part, Programme, SlotPart};
use plan_model::Template;
use std::alloc::Global;
use std::process::Abort;

/// How many candidates a made programme has.
const CANDIDATES: usize = 6;

/// Pseudo-random numbers, by Knuth's linear congruential generator.
#[derive(Drop)]
pub(crate) struct Draws {
    state: u64,
}

impl Draws {
    pub(crate) fn new(seed: u64) -> Draws {
        Draws { state: seed }
    }

    /// A number below another.
    pub(crate) fn below(&mut self, bound: u32) -> u32
        requires { 0 < bound }
        ensures { result < bound }
    {
        self.state = self
            .state
            .wrapping_mul(6364136223846793005)
            .wrapping_add(1442695040888963407);
        ((self.state >> 33) % bound as u64) as u32
    }
}

/// A list of copies.
pub(crate) fn list<T: Copy>(rt: &impl Abort, alloc: Global, items: &[T]) -> List<T>
    ensures { result ≡ items.now }
{
    List {
        items: Vec::from_slice(alloc, items).expect(rt, "memory"),
    }
}

/// The grant of a candidate whose index gives both orders at one price.
pub(crate) fn ordered(rt: &impl Abort, alloc: Global, candidate: u16, price: u32) -> Grant
    requires number { 1 ≤ candidate }
    requires most { candidate ≤ 6 }
    ensures candidate_is { result.candidate ≡ candidate }
    ensures prices_are { length result.prices ≡ 2 }
{
    let price = Some(price as u64);
    Grant {
        candidate,
        prices: list(rt, alloc, &[price, price]),
    }
}

/// The grant of a candidate whose index doesn't give the order.
pub(crate) fn unordered(rt: &impl Abort, alloc: Global, candidate: u16, price: u32) -> Grant
    requires number { 1 ≤ candidate }
    requires most { candidate ≤ 6 }
    ensures candidate_is { result.candidate ≡ candidate }
    ensures prices_are { length result.prices ≡ 2 }
{
    Grant {
        candidate,
        prices: list(rt, alloc, &[Some(price as u64), None]),
    }
}

/// The slot of a table that gives no order by itself, at the price of the table.
fn slot_of(rt: &impl Abort, alloc: Global, table: u32, grants: List<Grant>) -> SlotPart
    requires grants_few { length grants ≤ 2 }
    requires prices_are { All (λ grant. length grant.prices ≡ 2) grants }
    requires grants_are { All (λ grant. grant.candidate ≤ 6) grants }
    ensures base_is { length result.base ≡ 2 }
    ensures grants_are { All (λ grant. grant.candidate ≤ 6) result.grants }
{
    SlotPart {
        base: list(rt, alloc, &[Some(table as u64), None]),
        grants,
    }
}

/// Such a slot with one grant.
pub(crate) fn slot(rt: &impl Abort, alloc: Global, table: u32, grant: Grant) -> SlotPart
    requires grant_is { length grant.prices ≡ 2 }
    requires grant_most { grant.candidate ≤ 6 }
    ensures base_is { length result.base ≡ 2 }
    ensures grants_are { All (λ grant. grant.candidate ≤ 6) result.grants }
{
    let mut grants = Vec::new(alloc);
    grants.push(grant).expect(rt, "memory");
    slot_of(rt, alloc, table, List { items: grants })
}

/// Such a slot with two grants.
pub(crate) fn wide_slot(
    rt: &impl Abort,
    alloc: Global,
    table: u32,
    one: Grant,
    other: Grant,
) -> SlotPart
    requires one_is { length one.prices ≡ 2 }
    requires other_is { length other.prices ≡ 2 }
    requires one_most { one.candidate ≤ 6 }
    requires other_most { other.candidate ≤ 6 }
    ensures base_is { length result.base ≡ 2 }
    ensures grants_are { All (λ grant. grant.candidate ≤ 6) result.grants }
{
    let mut grants = Vec::new(alloc);
    grants.push(one).expect(rt, "memory");
    grants.push(other).expect(rt, "memory");
    slot_of(rt, alloc, table, List { items: grants })
}

/// The part of a statement that reads one table in its order, for which its rows are sorted, or come sorted.
pub(crate) fn part(
    rt: &impl Abort,
    alloc: Global,
    statement: u16,
    weight: u32,
    sort: u32,
    slot: SlotPart,
) -> Part
    requires number { 1 ≤ statement }
    requires most { statement ≤ 6 }
    requires weight_least { 1 ≤ weight }
    requires weight_most { weight ≤ 1000 }
    requires base_is { length slot.base ≡ 2 }
    requires grants_are { All (λ grant. grant.candidate ≤ 6) slot.grants }
    ensures grants_are { All (λ slot. All (λ grant. grant.candidate ≤ 6) slot.grants) result.slots }
{
    let sorted = Template {
        internal: sort as u128,
        needs: [0; 8],
    };
    let ordered = Template {
        internal: 0,
        needs: [1, 0, 0, 0, 0, 0, 0, 0],
    };
    let mut slots = Vec::new(alloc);
    slots.push(slot).expect(rt, "memory");
    Part {
        statement,
        weight,
        templates: list(rt, alloc, &[sorted, ordered]),
        slots: List { items: slots },
    }
}

/// The part of the first statement where it joins two tables: by a hash, or in order.
fn joined_part(rt: &impl Abort, alloc: Global, weight: u32, one: SlotPart, other: SlotPart) -> Part
    requires weight_least { 1 ≤ weight }
    requires weight_most { weight ≤ 1000 }
    requires one_is { length one.base ≡ 2 }
    requires other_is { length other.base ≡ 2 }
    requires one_grants { All (λ grant. grant.candidate ≤ 6) one.grants }
    requires other_grants { All (λ grant. grant.candidate ≤ 6) other.grants }
    ensures grants_are { All (λ slot. All (λ grant. grant.candidate ≤ 6) slot.grants) result.slots }
{
    let hashed = Template {
        internal: 34000,
        needs: [0; 8],
    };
    let merged = Template {
        internal: 20000,
        needs: [1, 1, 0, 0, 0, 0, 0, 0],
    };
    let mut slots = Vec::new(alloc);
    slots.push(one).expect(rt, "memory");
    slots.push(other).expect(rt, "memory");
    Part {
        statement: 1,
        weight,
        templates: list(rt, alloc, &[hashed, merged]),
        slots: List { items: slots },
    }
}

/// The pages of the candidates.
fn pages_of(rt: &impl Abort, alloc: Global, pages: [u32; CANDIDATES]) -> List<u64>
    ensures one_each { length result ≡ 6 }
    ensures most { All (λ pages. pages ≤ MOST_INDEX_PAGES) result }
{
    list(
        rt,
        alloc,
        &[
            pages[0] as u64,
            pages[1] as u64,
            pages[2] as u64,
            pages[3] as u64,
            pages[4] as u64,
            pages[5] as u64,
        ],
    )
}

/// The upkeep of the candidates.
fn costs_of(rt: &impl Abort, alloc: Global, costs: [u32; CANDIDATES]) -> List<u128>
    ensures one_each { length result ≡ 6 }
    ensures most { All (λ cost. cost ≤ MOST_STATEMENTS * (MOST_WEIGHT * MOST_UPKEEP)) result }
{
    list(
        rt,
        alloc,
        &[
            costs[0] as u128,
            costs[1] as u128,
            costs[2] as u128,
            costs[3] as u128,
            costs[4] as u128,
            costs[5] as u128,
        ],
    )
}

/// A programme of two parts.
pub(crate) fn programme(
    rt: &impl Abort,
    alloc: Global,
    sizes: [u32; CANDIDATES],
    upkeep: [u32; CANDIDATES],
    kept: u32,
    one: Part,
    two: Part,
) -> Programme
    requires one_is { All (λ slot. All (λ grant. grant.candidate ≤ 6) slot.grants) one.slots }
    requires two_is { All (λ slot. All (λ grant. grant.candidate ≤ 6) slot.grants) two.slots }
{
    let mut parts = Vec::new(alloc);
    parts.push(one).expect(rt, "memory");
    parts.push(two).expect(rt, "memory");
    Programme {
        sizes: pages_of(rt, alloc, sizes),
        upkeep: costs_of(rt, alloc, upkeep),
        kept: kept as u128,
        parts: List { items: parts },
    }
}

/// A programme of three parts. The upkeep of what exists is 7.
pub(crate) fn wide_programme(
    rt: &impl Abort,
    alloc: Global,
    sizes: [u32; CANDIDATES],
    upkeep: [u32; CANDIDATES],
    one: Part,
    two: Part,
    three: Part,
) -> Programme
    requires one_is { All (λ slot. All (λ grant. grant.candidate ≤ 6) slot.grants) one.slots }
    requires two_is { All (λ slot. All (λ grant. grant.candidate ≤ 6) slot.grants) two.slots }
    requires three_is { All (λ slot. All (λ grant. grant.candidate ≤ 6) slot.grants) three.slots }
{
    let mut parts = Vec::new(alloc);
    parts.push(one).expect(rt, "memory");
    parts.push(two).expect(rt, "memory");
    parts.push(three).expect(rt, "memory");
    Programme {
        sizes: pages_of(rt, alloc, sizes),
        upkeep: costs_of(rt, alloc, upkeep),
        kept: 7,
        parts: List { items: parts },
    }
}

/// A part with drawn prices, of two drawn candidates.
fn drawn_part(rt: &impl Abort, alloc: Global, draws: &mut Draws, statement: u16) -> Part
    requires number { 1 ≤ statement }
    requires most { statement ≤ 6 }
    ensures grants_are { All (λ slot. All (λ grant. grant.candidate ≤ 6) slot.grants) result.slots }
{
    let first = draws.below(5) + 1;
    let second = first + 1 + draws.below(6 - first);
    let weight = 1 + draws.below(5);
    let sort = draws.below(4) * 100;
    let table = 100 + draws.below(400);
    let one = ordered(rt, alloc, first as u16, 10 + draws.below(500));
    let other = ordered(rt, alloc, second as u16, 10 + draws.below(500));
    let slot = wide_slot(rt, alloc, table, one, other);
    part(rt, alloc, statement, weight, sort, slot)
}

/// Six numbers below another.
fn six(draws: &mut Draws, bound: u32) -> [u32; CANDIDATES]
    requires { 0 < bound }
{
    [
        draws.below(bound),
        draws.below(bound),
        draws.below(bound),
        draws.below(bound),
        draws.below(bound),
        draws.below(bound),
    ]
}

/// A programme with drawn prices, sizes and upkeep.
pub(crate) fn drawn(rt: &impl Abort, alloc: Global, draws: &mut Draws) -> Programme {
    let sizes = six(draws, 9);
    let upkeep = six(draws, 300);
    let one = drawn_part(rt, alloc, draws, 1);
    let two = drawn_part(rt, alloc, draws, 2);
    let three = drawn_part(rt, alloc, draws, 3);
    wide_programme(rt, alloc, sizes, upkeep, one, two, three)
}

/// The knapsack of two indexes, of 3 and 4 pages: a statement costs 80000 without its index, 13000 or 14000 with it. The
/// four other candidates serve no statement.
pub(crate) fn knapsack(rt: &impl Abort, alloc: Global) -> Programme {
    let one = slot(rt, alloc, 30000, ordered(rt, alloc, 1, 13000));
    let two = slot(rt, alloc, 30000, ordered(rt, alloc, 2, 14000));
    let first = part(rt, alloc, 1, 10, 50000, one);
    let second = part(rt, alloc, 2, 11, 50000, two);
    programme(rt, alloc, [3, 4, 2, 9, 1, 1], [0; 6], 0, first, second)
}

/// A join, candidates that serve two statements, and rows that are written. The two last candidates serve no statement.
pub(crate) fn mixed(rt: &impl Abort, alloc: Global) -> Programme {
    let one = slot(rt, alloc, 30000, ordered(rt, alloc, 1, 13000));
    let joined = wide_slot(
        rt,
        alloc,
        30000,
        ordered(rt, alloc, 2, 14000),
        unordered(rt, alloc, 3, 5000),
    );
    let read = wide_slot(
        rt,
        alloc,
        30000,
        ordered(rt, alloc, 3, 9000),
        ordered(rt, alloc, 4, 4010),
    );
    let first = joined_part(rt, alloc, 3, one, joined);
    let second = part(rt, alloc, 2, 7, 50000, read);
    let upkeep = [0, 24060, 8020, 100, 0, 0];
    programme(rt, alloc, [3, 4, 2, 9, 1, 1], upkeep, 16020, first, second)
}

/// A join of a table with itself and a read of it, of one weight, both of which the first two candidates serve, and a
/// statement of that weight that the third and the fourth serve. The two last candidates serve no statement.
pub(crate) fn shared(rt: &impl Abort, alloc: Global) -> Programme {
    let one = wide_slot(
        rt,
        alloc,
        30000,
        ordered(rt, alloc, 1, 13000),
        unordered(rt, alloc, 2, 9000),
    );
    let other = wide_slot(
        rt,
        alloc,
        30000,
        ordered(rt, alloc, 1, 12000),
        ordered(rt, alloc, 2, 16000),
    );
    let read = wide_slot(
        rt,
        alloc,
        30000,
        ordered(rt, alloc, 1, 7000),
        unordered(rt, alloc, 2, 5000),
    );
    let apart = wide_slot(
        rt,
        alloc,
        30000,
        ordered(rt, alloc, 3, 8000),
        ordered(rt, alloc, 4, 2000),
    );
    let first = joined_part(rt, alloc, 5, one, other);
    let second = part(rt, alloc, 2, 5, 50000, read);
    let third = part(rt, alloc, 3, 5, 40000, apart);
    let upkeep = [30000, 24060, 8020, 100, 0, 0];
    wide_programme(rt, alloc, [3, 4, 2, 9, 1, 1], upkeep, first, second, third)
}
