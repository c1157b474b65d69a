//! What an index advisor computes of plans, as plain programs with numbers that are worked out by hand.

/// The least price of a slot for the order of a number; none is `u64::MAX`.
fn price_of(prices: &[u64], order: usize) -> u64 {
    match prices.get(order) {
        Some(price) => *price,
        None => u64::MAX,
    }
}

/// The least, over templates of an internal cost and the numbers of the orders that two slots need, of the internal cost
/// and the least prices.
fn cached(templates: &[(u64, usize, usize)], left: &[u64], right: &[u64]) -> u64 {
    let mut least = u64::MAX;
    for (internal, first, second) in templates {
        let leaves = price_of(left, *first).saturating_add(price_of(right, *second));
        least = least.min(internal.saturating_add(leaves));
    }
    least
}

/// A table of 30000 and an index of 13000 that covers, under a list to order by and on both sides of a join.
#[test]
fn cached_costs(rt: HostRuntime) {
    let none = u64::MAX;
    let ordered = [(50000, 0, 0), (0, 1, 0)];
    let joined = [(34000, 0, 0), (20000, 1, 1)];
    assert!(rt; cached(&ordered, &[30000, none], &[0]) == 80000);
    assert!(rt; cached(&ordered, &[13000, 13000], &[0]) == 13000);
    assert!(rt; cached(&joined, &[30000, none], &[30000, none]) == 94000);
    assert!(rt; cached(&joined, &[13000, 13000], &[13000, 13000]) == 46000);
}

/// What an open candidate earns beyond the price of its pages, in parts of 65536: it has no upkeep.
fn earned(weight: u64, rent: u64, page: u64, pages: u64) -> u64 {
    let rents = weight.saturating_mul(rent).saturating_mul(65536);
    rents.saturating_sub(page.saturating_mul(pages))
}

/// The Lagrangian value of a node at a price of pages, where each statement has a weight and a plan's cost, rents among
/// it, and the open candidates earn that much.
fn lagrangian(plans: &[(u64, u64)], earnings: u64, page: u64, budget: u64) -> u64 {
    let mut costs: u64 = 0;
    for (weight, cost) in plans {
        costs = costs.saturating_add(weight.saturating_mul(*cost));
    }
    let less = earnings.saturating_add(page.saturating_mul(budget));
    costs
        .saturating_mul(65536)
        .saturating_sub(less)
        .div_ceil(65536)
}

/// Two statements of weights 10 and 11 cost 80000 each, and 13000 and 14000 with an index of 3 and of 4 pages. Under a
/// budget of 4 pages: nothing is asked for; the first index is in, so that the second isn't open; pages cost 2^33 / 65536
/// each, and the rents are what pays for them.
#[test]
fn lagrangian_values(rt: HostRuntime) {
    let page = 8589934592;
    let first = earned(10, 39321, page, 3);
    let second = earned(11, 47662, page, 4);
    assert!(rt; lagrangian(&[(10, 13000), (11, 14000)], 0, 0, 4) == 284000);
    assert!(rt; lagrangian(&[(10, 13000), (11, 80000)], 0, 0, 4) == 1010000);
    let rented = [(10, 13000 + 39321), (11, 14000 + 47662)];
    assert!(rt; lagrangian(&rented, first.saturating_add(second), page, 4) == 677204);
}
