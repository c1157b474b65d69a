//! Tests: the table of factors and the rows of a three-table query by values from elsewhere, and both against a slow
//! program.
mod build;
mod slow;

use crate::tests::build::Statistics;
use crate::tests::slow::slow_part;
use adv_base::{Test, Value};
use std::test::Fail;

/// Statistics with a number of distinct values.
fn counted(distinct: u64) -> Statistics<'static> {
    Statistics {
        distinct: Some(distinct),
        low: None,
        high: None,
        bounds: &[],
    }
}

/// Statistics with the ends of the values.
fn ranged(low: i64, high: i64) -> Statistics<'static> {
    Statistics {
        distinct: None,
        low: Some(low),
        high: Some(high),
        bounds: &[],
    }
}

/// Statistics that tell nothing.
fn unknown() -> Statistics<'static> {
    Statistics {
        distinct: None,
        low: None,
        high: None,
        bounds: &[],
    }
}

#[test]
fn the_table_of_factors(rt: HostRuntime) -> Result<(), Fail> {
    let at = |n: i64| Value::Number(n);
    let low_alone = Statistics {
        distinct: Some(10),
        low: Some(0),
        high: None,
        bounds: &[],
    };
    let cases = [
        (counted(1000), Test::Equal, 1000000),
        (counted(3), Test::Equal, 333333334),
        (counted(1), Test::Equal, 1000000000),
        (counted(1000000000000), Test::Equal, 1),
        (unknown(), Test::Equal, 100000000),
        (counted(1000), Test::NotEqual, 999000000),
        (counted(1), Test::NotEqual, 1),
        (unknown(), Test::NotEqual, 900000000),
        (ranged(0, 100), Test::Above(at(75)), 250000000),
        (ranged(0, 100), Test::Above(at(0)), 1000000000),
        (ranged(0, 100), Test::Above(at(100)), 1),
        (ranged(0, 100), Test::Above(at(101)), 1),
        (ranged(0, 100), Test::Above(at(-5)), 1000000000),
        (ranged(0, 3), Test::Above(at(2)), 333333334),
        (ranged(0, 100), Test::Above(Value::Plain), 333333334),
        (ranged(5, 5), Test::Above(at(4)), 333333334),
        (low_alone, Test::Above(at(4)), 333333334),
        (unknown(), Test::Above(at(4)), 333333334),
        (ranged(0, 100), Test::Below(at(75)), 750000000),
        (ranged(0, 100), Test::Below(at(0)), 1),
        (ranged(0, 100), Test::Below(at(-1)), 1),
        (ranged(0, 100), Test::Below(at(200)), 1000000000),
        (ranged(-3, 0), Test::Below(at(-2)), 333333334),
        (ranged(0, 100), Test::Below(Value::Plain), 333333334),
        (ranged(5, 5), Test::Below(at(4)), 333333334),
        (ranged(0, 2556), Test::Between(at(1096), at(1185)), 34820032),
        (ranged(0, 100), Test::Between(at(25), at(50)), 250000000),
        (ranged(0, 100), Test::Between(at(50), at(25)), 1),
        (ranged(0, 100), Test::Between(at(40), at(40)), 1),
        (ranged(0, 100), Test::Between(at(-7), at(200)), 1000000000),
        (ranged(0, 100), Test::Between(at(200), at(300)), 1),
        (
            ranged(0, 100),
            Test::Between(at(25), Value::Plain),
            250000000,
        ),
        (
            ranged(0, 100),
            Test::Between(Value::Plain, at(25)),
            250000000,
        ),
        (ranged(9, 5), Test::Between(at(6), at(7)), 250000000),
        (counted(1000), Test::OneOf(1), 1000000),
        (counted(1000), Test::OneOf(2), 2000000),
        (counted(1000), Test::OneOf(500), 500000000),
        (counted(1000), Test::OneOf(501), 500000000),
        (unknown(), Test::OneOf(4), 400000000),
        (unknown(), Test::OneOf(4294967295), 500000000),
        (counted(1000), Test::Like, 100000000),
        (counted(1000), Test::IsNull, 100000000),
        (counted(1000), Test::NotNull, 1000000000),
    ];
    for (statistics, test, part) in cases.iter() {
        let got = statistics.part(rt.alloc(), *test).ok_or("a case")?;
        assert_eq!(rt; got, *part, "{test:?} of {statistics:?}");
        assert_eq!(rt; slow_part(*statistics, *test), *part, "slow {test:?}");
    }
    Ok(())
}

/// Statistics with a histogram, and a range that counts for nothing beside it.
fn shared(bounds: &[i64]) -> Statistics<'_> {
    Statistics {
        distinct: None,
        low: Some(0),
        high: Some(1000),
        bounds,
    }
}

#[test]
fn the_shares_of_histograms(rt: HostRuntime) -> Result<(), Fail> {
    let at = |n: i64| Value::Number(n);
    let skewed = shared(&[0, 10, 20, 1000]);
    let repeated = shared(&[0, 0, 0, 10]);
    let thirds = shared(&[0, 3]);
    let inner = shared(&[0, 5, 5, 10]);
    let point = shared(&[5, 5]);
    let widest = shared(&[-1000000000000000000, 1000000000000000000]);
    let cases = [
        (skewed, Test::Below(at(15)), 500000000),
        (skewed, Test::Above(at(20)), 333333334),
        (skewed, Test::Between(at(5), at(10)), 166666667),
        (repeated, Test::Below(at(-1)), 1),
        (repeated, Test::Below(at(0)), 1),
        (repeated, Test::Below(at(1)), 700000000),
        (repeated, Test::Below(at(5)), 833333333),
        (repeated, Test::Below(at(10)), 1000000000),
        (repeated, Test::Below(at(11)), 1000000000),
        (repeated, Test::Below(Value::Plain), 333333334),
        (repeated, Test::Above(at(-1)), 1000000000),
        (repeated, Test::Above(at(0)), 1000000000),
        (repeated, Test::Above(at(5)), 166666667),
        (repeated, Test::Above(at(10)), 1),
        (repeated, Test::Above(at(11)), 1),
        (repeated, Test::Above(Value::Plain), 333333334),
        (repeated, Test::Between(at(0), at(5)), 833333333),
        (repeated, Test::Between(at(5), at(0)), 1),
        (repeated, Test::Between(at(5), at(5)), 1),
        (repeated, Test::Between(at(-5), at(20)), 1000000000),
        (repeated, Test::Between(at(-9), at(-5)), 1),
        (repeated, Test::Between(at(11), at(20)), 1),
        (repeated, Test::Between(at(5), Value::Plain), 250000000),
        (repeated, Test::Between(Value::Plain, at(5)), 250000000),
        (repeated, Test::Equal, 100000000),
        (thirds, Test::Below(at(1)), 333333333),
        (thirds, Test::Below(at(2)), 666666666),
        (thirds, Test::Above(at(1)), 666666667),
        (thirds, Test::Between(at(1), at(2)), 333333333),
        (inner, Test::Below(at(4)), 266666666),
        (inner, Test::Below(at(5)), 666666666),
        (inner, Test::Below(at(6)), 733333333),
        (point, Test::Below(at(5)), 1),
        (point, Test::Below(at(6)), 1000000000),
        (point, Test::Above(at(5)), 1000000000),
        (point, Test::Above(at(6)), 1),
        (widest, Test::Below(at(0)), 500000000),
        (widest, Test::Below(at(-999999999999999999)), 1),
        (widest, Test::Above(at(999999999999999999)), 1),
    ];
    for (statistics, test, part) in cases.iter() {
        let got = statistics.part(rt.alloc(), *test).ok_or("a case")?;
        assert_eq!(rt; got, *part, "{test:?} of {statistics:?}");
    }
    Ok(())
}
