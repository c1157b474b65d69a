//! The definitions computed slowly, in another way.
use crate::tests::build::Statistics;
use adv_base::{Test, Value};

/// The least part of 10^9 that is at least n / d, found by halving.
fn slow_quotient(n: u64, d: u64) -> u64 {
    let goal = (n as u128).wrapping_mul(1000000000);
    let mut low: u64 = 1;
    let mut high: u64 = 1000000000;
    for _ in 0..30 {
        let middle = low.wrapping_add(high) / 2;
        if (middle as u128).wrapping_mul(d as u128) >= goal {
            high = middle;
        } else {
            low = middle.wrapping_add(1);
        }
    }
    high
}

/// How many whole numbers from `low` up to below `high` are at least `from` and below `to`.
fn slow_length(low: i64, high: i64, from: i64, to: i64) -> u64 {
    let mut length: u64 = 0;
    for n in low..high {
        if n >= from && n < to {
            length = length.wrapping_add(1);
        }
    }
    length
}

fn slow_equal(statistics: Statistics<'_>) -> u64 {
    match statistics.distinct {
        Some(d) => slow_quotient(1, d),
        None => 100000000,
    }
}

/// The share of the range's whole numbers that lie from `from` up to below `to`.
fn slow_share(
    statistics: Statistics<'_>,
    from: Option<Value>,
    to: Option<Value>,
    unknown: u64,
) -> u64 {
    let (Some(low), Some(high)) = (statistics.low, statistics.high) else {
        return unknown;
    };
    if low >= high || from == Some(Value::Plain) || to == Some(Value::Plain) {
        return unknown;
    }
    let first = match from {
        Some(Value::Number(n)) => n,
        _ => low,
    };
    let last = match to {
        Some(Value::Number(n)) => n,
        _ => high,
    };
    slow_quotient(
        slow_length(low, high, first, last),
        slow_length(low, high, low, high),
    )
}

/// The part of a test of one column.
pub fn slow_part(statistics: Statistics<'_>, test: Test) -> u64 {
    match test {
        Test::Equal => slow_equal(statistics),
        Test::NotEqual => 1000000000u64.wrapping_sub(slow_equal(statistics)).max(1),
        Test::Above(v) => slow_share(statistics, Some(v), None, 333333334),
        Test::Below(v) => slow_share(statistics, None, Some(v), 333333334),
        Test::Between(v, w) => slow_share(statistics, Some(v), Some(w), 250000000),
        Test::OneOf(n) => slow_equal(statistics).wrapping_mul(n as u64).min(500000000),
        Test::NotNull => 1000000000,
        _ => 100000000,
    }
}
