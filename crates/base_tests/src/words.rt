//! Sums, days, digits, lines and small words of `adv_base`.
use adv_base::{
    Config, List, Name, Rates, Test, Value, all_slots, binary_digits, day_of, first_line, has_slot,
    push_decimal, read_number, times_part,
};
use std::test::Fail;

#[test]
fn sums(rt: HostRuntime) {
    // A thousandth of 1000 rows, the part of 89 days of 2556, and whatever is left of a row.
    for (n, part, want) in [
        (1000, 1000000, 1),
        (150000, 34820032, 5224),
        (1, 1, 1),
        (10000000000000, 1000000000, 10000000000000),
        (3, 333333334, 2),
    ] {
        assert_eq!(rt; times_part(n, part), want, "{n} through {part}");
    }
    for (n, want) in [
        (0, 0),
        (1, 1),
        (7, 3),
        (8, 4),
        (1000, 10),
        (4181, 13),
        (u64::MAX, 64),
    ] {
        assert_eq!(rt; binary_digits(n), want, "digits of {n}");
    }
}

#[test]
fn days(rt: HostRuntime) {
    assert_eq!(rt; day_of(b"1970-01-01"), Some(0));
    assert_eq!(rt; day_of(b"1995-01-01"), Some(9131));
    assert_eq!(rt; day_of(b"2000-02-29"), Some(11016));
    assert_eq!(rt; day_of(b"9999-12-31"), Some(2932896));
    assert_eq!(rt; day_of(b"0001-01-01"), Some(-719162));
    assert_eq!(rt; day_of(b"0000-12-31"), Some(-719163));
    for text in [
        b"1900-02-29".as_slice(),
        b"2021-02-30",
        b"2021-13-01",
        b"2021-00-10",
        b"2021-1-011",
        b"2021/01/01",
        b"2021-01-01 ",
        b"+021-01-01",
        b"",
    ] {
        assert_eq!(rt; day_of(text), None, "{text:?}");
    }
}

#[test]
fn texts(rt: HostRuntime) -> Result<(), Fail> {
    let mut out = Vec::new(rt.alloc());
    push_decimal(rt.alloc(), &mut out, 0)?;
    push_decimal(
        rt.alloc(),
        &mut out,
        340282366920938463463374607431768211455,
    )?;
    assert_eq!(rt;
        out.as_slice(),
        b"0340282366920938463463374607431768211455".as_slice()
    );
    let empty: List<u8> = List::new(rt.alloc());
    assert!(rt; empty.is_empty());
    assert_eq!(rt; empty.len(), 0);
    Ok(())
}

#[test]
fn numbers_and_lines(rt: HostRuntime) {
    let cases: [(&[u8], Option<u64>); 12] = [
        (b"0", None),
        (b"1", Some(1)),
        (b"1000000000000", Some(1000000000000)),
        (b"1000000000001", None),
        (b"99999999999999999999", None),
        (b"", None),
        (b"01", None),
        (b"+1", None),
        (b"-1", None),
        (b" 1", None),
        (b"1 ", None),
        (b"1\xff", None),
    ];
    for (text, number) in cases.iter() {
        assert_eq!(rt; read_number(*text, 1, 1000000000000), *number);
    }
    assert_eq!(rt; read_number(b"0", 0, 5), Some(0));
    assert_eq!(rt;
        read_number(b"18446744073709551615", 0, u64::MAX),
        Some(u64::MAX)
    );
    assert_eq!(rt;
        first_line(b"a\n\nb"),
        Some((b"a".as_slice(), b"\nb".as_slice()))
    );
    assert_eq!(rt; first_line(b"\n"), Some((b"".as_slice(), b"".as_slice())));
    assert_eq!(rt; first_line(b"a"), None);
    assert_eq!(rt; first_line(b""), None);
}

#[test]
fn small_words(rt: HostRuntime) -> Result<(), Fail> {
    let mut config = Config::none();
    assert!(rt; !config.has(1));
    config.on[255] = true;
    assert!(rt; config.has(256) && !config.has(255) && !config.has(0) && !config.has(257));
    let name = Name {
        items: Vec::from_slice(rt.alloc(), b"t")?,
    };
    let copy = name.copied(rt.alloc()).map_err(|_| "memory")?;
    assert_eq!(rt; copy.as_slice(), b"t".as_slice());
    let rates = Rates::default();
    assert_eq!(rt;
        (rates.seq_page, rates.rand_page, rates.row_cpu),
        (1000, 4000, 10)
    );
    assert_eq!(rt; (rates.sort_cpu, rates.merge_cpu), (5, 5));
    assert_eq!(rt; (rates.hash_cpu, rates.group_cpu), (8, 5));
    assert!(rt; Test::Equal.is_equality() && !Test::OneOf(1).is_equality());
    assert!(rt; !Test::Below(Value::Plain).is_equality());
    assert_eq!(rt; all_slots(3), 7);
    assert!(rt; has_slot(5, 2) && !has_slot(5, 1) && !has_slot(5, 9));
    Ok(())
}
