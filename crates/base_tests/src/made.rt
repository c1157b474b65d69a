//! Whole texts, written by a second program from the description of the generator.
use std::test::Fail;
use workload_gen::{Made, make};

const ONE_CATALOGUE: &str = r#"version = 1
[[table]]
name = "t1"
rows = 775000
pages = 15500
[[table.column]]
name = "k"
kind = "int"
width = 8
distinct = 775000
[[table.column]]
name = "f"
kind = "int"
width = 8
distinct = 1000
[[table.column]]
name = "a"
kind = "int"
width = 4
distinct = 74
low = 1
high = 74
[[table.column]]
name = "b"
kind = "int"
width = 4
distinct = 80
low = 1
high = 80
[[table.column]]
name = "d"
kind = "date"
width = 4
distinct = 3653
low = "2000-01-01"
high = "2009-12-31"
[[table.index]]
name = "pk"
keys = ["k"]
unique = true
[[table]]
name = "t2"
rows = 871000
pages = 17420
[[table.column]]
name = "k"
kind = "int"
width = 8
distinct = 871000
[[table.column]]
name = "f"
kind = "int"
width = 8
distinct = 1000
[[table.column]]
name = "a"
kind = "int"
width = 4
distinct = 560
low = 1
high = 560
[[table.column]]
name = "b"
kind = "int"
width = 4
distinct = 214
low = 1
high = 214
[[table.column]]
name = "d"
kind = "date"
width = 4
distinct = 3653
low = "2000-01-01"
high = "2009-12-31"
[[table.index]]
name = "pk"
keys = ["k"]
unique = true
"#;

const ONE_WORKLOAD: &str = r#"-- weight 31
SELECT k, d FROM t1 WHERE b BETWEEN 90 AND 140;
"#;

const MANY_CATALOGUE: &str = r#"version = 1
[[table]]
name = "t1"
rows = 489000
pages = 9780
[[table.column]]
name = "k"
kind = "int"
width = 8
distinct = 489000
[[table.column]]
name = "f"
kind = "int"
width = 8
distinct = 1000
[[table.column]]
name = "a"
kind = "int"
width = 4
distinct = 156
low = 1
high = 156
[[table.column]]
name = "b"
kind = "int"
width = 4
distinct = 899
low = 1
high = 899
[[table.column]]
name = "d"
kind = "date"
width = 4
distinct = 3653
low = "2000-01-01"
high = "2009-12-31"
[[table.index]]
name = "pk"
keys = ["k"]
unique = true
[[table]]
name = "t2"
rows = 603000
pages = 12060
[[table.column]]
name = "k"
kind = "int"
width = 8
distinct = 603000
[[table.column]]
name = "f"
kind = "int"
width = 8
distinct = 1000
[[table.column]]
name = "a"
kind = "int"
width = 4
distinct = 839
low = 1
high = 839
[[table.column]]
name = "b"
kind = "int"
width = 4
distinct = 338
low = 1
high = 338
[[table.column]]
name = "d"
kind = "date"
width = 4
distinct = 3653
low = "2000-01-01"
high = "2009-12-31"
[[table.index]]
name = "pk"
keys = ["k"]
unique = true
[[table]]
name = "t3"
rows = 886000
pages = 17720
[[table.column]]
name = "k"
kind = "int"
width = 8
distinct = 886000
[[table.column]]
name = "f"
kind = "int"
width = 8
distinct = 1000
[[table.column]]
name = "a"
kind = "int"
width = 4
distinct = 435
low = 1
high = 435
[[table.column]]
name = "b"
kind = "int"
width = 4
distinct = 101
low = 1
high = 101
[[table.column]]
name = "d"
kind = "date"
width = 4
distinct = 3653
low = "2000-01-01"
high = "2009-12-31"
[[table.index]]
name = "pk"
keys = ["k"]
unique = true
"#;

const MANY_WORKLOAD: &str = r#"-- weight 33
SELECT a, b FROM t3 WHERE a = 163 ORDER BY b;
-- weight 39
SELECT k, d FROM t3 WHERE b BETWEEN 881 AND 931;
-- weight 13
SELECT k, d FROM t3 WHERE b BETWEEN 603 AND 653;
-- weight 81
SELECT x.a, y.b FROM t3 x, t1 y WHERE x.f = y.k AND x.b = 516 ORDER BY x.a;
-- weight 38
SELECT a, b FROM t3 WHERE a = 830 ORDER BY b;
-- weight 16
SELECT x.a, y.b FROM t2 x, t3 y WHERE x.f = y.k AND x.b = 663 ORDER BY x.a;
-- weight 92
SELECT x.a, y.b FROM t1 x, t2 y WHERE x.f = y.k AND x.b = 798 ORDER BY x.a;
-- weight 41
UPDATE t2 SET b = 968 WHERE k = 968;
"#;

#[test]
fn whole_texts(rt: HostRuntime) -> Result<(), Fail> {
    for (seed, tables, statements, catalogue, workload) in [
        (1, 2, 1, ONE_CATALOGUE, ONE_WORKLOAD),
        (u64::MAX, 3, 8, MANY_CATALOGUE, MANY_WORKLOAD),
    ] {
        let made: Made = make(rt.alloc(), seed, tables, statements)?;
        assert_eq!(rt;
            made.catalogue.as_slice(),
            catalogue.as_bytes(),
            "seed {seed}"
        );
        assert_eq!(rt;
            made.workload.as_slice(),
            workload.as_bytes(),
            "seed {seed}"
        );
    }
    Ok(())
}
