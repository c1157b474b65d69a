//! What is proposed for statements: cases as lines.
//!
//! Each case is the indexes that a workload proposes, in sequence, `|` and the workload; a star stands behind a clustered one.
//! They were written from the rules, by hand.
use crate::opened::{candidates_of, catalogue_of};
use crate::texts::{SHOP, WORTH};
use adv_base::{Catalogue, IndexShape};
use candidates::Candidates;
use std::alloc::{AllocError, Global};
use std::process::Abort;

/// A table without indexes, one with three and one with an index on both columns.
const CATALOGUE: &str = r#"version = 1
[[table]]
name = "t"
rows = 0
pages = 0
column = [{ name = "a", kind = "int", width = 4 }, { name = "b", kind = "int", width = 4 }, { name = "c", kind = "int", width = 4 }, { name = "d", kind = "int", width = 4 }, { name = "e", kind = "int", width = 4 }, { name = "f", kind = "int", width = 4 }, { name = "g", kind = "int", width = 4 }, { name = "h", kind = "int", width = 4 }, { name = "i", kind = "int", width = 4 }, { name = "j", kind = "int", width = 4 }]
[[table]]
name = "u"
rows = 0
pages = 0
column = [{ name = "a", kind = "int", width = 4 }, { name = "b", kind = "int", width = 4 }, { name = "c", kind = "int", width = 4 }, { name = "d", kind = "int", width = 4 }]
index = [{ name = "u_a", keys = ["a"] }, { name = "u_ab", keys = ["a", "b"] }, { name = "u_d", keys = ["d"], unique = true }]
[[table]]
name = "v"
rows = 0
pages = 0
column = [{ name = "k", kind = "int", width = 4 }, { name = "m", kind = "int", width = 4 }]
index = [{ name = "v_km", keys = ["k", "m"] }]"#;

const CASES: &str = r#"t(a)|SELECT a FROM t
|SELECT count(*) FROM t
u(a,b,c,d)|SELECT * FROM u
|SELECT * FROM v
t(a)|SELECT a FROM t WHERE a = 1
t(a) t(a,b)|SELECT b FROM t WHERE a = 1
t(b) t(b,a)|SELECT a FROM t WHERE b = 1
t(b) t(b,a)|SELECT a FROM t WHERE 1 = b
t(b) t(b,a)|SELECT a FROM t WHERE b IN (1, 2)
t(b) t(b,a)|SELECT a FROM t WHERE b > 1
t(b) t(b,a)|SELECT a FROM t WHERE b >= 1
t(b) t(b,a)|SELECT a FROM t WHERE b < 1
t(b) t(b,a)|SELECT a FROM t WHERE 5 <= b
t(b) t(b,a)|SELECT a FROM t WHERE b BETWEEN 1 AND 2
t(a,b)|SELECT a FROM t WHERE b <> 1
t(a,b)|SELECT a FROM t WHERE b LIKE 'x%'
t(a,b)|SELECT a FROM t WHERE b IS NULL
t(a,b)|SELECT a FROM t WHERE b IS NOT NULL
t(a,b,c)|SELECT a FROM t WHERE b = c
t(b) t(c) t(b,c) t(b,c,a)|SELECT a FROM t WHERE b = 1 AND c = 2
t(c) t(b) t(c,b) t(c,b,a)|SELECT a FROM t WHERE c = 2 AND b = 1
t(b) t(b,a)|SELECT a FROM t WHERE b = 1 AND b = 2
t(b) t(c) t(b,c) t(b,c,a)|SELECT a FROM t WHERE b IN (1) AND c = 2 AND b = 3
t(b) t(c) t(b,c) t(b,c,a)|SELECT a FROM t WHERE b = 1 AND c > 2
t(b) t(c) t(b,c) t(b,c,a)|SELECT a FROM t WHERE c > 2 AND b = 1
t(b) t(c) t(b,c) t(b,c,a)|SELECT a FROM t WHERE b = 1 AND c > 2 ORDER BY c
t(b) t(c) t(d) t(b,c) t(b,d) t(b,c,a,d)|SELECT a FROM t WHERE b = 1 AND c > 2 AND d < 3
t(b) t(d) t(c) t(b,d) t(b,c) t(b,d,a,c)|SELECT a FROM t WHERE d < 3 AND c > 2 AND b = 1
t(b) t(b,a)|SELECT a FROM t WHERE b = 1 AND b > 0
t(b) t(b,a)|SELECT a FROM t WHERE b > 1 AND b < 9
t(b) t(a,b)|SELECT a FROM t ORDER BY b
t(b,a) t(a,b)|SELECT a FROM t ORDER BY b, a
t(a,b)|SELECT a FROM t ORDER BY b DESC
t(a,b)|SELECT a FROM t ORDER BY a, b DESC
t(a,b)|SELECT a FROM t ORDER BY a + b
t(a,b)|SELECT a FROM t ORDER BY b, a + b
t(b,a) t(a,b)|SELECT a FROM t ORDER BY b, b, a
t(b) t(c) t(b,c) t(b,a,c)|SELECT a FROM t WHERE b = 1 ORDER BY c
t(b) t(c) t(b,c) t(b,a,c)|SELECT a FROM t WHERE b = 1 ORDER BY b, c
t(b) t(b,c) t(b,a,c)|SELECT a FROM t WHERE b IN (1, 2) ORDER BY b, c
t(b) t(c,b) t(b,c) t(b,a,c)|SELECT a FROM t WHERE b IN (1, 2) ORDER BY c, b
t(b) t(c,b) t(b,a,c)|SELECT a FROM t WHERE b > 1 ORDER BY c, b
t(a)|SELECT a, count(*) FROM t GROUP BY a
t(b,a) t(a,b)|SELECT b, a, count(*) FROM t GROUP BY b, a
t(b) t(b,c)|SELECT b, sum(c) FROM t GROUP BY b
t(a) t(b) t(a,b,c)|SELECT b, sum(c) FROM t WHERE a = 1 GROUP BY b
t(a) t(b) t(a,b)|SELECT a, b, count(*) FROM t WHERE a = 1 GROUP BY a, b
t(b)|SELECT b, count(*) FROM t WHERE b = 1 GROUP BY b
t(b) t(c,b) t(b,c)|SELECT b, c, count(*) FROM t WHERE b IN (1, 2) GROUP BY c, b
t(b) t(c,b) t(b,c)|SELECT b, c, count(*) FROM t WHERE b > 1 GROUP BY c, b
t(b)|SELECT b, count(*) FROM t GROUP BY b ORDER BY b
t(b,c) t(c)|SELECT b, c, count(*) FROM t GROUP BY b, c ORDER BY c
t(b)|SELECT b, count(*) FROM t GROUP BY b ORDER BY count(*)
t(b,a) t(a,b)|SELECT DISTINCT b, a FROM t
t(a,b)|SELECT DISTINCT a + b FROM t
t(a,b)|SELECT sum(a) FROM t ORDER BY b
t(b) t(a,b) v(m)|SELECT t.a FROM t, v WHERE t.b = v.m
t(b) t(c) t(a,b,c) v(k) v(m)|SELECT t.a FROM t JOIN v ON t.b = v.k AND t.c = v.m
t(c) t(b) t(c,b) t(c,a,b) v(m)|SELECT t.a FROM t, v WHERE t.b = v.m AND t.c = 1
t(c) t(d) t(b) t(c,d) t(c,b) t(c,d,a,b) v(m)|SELECT t.a FROM t, v WHERE t.b = v.m AND t.c = 1 AND t.d > 2
t(b) t(b,a) v(m)|SELECT t.a FROM t, v WHERE t.b = v.m AND t.b = 1
t(b) t(b,a) v(m)|SELECT t.a FROM t, v WHERE t.b = v.m AND t.b > 1
t(b) t(a,b) v(k) v(m)|SELECT t.a FROM t, v WHERE t.b = v.k AND t.b = v.m
t(b) t(a,b) t(c)|SELECT x.a FROM t x, t y WHERE x.b = y.c
t(b)|SELECT x.b FROM t x, t y WHERE x.b = y.b
t(a) u(b) u(c) u(b,c) v(m)|SELECT x.a FROM t x, u y, v z WHERE x.a = y.b AND y.c = z.m
u(b) u(a,b,c,d) t(a)|SELECT x.* FROM u x, t y WHERE x.b = y.a
t(b) t(a,b) v(k)|SELECT t.a, v.m, count(*) FROM t, v WHERE t.b = v.k GROUP BY t.a, v.m
t(b) v(k) v(m)|SELECT v.m, count(*) FROM t, v WHERE t.b = v.k GROUP BY v.m
t(b) t(a) t(a,b) v(k)|SELECT t.a FROM t, v WHERE t.b = v.k ORDER BY t.a
t(b) t(a,b) v(k)|SELECT t.a FROM t, v WHERE t.b = v.k ORDER BY t.a, v.m
t(b) t(b,a) t(a,b) v(k)|SELECT t.a FROM t, v WHERE t.b = v.k ORDER BY t.b, t.a
t(b) t(b,a) t(a,b) v(k)|SELECT t.a, t.b, count(*) FROM t, v WHERE t.b = v.k GROUP BY t.b, t.a
|SELECT a FROM u WHERE a = 1
|SELECT b FROM u WHERE a = 1
u(a,c)|SELECT c FROM u WHERE a = 1
u(b) u(b,a)|SELECT a FROM u WHERE b = 1
u(b) u(a,b,d)|SELECT d FROM u WHERE a = 1 AND b = 2
u(b)|SELECT a FROM u WHERE a = 1 AND b > 2
|SELECT a, b FROM u ORDER BY a, b
u(b,a)|SELECT a, b FROM u ORDER BY b, a
|SELECT a, b, count(*) FROM u GROUP BY a, b
t(a)|SELECT u.d FROM t, u WHERE t.a = u.d
|SELECT d FROM u
t(a)|SELECT a FROM u WHERE a = 1; SELECT a FROM t WHERE a = 1
t(a,b,c,d,e,f,g,h)|SELECT a, b, c, d, e, f, g, h FROM t
|SELECT a, b, c, d, e, f, g, h, i FROM t
t(a) t(b) t(c) t(d) t(e) t(f) t(g) t(h) t(a,b,c,d,e,f,g,h)|SELECT a FROM t WHERE a = 1 AND b = 1 AND c = 1 AND d = 1 AND e = 1 AND f = 1 AND g = 1 AND h = 1
t(a) t(b) t(c) t(d) t(e) t(f) t(g) t(h) t(i) t(a,b,c,d,e,f,g,h)|SELECT a FROM t WHERE a = 1 AND b = 1 AND c = 1 AND d = 1 AND e = 1 AND f = 1 AND g = 1 AND h = 1 AND i > 1
t(a) t(b) t(c) t(d) t(e) t(f) t(g) t(h) t(a,b,c,d,e,f,g,h)|SELECT a FROM t WHERE a = 1 AND b = 1 AND c = 1 AND d = 1 AND e = 1 AND f = 1 AND g = 1 AND h = 1 AND a > 1
t(a) t(b) t(c) t(d) t(e) t(f) t(g) t(h) t(i)|SELECT a FROM t WHERE a = 1 AND b = 1 AND c = 1 AND d = 1 AND e = 1 AND f = 1 AND g = 1 AND h = 1 AND i = 1
|SELECT count(*), a, b, c, d, e, f, g, h, i FROM t GROUP BY a, b, c, d, e, f, g, h, i
|SELECT a FROM t ORDER BY a, b, c, d, e, f, g, h, i
t(a) t(b) t(c) t(d) t(e) t(f) t(g) t(h) t(i)|SELECT a FROM t WHERE a = 1 AND b = 1 AND c = 1 AND d = 1 AND e = 1 AND f = 1 AND g = 1 AND h = 1 ORDER BY i
t(a) t(b) t(c) t(d) t(e) t(f) t(g) t(h) t(i) t(a,b,c,d,e,f,g,h) v(m)|SELECT t.a FROM t, v WHERE t.i = v.m AND t.a = 1 AND t.b = 1 AND t.c = 1 AND t.d = 1 AND t.e = 1 AND t.f = 1 AND t.g = 1 AND t.h = 1
t(b) t(j) t(b,j) t(c,d,e,f,g,h,i) t(b,c,d,e,f,g,h,i)|SELECT a FROM t WHERE j > 1 AND b IN (1) ORDER BY c, d, e, f, g, h, i
t(b) t(b,a)|SELECT a FROM t WHERE b = 1; SELECT a FROM t WHERE b = 2
t(b) t(b,a) t(a) t(a,b)|SELECT a FROM t WHERE b = 1; SELECT b FROM t WHERE a = 1
t(b)|UPDATE t SET a = 1 WHERE b = 1
t(b) t(b,c)|UPDATE t SET a = c WHERE b > 1
t(a)|UPDATE t SET a = a + 1
t(b) t(c) t(b,c)|DELETE FROM t WHERE b = 1 AND c < 2
|DELETE FROM t
|INSERT INTO t VALUES (1)
t(a)|INSERT INTO t VALUES (1); DELETE FROM t WHERE a = 1
|"#;

const FOR_WORTH: &str =
    "customer(c_segment) customer(c_segment,c_id) orders(o_date) orders(o_cust) orders(o_id,o_date) orders(o_date,o_id,o_cust) lineitem(l_order) lineitem(l_order,l_price)";

/// Writes an index as `table(column,column)`, and a star where it is clustered.
fn add_shape(out: &mut Vec<u8>, cat: &Catalogue, shape: &IndexShape) -> Result<(), AllocError> {
    let Some(table) = cat.tables.items.get(shape.table as usize) else {
        return Ok(());
    };
    out.extend_from_slice(table.name.as_slice())?;
    for (at, key) in shape.keys.items.iter().enumerate() {
        out.push(if at == 0 { b'(' } else { b',' })?;
        if let Some(column) = table.columns.items.get(*key as usize) {
            out.extend_from_slice(column.name.as_slice())?;
        }
    }
    out.push(b')')?;
    if shape.clustered {
        out.push(b'*')?;
    }
    Ok(())
}

/// The candidates as a line.
fn shown(alloc: Global, cat: &Catalogue, found: &Candidates) -> Result<Vec<u8>, AllocError> {
    let mut out = Vec::new(alloc);
    for (at, shape) in found.list.items.iter().enumerate() {
        if at > 0 {
            out.push(b' ')?;
        }
        add_shape(&mut out, cat, shape)?;
    }
    Ok(out)
}

/// Compares what each case wants with what its workload proposes over a catalogue.
pub(crate) fn assert_cases(rt: &impl Abort, alloc: Global, cat: &str, cases: &str) {
    let cat = catalogue_of(rt, alloc, cat.as_bytes());
    for case in cases.lines() {
        let (wanted, text) = case.split_once('|').expect(rt, "a bar");
        let found = candidates_of(rt, alloc, &cat, text.as_bytes());
        let line = shown(alloc, &cat, &found).expect(rt, "memory");
        assert!(rt; line.as_slice() == wanted.as_bytes(), "in {text}");
        assert!(rt; found.left_over == 0, "in {text}");
    }
}

#[test]
fn key_lists_by_hand(rt: HostRuntime) {
    assert_cases(&rt, rt.alloc(), CATALOGUE, CASES);
}

/// A statement for each order of three of ten columns of t, each of which proposes that order and the columns sorted.
fn all_orders(alloc: Global) -> Result<Vec<u8>, AllocError> {
    let mut text = Vec::new(alloc);
    for first in b'a'..=b'j' {
        for second in b'a'..=b'j' {
            for third in b'a'..=b'j' {
                if first != second && first != third && second != third {
                    text.extend_from_slice(b"SELECT 1 FROM t ORDER BY ")?;
                    text.extend_from_slice(&[first, b',', second, b',', third, b';'])?;
                }
            }
        }
    }
    Ok(text)
}

/// Of what all orders propose over a catalogue, the first 256 are taken and so many left over; a line of them begins and ends so.
pub(crate) fn assert_first(
    rt: &impl Abort,
    alloc: Global,
    cat: &str,
    left: u64,
    ends: (&str, &str),
) {
    let cat = catalogue_of(rt, alloc, cat.as_bytes());
    let text = all_orders(alloc).expect(rt, "memory");
    let found = candidates_of(rt, alloc, &cat, text.as_slice());
    assert!(rt; found.list.len() == 256);
    assert!(rt; found.left_over == left);
    let line = shown(alloc, &cat, &found).expect(rt, "memory");
    let line = line.as_slice();
    assert!(rt; line.starts_with(ends.0.as_bytes()) && line.ends_with(ends.1.as_bytes()));
}

#[test]
fn the_first_256_of_720(rt: HostRuntime) {
    let ends = ("t(a,b,c) t(a,b,d) t(a,b,e) ", " t(d,f,j)");
    assert_first(&rt, rt.alloc(), CATALOGUE, 464, ends);
}

#[test]
fn three_tables_joined_and_grouped(rt: HostRuntime) {
    let case = format!(in rt.alloc(); "{FOR_WORTH}|{WORTH}").expect(&rt, "memory");
    assert_cases(&rt, rt.alloc(), SHOP, case.as_str());
}
