//! A catalogue and statements over it.

/// Three tables, of which one has an index.
pub(crate) const CAT: &[u8] = br#"version = 1
[[table]]
name = "t"
rows = 10000
pages = 200
column = [{ name = "a", kind = "int", width = 4, distinct = 1000 }, { name = "b", kind = "int", width = 4, distinct = 50 }, { name = "c", kind = "int", width = 8, distinct = 10000 }]
index = [{ name = "t_b", keys = ["b"] }]
[[table]]
name = "u"
rows = 3000
pages = 90
column = [{ name = "d", kind = "int", width = 4, distinct = 3000 }, { name = "e", kind = "int", width = 4, distinct = 1000 }]
[[table]]
name = "v"
rows = 500
pages = 10
column = [{ name = "f", kind = "int", width = 4, distinct = 500 }, { name = "g", kind = "int", width = 4, distinct = 20 }]"#;

/// A statement each line.
pub(crate) const STATEMENTS: &str = r#"SELECT a FROM t WHERE b = 5;
SELECT c FROM t ORDER BY c;
SELECT a, d FROM t, u WHERE a = e AND d < 100;
SELECT a FROM t, u, v WHERE a = e AND d = f AND g = 3 ORDER BY a;
SELECT g, count(f) FROM v GROUP BY g;
UPDATE t SET a = 1 WHERE c = 7;
UPDATE u SET e = 2 WHERE d BETWEEN 1 AND 9;
DELETE FROM t WHERE a = 3 AND b = 4;
DELETE FROM v WHERE f = 1;
INSERT INTO u VALUES (1, 2);
INSERT INTO t VALUES (1, 2, 3), (4, 5, 6);
SELECT d FROM u WHERE e IN (1, 2, 3) ORDER BY d;
SELECT b, c FROM t WHERE a > 990 ORDER BY b, c;
SELECT x.a FROM t x, t y WHERE x.a = y.a AND y.b = 2;"#;

/// A hub of many columns, and a table to join it with.
pub(crate) const STAR: &[u8] = br#"version = 1
[[table]]
name = "h"
rows = 10
pages = 1
column = [{ name = "a", kind = "int", width = 4 }, { name = "b", kind = "int", width = 4 }, { name = "c", kind = "int", width = 4 }, { name = "d", kind = "int", width = 4 }, { name = "e", kind = "int", width = 4 }, { name = "f", kind = "int", width = 4 }, { name = "g", kind = "int", width = 4 }, { name = "i", kind = "int", width = 4 }, { name = "j", kind = "int", width = 4 }, { name = "k", kind = "int", width = 4 }, { name = "l", kind = "int", width = 4 }, { name = "m", kind = "int", width = 4 }, { name = "n", kind = "int", width = 4 }]
[[table]]
name = "p"
rows = 10
pages = 1
column = [{ name = "a", kind = "int", width = 4 }, { name = "b", kind = "int", width = 4 }, { name = "c", kind = "int", width = 4 }, { name = "d", kind = "int", width = 4 }, { name = "e", kind = "int", width = 4 }, { name = "f", kind = "int", width = 4 }, { name = "g", kind = "int", width = 4 }]"#;

/// A hub of thirteen columns, tied to three others by three and to a fourth by four: 14 * 4 * 4 * 4 * 5 combinations.
pub(crate) const HUB: &str =
    "SELECT count(*) FROM h, p q, p r, p s, p t WHERE h.a = q.a AND h.b = q.b AND h.c = q.c AND h.d = r.a AND h.e = r.b AND h.f = r.c AND h.g = s.a AND h.i = s.b AND h.j = s.c AND h.k = t.a AND h.l = t.b AND h.m = t.c AND h.n = t.d";
