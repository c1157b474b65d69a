//! What is proposed on tables that may be clustered: cases as lines, in the form of `proposals`, by hand from the rules.
use crate::proposals::{assert_cases, assert_first};

/// Three tables that may be clustered and have no index; one that may and has a plain one; one that may and has a clustered one
/// too; and one that may not.
const CATALOGUE: &str = r#"version = 2
[[table]]
name = "t"
rows = 0
pages = 0
may_cluster = true
column = [{ name = "a", kind = "int", width = 4 }, { name = "b", kind = "int", width = 4 }, { name = "c", kind = "int", width = 4 }, { name = "d", kind = "int", width = 4 }, { name = "e", kind = "int", width = 4 }, { name = "f", kind = "int", width = 4 }, { name = "g", kind = "int", width = 4 }, { name = "h", kind = "int", width = 4 }, { name = "i", kind = "int", width = 4 }, { name = "j", kind = "int", width = 4 }]
[[table]]
name = "pair"
rows = 1000
pages = 20
may_cluster = true
column = [{ name = "a", kind = "int", width = 4 }, { name = "b", kind = "int", width = 4 }]
[[table]]
name = "keyed"
rows = 1000
pages = 20
may_cluster = true
column = [{ name = "c", kind = "int", width = 4 }, { name = "n", kind = "int", width = 4 }]
[[table]]
name = "u"
rows = 0
pages = 0
may_cluster = true
column = [{ name = "a", kind = "int", width = 4 }, { name = "b", kind = "int", width = 4 }, { name = "c", kind = "int", width = 4 }]
index = [{ name = "u_a", keys = ["a"] }]
[[table]]
name = "v"
rows = 0
pages = 0
may_cluster = true
column = [{ name = "a", kind = "int", width = 4 }, { name = "b", kind = "int", width = 4 }]
index = [{ name = "v_a", keys = ["a"] }, { name = "v_b", keys = ["b"], clustered = true }]
[[table]]
name = "w"
rows = 0
pages = 0
column = [{ name = "a", kind = "int", width = 4 }, { name = "b", kind = "int", width = 4 }]"#;

const CASES: &str = r#"keyed(c) keyed(c)* keyed(c,n)|SELECT * FROM keyed ORDER BY c
pair(a) pair(a)* pair(a,b) pair(b) pair(b)*|SELECT * FROM pair ORDER BY a; SELECT * FROM pair ORDER BY b
u(b) u(b)* u(a,b,c)|SELECT * FROM u ORDER BY b
t(a) t(a)*|SELECT a FROM t ORDER BY a
t(b) t(b)* t(a,b)|SELECT a FROM t ORDER BY b
t(a,b)|SELECT a, b FROM t
t(b) t(b)*|SELECT b FROM t WHERE b = 1
t(b) t(b)* t(b,a)|SELECT a FROM t WHERE b = 1
t(b) t(b)* t(b,a)|SELECT a FROM t WHERE b = 1; SELECT a FROM t WHERE b = 2
t(b) t(b)* t(c) t(c)* t(d) t(d)* t(b,c) t(b,c)* t(b,d) t(b,d)* t(b,c,a,d)|SELECT a FROM t WHERE b = 1 AND c > 2 AND d < 3
t(b) t(b)* t(c) t(c)* t(b,c) t(b,c)* t(b,a,c)|SELECT a FROM t WHERE b = 1 ORDER BY c
t(b) t(b)* t(a) t(a)* t(b,a) t(b,a)*|SELECT a FROM t WHERE b = 1 ORDER BY a
t(b,a) t(b,a)* t(a,b)|SELECT b, a, count(*) FROM t GROUP BY b, a
t(a,b) t(a,b)*|SELECT a, b FROM t; SELECT a FROM t ORDER BY a, b
t(h,g,f,e,d,c,b,a) t(h,g,f,e,d,c,b,a)* t(a,b,c,d,e,f,g,h)|SELECT a FROM t ORDER BY h, g, f, e, d, c, b, a
|SELECT a FROM t ORDER BY i, h, g, f, e, d, c, b, a
u(a)*|SELECT a FROM u WHERE a = 1
u(a)* u(a,b)|SELECT b FROM u WHERE a = 1
u(a)* u(b) u(b)* u(a,b) u(a,b)*|SELECT a FROM u WHERE a = 1 AND b > 2
|SELECT a FROM v WHERE a = 1
|SELECT b FROM v WHERE b = 1
v(b,a)|SELECT a FROM v WHERE b = 1
v(a,b)|SELECT a, b FROM v ORDER BY a, b
w(a) w(a,b)|SELECT b FROM w WHERE a = 1
t(b) t(b)* t(a,b) w(b)|SELECT t.a FROM t, w WHERE t.b = w.b
t(c) t(c)* t(b) t(b)* t(c,b) t(c,b)* t(c,a,b) w(b)|SELECT t.a FROM t, w WHERE t.b = w.b AND t.c = 1
w(b) t(a) t(a)*|SELECT w.b FROM w, t WHERE w.b = t.a
t(b) t(b)*|UPDATE t SET a = 1 WHERE b = 1
t(b) t(b)* t(c) t(c)* t(b,c) t(b,c)*|DELETE FROM t WHERE b = 1 AND c < 2
|INSERT INTO t VALUES (1)"#;

#[test]
fn proposals_by_hand(rt: HostRuntime) {
    assert_cases(&rt, rt.alloc(), CATALOGUE, CASES);
}

#[test]
fn the_first_256_of_1440(rt: HostRuntime) {
    let ends = ("t(a,b,c) t(a,b,c)* t(a,b,d) ", " t(b,h,j) t(b,h,j)*");
    assert_first(&rt, rt.alloc(), CATALOGUE, 1184, ends);
}
