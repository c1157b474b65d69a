//! What names in statements mean, or which have no meaning or two: cases as lines.
//!
//! Each case is the answer, `|` and the text, in which `~` stands for a line feed. The answer is the fault with its place
//! or, as `shown` writes them, the statements.
mod shown;

use crate::bindings::shown::shown;
use crate::written::{add, repeat, written};
use adv_base::Catalogue;
use binder::bind;
use catalogue::read_catalogue;
use sql_reader::{Parsed, read_workload};
use std::alloc::{AllocError, Global};
use std::process::Abort;

/// Three tables, `t`, `u` and `Mixed`, with four columns each.
const CATALOGUE: &str = r#"version = 1
[[table]]
name = "t"
rows = 0
pages = 0
column = [{ name = "a", kind = "int", width = 4 }, { name = "b", kind = "int", width = 4 }, { name = "d", kind = "date", width = 4 }, { name = "s", kind = "text", width = 4 }]
[[table]]
name = "u"
rows = 0
pages = 0
column = [{ name = "a", kind = "int", width = 4 }, { name = "c", kind = "int", width = 4 }, { name = "e", kind = "date", width = 4 }, { name = "f", kind = "text", width = 4 }]
[[table]]
name = "Mixed"
rows = 0
pages = 0
column = [{ name = "Id", kind = "int", width = 4 }, { name = "b", kind = "int", width = 4 }, { name = "Day", kind = "date", width = 4 }, { name = "From", kind = "text", width = 4 }]"#;

/// Texts of which a name has no meaning, or two, or whose sources are too many or unjoined.
const FAULTS: &str = r#"no table at 15|SELECT * FROM zz
no table at 15|SELECT * FROM a
no table at 15|SELECT * FROM "zz"
no table at 15|SELECT * FROM "t "
no table at 18|SELECT * FROM t, zz
no table at 20|SELECT * FROM t x, x
no table at 22|SELECT * FROM t JOIN zz ON t.a = zz.a
no table at 27|SELECT q.x, yy, zz.a FROM zz WHERE w = 1
no table at 15|SELECT * FROM zz, yy
no table at 15|SELECT * FROM zz, t, u t
no table at 20|SELECT * FROM t x, zz x
no table at 13|INSERT INTO zz VALUES (1)
no table at 13|INSERT INTO zz (yy) VALUES (xx)
no table at 8|UPDATE zz SET yy = xx
no table at 13|DELETE FROM zz WHERE yy = 1
alias twice at 18|SELECT * FROM t, t
alias twice at 22|SELECT * FROM t JOIN T ON t.a = t.b
alias twice at 18|SELECT * FROM t, "T"
alias twice at 22|SELECT * FROM t x, u x
alias twice at 25|SELECT * FROM t x, u AS x
alias twice at 25|SELECT * FROM t x, u AS X
alias twice at 22|SELECT * FROM t x, u "X"
alias twice at 20|SELECT * FROM t, u t
alias twice at 20|SELECT * FROM t u, u
alias twice at 32|SELECT * FROM t x, u y, t z, u y
alias twice at 19|SELECT zz FROM t, t WHERE yy = 1
alias twice at 18|SELECT * FROM t, t, zz
no column at 8|SELECT zz FROM t
no column at 11|SELECT a, zz, yy FROM t
no column at 8|SELECT "a " FROM t
no column at 8|SELECT "zz" FROM t
no column at 8|SELECT c FROM t
no column at 8|SELECT t FROM t
no column at 10|SELECT t.zz FROM t
no column at 10|SELECT t."zz" FROM t
no column at 12|SELECT t . zz FROM t
no column at 10|SELECT t.c FROM t, u WHERE t.a = u.a
no column at 8|SELECT q.a FROM t
no column at 8|SELECT q.zz FROM t
no column at 8|SELECT u.a FROM t
no column at 8|SELECT t.a FROM t x
no column at 8|SELECT q.* FROM t
no column at 8|SELECT t.* FROM t x
no column at 12|SELECT a + zz FROM t
no column at 11|SELECT - (zz) FROM t
no column at 12|SELECT sum(zz) FROM t
no column at 14|SELECT zz(a, zz) FROM t
no column at 16|SELECT a AS x, x FROM t
no column at 35|SELECT * FROM t JOIN u ON t.a = u.zz
no column at 27|SELECT * FROM t JOIN u ON zz = u.a
no column at 27|SELECT * FROM t JOIN u ON zz = yy
no column at 34|SELECT t.a AS x FROM t JOIN u ON x = u.a
no column at 23|SELECT * FROM t WHERE zz = 1
no column at 27|SELECT * FROM t WHERE 1 = zz
no column at 27|SELECT * FROM t WHERE a = zz
no column at 44|SELECT * FROM t WHERE a = 1 AND (b = 2 AND zz = 3) AND yy = 4
no column at 23|SELECT * FROM t WHERE zz BETWEEN 1 AND 2
no column at 23|SELECT * FROM t WHERE zz IN (1)
no column at 23|SELECT * FROM t WHERE zz LIKE 'a'
no column at 23|SELECT * FROM t WHERE zz IS NULL
no column at 23|SELECT * FROM t WHERE zz IS NOT NULL
no column at 28|SELECT a AS x FROM t WHERE x = 1
no column at 33|SELECT count(*) FROM t GROUP BY zz
no column at 38|SELECT count(*) FROM t GROUP BY a, t.zz
no column at 31|SELECT a AS x FROM t GROUP BY x
no column at 35|SELECT a FROM t GROUP BY a HAVING zz > 1
no column at 60|SELECT a FROM t GROUP BY a HAVING count(*) > 1 AND 2 < sum(zz)
no column at 42|SELECT a AS x FROM t GROUP BY a HAVING t.x = 1
no column at 40|SELECT a AS x FROM t GROUP BY a HAVING x.a = 1
no column at 26|SELECT a FROM t ORDER BY zz
no column at 29|SELECT a FROM t ORDER BY a, zz DESC
no column at 30|SELECT a FROM t ORDER BY b + zz
no column at 33|SELECT a AS x FROM t ORDER BY t.x
no column at 36|SELECT a x FROM t ORDER BY x, f(x, y)
no column at 8|SELECT z1 FROM t WHERE z2 = 1 GROUP BY z3 HAVING z4 = 1 ORDER BY z5
no column at 23|SELECT a FROM t WHERE z2 = 1 GROUP BY z3 HAVING z4 = 1 ORDER BY z5
no column at 38|SELECT a FROM t WHERE b = 1 GROUP BY z3 HAVING z4 = 1 ORDER BY z5
no column at 47|SELECT a FROM t WHERE b = 1 GROUP BY a HAVING z4 = 1 ORDER BY z5
no column at 8|SELECT zz FROM t JOIN u ON yy = xx
no column at 35|SELECT t.b FROM t JOIN u ON t.a = zz WHERE yy = 1
no column at 16|INSERT INTO t (zz) VALUES (1)
no column at 19|INSERT INTO t (a, zz, yy) VALUES (1, 2, 3)
no column at 19|INSERT INTO t (a, zz) VALUES (xx, 1)
no column at 16|INSERT INTO t (c) VALUES (1)
no column at 23|INSERT INTO t VALUES (a)
no column at 23|INSERT INTO t VALUES (t.a)
no column at 36|INSERT INTO t (a) VALUES (1), (2 + b), (c)
no column at 32|INSERT INTO t (a) VALUES (f(1, "a"))
no column at 14|UPDATE t SET zz = 1
no column at 21|UPDATE t SET a = 1, zz = yy
no column at 14|UPDATE t SET zz = yy
no column at 18|UPDATE t SET a = zz
no column at 18|UPDATE t SET a = zz, yy = 1
no column at 27|UPDATE t SET a = b, b = f(zz) WHERE yy = 1
no column at 14|UPDATE t SET c = 1
no column at 18|UPDATE t SET a = q.b
no column at 20|UPDATE t x SET a = t.b
no column at 22|UPDATE t x SET a = x.zz
no column at 26|UPDATE t SET a = 1 WHERE zz = 1
no column at 14|UPDATE t SET zz = 1 WHERE yy = 1
no column at 21|DELETE FROM t WHERE zz = 1
no column at 25|DELETE FROM t WHERE a = c
no column at 23|DELETE FROM t x WHERE t.a = 1
ambiguous at 8|SELECT a FROM t, u WHERE t.a = u.a
ambiguous at 8|SELECT "A" FROM t, u WHERE t.a = u.a
ambiguous at 15|SELECT t.a, f(a) FROM t, u WHERE t.a = u.a
ambiguous at 8|SELECT b FROM t x, t y WHERE x.a = y.a
ambiguous at 8|SELECT b FROM u, t, mixed WHERE t.a = u.a AND t.b = id
ambiguous at 27|SELECT * FROM t JOIN u ON a = u.a
ambiguous at 33|SELECT * FROM t JOIN u ON t.a = a
ambiguous at 40|SELECT * FROM t, u WHERE t.a = u.a AND a = 1
ambiguous at 55|SELECT count(*) FROM t, u WHERE t.a = u.a GROUP BY b, a
ambiguous at 50|SELECT count(*) FROM t, u WHERE t.a = u.a HAVING a = 1
ambiguous at 48|SELECT b FROM t, u WHERE t.a = u.a ORDER BY c, a
ambiguous at 33|SELECT t.a AS a FROM t, u WHERE a = 1
ambiguous at 8|SELECT a, zz FROM t, u
no column at 8|SELECT zz, a FROM t, u
more than 8 slots at 62|SELECT count(*) FROM t a, t b, t c, t d, t e, t f, t g, t h, t i
more than 8 slots at 62|SELECT count(*) FROM t a, t b, t c, t d, t e, t f, t g, t h, t a
more than 8 slots at 62|SELECT count(*) FROM t a, t b, t c, t d, t e, t f, t g, t h, zz, t i
more than 8 slots at 65|SELECT zz, q.a FROM t a, t b, t c, t d, t e, t f, t g, u h JOIN "t" ON z = y WHERE x = 1
more than 8 slots at 55|SELECT * FROM t a, t b, t c, t d, t e, t f, t g, t h, t i, t j, zz
no table at 57|SELECT count(*) FROM t a, t b, t c, t d, t e, t f, t g, zz, t i
alias twice at 59|SELECT count(*) FROM t a, t b, t c, t d, t e, t f, t g, t a, t i
unjoined at 1|SELECT count(*) FROM t a, t b, t c, t d, t e, t f, t g, t h
unjoined at 1|SELECT t.b FROM t, u
unjoined at 1|SELECT count(*) FROM t "é", t "É"
unjoined at 11|; /* a */ SELECT * FROM t, u
unjoined at 13|-- weight 5~SELECT * FROM t, u
unjoined at 1|SELECT * FROM t, u WHERE t.a = t.b AND u.a = u.a
unjoined at 1|SELECT * FROM t, u WHERE t.a = 1 AND u.a = 1
unjoined at 1|SELECT * FROM t JOIN u ON b = 1
unjoined at 1|SELECT * FROM t, u, mixed WHERE t.a = u.a AND u.c = t.b
unjoined at 1|SELECT * FROM t w, t x, t y, t z WHERE w.a = x.a AND y.a = z.a AND x.b = w.b
no column at 31|SELECT t.b FROM t, u ORDER BY zz
no table at 13|DELETE FROM zz; DELETE FROM yy
no table at 28|DELETE FROM t; DELETE FROM zz
no table at 13|DELETE FROM zz; SELECT zz FROM t; SELECT * FROM t, t
no column at 21|DELETE FROM t WHERE zz = 1; DELETE FROM zz
ambiguous at 8|SELECT a FROM t, u; SELECT zz FROM t
unjoined at 1|SELECT * FROM t, u; DELETE FROM zz
unjoined at 16|DELETE FROM t; SELECT * FROM t, u; SELECT * FROM t, u
alias twice at 45|INSERT INTO t VALUES (1); SELECT zz FROM t, t; INSERT INTO t VALUES (a)"#;

/// Texts and what is bound.
const BOUND: &str = r#"1 select 0:t(0,1,2,3)|SELECT * FROM t
1 select 0:x(0,1,2,3)|SELECT x.* FROM t x
1 select 0:x(0,1,2,3) 1:y(0) 0.0=1.0|SELECT x.* FROM t x, u y WHERE x.a = y.a
1 select 0:x(0,1) 1:y(0,1,2,3) 0.1=1.1|SELECT y.*, x.a FROM t x JOIN u y ON x.b = y.c
1 select 0:t(0,1,2,3) 1:u(0,1,2,3) 0.0=1.0|SELECT * FROM t, u WHERE t.a = u.a
1 select 0:t(0,3)|SELECT s, a, s FROM t
1 select 0:t(0,1,2)|SELECT a + b * d FROM t
1 select 0:t(0,2)|SELECT f(a, d), b() FROM t
1 select 0:t(1)|SELECT a(b) FROM t
1 select 0:t()|SELECT 1 FROM t
1 select 0:t()|SELECT count(*) FROM t
1 select 0:t(1)|SELECT sum(b) FROM t
1 select 0:t(1,3) order(0.1)|SELECT s FROM t ORDER BY b
1 select 0:t(0,1,2) order(#1)|SELECT a FROM t ORDER BY b + d
1 select 0:t(2) group(0.2)|SELECT count(*) FROM t GROUP BY d
1 select 0:t(0,1,2) group(0.2)|SELECT count(*) FROM t GROUP BY d HAVING sum(b) > a
1 select 0:t(0)|SELECT a FROM t LIMIT 5 OFFSET 3
1 select 0:t(0,1) 1:u(0,1) 0.0=1.0|SELECT c, b FROM t, u WHERE t.a = u.a
1 select 0:t(0,1,2,3) 1:u(0,1) 2:Mixed(0,1) 0.1:Above(Number(5)) 1.1:NotEqual 0.2:IsNull 2.1:Below(Number(7)) 0.3:Like 0.0=1.0 1.1=2.0|SELECT t.b FROM t JOIN u ON t.a = u.a AND t.b > 5 JOIN mixed ON u.c = mixed.id AND u.c <> 3 WHERE t.d IS NULL AND mixed.b < 7 AND t.s LIKE 'x%'
1 select 0:t(0) 1:u(0) 0:w(1) 0.0=2.1 1.0=2.1|SELECT count(*) FROM t JOIN u ON t.a = w.b, t w WHERE u.a = w.b
1 select 0:t(0,1,2) 0.0:Equal 0.1:Equal 0.2:NotNull|SELECT a FROM t WHERE (a = 1 AND (b = 2)) AND d IS NOT NULL
1 select 0:t(0,3) 0.0:Equal 0.0:NotEqual 0.0:NotEqual 0.0:Below(Number(3)) 0.0:Below(Number(4)) 0.0:Above(Number(5)) 0.0:Above(Number(6)) 0.0:Between(Number(8), Number(7)) 0.0:OneOf(3) 0.3:Like 0.0:IsNull 0.0:NotNull|SELECT count(*) FROM t WHERE a = 1 AND a <> 1 AND a != 2 AND a < 3 AND a <= 4 AND a > 5 AND a >= 6 AND a BETWEEN 8 AND 7 AND a IN (9, 10, 9) AND s LIKE 'x' AND a IS NULL AND a IS NOT NULL
1 select 0:t(0) 0.0:Equal 0.0:NotEqual 0.0:Above(Number(3)) 0.0:Above(Number(4)) 0.0:Below(Number(5)) 0.0:Below(Number(6))|SELECT count(*) FROM t WHERE 1 = a AND 2 <> a AND 3 < a AND 4 <= a AND 5 > a AND 6 >= a
1 delete 0:t(0) 0.0:Below(Number(-5)) 0.0:Below(Number(5)) 0.0:Below(Number(999999999999999999)) 0.0:Below(Plain) 0.0:Below(Plain) 0.0:Below(Plain) 0.0:Below(Plain) 0.0:Below(Plain) 0.0:Below(Plain)|DELETE FROM t WHERE a < -5 AND a < +5 AND a < 999999999999999999 AND a < 1000000000000000000 AND a < 1.5 AND a < '5' AND a < DATE '1970-01-02' AND a < NULL AND a < ?
1 delete 0:t(2) 0.2:Above(Number(1)) 0.2:Above(Number(-1)) 0.2:Above(Number(31)) 0.2:Above(Plain) 0.2:Above(Plain) 0.2:Above(Plain) 0.2:Between(Number(0), Plain)|DELETE FROM t WHERE d > DATE '1970-01-02' AND d > DATE '1969-12-31' AND d > '1970-02-01' AND d > '1970-2-1' AND d > 'x''y' AND d > 5 AND d BETWEEN '1970-01-01' AND ?
1 delete 0:t(3) 0.3:Below(Plain) 0.3:Below(Plain) 0.3:Between(Plain, Plain)|DELETE FROM t WHERE s < 5 AND s < 'x' AND s BETWEEN DATE '1970-01-02' AND '1970-01-03'
1 select 0:t(0) 0.0:Same(0)|SELECT count(*) FROM t WHERE a = a
1 select 0:t(0,1) 0.0:Same(1) 0.1:Same(0)|SELECT count(*) FROM t WHERE a = b AND t.b = a
1 select 0:t(0) 1:u(0) 0.0=1.0 0.0=1.0|SELECT count(*) FROM t, u WHERE t.a = u.a AND t.a = u.a
1 select 0:t(0) 1:u(0) 0.0=1.0 1.0=0.0|SELECT count(*) FROM t JOIN u ON t.a = u.a WHERE u.a = t.a
1 select 0:x(0) 0:y(1) 0.0=1.1|SELECT x.a FROM t x, t y WHERE x.a = y.b
1 select 0:t(0,1) 0.0:Equal group(0.1) order(-0.1)|SELECT a, b FROM t WHERE a = 1 GROUP BY a, b ORDER BY a, b DESC
1 select 0:t(0) 0.0:Equal group()|SELECT a FROM t WHERE a = 1 GROUP BY a
1 select 0:t(0,1) 0.0:Equal group() order(0.1)|SELECT sum(b) FROM t WHERE a = 1 GROUP BY a ORDER BY b
1 select 0:t(0) 0.0:Equal|SELECT a FROM t WHERE ? = a ORDER BY a DESC
1 select 0:t(0) 0.0:Equal|SELECT a FROM t WHERE a = NULL ORDER BY a
1 select 0:t(0,1) 0.0:OneOf(1) 0.1:Between(Number(1), Number(1)) order(0.0,0.1)|SELECT a FROM t WHERE a IN (1) AND b BETWEEN 1 AND 1 ORDER BY a, b
1 select 0:t(0) 0.0:Same(0) order(0.0)|SELECT a FROM t WHERE a = a ORDER BY a
1 select 0:t(0) 1:u(0) 1.0:Equal 0.0=1.0 order(0.0)|SELECT t.a FROM t, u WHERE t.a = u.a AND u.a = 1 ORDER BY u.a, t.a
1 select 0:t(0,1) 1:u(0,1) 0.1:Equal 0.0=1.0 group(1.1) order(1.1)|SELECT c FROM t JOIN u ON t.a = u.a AND b = 3 GROUP BY b, c ORDER BY b, c
1 select 0:t(0,1) group(0.1,0.0)|SELECT a FROM t GROUP BY b, a, t.b
1 select 0:t(0,1) order(0.1,-0.0)|SELECT a FROM t ORDER BY b, a DESC, t.b DESC, a
1 select 0:t(0) order(#1,0.0,#3)|SELECT a FROM t ORDER BY a + 1, a, a + 1 DESC
1 select 0:t(1) order(0.1)|SELECT b AS x FROM t ORDER BY x
1 select 0:t(1) order(#1)|SELECT b + 1 AS x FROM t ORDER BY x DESC
1 select 0:t(0,1) order(0.1)|SELECT b AS x, a AS x FROM t ORDER BY x
1 select 0:t(0,1) order(#1)|SELECT (b) x, a x FROM t ORDER BY x
1 select 0:t(1) order(0.1)|SELECT b AS a FROM t ORDER BY a
1 select 0:t(0,1) order(0.0)|SELECT b AS a FROM t ORDER BY t.a
1 select 0:t(1) order(#1)|SELECT b AS a FROM t ORDER BY a + 1
1 select 0:t(1) group(0.1) order(#1)|SELECT b AS a FROM t GROUP BY b ORDER BY sum(a)
1 select 0:t(1) group(0.1)|SELECT b AS a FROM t GROUP BY b HAVING a > 1
1 select 0:t(0,1) group(0.1)|SELECT b AS a FROM t GROUP BY b HAVING t.a > 1
1 select 0:t(0,1) 0.0:Equal group() order(0.1)|SELECT b AS a FROM t WHERE a = 1 GROUP BY a ORDER BY a
1 select 0:t(0) 1:u(0) 0.0=1.0 order(0.0)|SELECT t.a AS a FROM t, u WHERE t.a = u.a ORDER BY a
1 select 0:t(1) order(0.1)|SELECT b AS Total FROM t ORDER BY TOTAL
1 select 0:t(0,1) order(-0.1,0.0)|SELECT b "x y", a z FROM t ORDER BY "X Y" DESC, "z" ASC
1 select 0:t(0,1) group(0.0) order(#1,0.0)|SELECT sum(b) AS x, a FROM t GROUP BY a ORDER BY x, a
1 select 0:t(0,1) order(-0.1,0.0)|SELECT a, b FROM t ORDER BY 2 DESC, 1
1 select 0:t(0,1) order(#1)|SELECT a, b + 1 FROM t ORDER BY 2
1 select 0:t(0) order(#1,#2,0.0)|SELECT a FROM t ORDER BY 2, 0, a
1 select 0:t(0) order(#1)|SELECT a FROM t ORDER BY 4294967297
1 select 0:t(0,1,2,3) order(#1,0.0)|SELECT *, a FROM t ORDER BY 1, 2
1 select 0:t(0,1,2,3) order(0.0,#2)|SELECT a, t.* FROM t ORDER BY 1, 2
1 select 0:t(0) order(#1,#2,#3)|SELECT a FROM t ORDER BY (a), +1, (1)
1 select 0:t(0,1) 0.0:Equal order(0.1)|SELECT a, b FROM t WHERE a = 1 ORDER BY 1, 2
1 select 0:t(0,1) order(0.0,0.1)|SELECT a, b FROM t ORDER BY 1, a DESC, 2
1 select 0:t(0,1) group(0.0,0.1)|SELECT DISTINCT a, b FROM t
1 select 0:t(0,1) group(0.1,0.0)|SELECT DISTINCT b, a, b FROM t
1 select 0:t(0,1) 0.0:Equal group(0.1)|SELECT DISTINCT a, b FROM t WHERE a = 1
1 select 0:t(0) group(0.0) order(-0.0)|SELECT DISTINCT a AS x FROM t ORDER BY x DESC
1 select 0:t(0,1)|SELECT DISTINCT a, b + 1 FROM t
1 select 0:t(0)|SELECT DISTINCT (a) FROM t
1 select 0:t(0,1,2,3)|SELECT DISTINCT * FROM t
1 select 0:t(0,1,2,3)|SELECT DISTINCT a, t.* FROM t
1 select 0:t(0)|SELECT DISTINCT a, count(*) FROM t
1 select 0:t(0,1)|SELECT DISTINCT a FROM t ORDER BY sum(b)
1 select 0:t(0,1) group(0.0)|SELECT DISTINCT a FROM t HAVING sum(b) > 1
1 select 0:t(0,1) group(0.1)|SELECT DISTINCT a FROM t GROUP BY b
1 select 0:t(0)|SELECT ALL a FROM t
1 select 0:t(0)|SELECT count(DISTINCT a) FROM t
1 select 0:t(0,1)|SELECT sum(a) FROM t ORDER BY b
1 select 0:t(0,1)|SELECT a FROM t ORDER BY b, max(a)
1 select 0:t(0,1)|SELECT 1 + f(Min(a)) FROM t ORDER BY b
1 select 0:t(0,1)|SELECT "avg"(a) FROM t ORDER BY b
1 select 0:t(0,1) order(0.1)|SELECT total(a) FROM t ORDER BY b
1 select 0:t(0) order(0.0)|SELECT a FROM t HAVING count(*) > 1 ORDER BY a
1 select 0:t(0,1) group(0.1) order(0.1)|SELECT sum(a) FROM t GROUP BY b ORDER BY b
1 update(0) 0:t()|UPDATE t SET a = 1
1 update(0) 0:t(0)|UPDATE t SET a = a
1 update(3,1) 0:x(0,1,2) 0.1:Above(Number(3))|UPDATE t AS x SET s = f(d), b = x.a + 1 WHERE b > 3
1 update(0) 0:t(0,1) 0.0:Same(1)|UPDATE t SET a = 1 WHERE t.a = b
1 delete 0:t()|DELETE FROM t
1 delete 0:x(0,2) 0.0:Equal 0.2:IsNull|DELETE FROM t x WHERE x.a = 1 AND d IS NULL
1 insert 1 rows 1|INSERT INTO u VALUES (1, 2)
1 insert 0 rows 3|INSERT INTO t (b, a) VALUES (1, 2), (3, -4), (f(5), NULL)
1 select 0:t(0,1) 0.1:Equal|SELECT T.A FROM T WHERE B = 1
1 select 0:t(0)|SELECT "T"."A" FROM "T"
1 select 2:Mixed(0)|select mixed.ID from MIXED
1 select 2:Mixed(2,3)|SELECT "from", "DAY" FROM "mixed"
1 update(3) 2:Mixed(2) 0.2:Equal|UPDATE MIXED SET "FROM" = 1 WHERE day = '2000-01-01'
1 insert 2 rows 1|INSERT INTO "MIXED" (ID) VALUES (1)
1 select 0:x(0)|SELECT X.a FROM t AS x
1 select 0:My t(0)|SELECT "MY T".a FROM t "My t"
1 select 0:u(1)|SELECT u.b FROM t u
1 select 0:é(0) 0:É(0) 0.0=1.0|SELECT count(*) FROM t "é", t "É" WHERE "é".a = "É".a
5 select 0:t(); 1 delete 0:t(); 1000000 insert 0 rows 1|-- weight 5~SELECT 1 FROM t; DELETE FROM t; -- weight 1000000~INSERT INTO t VALUES (1)
|
|; -- nothing"#;

/// A statement of 160 bytes over eight slots.
const EIGHT_SLOTS: &str =
    "SELECT count(*) FROM t a, t b, t c, t d, t e, t f, t g, t h WHERE a.a = b.a AND b.a = c.a AND c.a = d.a AND d.a = e.a AND e.a = f.a AND f.a = g.a AND g.a = h.a;";

/// What stands behind 250 such statements, with the end of the answer.
const BEHIND_2000_SLOTS: &str = r#"5.0=6.0 6.0=7.0|
; 1 insert 0 rows 1|INSERT INTO t VALUES (1)
more than 2000 slots at 40001|DELETE FROM t
more than 2000 slots at 40002| UPDATE t SET a = 1; DELETE FROM zz
more than 2000 slots at 40001|SELECT * FROM t, u WHERE t.a = u.a; SELECT * FROM t, u
more than 2000 slots at 40027|INSERT INTO t VALUES (1); SELECT 1 FROM t
no table at 40013|DELETE FROM zz
no column at 40008|SELECT zz FROM t
unjoined at 40001|SELECT * FROM t, u
more than 8 slots at 40062|SELECT count(*) FROM t a, t b, t c, t d, t e, t f, t g, t h, t i"#;

/// The statements of what was read, as texts, or the fault.
fn bound(alloc: Global, cat: &Catalogue, parsed: &Parsed<'_>) -> Result<String, AllocError> {
    match bind(alloc, cat, parsed) {
        Ok(statements) => shown(alloc, statements.as_slice()),
        Err(fault) => format!(in alloc; "{fault}"),
    }
}

/// The answer to a text.
fn answer(rt: &impl Abort, alloc: Global, cat: &Catalogue, text: &[u8]) -> String {
    assert!(rt; text.len() <= 100_000_000);
    let told = match read_workload(alloc, text) {
        Ok(parsed) => bound(alloc, cat, &parsed),
        Err(fault) => format!(in alloc; "not read: {fault}"),
    };
    told.expect(rt, "memory")
}

/// The catalogue over which the cases are bound.
fn catalogue(rt: &impl Abort, alloc: Global) -> Catalogue {
    read_catalogue(alloc, CATALOGUE.as_bytes())
        .ok()
        .expect(rt, "a catalogue")
}

/// Compares the answers of a table with those to its texts.
fn compare(rt: &impl Abort, alloc: Global, cases: &str) {
    let cat = catalogue(rt, alloc);
    for case in cases.lines() {
        let (wanted, case_text) = case.split_once('|').expect(rt, "a bar");
        let text = written(rt, alloc, case_text);
        let found = answer(rt, alloc, &cat, text.as_slice());
        assert!(rt; found.as_str() == wanted, "in {case_text}");
    }
}

#[test]
fn faults_and_their_places(rt: HostRuntime) {
    compare(&rt, rt.alloc(), FAULTS)
}

#[test]
fn what_names_mean(rt: HostRuntime) {
    compare(&rt, rt.alloc(), BOUND)
}

#[test]
fn slots_end_at_2000(rt: HostRuntime) {
    let cat = catalogue(&rt, rt.alloc());
    for case in BEHIND_2000_SLOTS.lines() {
        let (wanted, case_text) = case.split_once('|').expect(&rt, "a bar");
        let mut text = Vec::new(rt.alloc());
        repeat(&rt, &mut text, EIGHT_SLOTS.as_bytes(), 250);
        add(&rt, &mut text, case_text);
        let found = answer(&rt, rt.alloc(), &cat, text.as_slice());
        assert!(rt; found.as_str().ends_with(wanted), "in {case_text}");
    }
}
