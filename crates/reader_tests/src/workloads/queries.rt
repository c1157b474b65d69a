//! Texts and their answers, a case a line: whole texts, and queries.

/// The answer, `|` and the text, in which `~` stands for a line feed and `@` for a tab. A case `ok N` has N statements; every other
/// has a fault and its place.
pub(crate) const QUERIES: &str = r#"ok 0|
ok 0| 
ok 0|;
ok 0|;;
ok 0|-- nothing
ok 0|/* nothing */ ;
ok 1|SELECT * FROM t
ok 1|select * from t
ok 1|SeLeCt * FrOm t;
ok 1|;SELECT * FROM t;
ok 1|SELECT * FROM t -- end
ok 1|/* a */SELECT/* b */*/* c */FROM/* d */t
ok 2|SELECT * FROM t; DELETE FROM t
ok 2|SELECT * FROM t;;DELETE FROM t;
syntax 1|t
syntax 1|( SELECT
syntax 18|SELECT * FROM t; t
syntax 17|SELECT * FROM t ) 
syntax 1|WHERE
syntax 1|5
syntax 1|,
unsupported 17|SELECT * FROM t SELECT
unsupported 17|SELECT * FROM t UNION SELECT * FROM t
unsupported 1|WITH x
unsupported 17|SELECT * FROM t EXCEPT SELECT
unsupported 17|SELECT * FROM t INTERSECT SELECT
ok 1|SELECT ALL c FROM t
ok 1|SELECT DISTINCT c FROM t
ok 1|SELECT c, d FROM t
ok 1|SELECT t.* FROM t
ok 1|SELECT *, c FROM t
ok 1|SELECT c AS x FROM t
ok 1|SELECT c x FROM t
ok 1|SELECT c + 1 AS x FROM t
ok 1|SELECT 1 FROM t
ok 1|SELECT 1.5 x, .5, 'a', NULL, ? FROM t
ok 1|SELECT $1 FROM t
ok 1|SELECT DATE '2000-01-01' FROM t
ok 1|SELECT DATE '2000-01-01' + 1 x FROM t
ok 1|SELECT c DATE FROM t
ok 1|SELECT DATE FROM t
ok 1|SELECT DATE DATE FROM t
ok 1|SELECT DATE.c FROM t
ok 1|SELECT DATE(c) FROM t
ok 1|SELECT "from" FROM t
ok 1|SELECT "a b"."c" AS "d" FROM "e" AS "f"
syntax 8|SELECT FROM t
syntax 12|SELECT ALL FROM t
syntax 17|SELECT DISTINCT 
syntax 17|SELECT DISTINCT ALL c FROM t
syntax 11|SELECT c, FROM t
syntax 13|SELECT c AS FROM t
syntax 12|SELECT c c c FROM t
syntax 11|SELECT t. FROM t
syntax 10|SELECT * AS x FROM t
syntax 10|SELECT * x FROM t
syntax 12|SELECT t.* x FROM t
syntax 11|SELECT t.c.d FROM t
syntax 15|SELECT c DATE 'x' FROM t
syntax 13|SELECT DATE 'x' FROM t
syntax 13|SELECT DATE '2000-02-30' FROM t
syntax 15|SELECT "date" '2000-01-01' FROM t
syntax 13|SELECT c AS 5 FROM t
syntax 9|SELECT c
syntax 9|SELECT *
syntax 8|SELECT 
syntax 14|SELECT * FROM
syntax 10|SELECT c = 1 FROM t
syntax 11|SELECT t.c(d) FROM t
ok 1|SELECT a + b - c * d / e % f || g FROM t
ok 1|SELECT -a, +b, - - c, -1 FROM t
ok 1|SELECT (a), ((a + b)) FROM t
ok 1|SELECT f(), f(*), f(a), f(a, b + 1), f(DISTINCT a, b) FROM t
ok 1|SELECT count(*), sum(t.a), "sum"(c) FROM t
ok 1|SELECT f(g(h(a))) FROM t
ok 1|SELECT -(a) FROM t
ok 1|SELECT 99999999999999999999999999 FROM t
syntax 12|SELECT a + FROM t
syntax 10|SELECT a = b FROM t
syntax 9|SELECT () FROM t
syntax 11|SELECT (a FROM t
syntax 10|SELECT (a, b) FROM t
syntax 12|SELECT f(a FROM t
syntax 13|SELECT f(a, ) FROM t
syntax 12|SELECT f(* a) FROM t
syntax 11|SELECT f(*, a) FROM t
syntax 19|SELECT f(DISTINCT ) FROM t
syntax 19|SELECT f(DISTINCT *) FROM t
syntax 10|SELECT f(ALL a) FROM t
syntax 12|SELECT a b c FROM t
syntax 10|SELECT - FROM t
syntax 12|SELECT a b + c FROM t
syntax 10|SELECT 1 2 FROM t
syntax 9|SELECT 1.a FROM t
syntax 12|SELECT 'a' 'b' FROM t
syntax 12|SELECT a(b)(c) FROM t
syntax 8|SELECT ; 
syntax 10|SELECT f(FROM t
unsupported 9|SELECT (SELECT 1)
unsupported 8|SELECT CASE a FROM t
unsupported 8|SELECT NOT a FROM t
unsupported 8|SELECT EXISTS (SELECT 1) FROM t
unsupported 13|SELECT f(a) OVER (ORDER BY a) FROM t
unsupported 10|SELECT a OR b FROM t
unsupported 10|SELECT f(SELECT a) FROM t
ok 1|SELECT * FROM t, u
ok 1|SELECT * FROM t AS a, u b
ok 1|SELECT * FROM t JOIN u ON t.a = u.b
ok 1|SELECT * FROM t INNER JOIN u ON a = b
ok 1|SELECT * FROM t JOIN u ON a = b AND c = 1 JOIN v ON d = e, w
ok 1|SELECT * FROM t JOIN u ON (a = b)
ok 1|SELECT * FROM t DATE
ok 1|SELECT * FROM count
syntax 18|SELECT * FROM t, 
syntax 15|SELECT * FROM (SELECT c FROM t)
syntax 20|SELECT * FROM t AS WHERE
syntax 19|SELECT * FROM t a b
syntax 16|SELECT * FROM t.u
syntax 22|SELECT * FROM t JOIN ON
syntax 24|SELECT * FROM t JOIN u WHERE
syntax 27|SELECT * FROM t JOIN u ON 
syntax 23|SELECT * FROM t INNER u
syntax 17|SELECT * FROM t ON a = b
syntax 29|SELECT * FROM t JOIN u ON a WHERE
syntax 33|SELECT * FROM t JOIN u ON a = b c
syntax 15|SELECT * FROM 5
syntax 15|SELECT * FROM 't'
syntax 33|SELECT * FROM t JOIN u ON a = b ON
unsupported 17|SELECT * FROM t LEFT JOIN u
unsupported 17|SELECT * FROM t RIGHT JOIN u
unsupported 17|SELECT * FROM t FULL JOIN u
unsupported 17|SELECT * FROM t CROSS JOIN u
unsupported 17|SELECT * FROM t NATURAL JOIN u
unsupported 24|SELECT * FROM t JOIN u USING (a)
unsupported 33|SELECT * FROM t JOIN u ON a = b OR c = d
unsupported 23|SELECT * FROM t INNER OUTER
unsupported 15|SELECT * FROM LEFT
ok 1|SELECT * FROM t WHERE c = 1
ok 1|SELECT * FROM t WHERE c <> 1
ok 1|SELECT * FROM t WHERE c != 1
ok 1|SELECT * FROM t WHERE c < 1
ok 1|SELECT * FROM t WHERE c <= 1
ok 1|SELECT * FROM t WHERE c > 1
ok 1|SELECT * FROM t WHERE c >= 1
ok 1|SELECT * FROM t WHERE 1 < c
ok 1|SELECT * FROM t WHERE -1 = c
ok 1|SELECT * FROM t WHERE c = -1
ok 1|SELECT * FROM t WHERE c = +1.5
ok 1|SELECT * FROM t WHERE c = NULL
ok 1|SELECT * FROM t WHERE c = ?
ok 1|SELECT * FROM t WHERE c = d
ok 1|SELECT * FROM t WHERE t.c = u.d
ok 1|SELECT * FROM t WHERE c BETWEEN 1 AND 2
ok 1|SELECT * FROM t WHERE c BETWEEN -1 AND ? AND d = 1
ok 1|SELECT * FROM t WHERE c IN (1)
ok 1|SELECT * FROM t WHERE c IN (1, -2, 'a', NULL, DATE '2000-01-01')
ok 1|SELECT * FROM t WHERE c LIKE ?
ok 1|SELECT * FROM t WHERE c LIKE 'a%'
ok 1|SELECT * FROM t WHERE c IS NULL
ok 1|SELECT * FROM t WHERE c IS NOT NULL
ok 1|SELECT * FROM t WHERE (c = 1)
ok 1|SELECT * FROM t WHERE ((c = 1 AND d = 2) AND e = 3)
ok 1|SELECT * FROM t WHERE c = DATE
ok 1|SELECT * FROM t WHERE DATE = 1
ok 1|SELECT * FROM t WHERE c = DATE '2020-02-29'
ok 1|SELECT * FROM t WHERE DATE '2020-02-29' < c
ok 1|SELECT * FROM t WHERE c = DATE.d
ok 1|SELECT * FROM t WHERE DATE.c = d
ok 1|SELECT * FROM t WHERE c = 1 AND c = 2
syntax 23|SELECT * FROM t WHERE 
syntax 25|SELECT * FROM t WHERE c 
syntax 26|SELECT * FROM t WHERE c =
syntax 29|SELECT * FROM t WHERE c = 1 = 2
syntax 33|SELECT * FROM t WHERE c = 1 AND 
syntax 24|SELECT * FROM t WHERE 1
syntax 26|SELECT * FROM t WHERE 1 <
syntax 27|SELECT * FROM t WHERE 1 < 2
syntax 27|SELECT * FROM t WHERE 1 = NULL
syntax 27|SELECT * FROM t WHERE c < d
syntax 28|SELECT * FROM t WHERE c <> d
syntax 29|SELECT * FROM t WHERE c = d = 1
syntax 25|SELECT * FROM t WHERE c + 1 = 2
syntax 29|SELECT * FROM t WHERE c = 1 + 2
syntax 24|SELECT * FROM t WHERE f(c) = 1
syntax 28|SELECT * FROM t WHERE c = f(d)
syntax 24|SELECT * FROM t WHERE ()
syntax 29|SELECT * FROM t WHERE (c = 1
syntax 25|SELECT * FROM t WHERE (c) = 1
syntax 31|SELECT * FROM t WHERE (c = 1) = 1
syntax 35|SELECT * FROM t WHERE c BETWEEN 1 
syntax 39|SELECT * FROM t WHERE c BETWEEN 1 AND 
syntax 33|SELECT * FROM t WHERE c BETWEEN AND 2
syntax 35|SELECT * FROM t WHERE c BETWEEN 1 , 2
syntax 38|SELECT * FROM t WHERE c BETWEEN DATE AND 2
syntax 28|SELECT * FROM t WHERE c IN 1
syntax 29|SELECT * FROM t WHERE c IN ()
syntax 30|SELECT * FROM t WHERE c IN (1
syntax 32|SELECT * FROM t WHERE c IN (1, )
syntax 29|SELECT * FROM t WHERE c IN (d)
syntax 30|SELECT * FROM t WHERE c LIKE 
syntax 30|SELECT * FROM t WHERE c LIKE d
syntax 28|SELECT * FROM t WHERE c IS 1
syntax 32|SELECT * FROM t WHERE c IS NOT 1
syntax 25|SELECT * FROM t WHERE c NULL
syntax 32|SELECT * FROM t WHERE c < DATE 5
syntax 32|SELECT * FROM t WHERE c = DATE '2020-02-30'
syntax 32|SELECT * FROM t WHERE c = DATE 'x'
syntax 29|SELECT * FROM t WHERE c = - d
syntax 29|SELECT * FROM t WHERE c = - - 1
syntax 28|SELECT * FROM t WHERE c = -'a'
syntax 28|SELECT * FROM t WHERE c = -NULL
syntax 24|SELECT * FROM t WHERE -c = 1
syntax 25|SELECT * FROM t WHERE ? IN (1)
syntax 25|SELECT * FROM t WHERE ? IS NULL
syntax 28|SELECT * FROM t WHERE NULL IS NULL
syntax 29|SELECT * FROM t WHERE c = 1 c = 2
syntax 27|SELECT * FROM t WHERE c = (1)
syntax 25|SELECT * FROM t WHERE (1) = c
unsupported 29|SELECT * FROM t WHERE c = 1 OR c = 2
unsupported 23|SELECT * FROM t WHERE NOT c = 1
unsupported 25|SELECT * FROM t WHERE c NOT IN (1)
unsupported 25|SELECT * FROM t WHERE c NOT LIKE ?
unsupported 25|SELECT * FROM t WHERE c NOT BETWEEN 1 AND 2
unsupported 29|SELECT * FROM t WHERE c IN (SELECT 1)
unsupported 23|SELECT * FROM t WHERE EXISTS (SELECT 1)
unsupported 27|SELECT * FROM t WHERE c = CASE
unsupported 27|SELECT * FROM t WHERE c = SELECT
unsupported 30|SELECT * FROM t WHERE (c = 1 OR d = 2)
ok 1|SELECT * FROM t GROUP BY c
ok 1|SELECT * FROM t GROUP BY t.c, d
ok 1|SELECT * FROM t HAVING a = b
ok 1|SELECT * FROM t HAVING sum(a) > 1 AND b = c
ok 1|SELECT * FROM t ORDER BY c
ok 1|SELECT * FROM t ORDER BY c ASC, d DESC, 1, f(x)
ok 1|SELECT * FROM t ORDER BY (c), +1
ok 1|SELECT * FROM t LIMIT 5
ok 1|SELECT * FROM t LIMIT ?
ok 1|SELECT * FROM t LIMIT 5 OFFSET 3
ok 1|SELECT * FROM t LIMIT $1 OFFSET $2
ok 1|SELECT * FROM t WHERE a = 1 GROUP BY c HAVING a = 1 ORDER BY c LIMIT 1 OFFSET 0
syntax 23|SELECT * FROM t GROUP c
syntax 26|SELECT * FROM t GROUP BY 
syntax 28|SELECT * FROM t GROUP BY c,
syntax 26|SELECT * FROM t GROUP BY 1
syntax 27|SELECT * FROM t GROUP BY f(c)
syntax 28|SELECT * FROM t GROUP BY c + 1
syntax 28|SELECT * FROM t GROUP BY c ASC
syntax 24|SELECT * FROM t HAVING 
syntax 26|SELECT * FROM t HAVING a 
syntax 28|SELECT * FROM t HAVING a = 
syntax 30|SELECT * FROM t HAVING a = b = c
syntax 34|SELECT * FROM t HAVING a = b AND 
syntax 23|SELECT * FROM t ORDER c
syntax 26|SELECT * FROM t ORDER BY 
syntax 28|SELECT * FROM t ORDER BY c,
syntax 32|SELECT * FROM t ORDER BY c ASC DESC
syntax 28|SELECT * FROM t ORDER BY c = 1
syntax 23|SELECT * FROM t LIMIT 
syntax 23|SELECT * FROM t LIMIT c
syntax 23|SELECT * FROM t LIMIT -1
syntax 23|SELECT * FROM t LIMIT 1.5
syntax 32|SELECT * FROM t LIMIT 5 OFFSET 
syntax 24|SELECT * FROM t LIMIT 5, 6
syntax 17|SELECT * FROM t OFFSET 5
syntax 25|SELECT * FROM t LIMIT 5 LIMIT 6
syntax 28|SELECT * FROM t ORDER BY c GROUP BY c
syntax 30|SELECT * FROM t HAVING a = b WHERE c = 1
syntax 25|SELECT * FROM t LIMIT 1 ORDER BY c
unsupported 30|SELECT * FROM t HAVING a = b OR c = d
unsupported 28|SELECT * FROM t GROUP BY c WITH
unsupported 25|SELECT * FROM t LIMIT 5 UNION"#;
