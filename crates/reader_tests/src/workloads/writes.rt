//! Texts and their answers, a case a line: statements that write, reserved words, bytes, and weights.

/// As `QUERIES`.
pub(crate) const WRITES: &str = r#"ok 1|INSERT INTO t VALUES (1)
ok 1|INSERT INTO t (a, b) VALUES (1, 2), (3, c + 4)
ok 1|INSERT INTO "values" VALUES (f(x))
ok 1|INSERT INTO t VALUES (DATE '2000-01-01')
syntax 8|INSERT t
syntax 13|INSERT INTO 
syntax 15|INSERT INTO t 
syntax 16|INSERT INTO t () VALUES (1)
syntax 18|INSERT INTO t (a VALUES (1)
syntax 18|INSERT INTO t (a,) VALUES (1)
syntax 17|INSERT INTO t (a.b) VALUES (1)
syntax 22|INSERT INTO t VALUES 
syntax 23|INSERT INTO t VALUES ()
syntax 24|INSERT INTO t VALUES (1
syntax 26|INSERT INTO t VALUES (1),
syntax 15|INSERT INTO t AS x VALUES (1)
syntax 14|INSERT INTO t.u VALUES (1)
syntax 26|INSERT INTO t VALUES (1) (2)
syntax 19|INSERT INTO t (a) (b)
syntax 15|INSERT INTO t DEFAULT VALUES
syntax 26|INSERT INTO t VALUES (1) WHERE c = 1
unsupported 15|INSERT INTO t SELECT * FROM u
unsupported 19|INSERT INTO t (a) SELECT
unsupported 26|INSERT INTO t VALUES (1) RETURNING a
unsupported 23|INSERT INTO t VALUES (SELECT 1)
ok 1|UPDATE t SET a = 1
ok 1|UPDATE t AS x SET a = b + 1, c = f(d) WHERE a = 1
ok 1|UPDATE t x SET a = -(1)
ok 1|DELETE FROM t
ok 1|DELETE FROM t x WHERE a = 1
ok 1|DELETE FROM t AS x
syntax 8|UPDATE 
syntax 8|UPDATE SET a = 1
syntax 10|UPDATE t 
syntax 14|UPDATE t SET 
syntax 16|UPDATE t SET a 
syntax 18|UPDATE t SET a = 
syntax 20|UPDATE t SET a = 1,
syntax 15|UPDATE t SET t.a = 1
syntax 16|UPDATE t SET a + 1
syntax 20|UPDATE t SET a = 1 = 2
syntax 9|UPDATE t, u SET a = 1
syntax 26|UPDATE t SET a = 1 WHERE 
syntax 8|DELETE t
syntax 13|DELETE FROM 
syntax 14|DELETE FROM t, u
syntax 21|DELETE FROM t WHERE 
syntax 15|DELETE FROM t ORDER BY c
syntax 20|UPDATE t SET a = 1 FROM u
syntax 15|DELETE FROM t SET
unsupported 15|DELETE FROM t USING u
unsupported 20|UPDATE t SET a = 1 RETURNING a
unsupported 15|DELETE FROM t RETURNING a
syntax 13|DELETE FROM all
ok 1|DELETE FROM "ALL"
syntax 13|DELETE FROM and
ok 1|DELETE FROM "AND"
syntax 13|DELETE FROM AS
ok 1|DELETE FROM "AS"
syntax 13|DELETE FROM asc
ok 1|DELETE FROM "ASC"
syntax 13|DELETE FROM between
ok 1|DELETE FROM "BETWEEN"
syntax 13|DELETE FROM BY
ok 1|DELETE FROM "BY"
unsupported 13|DELETE FROM CASE
ok 1|DELETE FROM "CASE"
unsupported 13|DELETE FROM cross
ok 1|DELETE FROM "CROSS"
syntax 13|DELETE FROM DELETE
ok 1|DELETE FROM "DELETE"
syntax 13|DELETE FROM DESC
ok 1|DELETE FROM "DESC"
syntax 13|DELETE FROM DISTINCT
ok 1|DELETE FROM "DISTINCT"
unsupported 13|DELETE FROM EXCEPT
ok 1|DELETE FROM "EXCEPT"
unsupported 13|DELETE FROM EXISTS
ok 1|DELETE FROM "EXISTS"
syntax 13|DELETE FROM FROM
ok 1|DELETE FROM "FROM"
unsupported 13|DELETE FROM FULL
ok 1|DELETE FROM "FULL"
syntax 13|DELETE FROM group
ok 1|DELETE FROM "GROUP"
syntax 13|DELETE FROM HAVING
ok 1|DELETE FROM "HAVING"
syntax 13|DELETE FROM IN
ok 1|DELETE FROM "IN"
syntax 13|DELETE FROM inner
ok 1|DELETE FROM "INNER"
syntax 13|DELETE FROM INSERT
ok 1|DELETE FROM "INSERT"
unsupported 13|DELETE FROM intersect
ok 1|DELETE FROM "INTERSECT"
syntax 13|DELETE FROM INTO
ok 1|DELETE FROM "INTO"
syntax 13|DELETE FROM IS
ok 1|DELETE FROM "IS"
syntax 13|DELETE FROM JOIN
ok 1|DELETE FROM "JOIN"
unsupported 13|DELETE FROM LEFT
ok 1|DELETE FROM "LEFT"
syntax 13|DELETE FROM LIKE
ok 1|DELETE FROM "LIKE"
syntax 13|DELETE FROM limit
ok 1|DELETE FROM "LIMIT"
unsupported 13|DELETE FROM natural
ok 1|DELETE FROM "NATURAL"
unsupported 13|DELETE FROM not
ok 1|DELETE FROM "NOT"
syntax 13|DELETE FROM NULL
ok 1|DELETE FROM "NULL"
syntax 13|DELETE FROM OFFSET
ok 1|DELETE FROM "OFFSET"
syntax 13|DELETE FROM ON
ok 1|DELETE FROM "ON"
unsupported 13|DELETE FROM OR
ok 1|DELETE FROM "OR"
syntax 13|DELETE FROM order
ok 1|DELETE FROM "ORDER"
unsupported 13|DELETE FROM outer
ok 1|DELETE FROM "OUTER"
unsupported 13|DELETE FROM OVER
ok 1|DELETE FROM "OVER"
unsupported 13|DELETE FROM returning
ok 1|DELETE FROM "RETURNING"
unsupported 13|DELETE FROM right
ok 1|DELETE FROM "RIGHT"
unsupported 13|DELETE FROM SELECT
ok 1|DELETE FROM "SELECT"
syntax 13|DELETE FROM set
ok 1|DELETE FROM "SET"
unsupported 13|DELETE FROM union
ok 1|DELETE FROM "UNION"
syntax 13|DELETE FROM UPDATE
ok 1|DELETE FROM "UPDATE"
unsupported 13|DELETE FROM using
ok 1|DELETE FROM "USING"
syntax 13|DELETE FROM VALUES
ok 1|DELETE FROM "VALUES"
syntax 13|DELETE FROM where
ok 1|DELETE FROM "WHERE"
unsupported 13|DELETE FROM WITH
ok 1|DELETE FROM "WITH"
ok 1|DELETE FROM COUNT
ok 1|DELETE FROM SUM
ok 1|DELETE FROM MIN
ok 1|DELETE FROM MAX
ok 1|DELETE FROM AVG
ok 1|DELETE FROM DATE
ok 1|DELETE FROM TRUE
ok 1|DELETE FROM FALSE
ok 1|DELETE FROM TABLE
ok 1|DELETE FROM _x
ok 1|DELETE FROM x1
byte 8|SELECT # FROM t
byte 9|SELECT 1a FROM t
byte 11|SELECT 1.5_ FROM t
byte 8|SELECT ! FROM t
byte 8|SELECT | FROM t
byte 8|SELECT $ FROM t
byte 9|SELECT "" FROM t
byte 8|SELECT é
open 8|SELECT 'ab
open 8|SELECT "ab
open 8|SELECT /* ab
open 12|SELECT 'ab''
open 11|SELECT 'a''b
byte 10|SELECT , !
open 10|SELECT , 'ab
byte 29|SELECT c FROM t LEFT JOIN u !
byte 13|-- weight 0~!
open 29|-- weight 0~SELECT * FROM t 'ab
ok 1|-- weight 5~SELECT * FROM t
ok 1|SELECT * -- weight 7~FROM t
ok 1|-- weight 5~-- weight 1000000~SELECT * FROM t
ok 1|--WEIGHT@007~DELETE FROM t
ok 1|--weight 5~SELECT * FROM t
ok 1|---weight 0~SELECT * FROM t
ok 1|-- weight0~SELECT * FROM t
ok 1|-- weight 0 x~SELECT * FROM t
ok 1|SELECT * FROM t WHERE c = DATE -- weight 3~'2000-01-01'
weight 1|-- weight 0~SELECT * FROM t
weight 1|-- weight 1000001~SELECT * FROM t
weight 10|SELECT * -- weight 0~FROM t
weight 17|SELECT * FROM t -- weight 99999999999999999999999999
weight 1|--weight 0
weight 10|SELECT * -- weight 0~, FROM t
weight 1|-- weight 0~-- weight 0
syntax 8|SELECT , -- weight 0~ FROM t
syntax 22|SELECT c FROM t WHERE
syntax 15|SELECT c FROM (SELECT c FROM t)
syntax 29|SELECT c FROM t WHERE c = 1 = 2
unsupported 17|SELECT c FROM t LEFT JOIN u
unsupported 29|SELECT c FROM t WHERE c = 1 OR c = 2"#;
