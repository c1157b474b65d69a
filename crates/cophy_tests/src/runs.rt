//! Worked examples, from words and files to bytes. Each cost was computed by hand, by the rules of the cost model.
//!
//! A line of a table is the exit status, the words, the name of the catalogue in CAT or, behind `=`, its text, the
//! workload in LOAD, the configuration or the rules in CONF, and the output. `~` stands for a line feed.
use crate::scene::{play, walk};
use std::alloc::Global;
use std::process::Abort;

/// Prices, with a comment on the sum in the workload.
const PRICES: &str =
    r#"0|cost CAT LOAD|T|SELECT * FROM t -- 20 pages, 1000 rows||statement 1 weight 1 cost 30000~total 30000~
0|cost CAT LOAD|TI|SELECT * FROM t ORDER BY c -- the table, and a sort of 1000 rows of 10 digits: 5000 * 10||statement 1 weight 1 cost 80000~total 80000~
0|cost CAT LOAD|TC|SELECT * FROM t ORDER BY c -- 3 pages of an index, all pages, all rows||statement 1 weight 1 cost 33000~total 33000~
0|cost CAT LOAD|TI|SELECT c FROM t ORDER BY c -- the index covers||statement 1 weight 1 cost 13000~total 13000~
0|cost CAT LOAD|AB|SELECT * FROM t WHERE a = 5 ORDER BY b -- an index page, a fetch, a row; bound, so sorted||statement 1 weight 1 cost 5010~total 5010~
0|cost CAT LOAD|AB|SELECT a, b FROM t WHERE a IN (1, 2) AND b > 5||statement 1 weight 1 cost 1010~total 1010~
0|cost CAT LOAD|AB|SELECT * FROM t WHERE a = 1 AND a = 2||statement 1 weight 1 cost 5010~total 5010~
0|cost CAT LOAD|XZ|SELECT t.x, t.z FROM t, u WHERE t.x = u.y ORDER BY t.x, t.z -- a merge; by hash 128000||statement 1 weight 1 cost 114000~total 114000~
0|cost CAT LOAD|CHAIN|SELECT count(*) FROM a, b, c, d WHERE a.k = 1 AND d.k = 1 AND a.x = b.x AND b.y = c.y AND c.x = d.x -- bushy; else 137868||statement 1 weight 1 cost 136082~total 136082~
0|cost CAT LOAD|AG|SELECT a, sum(b) FROM t GROUP BY a ORDER BY sum(b) DESC -- a hash group, a sort of 100 groups||statement 1 weight 1 cost 49500~total 49500~
0|cost CAT LOAD|ORDERS|-- weight 50~SELECT o.o_id, o.o_date, sum(l.l_price) AS revenue~FROM customer c JOIN orders o ON c.c_id = o.o_cust JOIN lineitem l ON l.l_order = o.o_id~WHERE c.c_segment = 'BUILDING' AND o.o_date BETWEEN DATE '1995-01-01' AND DATE '1995-03-31'~GROUP BY o.o_id, o.o_date ORDER BY revenue DESC, o.o_date LIMIT 10;~||statement 1 weight 50 cost 31347433~total 1567371650~
0|cost CAT LOAD|EMPTY|SELECT * FROM t -- rows and pages of 0 count as 1||statement 1 weight 1 cost 1010~total 1010~
0|cost CAT LOAD|T|||total 0~
0|cost CAT LOAD|T| ;; -- weight 7~ ; SELECT c FROM t; /* */ select C from T||statement 1 weight 7 cost 30000~statement 2 weight 1 cost 30000~total 240000~
0|cost CAT LOAD|TI|INSERT INTO t VALUES (1), (2) -- two writes of one index, down two levels: 2 * (4000 * 2 + 10)||statement 1 weight 1 cost 16020~total 16020~
0|cost CAT LOAD|TI|DELETE FROM t -- all pages, all rows, and a write for each row||statement 1 weight 1 cost 8040000~total 8040000~
0|cost CAT LOAD|TI|UPDATE t SET n = 1 WHERE c = 5 -- an index page, a fetch, a row; the index has no set column||statement 1 weight 1 cost 5010~total 5010~
0|cost CAT LOAD|TI|UPDATE t SET c = 1 WHERE c = 5 -- an entry is taken out and one put in||statement 1 weight 1 cost 21030~total 21030~
0|cost CAT LOAD|TI|-- weight 3~INSERT INTO t VALUES (1, 2);~DELETE FROM t WHERE c = 5||statement 1 weight 3 cost 8010~statement 2 weight 1 cost 13020~total 37050~
0|cost CAT LOAD|T|INSERT INTO t VALUES (1) -- no index||statement 1 weight 1 cost 0~total 0~
0|cost CAT LOAD|T|SELECT c FROM t ORDER BY c; UPDATE t SET c = 1||statement 1 weight 1 cost 80000~statement 2 weight 1 cost 30000~total 110000~"#;

/// Refusals.
const REFUSALS: &str =
    r#"5|cost CAT LOAD|T|SELECT c FROM t WHERE c = 1 OR c = 2||refused: unsupported at 29~
5|ruled CAT LOAD 4 CONF|KNAP|-- weight 10~SELECT c FROM t ORDER BY c;~-- weight 11~SELECT d, e FROM v ORDER BY d, e;~|must t(c)~must v(d, e)~|refused: rules need 7 over 4~
5|ruled CAT LOAD 4 CONF|KNAP|-- weight 10~SELECT c FROM t ORDER BY c;~-- weight 11~SELECT d, e FROM v ORDER BY d, e;~|must t(c)~never t.c~|refused: rules line 2 contradicts on 1~
5|ruled CAT LOAD 4 CONF|KNAP|-- weight 10~SELECT c FROM t ORDER BY c;~-- weight 11~SELECT d, e FROM v ORDER BY d, e;~|never u~must t(c,n)|refused: rules no table at line 1~
5|cost CAT LOAD|T|SELECT * FROM||refused: syntax at 14~
5|cost CAT LOAD|T|SELECT 'ab||refused: open text at 8~
5|cost CAT LOAD|T|SELECT # FROM t||refused: bad byte at 8~
5|cost CAT LOAD|T|-- weight 0~SELECT * FROM t||refused: bad weight at 1~
5|cost CAT LOAD|T|SELECT c FROM t WHERE||refused: syntax at 22~
5|cost CAT LOAD|T|SELECT c FROM t LEFT JOIN u||refused: unsupported at 17~
5|cost CAT LOAD|T|SELECT c FROM (SELECT c FROM t)||refused: syntax at 15~
5|cost CAT LOAD|T|SELECT (SELECT 1)||refused: unsupported at 9~
5|cost CAT LOAD|T|SELECT c c c FROM t||refused: syntax at 12~
5|cost CAT LOAD|T|SELECT c FROM t WHERE c = 1 = 2||refused: syntax at 29~
5|cost CAT LOAD|T|SELECT * FROM t WHERE c = DATE '2020-02-30'||refused: syntax at 32~
5|cost CAT LOAD|T|SELECT count(*) FROM t a, t b, t c, t d, t e, t f, t g, t h, t i||refused: more than 8 slots at 62~
5|cost CAT LOAD|XZ|SELECT t.x FROM t, u||refused: unjoined at 1~
5|cost CAT LOAD|XZ|SELECT * FROM v||refused: no table at 15~
5|cost CAT LOAD|XZ|SELECT zz FROM t||refused: no column at 8~
5|cost CAT LOAD|T|SELECT c FROM t a, t b WHERE a.c = b.c||refused: ambiguous at 8~
5|cost CAT LOAD|T|SELECT 1 FROM t, t||refused: alias twice at 18~
5|cost CAT LOAD|=|||refused: missing version~
5|cost CAT LOAD|=version = 3~|||refused: out of range version~
5|cost CAT LOAD|=version 1~|||refused: not toml~
5|cost CAT LOAD|=version = 1.0~|SELECT||refused: wrong kind version~
5|cost CAT LOAD|=version = 1~[[table]]~name = "t"~rows = 1000.0~|||refused: wrong kind table[1].rows~
5|cost CAT LOAD|=version = 1~rates = { seq_page = -1 }~|||refused: out of range rates.seq_page~
5|cost CAT LOAD|=version = 1~[[table]]~name = "t"~rows = 1~pages = 1~[[table]]~name = "t"~|||refused: missing table[1].column~"#;

/// Plans under configurations.
const PLANS: &str =
    r#"0|explain CAT LOAD CONF 1|TI|SELECT * FROM t ORDER BY c||statement 1 plan 80000 upkeep 0~final sort t.c cost 80000~  heap on t cost 30000~
5|explain CAT LOAD CONF 2|TI|SELECT * FROM t ORDER BY c||refused: no statement 2 of 1~
0|explain CAT LOAD CONF 1|TI|SELECT * FROM t ORDER BY c|1~|statement 1 plan 14000 upkeep 0~candidate 1 on t cost 14000~
5|explain CAT LOAD CONF 1|TI|SELECT * FROM t ORDER BY c|2~|refused: configuration line 1~
5|explain CAT LOAD CONF 2|TI|SELECT * FROM t ORDER BY c|2~|refused: no statement 2 of 1~
5|explain CAT LOAD CONF 3|TI|SELECT c FROM t; DELETE FROM t|1~|refused: no statement 3 of 2~
3|explain CAT LOAD none 1|TI|SELECT * FROM t ORDER BY c||read fault: none~
0|explain CAT LOAD CONF 2|TI|SELECT c FROM t; SELECT c FROM t x WHERE c > 5 ORDER BY c DESC||statement 2 plan 20370 upkeep 0~final sort x.c desc cost 20370~  index t_c on x cost 5340~
0|explain CAT LOAD CONF 1|TI|SELECT n FROM t ORDER BY n|1~|statement 1 plan 13000 upkeep 0~candidate 1 on t cost 13000~
0|explain CAT LOAD CONF 1|TI|UPDATE t SET c = 1 WHERE c = 5||statement 1 plan 5010 upkeep 16020~index t_c on t cost 5010~
0|explain CAT LOAD CONF 2|TI|SELECT n FROM t ORDER BY n; UPDATE t SET n = n + 1 WHERE c = 5|1~|statement 2 plan 5010 upkeep 16020~index t_c on t cost 5010~
0|explain CAT LOAD CONF 1|TI|DELETE FROM t WHERE n > 5|1~|statement 1 plan 30000 upkeep 5350680~heap on t cost 30000~
0|explain CAT LOAD CONF 1|TI|DELETE FROM t WHERE n > 5||statement 1 plan 30000 upkeep 2675340~heap on t cost 30000~
0|explain CAT LOAD CONF 2|TI|SELECT n FROM t ORDER BY n; INSERT INTO t VALUES (1, 2), (3, 4), (5, 6)|1~|statement 2 insert upkeep 48060~
0|explain CAT LOAD CONF 1|T|INSERT INTO t VALUES (1)||statement 1 insert upkeep 0~"#;

/// Prices under configurations, and the limit of combinations.
const CONFIGURED: &str =
    r#"0|whatif CAT LOAD CONF|T|SELECT c FROM t ORDER BY c -- 3 pages of the index, and all rows|1~|size 3~statement 1 weight 1 cost 13000~total 13000~
0|whatif CAT LOAD CONF|T|SELECT c FROM t ORDER BY c||size 0~statement 1 weight 1 cost 80000~total 80000~
0|whatif CAT LOAD CONF|T|SELECT c FROM t ORDER BY c; UPDATE t SET c = 1 -- two writes a row, 1000 * 8010 * 2, and all pages and rows|1~|size 3~statement 1 weight 1 cost 13000~statement 2 weight 1 cost 16050000~total 16063000~
0|whatif CAT LOAD CONF|KNAP|-- weight 10~SELECT c FROM t ORDER BY c;~-- weight 11~SELECT d, e FROM v ORDER BY d, e;~||size 0~statement 1 weight 10 cost 80000~statement 2 weight 11 cost 80000~total 1680000~
0|whatif CAT LOAD CONF|KNAP|-- weight 10~SELECT c FROM t ORDER BY c;~-- weight 11~SELECT d, e FROM v ORDER BY d, e;~|1~|size 3~statement 1 weight 10 cost 13000~statement 2 weight 11 cost 80000~total 1010000~
0|whatif CAT LOAD CONF|KNAP|-- weight 10~SELECT c FROM t ORDER BY c;~-- weight 11~SELECT d, e FROM v ORDER BY d, e;~|2~|size 4~statement 1 weight 10 cost 80000~statement 2 weight 11 cost 14000~total 954000~
0|whatif CAT LOAD CONF|KNAP|-- weight 10~SELECT c FROM t ORDER BY c;~-- weight 11~SELECT d, e FROM v ORDER BY d, e;~|1~2~|size 7~statement 1 weight 10 cost 13000~statement 2 weight 11 cost 14000~total 284000~
0|whatif CAT LOAD CONF|ORDERS|-- weight 50~SELECT o.o_id, o.o_date, sum(l.l_price) AS revenue~FROM customer c JOIN orders o ON c.c_id = o.o_cust JOIN lineitem l ON l.l_order = o.o_id~WHERE c.c_segment = 'BUILDING' AND o.o_date BETWEEN DATE '1995-01-01' AND DATE '1995-03-31'~GROUP BY o.o_id, o.o_date ORDER BY revenue DESC, o.o_date LIMIT 10;~|2~6~8~|size 2708~statement 1 weight 50 cost 11675662~total 583783100~
0|whatif CAT LOAD CONF|XZ|SELECT t.x, t.z FROM t, u WHERE t.x = u.y ORDER BY t.x, t.z -- two index leaves of 14000 and 13000, and a merge of 20000|2~|size 3~statement 1 weight 1 cost 47000~total 47000~
0|whatif CAT LOAD CONF|AG|SELECT a, sum(b) FROM t GROUP BY a -- 4 pages, all rows, and a group of rows that come in order|2~|size 4~statement 1 weight 1 cost 19000~total 19000~
0|whatif CAT LOAD CONF|TI|SELECT n FROM t ORDER BY n; INSERT INTO t VALUES (1, 2), (3, 4), (5, 6) -- three rows, two indexes|1~|size 3~statement 1 weight 1 cost 13000~statement 2 weight 1 cost 48060~total 61060~
0|whatif CAT LOAD CONF|TI|DELETE FROM t WHERE n > 5 -- 334 rows, two indexes|1~|size 3~statement 1 weight 1 cost 5380680~total 5380680~
0|whatif CAT LOAD CONF|TI|SELECT n FROM t ORDER BY n; UPDATE t SET n = n + 1 WHERE c = 5|1~|size 3~statement 1 weight 1 cost 13000~statement 2 weight 1 cost 21030~total 34030~
0|whatif CAT LOAD CONF|T|||size 0~total 0~
0|whatif CAT LOAD CONF|STAR|SELECT count(*) FROM p a, p b, p c, p d, p e, p f WHERE a.x = b.x AND a.y = b.y AND a.z = b.z AND a.x = c.x AND a.y = c.y AND a.z = c.z AND a.x = d.x AND a.y = d.y AND a.z = d.z AND a.x = e.x AND a.y = e.y AND a.z = e.z AND a.x = f.x AND a.y = f.y AND a.z = f.z -- 4096 combinations: six heaps, a hash of 24010 and four of 8026||size 0~statement 1 weight 1 cost 236114~total 236114~
5|whatif CAT LOAD CONF|STAR|SELECT count(*) FROM hub, p, q, r, s WHERE k1 = p.x AND k2 = p.y AND k3 = p.z AND k4 = q.x AND k5 = q.y AND k6 = q.z AND k7 = r.x AND k8 = r.y AND k9 = r.z AND k10 = s.w AND k11 = s.x AND k12 = s.y AND k13 = s.z||refused: statement 1 has 4480 combinations~
0|cost CAT LOAD|STAR|SELECT count(*) FROM hub, p, q, r, s WHERE k1 = p.x AND k2 = p.y AND k3 = p.z AND k4 = q.x AND k5 = q.y AND k6 = q.z AND k7 = r.x AND k8 = r.y AND k9 = r.z AND k10 = s.w AND k11 = s.x AND k12 = s.y AND k13 = s.z -- five heaps, a hash of 24010 and three of 8026||statement 1 weight 1 cost 198088~total 198088~
5|whatif CAT LOAD CONF|STAR|SELECT k1 FROM hub; SELECT count(*) FROM hub, p, q, r, s WHERE k1 = p.x AND k2 = p.y AND k3 = p.z AND k4 = q.x AND k5 = q.y AND k6 = q.z AND k7 = r.x AND k8 = r.y AND k9 = r.z AND k10 = s.w AND k11 = s.x AND k12 = s.y AND k13 = s.z; SELECT k2 FROM hub; SELECT count(*) FROM hub, p, q, r, s WHERE k1 = p.x AND k2 = p.y AND k3 = p.z AND k4 = q.x AND k5 = q.y AND k6 = q.z AND k7 = r.x AND k8 = r.y AND k9 = r.z AND k10 = s.w AND k11 = s.x AND k12 = s.y AND k13 = s.z||refused: statement 2 has 4480 combinations~
5|whatif CAT LOAD CONF|STAR|SELECT count(*) FROM hub, p, q, r, s WHERE k1 = p.x AND k2 = p.y AND k3 = p.z AND k4 = q.x AND k5 = q.y AND k6 = q.z AND k7 = r.x AND k8 = r.y AND k9 = r.z AND k10 = s.w AND k11 = s.x AND k12 = s.y AND k13 = s.z|1~1~|refused: configuration line 2~
5|whatif CAT LOAD CONF|T|SELECT c FROM t ORDER BY c|2~|refused: configuration line 1~
5|whatif CAT LOAD CONF|T|SELECT c FROM t ORDER BY c|1|refused: configuration line 1~
5|whatif CAT LOAD CONF|T|SELECT c FROM|2~|refused: syntax at 14~
3|whatif CAT LOAD none|T|SELECT c FROM||read fault: none~"#;

/// Advice. How many nodes a search makes is its own affair: `#` stands for an odd number in the range of the first part.
const ADVICE: &str =
    r#"1-3|0|advise CAT LOAD 3|T|SELECT p.c FROM t p, t q WHERE p.c = q.c -- 94000 without||budget 3~candidates 1 left over 0~pick 1 t(c) 3 pages~size 3~cost 46000~bound 46000~gap 0~nodes # of 20000~finished~
1-127|0|advise CAT LOAD 3000|ORDERS|-- weight 50~SELECT o.o_id, o.o_date, sum(l.l_price) AS revenue~FROM customer c JOIN orders o ON c.c_id = o.o_cust JOIN lineitem l ON l.l_order = o.o_id~WHERE c.c_segment = 'BUILDING' AND o.o_date BETWEEN DATE '1995-01-01' AND DATE '1995-03-31'~GROUP BY o.o_id, o.o_date ORDER BY revenue DESC, o.o_date LIMIT 10;~||budget 3000~candidates 8 left over 0~pick 2 customer(c_segment, c_id) 56 pages~pick 6 orders(o_date, o_id, o_cust) 589 pages~pick 8 lineitem(l_order, l_price) 2063 pages~size 2708~cost 583783100~bound 583783100~gap 0~nodes # of 20000~finished~
3-5|0|advise CAT LOAD 4|KNAP|-- weight 10~SELECT c FROM t ORDER BY c;~-- weight 11~SELECT d, e FROM v ORDER BY d, e;~||budget 4~candidates 2 left over 0~pick 2 v(d, e) 4 pages~size 4~cost 954000~bound 954000~gap 0~nodes # of 20000~finished~
1-3|0|ruled CAT LOAD 4 CONF|KNAP|-- weight 10~SELECT c FROM t ORDER BY c;~-- weight 11~SELECT d, e FROM v ORDER BY d, e;~|never v~|must 0 never 1~budget 4~candidates 2 left over 0~pick 1 t(c) 3 pages~size 3~cost 1010000~bound 1010000~gap 0~nodes # of 20000~finished~
1-1|0|ruled CAT LOAD 7 CONF|KNAP|-- weight 10~SELECT c FROM t ORDER BY c;~-- weight 11~SELECT d, e FROM v ORDER BY d, e;~|never t~never v.e~|must 0 never 2~budget 7~candidates 2 left over 0~size 0~cost 1680000~bound 1680000~gap 0~nodes # of 20000~finished~
3-5|0|ruled CAT LOAD 4 CONF|KNAP|-- weight 10~SELECT c FROM t ORDER BY c;~-- weight 11~SELECT d, e FROM v ORDER BY d, e;~||must 0 never 0~budget 4~candidates 2 left over 0~pick 2 v(d, e) 4 pages~size 4~cost 954000~bound 954000~gap 0~nodes # of 20000~finished~
3-5|0|advise CAT LOAD 4 --nodes 7|KNAP|-- weight 10~SELECT c FROM t ORDER BY c;~-- weight 11~SELECT d, e FROM v ORDER BY d, e;~||budget 4~candidates 2 left over 0~pick 2 v(d, e) 4 pages~size 4~cost 954000~bound 954000~gap 0~nodes # of 7~finished~
1-1|0|advise CAT LOAD 0|KNAP|-- weight 10~SELECT c FROM t ORDER BY c;~-- weight 11~SELECT d, e FROM v ORDER BY d, e;~||budget 0~candidates 2 left over 0~size 0~cost 1680000~bound 1680000~gap 0~nodes # of 20000~finished~
1-3|0|advise CAT LOAD 10|T|SELECT c FROM t ORDER BY c; UPDATE t SET c = 1 -- its upkeep is 16020000||budget 10~candidates 1 left over 0~size 0~cost 110000~bound 110000~gap 0~nodes # of 20000~finished~
1-1|0|advise CAT LOAD 10|EMPTY|||budget 10~candidates 0 left over 0~size 0~cost 0~bound 0~gap 0~nodes # of 20000~finished~"#;

/// Certificates, and what each proves.
const CHECKED: &str =
    r#"0|check CAT LOAD CONF|KNAP|-- weight 10~SELECT c FROM t ORDER BY c;~-- weight 11~SELECT d, e FROM v ORDER BY d, e;~|cophy certificate 1~budget 4~config 2~cost 954000~bound 954000~sets 0~tree 3~B 1~L 0~L 0~end~|proved cost 954000 bound 954000 budget 4~
6|check CAT LOAD CONF|KNAP|-- weight 10~SELECT c FROM t ORDER BY c;~-- weight 11~SELECT d, e FROM v ORDER BY d, e;~|cophy certificate 1~budget 4~config 2~cost 954000~bound 954001~sets 0~tree 3~B 1~L 0~L 0~end~|not proved: leaf 3 has 954000 below 954001~
6|check CAT LOAD CONF|KNAP|-- weight 10~SELECT c FROM t ORDER BY c;~-- weight 11~SELECT d, e FROM v ORDER BY d, e;~|cophy certificate 1~budget 4~config 2~cost 954000~bound 954000~sets 0~tree 3~B 1~L 0~L 0~end~x|not proved: malformed at line 12~
6|check CAT LOAD CONF|KNAP|-- weight 10~SELECT c FROM t ORDER BY c;~-- weight 11~SELECT d, e FROM v ORDER BY d, e;~|cophy certificate 1~budget 4~config 2~cost 954000~bound 954000~sets 0~tree 3~B 1~L 0~L 0~end~~|not proved: malformed at line 12~
6|check CAT LOAD CONF|KNAP|-- weight 10~SELECT c FROM t ORDER BY c;~-- weight 11~SELECT d, e FROM v ORDER BY d, e;~|cophy certificate 1~budget 4~config 2~cost 954000~bound 954000~sets 0~tree 3~B 1~L 0~L 0~end|not proved: malformed at line 11~
6|check CAT LOAD CONF|KNAP|-- weight 10~SELECT c FROM t ORDER BY c;~-- weight 11~SELECT d, e FROM v ORDER BY d, e;~||not proved: malformed at line 1~
6|check CAT LOAD CONF|KNAP|-- weight 10~SELECT c FROM t ORDER BY c;~-- weight 11~SELECT d, e FROM v ORDER BY d, e;~|cophy certificate 1~budget 4~config 2~cost 954000~bound 954000~sets 0~tree 2~B 1~L 0~L 0~end~|not proved: malformed at line 7~
6|check CAT LOAD CONF|KNAP|-- weight 9~SELECT c FROM t ORDER BY c;~-- weight 11~SELECT d, e FROM v ORDER BY d, e;~|cophy certificate 1~budget 4~config 2~cost 954000~bound 954000~sets 0~tree 3~B 1~L 0~L 0~end~|not proved: cost 954000 computed 874000~
6|check CAT LOAD CONF|KNAP|-- weight 10~SELECT c FROM t ORDER BY c;~-- weight 11~SELECT d, e FROM v ORDER BY d, e;~|cophy certificate 1~budget 4~config 3~cost 954000~bound 954000~sets 0~tree 3~B 1~L 0~L 0~end~|not proved: no candidate 3~
6|check CAT LOAD CONF|KNAP|-- weight 10~SELECT c FROM t ORDER BY c;~-- weight 11~SELECT d, e FROM v ORDER BY d, e;~|cophy certificate 1~budget 3~config 2~cost 954000~bound 954000~sets 0~tree 3~B 1~L 0~L 0~end~|not proved: size 4 over 3~
6|check CAT LOAD CONF|KNAP|-- weight 10~SELECT c FROM t ORDER BY c;~-- weight 11~SELECT d, e FROM v ORDER BY d, e;~|cophy certificate 1~budget 4~config 2~cost 954000~bound 954000~sets 1~set 0 1~1 2 1 5~tree 3~B 1~L 0~L 0~end~|not proved: set 1 entry 1 names no pair~
6|check CAT LOAD CONF|KNAP|-- weight 10~SELECT c FROM t ORDER BY c;~-- weight 11~SELECT d, e FROM v ORDER BY d, e;~|cophy certificate 1~budget 4~config 2~cost 954000~bound 954000~sets 0~tree 3~B 3~L 0~L 0~end~|not proved: branch at node 1~
6|check CAT LOAD CONF|KNAP|-- weight 10~SELECT c FROM t ORDER BY c;~-- weight 11~SELECT d, e FROM v ORDER BY d, e;~|cophy certificate 1~budget 4~config 2~cost 954000~bound 954000~sets 0~tree 3~B 1~X~L 0~end~|not proved: leaf 2 has size 3~
0|check CAT LOAD CONF|KNAP|-- a page is priced at 10^6: 284000 less 4 of them~-- weight 10~SELECT c FROM t ORDER BY c;~-- weight 11~SELECT d, e FROM v ORDER BY d, e;~|cophy certificate 1~budget 4~config 2~cost 954000~bound -3716000~sets 1~set 65536000000 0~tree 1~L 1~end~|proved cost 954000 bound -3716000 budget 4~
6|check CAT LOAD CONF|KNAP|-- weight 10~SELECT c FROM t ORDER BY c;~-- weight 11~SELECT d, e FROM v ORDER BY d, e;~|cophy certificate 1~budget 4~config 2~cost 954000~bound -3715999~sets 1~set 65536000000 0~tree 1~L 1~end~|not proved: leaf 1 has -3716000 below -3715999~
0|check CAT LOAD CONF|STAR|SELECT count(*) FROM hub, p, q, r, s WHERE k1 = p.x AND k2 = p.y AND k3 = p.z AND k4 = q.x AND k5 = q.y AND k6 = q.z AND k7 = r.x AND k8 = r.y AND k9 = r.z AND k10 = s.w AND k11 = s.x AND k12 = s.y AND k13 = s.z -- 4480 combinations; no index fits|cophy certificate 1~budget 0~config~cost 198088~bound 198088~sets 0~tree 1~L 0~end~|proved cost 198088 bound 198088 budget 0~
0|check CAT LOAD CONF|EMPTY||cophy certificate 1~budget 0~config~cost 0~bound 0~sets 0~tree 1~L 0~end~|proved cost 0 bound 0 budget 0~
5|check CAT LOAD CONF|KNAP|SELECT c FROM t WHERE|no certificate|refused: syntax at 22~
5|check CAT LOAD CONF|=version = 3~||no certificate|refused: out of range version~
5|check CAT LOAD CONF|XZ|SELECT * FROM v|no certificate|refused: no table at 15~
3|check CAT LOAD none|KNAP|SELECT c FROM||read fault: none~
3|check CAT gone none|KNAP|SELECT c FROM||read fault: gone~"#;

/// Lists of candidates.
const CANDIDATES: &str =
    r#"0|candidates CAT LOAD|ORDERS|-- weight 50~SELECT o.o_id, o.o_date, sum(l.l_price) AS revenue~FROM customer c JOIN orders o ON c.c_id = o.o_cust JOIN lineitem l ON l.l_order = o.o_id~WHERE c.c_segment = 'BUILDING' AND o.o_date BETWEEN DATE '1995-01-01' AND DATE '1995-03-31'~GROUP BY o.o_id, o.o_date ORDER BY revenue DESC, o.o_date LIMIT 10;~||1 customer(c_segment) 42 pages~2 customer(c_segment, c_id) 56 pages~3 orders(o_date) 294 pages~4 orders(o_cust) 368 pages~5 orders(o_id, o_date) 442 pages~6 orders(o_date, o_id, o_cust) 589 pages~7 lineitem(l_order) 1471 pages~8 lineitem(l_order, l_price) 2063 pages~left over 0~
0|candidates CAT LOAD|KNAP|-- weight 10~SELECT c FROM t ORDER BY c;~-- weight 11~SELECT d, e FROM v ORDER BY d, e;~||1 t(c) 3 pages~2 v(d, e) 4 pages~left over 0~
0|candidates CAT LOAD|TI|SELECT * FROM t ORDER BY c||1 t(c, n) 4 pages~left over 0~
0|candidates CAT LOAD|TI|INSERT INTO t VALUES (1, 2); DELETE FROM t WHERE n > 5; UPDATE t SET n = 1 WHERE c = 5||1 t(n) 3 pages~left over 0~
0|candidates CAT LOAD|EMPTY|||left over 0~
5|candidates CAT LOAD|T|SELECT * FROM||refused: syntax at 14~
3|candidates none LOAD|T|||read fault: none~
2|candidates CAT LOAD CONF|T|||usage: extra word 4~"#;

/// Command lines that no file decides.
const WORDS: &str = r#"2||TI|||usage: no command~
2|price CAT LOAD|TI|||usage: unknown command at word 1~
2|cost CAT|TI|||usage: missing word 3~
2|cost CAT LOAD CONF|TI|||usage: extra word 4~
2|advise c l 10 --nodes 0|TI|||usage: bad number at word 6~
2|advise c l 10 --nodes 5 --nodes 6|TI|||usage: option twice at word 7~
2|advise c l 10 --node|TI|||usage: unknown option at word 5~
2|sweep c l 1 1000000000000 2|TI|||usage: bad number at word 6~
2|bench 1 1 5 0|TI|||usage: bad number at word 3~
2|bench 1 2 501 0|TI|||usage: bad number at word 4~
2|bench 1 2 5|TI|||usage: missing word 5~
3|advise none none 10|TI|||read fault: none~
3|advise none none 10 --cert none|TI|||read fault: none~
5|advise CAT LOAD 10|STAR|SELECT count(*) FROM hub, p, q, r, s WHERE k1 = p.x AND k2 = p.y AND k3 = p.z AND k4 = q.x AND k5 = q.y AND k6 = q.z AND k7 = r.x AND k8 = r.y AND k9 = r.z AND k10 = s.w AND k11 = s.x AND k12 = s.y AND k13 = s.z||refused: statement 1 has 4480 combinations~
3|whatif none none none|TI|||read fault: none~
2|whatif CAT LOAD|TI|||usage: missing word 4~
2|check CAT LOAD|TI|||usage: missing word 4~
3|check none none none|TI|||read fault: none~
3|cost none LOAD|TI|||read fault: none~
3|cost CAT none|TI|||read fault: none~"#;

/// Runs a line.
const RUN: &str = "files $2$|$3$|$4$
nodes $0$|$1$|$5$
kept";

/// Runs a line of `cost` as one of `whatif` under the empty configuration, whose size of 0 stands before the same prices.
const UNCONFIGURED: &str = "files $2$|$3$|
run $0$|whatif CAT LOAD CONF|size 0~$5$
kept";

/// Advises on a line.
const ADVISE: &str = "files $3$|$4$|$5$
nodes $1$|$2$|$6$
odd $0$
kept";

/// Two candidates of which one fits, and no node to tell which: either may be picked. The bound is no less than that of the
/// best rents, worked out by hand, and no more than the linear relaxation.
const ONE_NODE: &str =
    "files KNAP|-- weight 10~SELECT c FROM t ORDER BY c;~-- weight 11~SELECT d, e FROM v ORDER BY d, e;~|
ends 1|advise CAT LOAD 4 --nodes 1|nodes 1 of 1~stopped~
either cost |954000|1010000
within bound |677204|828500";

/// Walks a table.
pub(crate) fn compare_all(rt: &impl Abort, alloc: Global, table: &str) {
    walk(rt, alloc, RUN, table);
}

/// Walks a table of advice.
pub(crate) fn compare_advice(rt: &impl Abort, alloc: Global, table: &str) {
    walk(rt, alloc, ADVISE, table);
}

#[test]
fn statements_are_priced_and_plans_explained(rt: HostRuntime) {
    compare_all(&rt, rt.alloc(), PRICES);
    walk(&rt, rt.alloc(), UNCONFIGURED, PRICES);
    compare_all(&rt, rt.alloc(), PLANS);
    compare_all(&rt, rt.alloc(), CONFIGURED);
}

#[test]
fn inputs_and_words_are_refused(rt: HostRuntime) {
    compare_all(&rt, rt.alloc(), REFUSALS);
    compare_all(&rt, rt.alloc(), WORDS);
}

#[test]
fn advice_is_best(rt: HostRuntime) {
    compare_advice(&rt, rt.alloc(), ADVICE);
    play(&rt, rt.alloc(), ONE_NODE);
}

#[test]
fn certificates_are_checked_and_candidates_listed(rt: HostRuntime) {
    compare_all(&rt, rt.alloc(), CHECKED);
    compare_all(&rt, rt.alloc(), CANDIDATES);
}
