//! Retuning: advice wherever a script of edits asks for it, and what is refused of such a script.
use crate::runs::compare_all;
use crate::scene::{play, walk};

/// Lines as those of other runs, with the edits in CONF, and with `#` for how many nodes each search made. Over KNAP each
/// statement costs 80000 without an index, the first 13000 with t(c), the second 14000 with v(d, e).
const RETUNED: &str =
    r#"0|retune CAT LOAD CONF 4|KNAP|-- weight 10~SELECT c FROM t ORDER BY c;~-- weight 11~SELECT d, e FROM v ORDER BY d, e;~|advise~remove 2~advise~add 11 SELECT d, e FROM v ORDER BY d, e~weigh 1 1~advise~|advice 1~budget 4~candidates 2 left over 0~pick 2 v(d, e) 4 pages~size 4~cost 954000~bound 954000~gap 0~nodes # of 20000~finished~advice 2~budget 4~candidates 1 left over 0~pick 1 t(c) 3 pages~size 3~cost 130000~bound 130000~gap 0~nodes # of 20000~finished~advice 3~budget 4~candidates 2 left over 0~pick 2 v(d, e) 4 pages~size 4~cost 234000~bound 234000~gap 0~nodes # of 20000~finished~
0|retune CAT LOAD CONF 4|KNAP|-- weight 10~SELECT c FROM t ORDER BY c;~-- weight 11~SELECT d, e FROM v ORDER BY d, e;~|weigh 1 12~advise~remove 1~advise~|advice 1~budget 4~candidates 2 left over 0~pick 1 t(c) 3 pages~size 3~cost 1036000~bound 1036000~gap 0~nodes # of 20000~finished~advice 2~budget 4~candidates 1 left over 0~pick 1 v(d, e) 4 pages~size 4~cost 154000~bound 154000~gap 0~nodes # of 20000~finished~
0|retune CAT LOAD CONF 4|KNAP|-- weight 10~SELECT c FROM t ORDER BY c;~-- weight 11~SELECT d, e FROM v ORDER BY d, e;~|add 3 SELECT c FROM t ORDER BY c -- weight 9~advise~|advice 1~budget 4~candidates 2 left over 0~pick 1 t(c) 3 pages~size 3~cost 1049000~bound 1049000~gap 0~nodes # of 20000~finished~
0|retune CAT LOAD CONF 4|KNAP|-- weight 10~SELECT c FROM t ORDER BY c;~-- weight 11~SELECT d, e FROM v ORDER BY d, e;~||
0|retune CAT LOAD CONF 4|KNAP|-- weight 10~SELECT c FROM t ORDER BY c;~-- weight 11~SELECT d, e FROM v ORDER BY d, e;~|remove 1~remove 1~|
0|retune CAT LOAD CONF 4|KNAP||add 10 SELECT c FROM t ORDER BY c~advise~|advice 1~budget 4~candidates 1 left over 0~pick 1 t(c) 3 pages~size 3~cost 130000~bound 130000~gap 0~nodes # of 20000~finished~
0|retune CAT LOAD CONF 3|CLAB 2|SELECT * FROM t ORDER BY a|advise~add 2 SELECT a FROM t ORDER BY b~advise~|advice 1~budget 3~candidates 3 left over 0~pick 2 t(a) clustered 3 pages~size 3~cost 33000~bound 33000~gap 0~nodes # of 20000~finished~advice 2~budget 3~candidates 5 left over 0~pick 5 t(b) clustered 3 pages~size 3~cost 146000~bound 146000~gap 0~nodes # of 20000~finished~
5|retune CAT LOAD CONF 4|KNAP|-- weight 10~SELECT c FROM t ORDER BY c;~-- weight 11~SELECT d, e FROM v ORDER BY d, e;~|remove 3~|refused: edit line 1: no statement 3~
5|retune CAT LOAD CONF 4|KNAP|-- weight 10~SELECT c FROM t ORDER BY c;~-- weight 11~SELECT d, e FROM v ORDER BY d, e;~|add 5 SELECT c FROM~|refused: edit line 1: syntax at 14~
5|retune CAT LOAD CONF 4|KNAP|-- weight 10~SELECT c FROM t ORDER BY c;~-- weight 11~SELECT d, e FROM v ORDER BY d, e;~|remove 2~remove 2~|refused: edit line 2: no statement 2~
5|retune CAT LOAD CONF 4|KNAP|-- weight 10~SELECT c FROM t ORDER BY c;~-- weight 11~SELECT d, e FROM v ORDER BY d, e;~|advise~weigh 3 7~|refused: edit line 2: no statement 3~
5|retune CAT LOAD CONF 4|KNAP|-- weight 10~SELECT c FROM t ORDER BY c;~-- weight 11~SELECT d, e FROM v ORDER BY d, e;~|advise~add 5 SELECT c FROM t; SELECT c FROM t~|refused: edit line 2: bad line~
5|retune CAT LOAD CONF 4|KNAP|-- weight 10~SELECT c FROM t ORDER BY c;~-- weight 11~SELECT d, e FROM v ORDER BY d, e;~|add 5 -- SELECT c FROM t~|refused: edit line 1: bad line~
5|retune CAT LOAD CONF 4|KNAP|-- weight 10~SELECT c FROM t ORDER BY c;~-- weight 11~SELECT d, e FROM v ORDER BY d, e;~|add 5 SELECT c FROM t; SELECT c FROM~|refused: edit line 1: syntax at 31~
5|retune CAT LOAD CONF 4|KNAP|-- weight 10~SELECT c FROM t ORDER BY c;~-- weight 11~SELECT d, e FROM v ORDER BY d, e;~|add 5 SELECT c FROM t WHERE c = 'x~|refused: edit line 1: open text at 27~
5|retune CAT LOAD CONF 4|KNAP|-- weight 10~SELECT c FROM t ORDER BY c;~-- weight 11~SELECT d, e FROM v ORDER BY d, e;~|add 5 SELECT x FROM t~|refused: edit line 1: no column at 8~
5|retune CAT LOAD CONF 4|KNAP|-- weight 10~SELECT c FROM t ORDER BY c;~-- weight 11~SELECT d, e FROM v ORDER BY d, e;~|advise~add 5 SELECT c FROM w~|refused: edit line 2: no table at 15~
5|retune CAT LOAD CONF 4|KNAP|-- weight 10~SELECT c FROM t ORDER BY c;~-- weight 11~SELECT d, e FROM v ORDER BY d, e;~|remove 3~advise|refused: edit line 2: bad line~
5|retune CAT LOAD CONF 4|KNAP|-- weight 10~SELECT c FROM t ORDER BY c;~-- weight 11~SELECT d, e FROM v ORDER BY d, e;~|remove 3~weigh 1 0~|refused: edit line 2: bad line~
5|retune CAT LOAD CONF 4|KNAP|-- weight 10~SELECT c FROM t ORDER BY c;~-- weight 11~SELECT d, e FROM v ORDER BY d, e;~|add 5 SELECT c FROM~# no comment~|refused: edit line 2: bad line~
5|retune CAT LOAD CONF 4|KNAP|-- weight 10~SELECT c FROM t ORDER BY c;~-- weight 11~SELECT d, e FROM v ORDER BY d, e;~|advise~advise~advise~advise~advise~advise~advise~advise~advise~advise~advise~advise~advise~advise~advise~advise~advise~|refused: edit line 17: bad line~
5|retune CAT LOAD CONF 4|STAR|SELECT k1 FROM hub; SELECT count(*) FROM hub, p, q, r, s WHERE k1 = p.x AND k2 = p.y AND k3 = p.z AND k4 = q.x AND k5 = q.y AND k6 = q.z AND k7 = r.x AND k8 = r.y AND k9 = r.z AND k10 = s.w AND k11 = s.x AND k12 = s.y AND k13 = s.z|remove 1~|refused: statement 2 has 4480 combinations~
5|retune CAT LOAD CONF 4|STAR|SELECT k1 FROM hub; SELECT count(*) FROM hub, p, q, r, s WHERE k1 = p.x AND k2 = p.y AND k3 = p.z AND k4 = q.x AND k5 = q.y AND k6 = q.z AND k7 = r.x AND k8 = r.y AND k9 = r.z AND k10 = s.w AND k11 = s.x AND k12 = s.y AND k13 = s.z|remove 0~|refused: edit line 1: bad line~
5|retune CAT LOAD CONF 4|STAR|SELECT k1 FROM hub|add 7 SELECT count(*) FROM hub, p, q, r, s WHERE k1 = p.x AND k2 = p.y AND k3 = p.z AND k4 = q.x AND k5 = q.y AND k6 = q.z AND k7 = r.x AND k8 = r.y AND k9 = r.z AND k10 = s.w AND k11 = s.x AND k12 = s.y AND k13 = s.z~|refused: edit line 1: statement 2 has 4480 combinations~
5|retune CAT LOAD CONF 4|STAR|SELECT k1 FROM hub|add 7 SELECT count(*) FROM hub, p, q, r, s WHERE k1 = p.x AND k2 = p.y AND k3 = p.z AND k4 = q.x AND k5 = q.y AND k6 = q.z AND k7 = r.x AND k8 = r.y AND k9 = r.z AND k10 = s.w AND k11 = s.x AND k12 = s.y AND k13 = s.z; SELECT x FROM hub~|refused: edit line 1: bad line~
5|retune CAT LOAD CONF 4|KNAP|SELECT c FROM|remove 1~|refused: syntax at 14~
2|retune CAT LOAD CONF|KNAP|-- weight 10~SELECT c FROM t ORDER BY c;~-- weight 11~SELECT d, e FROM v ORDER BY d, e;~||usage: missing word 5~
2|retune CAT LOAD CONF 4 --cert f|KNAP|-- weight 10~SELECT c FROM t ORDER BY c;~-- weight 11~SELECT d, e FROM v ORDER BY d, e;~||usage: unknown option at word 6~
2|retune CAT LOAD CONF 4 --nodes 5 --cert f|KNAP|-- weight 10~SELECT c FROM t ORDER BY c;~-- weight 11~SELECT d, e FROM v ORDER BY d, e;~||usage: unknown option at word 8~
3|retune CAT LOAD NONE 4|KNAP|-- weight 10~SELECT c FROM t ORDER BY c;~-- weight 11~SELECT d, e FROM v ORDER BY d, e;~||read fault: NONE~
5|retune CAT LOAD CONF 4|KNAP|-- weight 10~SELECT c FROM t ORDER BY c;~-- weight 11~SELECT d, e FROM v ORDER BY d, e;~|add 5 SELECT # FROM t~|refused: edit line 1: bad byte at 8~
5|retune CAT LOAD CONF 4|KNAP|-- weight 10~SELECT c FROM t ORDER BY c;~-- weight 11~SELECT d, e FROM v ORDER BY d, e;~|add 5 SELECT c FROM t UNION SELECT c FROM t~|refused: edit line 1: unsupported at 17~
5|retune CAT LOAD CONF 4|KNAP|-- weight 10~SELECT c FROM t ORDER BY c;~-- weight 11~SELECT d, e FROM v ORDER BY d, e;~|add 5 SELECT c FROM t -- weight 0~|refused: edit line 1: bad weight at 17~
5|retune CAT LOAD CONF 4|KNAP|-- weight 10~SELECT c FROM t ORDER BY c;~-- weight 11~SELECT d, e FROM v ORDER BY d, e;~|add 5 SELECT c FROM t a, t b WHERE a.c = b.c~|refused: edit line 1: ambiguous at 8~
5|retune CAT LOAD CONF 4|KNAP|-- weight 10~SELECT c FROM t ORDER BY c;~-- weight 11~SELECT d, e FROM v ORDER BY d, e;~|add 5 SELECT a.c FROM t a, t a~|refused: edit line 1: alias twice at 24~
5|retune CAT LOAD CONF 4|KNAP|-- weight 10~SELECT c FROM t ORDER BY c;~-- weight 11~SELECT d, e FROM v ORDER BY d, e;~|add 5 SELECT a.c FROM t a, t b~|refused: edit line 1: unjoined at 1~
5|retune CAT LOAD CONF 4|KNAP|SELECT c FROM|remove 0~|refused: syntax at 14~
5|retune CAT LOAD CONF 4|KNAP|SELECT x FROM t|remove 0~|refused: no column at 8~
2|retune CAT LOAD CONF x|KNAP|-- weight 10~SELECT c FROM t ORDER BY c;~-- weight 11~SELECT d, e FROM v ORDER BY d, e;~||usage: bad number at word 5~
2|retune CAT LOAD CONF 1000000000001|KNAP|-- weight 10~SELECT c FROM t ORDER BY c;~-- weight 11~SELECT d, e FROM v ORDER BY d, e;~||usage: bad number at word 5~
2|retune CAT LOAD CONF 4 --nodes 0|KNAP|-- weight 10~SELECT c FROM t ORDER BY c;~-- weight 11~SELECT d, e FROM v ORDER BY d, e;~||usage: bad number at word 7~
2|retune CAT LOAD CONF 4 --nodes|KNAP|-- weight 10~SELECT c FROM t ORDER BY c;~-- weight 11~SELECT d, e FROM v ORDER BY d, e;~||usage: missing word 7~
2|retune CAT LOAD CONF 4 --nodes 5 --nodes 6|KNAP|-- weight 10~SELECT c FROM t ORDER BY c;~-- weight 11~SELECT d, e FROM v ORDER BY d, e;~||usage: option twice at word 8~
2|retune CAT LOAD CONF 4 5|KNAP|-- weight 10~SELECT c FROM t ORDER BY c;~-- weight 11~SELECT d, e FROM v ORDER BY d, e;~||usage: extra word 6~"#;

/// How many copies of a statement a workload has, the statement, a script, and its status and output. There are 1000 statements,
/// or 2000 slots, at most, and may be as many; where both are passed the statements come first.
const LIMITS: &str =
    r#"1000|SELECT c FROM t;|add 1 SELECT c FROM t~|5|refused: edit line 1: more than 1000 statements~
1000|SELECT c FROM t;|remove 1~add 1 SELECT c FROM t~add 1 SELECT c FROM t~|5|refused: edit line 3: more than 1000 statements~
1000|SELECT a.c FROM t a, t b WHERE a.n = b.n;|add 1 SELECT a.c FROM t a, t b, t d WHERE a.n = b.n AND a.n = d.n~advise~|5|refused: edit line 1: more than 1000 statements~
999|SELECT a.c FROM t a, t b WHERE a.n = b.n;|add 1 SELECT a.c FROM t a, t b, t d WHERE a.n = b.n AND a.n = d.n~advise~|5|refused: edit line 1: more than 2000 slots~
999|SELECT a.c FROM t a, t b WHERE a.n = b.n;|add 1 SELECT a.c FROM t a, t b WHERE a.n = b.n~|0|
999|SELECT a.c FROM t a, t b WHERE a.n = b.n;|add 1 SELECT x FROM t~|5|refused: edit line 1: no column at 8~"#;

const LIMIT: &str = "files TI||$2$
copies LOAD|$1$|$0$
run $3$|retune CAT LOAD CONF 4|$4$";

/// One node can't decide between the two where one fits; where one statement is left, it can. Where the output is full a front of
/// the text is there.
const STOPPED: &str =
    "files KNAP|-- weight 10~SELECT c FROM t ORDER BY c;~-- weight 11~SELECT d, e FROM v ORDER BY d, e;~|advise~remove 2~advise~
begins 1|retune CAT LOAD CONF 4 --nodes 1|
files KNAP|-- weight 10~SELECT c FROM t ORDER BY c;~-- weight 11~SELECT d, e FROM v ORDER BY d, e;~|remove 2~advise~
begins 0|retune CAT LOAD CONF 4 --nodes 1|
files KNAP|-- weight 10~SELECT c FROM t ORDER BY c;~-- weight 11~SELECT d, e FROM v ORDER BY d, e;~|remove 2~advise~add 11 SELECT d, e FROM v ORDER BY d, e~advise~
begins 1|retune CAT LOAD CONF 4 --nodes 1|
files T|SELECT c FROM t|advise~
room 10
run 4|retune CAT LOAD CONF 4|advice 1~b";

/// Calls that fail. Three files are read by two calls each, the edits last; no file is put.
const FAILED: &str = "1|3|read fault: CAT~
4|3|read fault: LOAD~
5|3|read fault: CONF~
6|3|read fault: CONF~
7|0|";

const FAIL: &str = "files T|SELECT c FROM t|weigh 1 2~
fail $0$
run $1$|retune CAT LOAD CONF 4|$2$";

#[test]
fn a_workload_is_retuned(rt: HostRuntime) {
    compare_all(&rt, rt.alloc(), RETUNED);
}

#[test]
fn a_workload_grows_to_its_limits(rt: HostRuntime) {
    walk(&rt, rt.alloc(), LIMIT, LIMITS);
}

#[test]
fn a_retuning_that_stops_or_fails_has_its_status(rt: HostRuntime) {
    play(&rt, rt.alloc(), STOPPED);
    walk(&rt, rt.alloc(), FAIL, FAILED);
}
