//! Clustered candidates, from words and files to bytes. What is printed was computed by hand.
use crate::runs::{compare_advice, compare_all};

/// Lists of candidates, as those of other runs. Each list of keys is proposed plain and clustered but the last of a statement,
/// which has all columns that it reads.
const CANDIDATES: &str =
    r#"0|candidates CAT LOAD|CLC 2|SELECT * FROM t ORDER BY c||1 t(c) 3 pages~2 t(c) clustered 3 pages~3 t(c, n) 4 pages~left over 0~
0|candidates CAT LOAD|CLAB 2|SELECT * FROM t ORDER BY a; SELECT * FROM t ORDER BY b||1 t(a) 3 pages~2 t(a) clustered 3 pages~3 t(a, b) 4 pages~4 t(b) 3 pages~5 t(b) clustered 3 pages~left over 0~
0|candidates CAT LOAD|CLC|SELECT * FROM t ORDER BY c -- version 1 passes over what may be||1 t(c) 3 pages~2 t(c, n) 4 pages~left over 0~
0|candidates CAT LOAD|=version = 2~[[table]]~name = "t"~rows = 1000~pages = 20~may_cluster = true~column = [{ name = "c", kind = "int", width = 4, distinct = 1000 }, { name = "n", kind = "int", width = 4, distinct = 1000 }]~index = [{ name = "t_n", keys = ["n"], clustered = true }]~|SELECT * FROM t ORDER BY c -- clustered already||1 t(c) 3 pages~2 t(c, n) 4 pages~left over 0~
0|candidates CAT LOAD|=version = 2~[[table]]~name = "t"~rows = 1000~pages = 20~may_cluster = true~column = [{ name = "c", kind = "int", width = 4, distinct = 1000 }, { name = "n", kind = "int", width = 4, distinct = 1000 }]~index = [{ name = "t_c", keys = ["c"] }]~|SELECT * FROM t ORDER BY c -- what exists is plain||1 t(c) clustered 3 pages~2 t(c, n) 4 pages~left over 0~"#;

/// Advice. Two clustered on one table would cost 66000 in 6 pages.
const ADVICE: &str =
    r#"1-7|0|advise CAT LOAD 3|CLC 2|SELECT * FROM t ORDER BY c||budget 3~candidates 3 left over 0~pick 2 t(c) clustered 3 pages~size 3~cost 33000~bound 33000~gap 0~nodes # of 20000~finished~
1-63|0|advise CAT LOAD 6|CLAB 2|SELECT * FROM t ORDER BY a; SELECT * FROM t ORDER BY b||budget 6~candidates 5 left over 0~pick 3 t(a, b) 4 pages~size 4~cost 78000~bound 78000~gap 0~nodes # of 20000~finished~
1-63|0|ruled CAT LOAD 6 CONF|CLAB 2|SELECT * FROM t ORDER BY a; SELECT * FROM t ORDER BY b|must t(b) clustered~|must 1 never 0~budget 6~candidates 5 left over 0~pick 5 t(b) clustered 3 pages~size 3~cost 113000~bound 113000~gap 0~nodes # of 20000~finished~"#;

/// Certificates, prices of sets that clash, and rules that ask for one.
const CLASHES: &str =
    r#"6|check CAT LOAD CONF|CLAB 2|SELECT * FROM t ORDER BY a; SELECT * FROM t ORDER BY b|cophy certificate 2~budget 6~config 2 5~cost 66000~bound 66000~sets 0~tree 1~L 0~end~|not proved: candidates 2 and 5 clash~
6|check CAT LOAD CONF|CLAB 2|SELECT * FROM t ORDER BY a; SELECT * FROM t ORDER BY b|cophy certificate 1~budget 6~config 2 5~cost 66000~bound 66000~sets 0~tree 1~L 0~end~|not proved: candidates 2 and 5 clash~
6|check CAT LOAD CONF|CLAB 2|SELECT * FROM t ORDER BY a; SELECT * FROM t ORDER BY b|cophy certificate 2~budget 5~config 2 5~cost 66000~bound 66000~sets 0~tree 1~L 0~end~|not proved: size 6 over 5~
0|check CAT LOAD CONF|KNAP|-- weight 10~SELECT c FROM t ORDER BY c;~-- weight 11~SELECT d, e FROM v ORDER BY d, e;~|cophy certificate 2~budget 4~config 2~cost 954000~bound 954000~sets 0~tree 3~B 1~L 0~L 0~end~|proved cost 954000 bound 954000 budget 4~
6|check CAT LOAD CONF|KNAP|-- weight 10~SELECT c FROM t ORDER BY c;~-- weight 11~SELECT d, e FROM v ORDER BY d, e;~|cophy certificate 3~budget 4~config 2~cost 954000~bound 954000~sets 0~tree 3~B 1~L 0~L 0~end~|not proved: malformed at line 1~
6|check CAT LOAD CONF|KNAP|-- weight 10~SELECT c FROM t ORDER BY c;~-- weight 11~SELECT d, e FROM v ORDER BY d, e;~|cophy certificate 2~budget 4~config 2~cost 954000~bound 954000~sets 0~tree 3~B 1~X~L 0~end~|not proved: leaf 2 has size 3~
0|whatif CAT LOAD CONF|CLAB 2|SELECT * FROM t ORDER BY a; SELECT * FROM t ORDER BY b|2~5~|size 6~statement 1 weight 1 cost 33000~statement 2 weight 1 cost 33000~total 66000~
0|explain CAT LOAD CONF 2|CLAB 2|SELECT * FROM t ORDER BY a; SELECT * FROM t ORDER BY b|2~5~|statement 2 plan 33000 upkeep 0~candidate 5 on t cost 33000~
5|ruled CAT LOAD 6 CONF|CLAB 2|SELECT * FROM t ORDER BY a; SELECT * FROM t ORDER BY b|must t(a) clustered~must t(b) clustered~|refused: rules clash on 2 and 5~"#;

#[test]
fn clustered_candidates_are_proposed_and_clashes_told(rt: HostRuntime) {
    compare_all(&rt, rt.alloc(), CANDIDATES);
    compare_all(&rt, rt.alloc(), CLASHES);
}

#[test]
fn advice_has_one_clustered_index_a_table(rt: HostRuntime) {
    compare_advice(&rt, rt.alloc(), ADVICE);
}
