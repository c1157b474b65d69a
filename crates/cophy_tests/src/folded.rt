//! Folded workloads: what is put, what is told, and that both workloads are advised on alike.
use crate::scene::walk;

/// Lines of a catalogue's name, a workload, what `fold` answers and the folded workload. `~` stands for a line feed.
const FOLDED: &str =
    r#"T|SELECT c FROM t WHERE c = 1; SELECT c FROM t WHERE c = 2; SELECT c FROM t WHERE c = 2 ORDER BY c|statements 3 folded 1 total 90000~|-- weight 3~SELECT c FROM t WHERE c = 1 ;~
T|-- weight 600000~SELECT * FROM t;-- weight 600000~SELECT * FROM t|statements 2 folded 2 total 36000000000~|-- weight 600000~SELECT * FROM t ;~-- weight 600000~SELECT * FROM t ;~
T|-- weight 500000~SELECT * FROM t;-- weight 500000~SELECT  *  FROM  t ; SELECT c FROM t -- behind~|statements 3 folded 2 total 30000030000~|-- weight 1000000~SELECT * FROM t ;~-- weight 1~SELECT c FROM t ;~
EMPTY||statements 0 folded 0 total 0~|"#;

/// Folds. Candidates and advice are the same over both workloads.
const FOLD: &str = "files $0$|$1$|
run 0|fold CAT LOAD OUT|$2$
file OUT|$3$
kept
any candidates CAT LOAD
mark
same candidates CAT OUT
any advise CAT LOAD 3
mark
same advise CAT OUT 3";

/// A call that fails, the room of the output, the status, the output, and what is left in an older file of the folding's name. A
/// read or a put that fails leaves the file old; where the output is full, the file is whole.
const FAILED: &str = "1|2000|3|read fault: CAT~|old
2|2000|3|read fault: CAT~|old
3|2000|3|read fault: LOAD~|old
4|2000|3|read fault: LOAD~|old
5|2000|4||old
100|10|4|statements|-- weight 1~SELECT c FROM t ;~
100|1000|0|statements 1 folded 1 total 30000~|-- weight 1~SELECT c FROM t ;~";

const FAIL: &str = "files T|SELECT c FROM t|
put OUT|old
fail $0$
room $1$
run $2$|fold CAT LOAD OUT|$3$
file OUT|$4$
kept";

#[test]
fn workloads_are_folded(rt: HostRuntime) {
    walk(&rt, rt.alloc(), FOLD, FOLDED);
}

#[test]
fn failed_calls_of_a_folding(rt: HostRuntime) {
    walk(&rt, rt.alloc(), FAIL, FAILED);
}
