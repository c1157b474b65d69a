//! Certificates that `advise` puts, and what is left of the files where that or the output fails.
use crate::scene::{play, walk};

/// Lines of the words, the name of the catalogue in CAT, the workload in LOAD, and how `check` begins to answer to the
/// certificate. `~` stands for a line feed.
const CERTIFIED: &str =
    r#"advise CAT LOAD 4|KNAP|-- weight 10~SELECT c FROM t ORDER BY c;~-- weight 11~SELECT d, e FROM v ORDER BY d, e;~|proved cost 954000 bound 954000 budget 4~
advise CAT LOAD 4 --nodes 7|KNAP|-- weight 10~SELECT c FROM t ORDER BY c;~-- weight 11~SELECT d, e FROM v ORDER BY d, e;~|proved cost 954000 bound 954000 budget 4~
advise CAT LOAD 4 --nodes 1|KNAP|-- weight 10~SELECT c FROM t ORDER BY c;~-- weight 11~SELECT d, e FROM v ORDER BY d, e;~|proved cost 
advise CAT LOAD 0|KNAP|-- weight 10~SELECT c FROM t ORDER BY c;~-- weight 11~SELECT d, e FROM v ORDER BY d, e;~|proved cost 1680000 bound 1680000 budget 0~
advise CAT LOAD 3|T|SELECT p.c FROM t p, t q WHERE p.c = q.c|proved cost 46000 bound 46000 budget 3~
advise CAT LOAD 10|T|SELECT c FROM t ORDER BY c; UPDATE t SET c = 1|proved cost 110000 bound 110000 budget 10~
advise CAT LOAD 10|EMPTY||proved cost 0 bound 0 budget 10~
advise CAT LOAD 3|CLC 2|SELECT * FROM t ORDER BY c|proved cost 33000 bound 33000 budget 3~
advise CAT LOAD 6|CLAB 2|SELECT * FROM t ORDER BY a; SELECT * FROM t ORDER BY b|proved cost 78000 bound 78000 budget 6~
advise CAT LOAD 3000|ORDERS|-- weight 50~SELECT o.o_id, o.o_date, sum(l.l_price) AS revenue~FROM customer c JOIN orders o ON c.c_id = o.o_cust JOIN lineitem l ON l.l_order = o.o_id~WHERE c.c_segment = 'BUILDING' AND o.o_date BETWEEN DATE '1995-01-01' AND DATE '1995-03-31'~GROUP BY o.o_id, o.o_date ORDER BY revenue DESC, o.o_date LIMIT 10;~|proved cost 583783100 bound 583783100 budget 3000~"#;

/// Advises without a certificate and with one: the output and the status are the same, no other file changes, and `check`
/// accepts the certificate.
const CERTIFY: &str = "files $1$|$2$|
any $0$
none PROOF
aside
same $0$ --cert PROOF
kept
begins 0|check CAT LOAD PROOF|$3$";

/// How the run ends in which each call of the shelf fails in turn: two reads of either file, and the put. Where the put fails,
/// nothing is written.
const FAILED: &str = "1|3|read fault: CAT~
2|3|read fault: CAT~
3|3|read fault: LOAD~
4|3|read fault: LOAD~
5|4|";

const FAIL: &str =
    "files KNAP|-- weight 10~SELECT c FROM t ORDER BY c;~-- weight 11~SELECT d, e FROM v ORDER BY d, e;~|
put PROOF|old
fail $0$
run $1$|advise CAT LOAD 4 --cert PROOF|$2$
kept
file PROOF|old";

/// Where all calls succeed the certificate is there; where the output has less room than its text needs too, since it is put
/// before. Where something is refused, no certificate is put. The certificate may take the place of a file that was read.
const LEFT: &str =
    "files KNAP|-- weight 10~SELECT c FROM t ORDER BY c;~-- weight 11~SELECT d, e FROM v ORDER BY d, e;~|
put PROOF|old
begins 0|advise CAT LOAD 4 --cert PROOF|
aside
put PROOF|old
fail 6
same advise CAT LOAD 4 --cert PROOF
kept
like PROOF|PROOF
files KNAP|-- weight 10~SELECT c FROM t ORDER BY c;~-- weight 11~SELECT d, e FROM v ORDER BY d, e;~|
fronts advise CAT LOAD 4 --cert PROOF|PROOF
files KNAP|-- weight 10~SELECT c FROM t ORDER BY c;~-- weight 11~SELECT d, e FROM v ORDER BY d, e;~|
put PROOF|old
same advise CAT LOAD 4 --cert CAT
like CAT|PROOF
file PROOF|old
run 5|check CAT LOAD CAT|refused: not toml~
files KNAP|-- weight 10~SELECT c FROM t ORDER BY c;~-- weight 11~SELECT d, e FROM v ORDER BY d, e;~|
put PROOF|old
same advise CAT LOAD 4 --cert LOAD
like LOAD|PROOF
file PROOF|old
run 5|check CAT LOAD LOAD|refused: syntax at 1~
files KNAP|SELECT * FROM|
put PROOF|old
run 5|advise CAT LOAD 4 --cert PROOF|refused: syntax at 14~
file PROOF|old
kept
aside
fronts advise CAT LOAD 4 --cert PROOF|PROOF";

#[test]
fn certificates_are_put_and_accepted(rt: HostRuntime) {
    walk(&rt, rt.alloc(), CERTIFY, CERTIFIED);
}

#[test]
fn what_fails_leaves_a_whole_certificate_or_the_old_one(rt: HostRuntime) {
    walk(&rt, rt.alloc(), FAIL, FAILED);
    play(&rt, rt.alloc(), LEFT);
}
