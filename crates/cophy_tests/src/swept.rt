//! Sweeps over budgets: what is told at each point, the certificates, and what a failed put leaves.
//!
//! KNAP has two statements, each with an index of its own, of 3 and 4 pages.
use crate::scene::play;

/// Nothing is told to be best, the first, the second and both, but for how many nodes each search made; and the certificate of
/// each point is accepted.
const SWEPT: &str =
    "files KNAP|-- weight 10~SELECT c FROM t ORDER BY c;~-- weight 11~SELECT d, e FROM v ORDER BY d, e;~|
nodes 0|sweep CAT LOAD 0 3 4|point 1 budget 0 size 0 cost 1680000 bound 1680000 best 1680000 low 1680000 nodes #~point 2 budget 3 size 3 cost 1010000 bound 1010000 best 1010000 low 1010000 nodes #~point 3 budget 6 size 4 cost 954000 bound 954000 best 954000 low 954000 nodes #~point 4 budget 9 size 7 cost 284000 bound 284000 best 284000 low 284000 nodes #~finished~
none k1
kept
nodes 0|sweep CAT LOAD 0 3 4 --nodes 7 --cert k|point 1 budget 0 size 0 cost 1680000 bound 1680000 best 1680000 low 1680000 nodes #~point 2 budget 3 size 3 cost 1010000 bound 1010000 best 1010000 low 1010000 nodes #~point 3 budget 6 size 4 cost 954000 bound 954000 best 954000 low 954000 nodes #~point 4 budget 9 size 7 cost 284000 bound 284000 best 284000 low 284000 nodes #~finished~
run 0|check CAT LOAD k1|proved cost 1680000 bound 1680000 budget 0~
run 0|check CAT LOAD k2|proved cost 1010000 bound 1010000 budget 3~
run 0|check CAT LOAD k3|proved cost 954000 bound 954000 budget 6~
run 0|check CAT LOAD k4|proved cost 284000 bound 284000 budget 9~
none k5
kept";

/// On a table that may be clustered candidates 2 and 5 cost 99000 in 6 pages, and clash: in 7 pages the second takes a statement,
/// and a plain index that covers the other.
///
/// One node can't decide between two statements where one fits. Names are the prefix and a number from 1, in decimal. What
/// `advise` refuses is refused, and no certificate is put.
const OTHERS: &str =
    "files CLAB 2|-- weight 2~SELECT * FROM t ORDER BY a;~SELECT * FROM t ORDER BY b~|
nodes 0|sweep CAT LOAD 3 4 2|point 1 budget 3 size 3 cost 146000 bound 146000 best 146000 low 146000 nodes #~point 2 budget 7 size 7 cost 61000 bound 61000 best 61000 low 61000 nodes #~finished~
files KNAP|-- weight 10~SELECT c FROM t ORDER BY c;~-- weight 11~SELECT d, e FROM v ORDER BY d, e;~|
ends 1|sweep CAT LOAD 0 2 4 --nodes 1|nodes 1~stopped~
begins 0|sweep CAT LOAD 0 1 11 --cert k|
some k1
some k9
some k10
some k11
none k
none k0
none k01
none k12
files KNAP|SELECT c FROM|
run 5|sweep CAT LOAD 0 3 4 --cert k|refused: syntax at 14~
none k1
kept";

/// Both files are read by two calls each; then the certificates are put in turn. Where one put fails those before it are whole,
/// and later ones are untouched. Where the output is full the certificates are there, and a front of the text.
const FAILED: &str =
    "files KNAP|-- weight 10~SELECT c FROM t ORDER BY c;~-- weight 11~SELECT d, e FROM v ORDER BY d, e;~|
nodes 0|sweep CAT LOAD 0 3 4 --cert k|point 1 budget 0 size 0 cost 1680000 bound 1680000 best 1680000 low 1680000 nodes #~point 2 budget 3 size 3 cost 1010000 bound 1010000 best 1010000 low 1010000 nodes #~point 3 budget 6 size 4 cost 954000 bound 954000 best 954000 low 954000 nodes #~point 4 budget 9 size 7 cost 284000 bound 284000 best 284000 low 284000 nodes #~finished~
aside
files KNAP|-- weight 10~SELECT c FROM t ORDER BY c;~-- weight 11~SELECT d, e FROM v ORDER BY d, e;~|
put k1|old
put k2|old
put k3|old
put k4|old
fail 5
run 4|sweep CAT LOAD 0 3 4 --cert k|
kept
file k1|old
file k2|old
file k3|old
file k4|old
files KNAP|-- weight 10~SELECT c FROM t ORDER BY c;~-- weight 11~SELECT d, e FROM v ORDER BY d, e;~|
put k1|old
put k2|old
put k3|old
put k4|old
fail 6
run 4|sweep CAT LOAD 0 3 4 --cert k|
kept
like k1|k1
file k2|old
file k3|old
file k4|old
files KNAP|-- weight 10~SELECT c FROM t ORDER BY c;~-- weight 11~SELECT d, e FROM v ORDER BY d, e;~|
put k1|old
put k2|old
put k3|old
put k4|old
fail 8
run 4|sweep CAT LOAD 0 3 4 --cert k|
kept
like k1|k1
like k2|k2
like k3|k3
file k4|old
files KNAP|-- weight 10~SELECT c FROM t ORDER BY c;~-- weight 11~SELECT d, e FROM v ORDER BY d, e;~|
room 20
run 4|sweep CAT LOAD 0 3 4 --cert k|point 1 budget 0 siz
like k1|k1
like k2|k2
like k3|k3
like k4|k4";

#[test]
fn a_sweep_is_told_point_by_point(rt: HostRuntime) {
    play(&rt, rt.alloc(), SWEPT);
    play(&rt, rt.alloc(), OTHERS);
}

#[test]
fn a_failed_put_leaves_the_front_whole(rt: HostRuntime) {
    play(&rt, rt.alloc(), FAILED);
}
