//! What workloads fold to: cases as lines.
//!
//! Each case is the text of the folded workload, `|` and the text of the workload; in both `~` stands for a line feed.
use crate::written::written;
use adv_base::Catalogue;
use binder::bind;
use catalogue::read_catalogue;
use sql_reader::{Parsed, read_workload};
use std::alloc::Global;
use std::process::Abort;
use workload_fold::{fold, fold_text};

/// Two tables. Of `t` the columns c, b and d have 1000 values each, and nothing is known of e and s.
const CATALOGUE: &str = r#"version = 1
[[table]]
name = "t"
rows = 1000
pages = 20
column = [{ name = "c", kind = "int", width = 4, distinct = 1000 }, { name = "b", kind = "int", width = 4, distinct = 1000 }, { name = "d", kind = "int", width = 4, distinct = 1000 }, { name = "e", kind = "int", width = 4 }, { name = "s", kind = "text", width = 4 }]
[[table]]
name = "u"
rows = 1000
pages = 20
column = [{ name = "k", kind = "int", width = 4, distinct = 1000 }]"#;

const FOLDED: &str =
    r#"-- weight 3~SELECT c FROM t WHERE c = 1 ;~|SELECT c FROM t WHERE c = 1; SELECT c FROM t WHERE c = 2; SELECT c FROM t WHERE c = 2 ORDER BY c
-- weight 600000~SELECT * FROM t ;~-- weight 600000~SELECT * FROM t ;~|-- weight 600000~SELECT * FROM t;~-- weight 600000~SELECT * FROM t
-- weight 1000000~SELECT * FROM t ;~|-- weight 600000~SELECT * FROM t;~-- weight 400000~SELECT * FROM t
-- weight 1000000~SELECT * FROM t ;~-- weight 1~SELECT * FROM t ;~|-- weight 600000~SELECT * FROM t;~-- weight 400000~SELECT * FROM t; SELECT * FROM t
-- weight 1000000~SELECT * FROM t ;~-- weight 1000000~SELECT * FROM t ;~|-- weight 600000~SELECT * FROM t;~-- weight 600000~SELECT * FROM t;~-- weight 400000~SELECT * FROM t;~-- weight 400000~SELECT * FROM t
-- weight 1000000~SELECT * FROM t ;~-- weight 2~SELECT * FROM t ;~|-- weight 1000000~SELECT * FROM t; SELECT * FROM t; SELECT * FROM t
-- weight 600001~SELECT * FROM t ;~-- weight 600000~SELECT * FROM t ;~|-- weight 600000~SELECT * FROM t;~-- weight 600000~SELECT * FROM t; SELECT * FROM t
-- weight 1~SELECT c FROM t WHERE b > 1 AND c = 1 ;~-- weight 1~SELECT c FROM t WHERE c = 1 AND b > 1 ;~|SELECT c FROM t WHERE b > 1 AND c = 1; SELECT c FROM t WHERE c = 1 AND b > 1
-- weight 1~SELECT c , b , d FROM t WHERE b = c ;~-- weight 1~SELECT c , b , d FROM t WHERE b = d ;~|SELECT c, b, d FROM t WHERE b = c; SELECT c, b, d FROM t WHERE b = d
-- weight 2~UPDATE t SET b = 1 ;~-- weight 1~UPDATE t SET c = 1 ;~|UPDATE t SET b = 1; UPDATE t SET c = 1; UPDATE t SET b = 2
-- weight 2~SELECT e FROM t WHERE e IN ( 1 , 2 , 3 , 4 , 5 ) ;~|SELECT e FROM t WHERE e IN (1, 2, 3, 4, 5); SELECT e FROM t WHERE e IN (1, 2, 3, 4, 5, 6)
-- weight 1~SELECT c FROM t WHERE c IN ( 1 , 2 ) ;~-- weight 1~SELECT c FROM t WHERE c IN ( 1 , 2 , 3 ) ;~|SELECT c FROM t WHERE c IN (1, 2); SELECT c FROM t WHERE c IN (1, 2, 3)
-- weight 1~SELECT c FROM t WHERE c = 1 ;~-- weight 1~SELECT c FROM t WHERE c IN ( 1 ) ;~|SELECT c FROM t WHERE c = 1; SELECT c FROM t WHERE c IN (1)
-- weight 2~SELECT b FROM t WHERE b < 10 ;~-- weight 1~SELECT b FROM t WHERE b > 10 ;~|SELECT b FROM t WHERE b < 10; SELECT b FROM t WHERE b <= 20; SELECT b FROM t WHERE b > 10
-- weight 2~SELECT x . c FROM t x ;~|SELECT x.c FROM t x; SELECT c FROM t
-- weight 1~SELECT c FROM t ;~-- weight 1~SELECT b FROM t ;~-- weight 1~SELECT k FROM u ;~|SELECT c FROM t; SELECT b FROM t; SELECT k FROM u
-- weight 3~INSERT INTO t VALUES ( 1 ) ;~-- weight 1~INSERT INTO t VALUES ( 1 ) , ( 2 ) ;~-- weight 1~INSERT INTO u VALUES ( 1 ) ;~|INSERT INTO t VALUES (1); INSERT INTO t VALUES (1), (2); INSERT INTO t (c) VALUES (2); INSERT INTO u VALUES (1); INSERT INTO t VALUES (3)
-- weight 1~SELECT c FROM t WHERE c = 1 ;~-- weight 1~DELETE FROM t WHERE c = 1 ;~-- weight 1~UPDATE t SET b = 1 WHERE c = 1 ;~|SELECT c FROM t WHERE c = 1; DELETE FROM t WHERE c = 1; UPDATE t SET b = 1 WHERE c = 1
-- weight 1~SELECT c FROM t ;~-- weight 7~SELECT b FROM t ;~|SELECT /* ; */ c -- weight 7~FROM t; SELECT b FROM t
-- weight 1~SELECT c FROM t ;~|;; SELECT c FROM t -- the only one~;;
-- weight 2~SELECT "c" FROM t WHERE s = 'a;b''c' ;~|SELECT "c" FROM t WHERE s = 'a;b''c'; SELECT c FROM t WHERE s = ';'
-- weight 2~SELECT c , b FROM t ORDER BY c , b ;~-- weight 1~SELECT c , b FROM t ORDER BY b , c ;~|SELECT c, b FROM t ORDER BY c, b; SELECT c, b FROM t ORDER BY b, c; SELECT b, c FROM t ORDER BY c, b
-- weight 1~SELECT c FROM t ORDER BY c ;~-- weight 1~SELECT c FROM t ORDER BY c DESC ;~-- weight 1~SELECT c FROM t GROUP BY c ;~|SELECT c FROM t ORDER BY c; SELECT c FROM t ORDER BY c DESC; SELECT c FROM t GROUP BY c
-- weight 1~SELECT count ( * ) FROM t , u WHERE t . c = u . k ;~-- weight 1~SELECT count ( * ) FROM t , u WHERE u . k = t . c ;~|SELECT count(*) FROM t, u WHERE t.c = u.k; SELECT count(*) FROM t, u WHERE u.k = t.c
-- weight 2~SELECT c FROM t WHERE b = - 5 AND d < 1.5 ;~|SELECT c FROM t WHERE b = -5 AND d < 1.5; SELECT c FROM t WHERE b = $1 AND d <= .5
|"#;

/// The folded text of a text.
fn folded(rt: &impl Abort, alloc: Global, cat: &Catalogue, text: &[u8]) -> Vec<u8> {
    assert!(rt; text.len() <= 100_000_000);
    let parsed = read_workload(alloc, text).ok().expect(rt, "a workload");
    folding_of(rt, alloc, cat, &parsed)
}

/// The folded text of what was read.
fn folding_of(rt: &impl Abort, alloc: Global, cat: &Catalogue, parsed: &Parsed<'_>) -> Vec<u8> {
    let statements = bind(alloc, cat, parsed).ok().expect(rt, "statements");
    let groups = fold(alloc, cat, statements.as_slice())
        .ok()
        .expect(rt, "memory");
    let text = fold_text(alloc, parsed, &groups).ok().expect(rt, "memory");
    text.items
}

#[test]
fn what_workloads_fold_to(rt: HostRuntime) {
    let alloc = rt.alloc();
    let cat = read_catalogue(alloc, CATALOGUE.as_bytes())
        .ok()
        .expect(&rt, "a catalogue");
    for case in FOLDED.lines() {
        let (wanted, case_text) = case.split_once('|').expect(&rt, "a bar");
        let text = written(&rt, alloc, case_text);
        let whole = written(&rt, alloc, wanted);
        let found = folded(&rt, alloc, &cat, text.as_slice());
        assert!(rt; found.as_slice() == whole.as_slice(), "in {case_text}");
        let again = folded(&rt, alloc, &cat, found.as_slice());
        assert!(rt;
            again.as_slice() == whole.as_slice(),
            "again, in {case_text}"
        );
    }
}
