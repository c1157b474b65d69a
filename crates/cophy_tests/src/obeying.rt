//! Certificates under an administrator's rules.
//!
//! All are over KNAP. Its candidates are t(c) of 3 pages and v(d, e) of 4; the workload costs 1680000 without both, 1010000 with
//! the first, 954000 with the second, and 284000 with both.
use crate::scene::{play, walk};

/// Lines of a status, rules, a certificate and what `check-ruled` answers. `~` stands for a line feed.
const CHECKED: &str =
    r#"6|never v~|cophy certificate 1~budget 4~config 2~cost 954000~bound 954000~sets 0~tree 3~B 1~L 0~L 0~end~|not proved: candidate 2 breaks a rule~
6|must t(c)~|cophy certificate 1~budget 4~config 2~cost 954000~bound 954000~sets 0~tree 3~B 1~L 0~L 0~end~|not proved: candidate 1 breaks a rule~
6|never v.e~must t(c)~|cophy certificate 1~budget 4~config 2~cost 1~bound 1~sets 0~tree 1~L 0~end~|not proved: candidate 1 breaks a rule~
0||cophy certificate 1~budget 4~config 2~cost 954000~bound 954000~sets 0~tree 3~B 1~L 0~L 0~end~|proved cost 954000 bound 954000 budget 4~
0|must v(d, e)~|cophy certificate 1~budget 4~config 2~cost 954000~bound 954000~sets 0~tree 1~L 0~end~|proved cost 954000 bound 954000 budget 4~
6|must v(d, e)~|cophy certificate 1~budget 4~config 2~cost 954000~bound 954000~sets 0~tree 3~B 2~L 0~L 0~end~|not proved: branch at node 1~
0|never v~|cophy certificate 1~budget 4~config 1~cost 1010000~bound 1010000~sets 0~tree 1~L 0~end~|proved cost 1010000 bound 1010000 budget 4~
6|# nothing~|cophy certificate 1~budget 4~config 1~cost 1010000~bound 1010000~sets 0~tree 1~L 0~end~|not proved: leaf 1 has 284000 below 1010000~
0|must t(c)~must v(d, e)~|cophy certificate 1~budget 7~config 1 2~cost 284000~bound 284000~sets 0~tree 1~L 0~end~|proved cost 284000 bound 284000 budget 7~
6|must t(c)~must v(d, e)~|cophy certificate 1~budget 4~config 1 2~cost 284000~bound 284000~sets 0~tree 1~L 0~end~|not proved: size 7 over 4~
6|never v~|cophy certificate 1~budget 4~config 2~cost 954000~bound 954000~sets 0~tree 3~B 1~L 0~L 0~end~x|not proved: malformed at line 12~
6|never v~||not proved: malformed at line 1~
5|never u~|no certificate|refused: rules no table at line 1~
5|must v(d, e)~never v.e~|no certificate|refused: rules line 2 contradicts on 2~
5|must v(d)~|no certificate|refused: rules no candidate at line 1~
5|never|no certificate|refused: rules line 1~"#;

const CHECK: &str =
    "files KNAP|-- weight 10~SELECT c FROM t ORDER BY c;~-- weight 11~SELECT d, e FROM v ORDER BY d, e;~|$1$
put PROOF|$2$
run $0$|check-ruled CAT LOAD CONF PROOF|$3$";

/// Rules, and how `check-ruled` begins to answer to the certificate of advice under them within 4 pages.
const ADVISED: &str = r#"|proved cost 954000 bound 954000 budget 4~
never v~|proved cost 1010000 bound 1010000 budget 4~
must t(c)~|proved cost 1010000 bound 1010000 budget 4~
must v(d, e)~never t~|proved cost 954000 bound 954000 budget 4~
never t~never v~|proved cost 1680000 bound 1680000 budget 4~"#;

const ADVISE: &str =
    "files KNAP|-- weight 10~SELECT c FROM t ORDER BY c;~-- weight 11~SELECT d, e FROM v ORDER BY d, e;~|$0$
begins 0|ruled CAT LOAD 4 CONF --cert PROOF|
run 0|check-ruled CAT LOAD CONF PROOF|$1$";

/// Rules or a certificate that aren't there are named, the rules first.
const MISSING: &str =
    "files KNAP|-- weight 10~SELECT c FROM t ORDER BY c;~-- weight 11~SELECT d, e FROM v ORDER BY d, e;~|
put PROOF|
run 3|check-ruled CAT LOAD gone PROOF|read fault: gone~
run 3|check-ruled CAT LOAD CONF none|read fault: none~
run 3|check-ruled CAT LOAD gone none|read fault: gone~";

#[test]
fn certificates_are_checked_under_rules(rt: HostRuntime) {
    walk(&rt, rt.alloc(), CHECK, CHECKED);
}

#[test]
fn certificates_of_advice_under_rules_are_accepted(rt: HostRuntime) {
    walk(&rt, rt.alloc(), ADVISE, ADVISED);
}

#[test]
fn missing_files_are_named(rt: HostRuntime) {
    play(&rt, rt.alloc(), MISSING);
}
