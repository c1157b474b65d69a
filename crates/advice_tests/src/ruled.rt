//! What rules make of candidates, and what obeys them: cases as lines.
//!
//! Each case is a text of rules, in which `/` stands for a line feed, `|`, and what is answered: a letter for each
//! candidate (`i` in, `o` out, `-` free), or the fault. They were written from what rules mean, by hand.
use crate::opened::{Opened, open};
use crate::texts::TWO;
use adv_base::Config;
use bip_model::{Fix, State};
use dba_rules::{RuleFault, broken, in_count, out_count, read_rules, settle};
use std::alloc::{AllocError, Global};
use std::process::Abort;

/// The candidates are t(b), t(c), t(b, c), t(b, c, a) and w(k).
const CATALOGUE: &str = r#"version = 1
[[table]]
name = "t"
rows = 1000
pages = 20
column = [{ name = "a", kind = "int", width = 4 }, { name = "b", kind = "int", width = 4 }, { name = "c", kind = "int", width = 4 }]
[[table]]
name = "W"
rows = 1000
pages = 20
column = [{ name = "k", kind = "int", width = 4 }]"#;

const LOAD: &str = "SELECT a FROM t WHERE b = 1 AND c > 2; SELECT k FROM w ORDER BY k";

const CASES: &str = r##"|-----
/|-----
#/|-----
# must t(b)/never zz|BadLine(2)
must t(b)/|i----
must T(B)/|i----
must t(b, c)/|--i--
must t(c, b)/|NotCandidate(1)
must t(b, c, a)/must w(k)/|---ii
must t(b)/must t(b)/|i----
must t(b, b)/|NotCandidate(1)
must t(a)/|NotCandidate(1)
must t(b) clustered/|NotCandidate(1)
never t(b) clustered/|-----
never t(b)/|o----
never t/|oooo-
never w/|----o
never t.c/|-ooo-
never T.C/|-ooo-
never t.a/|---o-
never t(a)/|-----
never t(b, b)/|-----
never w(k)/never w/never w.k/|----o
must t(b)/never t.c/|iooo-
must t(b)/never t.b/|Contrary(2, 1)
must t(b, c)/must t(c)/never t.c/|Contrary(3, 2)
never t/must t(b, c)/|Contrary(2, 3)
must t(b)/never t.b/must zz(b)/|Contrary(2, 1)
must zz(b)/|NoTable(1)
must zz(yy)/|NoTable(1)
must t(yy)/|NoColumn(1)
must t(b, k)/|NoColumn(1)
never zz/|NoTable(1)
never zz.b/|NoTable(1)
never t.k/|NoColumn(1)
never t(a, k)/|NoColumn(1)
/# two//never zz/|NoTable(4)
never t(a, b, c, a, b, c, a, b)/|-----
never t(a, b, c, a, b, c, a, b, c)/|BadLine(1)
never xxxxxxxxxxxxxxxxxxxxxxxxxxxxxxxxxxxxxxxxxxxxxxxxxxxxxxxxxxxxxxxx/|NoTable(1)
never xxxxxxxxxxxxxxxxxxxxxxxxxxxxxxxxxxxxxxxxxxxxxxxxxxxxxxxxxxxxxxxxx/|BadLine(1)
never _/|NoTable(1)
must t/|BadLine(1)
must t.b/|BadLine(1)
must/|BadLine(1)
never/|BadLine(1)
never /|BadLine(1)
 never t/|BadLine(1)
never t /|BadLine(1)
never  t/|BadLine(1)
Never t/|BadLine(1)
never t(b,c)/|BadLine(1)
never t(b, c/|BadLine(1)
never t()/|BadLine(1)
never t(b, )/|BadLine(1)
never t (b)/|BadLine(1)
never t(b)  clustered/|BadLine(1)
never t(b) clustered /|BadLine(1)
never t(b)clustered/|BadLine(1)
never t clustered/|BadLine(1)
never 1t/|BadLine(1)
never t.1b/|BadLine(1)
never t-u/|BadLine(1)
never t.b.c/|BadLine(1)
never "t"/|BadLine(1)
 /|BadLine(1)
never t|BadLine(1)
never t/never w|BadLine(2)
#|BadLine(1)"##;

/// A text of rules with its line feeds.
fn with_lines(alloc: Global, case: &[u8]) -> Result<Vec<u8>, AllocError> {
    let mut text = Vec::new(alloc);
    for byte in case {
        text.push(if *byte == b'/' { b'\n' } else { *byte })?;
    }
    Ok(text)
}

/// What rules make of a setting.
fn ruled(rt: &impl Abort, alloc: Global, opened: &Opened, case: &str) -> Result<Fix, RuleFault> {
    let text = with_lines(alloc, case.as_bytes()).expect(rt, "memory");
    assert!(rt; text.len() < 4294967296);
    read_rules(alloc, &opened.setting(), text.as_slice())
}

/// A letter for each of the first candidates.
fn letters(alloc: Global, root: &Fix, count: u16) -> Result<String, AllocError> {
    let mut text = String::new(alloc);
    for number in 1..=count {
        text.push(match root.state_of(number) {
            State::In => 'i',
            State::Out => 'o',
            State::Free => '-',
        })?;
    }
    Ok(text)
}

#[test]
fn rules_by_hand(rt: HostRuntime) {
    let alloc = rt.alloc();
    let opened = open(&rt, alloc, CATALOGUE.as_bytes(), LOAD.as_bytes());
    assert!(rt; opened.shapes.len() == 5);
    for case in CASES.lines() {
        let (text, wanted) = case.split_once('|').expect(&rt, "a bar");
        let answer = match ruled(&rt, alloc, &opened, text) {
            Ok(root) => letters(alloc, &root, 5),
            Err(fault) => format!(in alloc; "{fault:?}"),
        };
        let answer = answer.expect(&rt, "memory");
        assert!(rt; answer.as_str() == wanted, "in {text}");
    }
}

/// The candidates are t(c), of 3 pages, and v(d, e), of 4.
fn two(rt: &impl Abort, alloc: Global) -> Opened {
    open(
        rt,
        alloc,
        TWO.as_bytes(),
        b"SELECT * FROM t ORDER BY c; SELECT * FROM v ORDER BY d, e",
    )
}

/// Rules, how many candidates are in and out, a budget, and whether what has to be fits it.
const SETTLED: &str = "must t(c)/must v(d, e)/|2 0|7|Ok(())
must t(c)/must v(d, e)/|2 0|6|Err(TooLarge(7, 6))
must t(c)/must v(d, e)/|2 0|4|Err(TooLarge(7, 4))
never v/|0 1|0|Ok(())";

/// Settles a line.
fn compare_settled(rt: &impl Abort, alloc: Global, opened: &Opened, case: &str) {
    let (rules, rest) = case.split_once('|').expect(rt, "rules");
    let (counts, rest) = rest.split_once('|').expect(rt, "counts");
    let (budget, wanted) = rest.split_once('|').expect(rt, "a budget");
    let budget = budget.parse::<u64>().expect(rt, "a number");
    let root = ruled(rt, alloc, opened, rules).expect(rt, "rules");
    let told = format!(in alloc;
        "{} {}|{:?}",
        in_count(&root),
        out_count(&root),
        settle(&opened.setting(), &root, budget)
    )
    .expect(rt, "memory");
    let wanted = format!(in alloc; "{counts}|{wanted}").expect(rt, "memory");
    assert!(rt; told.as_str() == wanted.as_str(), "{case}");
}

#[test]
fn what_has_to_be_fits_or_is_told(rt: HostRuntime) {
    let opened = two(&rt, rt.alloc());
    for case in SETTLED.lines() {
        compare_settled(&rt, rt.alloc(), &opened, case);
    }
}

#[test]
fn what_obeys_and_what_does_not(rt: HostRuntime) {
    let alloc = rt.alloc();
    let opened = two(&rt, alloc);
    let root = ruled(&rt, alloc, &opened, "must t(c)/never v/").expect(&rt, "rules");
    for (first, second, wanted) in [
        (false, false, Some(1)),
        (false, true, Some(1)),
        (true, true, Some(2)),
        (true, false, None),
    ] {
        let mut config = Config::none();
        config.on[0] = first;
        config.on[1] = second;
        assert!(rt; broken(&root, &config) == wanted);
    }
}
