//! Certificates of both versions where two candidates are clustered on one table, worked out by hand.

use crate::checks::answer;
use std::alloc::Global;
use std::process::Abort;

/// One table. Sorted, a scan costs 80000. Candidates 1 and 2 are the plain and the clustered index on a, of 3 pages each, 3 is
/// that on a and b, of 4 pages, and 4 and 5 are the plain and the clustered one on b.
const CLUSTERED: &str = r#"version = 2
[[table]]
name = "t"
rows = 1000
pages = 20
may_cluster = true
column = [{ name = "a", kind = "int", width = 4, distinct = 1000 }, { name = "b", kind = "int", width = 4, distinct = 1000 }]"#;

/// A clustered index on the order costs 33000. The third costs 14000, and sorted 64000; so both cost 78000 with it. Candidates
/// 2 and 5 would give 66000 in 6 pages, and clash.
const BOTH_ORDERS: &str = "SELECT * FROM t ORDER BY a; SELECT * FROM t ORDER BY b;";

/// A version, the candidates of a configuration, a bound, a tree, in which `~` stands for a line feed, and what a certificate of a
/// budget of 6 pages and a cost of 78000 proves. Version 1 tells by pages alone what is overfull, version 2 by a clash too.
///
/// A branch on candidate 2, and on each side one on 5: both in clash, one alone costs 113000, and none 78000. A branch on 2 and one
/// on 3: together they have 7 pages; with 2 in and 3 out, 5 is open, which gives 66000; with 2 out, 3 and 5 give 47000.
///
/// A clash is judged in both versions, after the pages and before the cost.
const CASES: &str =
    "2|3|78000|7~B 2~B 5~X~L 0~B 5~L 0~L 0|Ok(Checked { budget: 6, cost: 78000, bound: 78000 })
1|3|78000|7~B 2~B 5~X~L 0~B 5~L 0~L 0|Err(NotInfeasible(3, 6))
1|3|47000|5~B 2~B 3~X~L 0~L 0|Ok(Checked { budget: 6, cost: 78000, bound: 47000 })
2|3|47000|5~B 2~B 3~X~L 0~L 0|Ok(Checked { budget: 6, cost: 78000, bound: 47000 })
1|3|47000|3~B 2~X~L 0|Err(NotInfeasible(2, 3))
2|3|47000|3~B 2~X~L 0|Err(NotInfeasible(2, 3))
2|3|78000|7~B 2~B 5~L 0~L 0~B 5~L 0~L 0|Err(LeafBelow(3, 66000, 78000))
1|2 5|47000|5~B 2~B 3~X~L 0~L 0|Err(Clash(2, 5))
1|2 3 5|47000|5~B 2~B 3~X~L 0~L 0|Err(OverBudget(10, 6))
1|2 4|47000|5~B 2~B 3~X~L 0~L 0|Err(CostDiffers(78000, 113000))
1|2 5 6|47000|5~B 2~B 3~X~L 0~L 0|Err(BadConfig(6))
2|2 5|47000|5~B 2~B 3~X~L 0~L 0|Err(Clash(2, 5))
2|2 3 5|47000|5~B 2~B 3~X~L 0~L 0|Err(OverBudget(10, 6))
2|2 4|47000|5~B 2~B 3~X~L 0~L 0|Err(CostDiffers(78000, 113000))
2|2 5 6|47000|5~B 2~B 3~X~L 0~L 0|Err(BadConfig(6))";

/// Checks a line.
fn compare(rt: &impl Abort, alloc: Global, case: &str) {
    let (version, rest) = case.split_once('|').expect(rt, "a version");
    let (config, rest) = rest.split_once('|').expect(rt, "candidates");
    let (bound, rest) = rest.split_once('|').expect(rt, "a bound");
    let (tree, wanted) = rest.split_once('|').expect(rt, "a tree");
    let text = format!(in alloc;
        "cophy certificate {version}~budget 6~config {config}~cost 78000~bound {bound}~sets 0~tree {tree}~end~"
    ).expect(rt, "memory");
    let text = text.replace(alloc, "~", "\n").expect(rt, "memory");
    let told = answer(rt, alloc, CLUSTERED, BOTH_ORDERS, text.as_str());
    assert!(rt; told.as_str() == wanted, "{case}");
}

#[test]
fn overfull_leaves_and_sets_that_clash(rt: HostRuntime) {
    for case in CASES.lines() {
        compare(&rt, rt.alloc(), case);
    }
}
