//! Certificates, each another with one piece replaced, and what each proves or where it first fails to, worked out by hand.
ghost use Rattle.certificate.specs.Limits.{CertLimits};

use crate::opened::open;
use crate::texts::TWO;
use certificate::{Cert, read_cert};
use gap_checker::{CheckFault, Checked, check};
use std::alloc::Global;
use std::process::Abort;

/// Without an index this costs 10 · 80000 + 11 · 80000 = 1680000, with the first 1010000, with the second 954000, with both,
/// which don't fit 4 pages, 284000.
const LOAD: &str =
    "-- weight 10\nSELECT c FROM t ORDER BY c;\n-- weight 11\nSELECT d, e FROM v ORDER BY d, e;\n";

/// The same with a weight of 9 in place of 10: with the second index 874000.
const LIGHTER: &str =
    "-- weight 9\nSELECT c FROM t ORDER BY c;\n-- weight 11\nSELECT d, e FROM v ORDER BY d, e;\n";

/// An UPDATE of each row, which puts 1000 · 8010 · 2 = 16020000 on the index on c.
const UPDATED: &str = "SELECT c FROM t ORDER BY c; UPDATE t SET c = 1;";

const INSERTED: &str = "SELECT c FROM t ORDER BY c; INSERT INTO t VALUES (1);";

/// The best configuration for 4 pages, by a branch on the first index.
const BEST: &str =
    "cophy certificate 1\nbudget 4\nconfig 2\ncost 954000\nbound 954000\nsets 0\ntree 3\nB 1\nL 0\nL 0\nend\n";

/// One leaf. A page is priced at 2^33 parts of 65536, which is 131072; so the indexes cost 393216 and 524288, and their uses,
/// by weight, pay 393210 and 524282. The plans cost 10 · 52321 + 11 · 61662 = 1201492, and the budget's pages 524288.
const RENTED: &str =
    "cophy certificate 1\nbudget 4\nconfig 2\ncost 954000\nbound 677204\nsets 1\nset 8589934592 2\n1 1 1 39321\n2 1 2 47662\ntree 1\nL 1\nend\n";

/// The same with a branch. With the first index in, the second doesn't fit: 523210 + 880000 + 393216 - 393210 - 524288. With
/// it out: 800000 + 678282 - 524288 = 953994.
const SPLIT: &str =
    "cophy certificate 1\nbudget 4\nconfig 2\ncost 954000\nbound 878928\nsets 1\nset 8589934592 2\n1 1 1 39321\n2 1 2 47662\ntree 3\nB 1\nL 1\nL 1\nend\n";

/// No index, by one leaf: the rent makes the index as dear as the sort, and is less than the upkeep.
const KEPT: &str =
    "cophy certificate 1\nbudget 10\nconfig\ncost 110000\nbound 110000\nsets 1\nset 0 1\n1 1 1 67000\ntree 1\nL 1\nend\n";

/// No index fits.
const NONE_FITS: &str =
    "cophy certificate 1\nbudget 0\nconfig\ncost 80000\nbound 80000\nsets 1\nset 0 1\n1 1 1 5\ntree 1\nL 1\nend\n";

/// The certificate of a text.
fn cert_of(rt: &impl Abort, alloc: Global, text: &str) -> Cert
    ensures { CertLimits result }
{
    match read_cert(alloc, text.as_bytes()) {
        Ok(cert) => cert,
        Err(_) => panic!(rt; "no certificate"),
    }
}

/// What a certificate proves of a workload over a catalogue.
fn judged(
    rt: &impl Abort,
    alloc: Global,
    cat: &str,
    load: &str,
    text: &str,
) -> Result<Checked, CheckFault> {
    let opened = open(rt, alloc, cat.as_bytes(), load.as_bytes());
    let cert = cert_of(rt, alloc, text);
    check(alloc, &opened.setting(), &cert)
}

/// What `BEST` proves with a text in the place of another: in the claims and in the tree. Both indexes don't fit, which only a leaf
/// that says so may use. A text is `end` for itself where nothing is replaced; `~` stands for a line feed here and below.
const CLAIMS: &str = "end|end|Ok(Checked { budget: 4, cost: 954000, bound: 954000 })
certificate 1|certificate 2|Ok(Checked { budget: 4, cost: 954000, bound: 954000 })
bound 954000|bound -7|Ok(Checked { budget: 4, cost: 954000, bound: -7 })
config 2|config 3|Err(BadConfig(3))
config 2|config 1 2 5 9|Err(BadConfig(5))
budget 4|budget 3|Err(OverBudget(4, 3))
config 2|config 1 2|Err(OverBudget(7, 4))
cost 954000|cost 954001|Err(CostDiffers(954001, 954000))
cost 954000|cost 953999|Err(CostDiffers(953999, 954000))
config 2|config|Err(CostDiffers(954000, 1680000))
config 2|config 1|Err(CostDiffers(954000, 1010000))";

const TREES: &str = "B 1|B 3|Err(BadBranch(1))
3~B 1~|5~B 1~B 1~L 0~|Err(BadBranch(2))
3~B 1~L 0~|5~B 1~L 0~B 1~L 0~|Err(BadBranch(3))
bound 954000|bound 954001|Err(LeafBelow(3, 954000, 954001))
bound 954000|bound 1010001|Err(LeafBelow(2, 1010000, 1010001))
3~B 1~L 0~L 0|1~L 0|Err(LeafBelow(1, 284000, 954000))
3~B 1~L 0~L 0|1~X|Err(NotInfeasible(1, 0))
B 1~L 0|B 1~X|Err(NotInfeasible(2, 3))
3~B 1~|5~B 1~B 2~X~|Ok(Checked { budget: 4, cost: 954000, bound: 954000 })
3~B 1~|5~B 1~B 2~L 0~|Err(LeafBelow(3, 284000, 954000))";

/// What `RENTED` proves so. With a rent of 40000 the first plan costs 6790 more, and the first index earns 400000 - 393216 = 6784
/// beyond its price. A price of a page alone takes it for each page of the budget; parts of a thousandth are rounded up.
const SETS: &str = "end|end|Ok(Checked { budget: 4, cost: 954000, bound: 677204 })
bound 677204|bound 677205|Err(LeafBelow(1, 677204, 677205))
L 1|L 0|Err(LeafBelow(1, 284000, 677204))
1~set|2~set 0 0~set|Err(LeafBelow(1, 284000, 677204))
677204~sets 1~set 8589934592 2~1 1 1 39321|677211~sets 1~set 8589934592 2~1 1 1 40000|Err(LeafBelow(1, 677210, 677211))
1 1 1|1 2 1|Err(BadPair(1, 1))
1 1 1|1 1 2|Err(BadPair(1, 1))
2 1 2|2 1 1|Err(BadPair(1, 2))
2 1 2|2 1 3|Err(BadPair(1, 2))
2 1 2|3 1 2|Err(BadPair(1, 2))
1~set 8589934592 2~1 1 1|2~set 0 0~set 8589934592 2~1 1 2|Err(BadPair(2, 1))
677204~sets 1~set 8589934592 2~1 1 1 39321~2 1 2 47662|283996~sets 1~set 65536 0|Ok(Checked { budget: 4, cost: 954000, bound: 283996 })
677204~sets 1~set 8589934592 2~1 1 1 39321~2 1 2 47662|283997~sets 1~set 65536 0|Err(LeafBelow(1, 283996, 283997))
677204~sets 1~set 8589934592 2~1 1 1 39321~2 1 2 47662|284000~sets 1~set 1 0|Ok(Checked { budget: 4, cost: 954000, bound: 284000 })
677204~sets 1~set 8589934592 2~1 1 1 39321~2 1 2 47662|284001~sets 1~set 1 0|Err(LeafBelow(1, 284000, 284001))";

/// What `SPLIT` proves so.
const SIDES: &str = "end|end|Ok(Checked { budget: 4, cost: 954000, bound: 878928 })
bound 878928|bound 878929|Err(LeafBelow(2, 878928, 878929))
B 1~L 1|B 1~L 0|Ok(Checked { budget: 4, cost: 954000, bound: 878928 })
B 1|B 2|Err(LeafBelow(3, 878922, 878928))";

/// What `BEST` proves so of the lighter workload.
const WEIGHTS: &str = "end|end|Err(CostDiffers(954000, 874000))
cost 954000~bound 954000|cost 874000~bound 874001|Err(LeafBelow(3, 874000, 874001))";

/// What `KEPT` proves so of the UPDATE. With the index in: 13000 + 30000 + 16020000.
const UPKEEP: &str = "end|end|Ok(Checked { budget: 10, cost: 110000, bound: 110000 })
67000|66999|Err(LeafBelow(1, 109999, 110000))
L 1|L 0|Err(LeafBelow(1, 43000, 110000))
1~L 1|3~B 1~L 1~L 1|Ok(Checked { budget: 10, cost: 110000, bound: 110000 })
110000~sets 1~set 0 1~1 1 1 67000~tree 1~L 1|16063001~sets 0~tree 3~B 1~L 0~L 0|Err(LeafBelow(2, 16063000, 16063001))";

/// What `NONE_FITS` proves so of the INSERT, which has no slot; no candidate that doesn't fit is available.
const INSERTS: &str = "end|end|Ok(Checked { budget: 0, cost: 80000, bound: 80000 })
1 1 1 5|2 1 1 5|Err(BadPair(1, 1))
budget 0|budget 3|Err(LeafBelow(1, 13005, 80000))";

/// What is answered, as `Debug` writes it.
pub(crate) fn answer(rt: &impl Abort, alloc: Global, cat: &str, load: &str, text: &str) -> String {
    let told = judged(rt, alloc, cat, load, text);
    format!(in alloc; "{told:?}").expect(rt, "memory")
}

/// Walks a table of what a certificate proves of a workload.
fn walk(rt: &impl Abort, alloc: Global, load: &str, text: &str, table: &str) {
    for case in table.lines() {
        let (old, rest) = case.split_once('|').expect(rt, "a text");
        let (new, wanted) = rest.split_once('|').expect(rt, "another");
        let old = old.replace(alloc, "~", "\n").expect(rt, "memory");
        let new = new.replace(alloc, "~", "\n").expect(rt, "memory");
        let text = text
            .replacen(alloc, old.as_str(), new.as_str(), 1)
            .expect(rt, "memory");
        let told = answer(rt, alloc, TWO, load, text.as_str());
        assert!(rt; told.as_str() == wanted, "{case}");
    }
}

#[test]
fn claims_and_trees(rt: HostRuntime) {
    walk(&rt, rt.alloc(), LOAD, BEST, CLAIMS);
    walk(&rt, rt.alloc(), LOAD, BEST, TREES);
    walk(&rt, rt.alloc(), LIGHTER, BEST, WEIGHTS);
}

#[test]
fn sets_and_their_sides(rt: HostRuntime) {
    walk(&rt, rt.alloc(), LOAD, RENTED, SETS);
    walk(&rt, rt.alloc(), LOAD, SPLIT, SIDES);
}

#[test]
fn upkeep_and_inserts(rt: HostRuntime) {
    walk(&rt, rt.alloc(), UPDATED, KEPT, UPKEEP);
    walk(&rt, rt.alloc(), INSERTED, NONE_FITS, INSERTS);
}
