//! Certificates whose tree is read from a file while it is judged: they have the answer of the certificate, from each root;
//! and files that change after their head was read.
ghost use Rattle.gap_checker.specs.At.{IsSomeHead};

use crate::opened::open;
use crate::texts::TWO;
use adv_base::limits::MOST_CERTIFICATE_BYTES;
use adv_shelf::{MemShelf, Shelf, feed_all};
use bip_model::Fix;
use certificate::{Head, Scanner};
use gap_checker::check_at;
use std::alloc::Global;
use std::process::Abort;

/// As in `checks`.
const LOAD: &str =
    "-- weight 10\nSELECT c FROM t ORDER BY c;\n-- weight 11\nSELECT d, e FROM v ORDER BY d, e;\n";

/// What stands before the nodes: seven lines, behind each of which stands `~`.
const FRONT: &str = "cophy certificate 1~budget 4~config 2~cost 954000~bound 954000~sets 0~tree 3~";

/// The root from which a tree is judged: no candidate, or the first, is in; a text of the front and the one in its place; what the
/// file's tree is when the file is scanned, and when it is read again; the number of the read that fails then; and what is told.
/// `~` stands for a line feed, `^` for a carriage return. The nodes' lines are 8 to 10, and `end` is line 11.
///
/// With the first candidate in, the second doesn't fit: the workload costs 1010000 there. A file that changes is malformed at the
/// line that no tree goes on with; a fault before that line comes first, and one behind it doesn't. One read gives the tree, and one
/// more the end of the file.
const CASES: &str =
    "free|cophy|cophy|B 1~L 0~L 0~end~|B 1~L 0~L 0~end~|100|Ok(Checked { budget: 4, cost: 954000, bound: 954000 })
free|tree 3|tree 1|L 0~end~|L 0~end~|100|Err(Fault(LeafBelow(1, 284000, 954000)))
first|tree 3|tree 1|L 0~end~|L 0~end~|100|Ok(Checked { budget: 4, cost: 954000, bound: 954000 })
first|bound 954000~sets 0~tree 3|bound 1010001~sets 0~tree 1|L 0~end~|L 0~end~|100|Err(Fault(LeafBelow(1, 1010000, 1010001)))
first|cophy|cophy|B 1~L 0~L 0~end~|B 1~L 0~L 0~end~|100|Err(Fault(BadBranch(1)))
free|cophy|cophy|B 1~L 0~L 0~end~||100|Err(Malformed(8))
free|cophy|cophy|B 1~L 0~L 0~end~|B 1|100|Err(Malformed(8))
free|cophy|cophy|B 1~L 0~L 0~end~|B 1~L 0~L 0~end|100|Err(Malformed(11))
free|cophy|cophy|B 1~L 0~L 0~end~|B 1~L 0~L 0~end~~|100|Err(Malformed(12))
free|cophy|cophy|B 1~L 0~L 0~end~|B 1~L 0~L 0~end~end~|100|Err(Malformed(12))
free|cophy|cophy|B 1~L 0~L 0~end~|B 1~L 0~L 0~L 0~|100|Err(Malformed(11))
free|cophy|cophy|B 1~L 0~L 0~end~|B 1~L 0~end~|100|Err(Malformed(10))
free|cophy|cophy|B 1~L 0~L 0~end~|B 1~L 0~B 2~L 0~L 0~end~|100|Err(Malformed(10))
free|cophy|cophy|B 1~L 0~L 0~end~|L 0~L 0~L 0~end~|100|Err(Malformed(8))
free|cophy|cophy|B 1~L 0~L 0~end~|B 0~L 0~L 0~end~|100|Err(Malformed(8))
free|cophy|cophy|B 1~L 0~L 0~end~|B 1~L 1~L 0~end~|100|Err(Malformed(9))
free|cophy|cophy|B 1~L 0~L 0~end~|B 1~L 00~L 0~end~|100|Err(Malformed(9))
free|cophy|cophy|B 1~L 0~L 0~end~|B 1~L 000000|100|Err(Malformed(9))
free|cophy|cophy|B 1~L 0~L 0~end~|B 1^~L 0~L 0~end~|100|Err(Malformed(8))
free|cophy|cophy|B 1~L 0~L 0~end~|X~L 0~|100|Err(Malformed(8))
free|cophy|cophy|B 1~L 0~L 0~end~|B 3~L 0~no~|100|Err(Fault(BadBranch(1)))
free|cophy|cophy|B 1~L 0~L 0~end~|B 1~L 0~L 0~end~|1|Err(Failed)
free|cophy|cophy|B 1~L 0~L 0~end~|B 1~L 0~L 0~end~|2|Err(Failed)
free|cophy|cophy|B 1~L 0~L 0~end~|B 1~L 0~L 0~end~|3|Ok(Checked { budget: 4, cost: 954000, bound: 954000 })
free|config 2|config 3|B 1~L 0~L 0~end~|B 1~L 0~L 0~end~|1|Err(Fault(BadConfig(3)))";

/// Puts a text as the file of a certificate.
fn put(rt: &impl Abort, alloc: Global, shelf: &mut MemShelf, front: &str, tree: &str) {
    let text = format!(in alloc; "{front}{tree}").expect(rt, "memory");
    let text = spread(rt, alloc, text.as_str());
    shelf.put("cert", text.as_bytes()).expect(rt, "memory");
}

/// The head of the certificate in that file.
fn head_of(rt: &impl Abort, alloc: Global, shelf: &mut MemShelf) -> Head
    ensures { IsSomeHead result }
{
    let mut scanner = Scanner::new(alloc).expect(rt, "memory");
    match feed_all(shelf, "cert", MOST_CERTIFICATE_BYTES, &mut scanner) {
        Ok(_) => {}
        Err(_) => panic!(rt; "no file"),
    }
    match scanner.end() {
        Ok(head) => head,
        Err(_) => panic!(rt; "no certificate"),
    }
}

/// A text with its line feeds and carriage returns.
fn spread(rt: &impl Abort, alloc: Global, text: &str) -> String {
    let text = text.replace(alloc, "~", "\n").expect(rt, "memory");
    text.replace(alloc, "^", "\r").expect(rt, "memory")
}

/// What is told of a file that is scanned, then has another tree, and then fails at a read.
fn told(
    rt: &impl Abort,
    alloc: Global,
    root: &Fix,
    front: &str,
    (first, later): (&str, &str),
    failing: u64,
) -> String {
    let opened = open(rt, alloc, TWO.as_bytes(), LOAD.as_bytes());
    let mut shelf = MemShelf::new(alloc).expect(rt, "memory");
    put(rt, alloc, &mut shelf, front, first);
    let head = head_of(rt, alloc, &mut shelf);
    put(rt, alloc, &mut shelf, front, later);
    shelf.fail_at(failing).expect(rt, "memory");
    let answer = check_at(alloc, &opened.setting(), root, &mut shelf, "cert", &head);
    format!(in alloc; "{answer:?}").expect(rt, "memory")
}

/// Checks a line.
fn compare(rt: &impl Abort, alloc: Global, case: &str) {
    let (root, rest) = case.split_once('|').expect(rt, "a root");
    let (old, rest) = rest.split_once('|').expect(rt, "a text");
    let (new, rest) = rest.split_once('|').expect(rt, "another");
    let (first, rest) = rest.split_once('|').expect(rt, "a tree");
    let (later, rest) = rest.split_once('|').expect(rt, "another");
    let (failing, wanted) = rest.split_once('|').expect(rt, "a read");
    let failing = failing.parse::<u64>().expect(rt, "a number");
    let free = Fix::free();
    let root = if root == "first" {
        free.in_side(1)
    } else {
        free
    };
    let front = FRONT.replacen(alloc, old, new, 1).expect(rt, "memory");
    let told = told(rt, alloc, &root, front.as_str(), (first, later), failing);
    assert!(rt; told.as_str() == wanted, "{case}");
}

#[test]
fn trees_are_judged_from_their_root_as_they_are_read(rt: HostRuntime) {
    for case in CASES.lines() {
        compare(&rt, rt.alloc(), case);
    }
}
