//! Certificates that are read, and texts that no certificate has, each with the line at which it breaks, counted by hand.
mod made;
mod pieces;
mod written;

use crate::certificates::pieces::scanned;
use bip_model::Node;
use certificate::{CertFault, read_cert};
use std::alloc::Global;
use std::process::Abort;

/// A certificate of the knapsack of two indexes, in eleven lines.
pub const CERTK: &str =
    "cophy certificate 1\nbudget 4\nconfig 2\ncost 954000\nbound 954000\nsets 0\ntree 3\nB 1\nL 0\nL 0\nend\n";

/// What may stand in place of each byte of that certificate: at `v` a version, at `d` any digit, at `n` any but 0, at `s` a
/// minus too, elsewhere nothing else.
const CLASSES: &str =
    "..................v\n.......d\n.......n\n.....nddddd\n......sddddd\n......\n......\n..n\n...\n...\n...\n";

/// What comes before the lines of two sets.
const TWO_SETS: &str = "cophy certificate 1\nbudget 0\nconfig\ncost 0\nbound -1\nsets 2\n";

/// The line, from 1, in which the byte of an offset stands.
fn line_of(text: &[u8], offset: usize) -> u64 {
    text.iter()
        .take(offset)
        .filter(|byte| **byte == b'\n')
        .count() as u64
        + 1
}

/// A text breaks at a line, read as a whole and in pieces.
fn breaks_at(rt: &impl Abort, alloc: Global, text: &[u8], want: u64, name: &str) {
    let whole = read_cert(alloc, text).err();
    assert!(rt; whole == Some(CertFault::Malformed(want)), "{name}");
    for size in [1, 7, 93] {
        let pieces = scanned(rt, alloc, text, size).err();
        assert!(rt;
            pieces == Some(CertFault::Malformed(want)),
            "{name} by {size}"
        );
    }
}

#[test]
fn a_certificate_is_read(rt: HostRuntime) {
    let cert = read_cert(rt.alloc(), CERTK.as_bytes()).expect(&rt, "a certificate");
    assert!(rt; cert.budget == 4);
    assert!(rt; cert.config.as_slice() == [2u16].as_slice());
    assert!(rt; cert.cost == 954000);
    assert!(rt; cert.bound == 954000);
    assert!(rt; cert.sets.len() == 0);
    let tree = [Node::Branch(1), Node::Bounded(0), Node::Bounded(0)];
    assert!(rt; cert.tree.as_slice() == tree.as_slice());
}

#[test]
fn prefixes_break_at_their_last_line(rt: HostRuntime) {
    let text = CERTK.as_bytes();
    assert!(rt; text.len() == 93);
    for len in 0..93 {
        breaks_at(
            &rt,
            rt.alloc(),
            &text[..len],
            line_of(text, len),
            "a prefix",
        );
    }
}

fn may_stand(class: u8, byte: u8) -> bool {
    match class {
        b'v' => byte == b'1' || byte == b'2',
        b'd' => byte.is_ascii_digit(),
        b'n' => byte != b'0' && byte.is_ascii_digit(),
        b's' => byte == b'-' || (byte != b'0' && byte.is_ascii_digit()),
        _ => false,
    }
}

/// A text with another byte at a place.
fn changed(rt: &impl Abort, alloc: Global, text: &[u8], place: usize, byte: u8) -> Vec<u8> {
    let mut bytes = Vec::from_slice(alloc, text).expect(rt, "memory");
    if place < bytes.len() {
        bytes[place] = byte;
    }
    bytes
}

#[test]
fn every_other_byte_breaks_or_says_something_else(rt: HostRuntime) {
    let alloc = rt.alloc();
    let text = CERTK.as_bytes();
    let classes = CLASSES.as_bytes();
    assert!(rt; text.len() == 93);
    assert!(rt; classes.len() == 93);
    for place in 0..93 {
        for number in 0..256usize {
            let byte = number as u8;
            if byte != text[place] {
                let other = changed(&rt, alloc, text, place, byte);
                let read = read_cert(alloc, other.as_slice()).is_ok();
                assert!(rt; read == may_stand(classes[place], byte), "{place} {byte}");
            }
        }
    }
}

/// What stands in the certificate, what stands there instead, and the line at which none goes on; `~` stands for a line feed. Among
/// others an even count of nodes, and trees of too few and of too many lines.
const CHANGED: &str = "end~|end~~|12
end~|end~x|12
certificate 1|certificate 10|1
certificate 1|certificate 02|1
certificate 1|certificate 1 |1
budget 4|budget 04|2
budget 4|budget  4|2
budget 4|budget 1000000000001|2
config 2|config 2 2|3
config 2|config 2 1|3
config 2|config 0|3
config 2|config 257|3
config 2|config 2 |3
cost 954000|cost 170141183460469231731687303715884105728|4
bound 954000|bound -0|5
bound 954000|bound -170141183460469231731687303715884105728|5
sets 0|sets 17|6
tree 3|tree 4|7
tree 3|tree 1000001|7
tree 3|tree 5|10
tree 3|tree 1|8
B 1~|X~|8
B 1~L 0|B 1~B 2|9
B 1|B 257|8
L 0~end|L 1~end|10";

/// The lines behind those of `TWO_SETS`, and the line at which none goes on. Among others entries behind the last one; of the last
/// nothing breaks, but the text ends.
const SETS: &str = "set 100000000000000000001 0~|7
set 0 1500001~|7
set 0 1~1 1 1 5~set 0 1500000~|9
set 0 2~1000 8 256 1~|8
set 0 3~1000 8 255 1~|8
set 0 2~1 1 2 5~1 1 2 5~|9
set 0 2~1 2 1 5~1 1 256 5~|9
set 0 1~1 1 1 0~|8
set 0 1~1 9 1 1~|8
set 0 1~1001 1 1 1~|8
set 0 1~1 1 1 1000000000000000001~|8
set 0 1~1 1 1 1~1 1 2 1~|9
set 0 0~tree 1~|8
set 0 0~set 0 0~set 0 0~|9
set 0 0~set 7 2~1 1 256 5~1 2 1 5~tree 1~L 3~|12
set 0 0~set 7 2~1 1 256 5~1 2 1 5~tree 1~L 2~|13";

/// A text with its line feeds breaks at a line.
fn breaks(rt: &impl Abort, alloc: Global, text: &str, want: &str, name: &str) {
    let text = text.replace(alloc, "~", "\n").expect(rt, "memory");
    let want = want.parse::<u64>().expect(rt, "a number");
    breaks_at(rt, alloc, text.as_bytes(), want, name);
}

#[test]
fn changed_lines_and_sets_break(rt: HostRuntime) {
    let alloc = rt.alloc();
    let whole = CERTK.replace(alloc, "\n", "~").expect(&rt, "memory");
    for case in CHANGED.lines() {
        let (old, rest) = case.split_once('|').expect(&rt, "a text");
        let (new, want) = rest.split_once('|').expect(&rt, "another");
        let text = whole.replacen(alloc, old, new, 1).expect(&rt, "memory");
        breaks(&rt, alloc, text.as_str(), want, case);
    }
    for case in SETS.lines() {
        let (lines, want) = case.split_once('|').expect(&rt, "lines");
        let text = format!(in alloc; "{TWO_SETS}{lines}").expect(&rt, "memory");
        breaks(&rt, alloc, text.as_str(), want, case);
    }
}
