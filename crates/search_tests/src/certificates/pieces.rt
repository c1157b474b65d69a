//! Certificates that are read in pieces.

use crate::certificates::CERTK;
use adv_shelf::Taker;
use certificate::{CertFault, Head, Scanner};
use std::alloc::Global;
use std::process::Abort;

/// What a scanner answers of a text that is handed on in pieces of so many bytes.
pub fn scanned(
    rt: &impl Abort,
    alloc: Global,
    text: &[u8],
    size: usize,
) -> Result<Head, CertFault> {
    let mut scanner = Scanner::new(alloc).expect(rt, "memory");
    for piece in text.chunks(size.max(1)) {
        scanner.take(piece).expect(rt, "memory");
    }
    scanner.end()
}

/// The head of the certificate of the knapsack: its tree of three nodes begins behind 77 bytes, in seven lines.
fn is_its_head(rt: &impl Abort, head: &Head) {
    assert!(rt; (head.budget, head.cost, head.bound) == (4, 954000, 954000));
    assert!(rt; head.config.as_slice() == [2u16].as_slice());
    assert!(rt; head.sets.len() == 0);
    assert!(rt; (head.nodes, head.tree_at, head.lines) == (3, 77, 7));
}

#[test]
fn pieces_of_any_length_give_one_head(rt: HostRuntime) {
    let text = CERTK.as_bytes();
    for size in [1, 2, 7, 93] {
        let head = scanned(&rt, rt.alloc(), text, size).expect(&rt, "a certificate");
        is_its_head(&rt, &head);
    }
}

#[test]
fn each_cut_gives_that_head(rt: HostRuntime) {
    let text = CERTK.as_bytes();
    for cut in 0..94 {
        let (front, rest) = text.split_at(cut.min(text.len()));
        let mut scanner = Scanner::new(rt.alloc()).expect(&rt, "memory");
        scanner.take(front).expect(&rt, "memory");
        scanner.take(rest).expect(&rt, "memory");
        let head = scanner.end().expect(&rt, "a certificate");
        is_its_head(&rt, &head);
    }
}

#[test]
fn the_longest_configuration_is_read(rt: HostRuntime) {
    let alloc = rt.alloc();
    let mut text = Vec::from_slice(alloc, b"cophy certificate 1\nbudget 0\nconfig").expect(
        &rt, "memory",
    );
    for number in 1..257 {
        let word = format!(in alloc; " {number}").expect(&rt, "memory");
        text.extend_from_slice(word.as_bytes())
            .expect(&rt, "memory");
    }
    text.extend_from_slice(b"\ncost 0\nbound -1\nsets 0\ntree 1\nX\nend\n")
        .expect(&rt, "memory");
    for size in [1, 1000, 4096] {
        let head = scanned(&rt, alloc, text.as_slice(), size).expect(&rt, "a certificate");
        assert!(rt; head.config.len() == 256);
        assert!(rt; (head.nodes, head.lines) == (1, 7));
    }
}

#[test]
fn a_line_without_end_breaks(rt: HostRuntime) {
    let alloc = rt.alloc();
    let mut scanner = Scanner::new(alloc).expect(&rt, "memory");
    scanner
        .take(b"cophy certificate 1\nbudget 4\nconfig")
        .expect(&rt, "memory");
    for _ in 0..1000 {
        scanner.take(b" 2").expect(&rt, "memory");
    }
    // Lines behind it count for nothing.
    scanner.take(b"\n\n\n").expect(&rt, "memory");
    assert!(rt; scanner.end().err() == Some(CertFault::Malformed(3)));
}
