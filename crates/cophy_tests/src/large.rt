//! Files at their limits: each ends with its answer.
use crate::catalogues::catalogue;
use crate::scene::{number, spread, told};
use adv_shelf::{MemShelf, Shelf};
use std::alloc::Global;
use std::process::Abort;

/// The longest file that is read, in bytes.
const LIMIT: usize = 16777216;

/// The longest certificate that is read, in bytes.
const CERTIFICATE_LIMIT: usize = 67108864;

/// A text of a front, a piece as often as it fits, and an end, of so many bytes at most.
fn repeated(
    rt: &impl Abort,
    alloc: Global,
    (front, piece, end): (&[u8], &[u8], &[u8]),
    len: usize,
) -> Vec<u8> {
    let mut text = Vec::from_slice(alloc, front).expect(rt, "memory");
    for _ in 0..len {
        let next = text.len().saturating_add(piece.len());
        if next.saturating_add(end.len()) > len {
            break;
        }
        text.extend_from_slice(piece).expect(rt, "memory");
    }
    text.extend_from_slice(end).expect(rt, "memory");
    text
}

/// Runs a command line over files, and compares the status and the output, in which `~` stands for a line feed.
fn assert_over(
    rt: &impl Abort,
    alloc: Global,
    words: &str,
    files: &[(&str, &[u8])],
    want: (u64, &str),
) {
    let mut shelf = MemShelf::new(alloc).expect(rt, "memory");
    for (name, bytes) in files {
        shelf.put(name, bytes).expect(rt, "a put");
    }
    let (status, text) = told(rt, alloc, words, &mut shelf, 1000);
    let wanted = spread(rt, alloc, want.1);
    assert_eq!(rt; status as u64, want.0, "{words}");
    assert!(rt; text.as_slice() == wanted.as_slice(), "not {}", want.1);
}

/// Workloads at the limit: a front, a piece as often as it fits, an end, the status and the output. The piece of `/*` is
/// a comment, then a star, in turn; the last comment has no end.
const LONG: &str = "|(||5|refused: syntax at 1~\n\
SELECT c FROM t WHERE |(||5|refused: syntax at 223~\n\
SELECT |(||5|refused: syntax at 208~\n\
SELECT |+|c FROM t|5|refused: syntax at 208~\n\
\u{20}|'||5|refused: open text at 16777216~\n\
|/*||5|refused: open text at 16777213~\n\
|1.1.1.||5|refused: syntax at 1~\n\
|\u{20}||0|total 0~\n\
|;||0|total 0~\n\
SELECT c FROM t WHERE c IN (1|, 2|)|0|statement 1 weight 1 cost 30000~total 30000~";

/// Walks a line of the table.
fn assert_long(rt: &impl Abort, alloc: Global, case: &str) {
    let (front, rest) = case.split_once('|').expect(rt, "a front");
    let (piece, rest) = rest.split_once('|').expect(rt, "a piece");
    let (end, rest) = rest.split_once('|').expect(rt, "an end");
    let (status, output) = rest.split_once('|').expect(rt, "a status");
    let parts = (front.as_bytes(), piece.as_bytes(), end.as_bytes());
    let load = repeated(rt, alloc, parts, LIMIT);
    let cat = catalogue(rt, alloc, "T");
    let files = [("CAT", cat.as_slice()), ("LOAD", load.as_slice())];
    let want = (number(rt, status), output);
    assert_over(rt, alloc, "cost CAT LOAD", &files, want);
}

#[test]
fn long_workloads_end_with_their_answer(rt: HostRuntime) {
    for case in LONG.lines() {
        assert_long(&rt, rt.alloc(), case);
    }
}

#[test]
fn files_have_a_limit(rt: HostRuntime) {
    let alloc = rt.alloc();
    let cat = catalogue(&rt, alloc, "T");
    let cat = cat.as_slice();
    let within = repeated(&rt, alloc, (cat, b" ", b"\n"), LIMIT);
    let beyond = repeated(&rt, alloc, (cat, b" ", b"\n"), LIMIT + 1);
    let many = repeated(&rt, alloc, (b"", b"SELECT c FROM t;", b""), 16 * 1001);
    for (cat, load, want) in [
        (within.as_slice(), b"".as_slice(), (0, "total 0~")),
        (beyond.as_slice(), b"", (5, "refused: too long CAT~")),
        (b"", beyond.as_slice(), (5, "refused: too long LOAD~")),
        (
            cat,
            many.as_slice(),
            (5, "refused: more than 1000 statements at 16001~"),
        ),
        (b"\xff\n", b"", (5, "refused: not toml~")),
        (cat, b"\xff", (5, "refused: bad byte at 1~")),
    ] {
        let files = [("CAT", cat), ("LOAD", load)];
        assert_over(&rt, alloc, "cost CAT LOAD", &files, want);
    }
}

/// A certificate of a line that doesn't end, of as many bytes as are read and of one more.
#[test]
fn certificates_have_a_limit_of_their_own(rt: HostRuntime) {
    let alloc = rt.alloc();
    let cat = catalogue(&rt, alloc, "T");
    let piece = b"xxxxxxxxxxxxxxxxxxxxxxxxxxxxxxxxxxxxxxxxxxxxxxxxxxxxxxxxxxxxxxxx";
    for (front, len, want) in [
        (
            b"".as_slice(),
            CERTIFICATE_LIMIT,
            (6, "not proved: malformed at line 1~"),
        ),
        (b"x", CERTIFICATE_LIMIT + 1, (5, "refused: too long CONF~")),
    ] {
        let cert = repeated(&rt, alloc, (front, piece, b""), len);
        assert_eq!(rt; cert.len(), len);
        let files: [(&str, &[u8]); 3] = [
            ("CAT", cat.as_slice()),
            ("LOAD", b""),
            ("CONF", cert.as_slice()),
        ];
        assert_over(&rt, alloc, "check CAT LOAD CONF", &files, want);
    }
}
