//! Tests: scripts and lines that are none, and the limits of a script.
use crate::{Edit, Edits, ScriptFault, read_edits};
use std::alloc::Global;
use std::process::Abort;

/// The first bad line of a text, or 0 where it is a script. `~` stands for a line feed.
const CASES: &str = r#"|0
advise~|0
add 1 S~|0
add 1000000 SELECT c FROM t -- ok~remove 1000~weigh 1000 1000000~|0
add 1  S~|0
add 1 advise~|0
advise|1
advise~advise|2
~|1
advise~~|2
advise ~|1
 advise~|1
Advise~|1
advised~|1
advise~~advise~|2
add 1 S|1
add 1 ~|1
add 1~|1
add ~|1
add~|1
add 0 S~|1
add 1000001 S~|1
add 01 S~|1
add +1 S~|1
add  1 S~|1
add x S~|1
add 4294967297 S~|1
add 18446744073709551617 S~|1
remove 0~|1
remove 1001~|1
remove 01~|1
remove 1 ~|1
remove~|1
remove 65537~|1
weigh 1~|1
weigh 1 0~|1
weigh 0 1~|1
weigh 1 1000001~|1
weigh 1001 1~|1
weigh 1 01~|1
weigh 01 1~|1
weigh 1  1~|1
weigh 1 1 ~|1
weigh 1 1~remove 1~reweigh 1 1~|3"#;

/// What was read: 0, or the bad line; `None` where memory ran out.
fn told(read: Result<Edits<'_>, ScriptFault>) -> Option<u32> {
    match read {
        Ok(_) => Some(0),
        Err(ScriptFault::BadLine(line)) => Some(line),
        Err(ScriptFault::Memory) => None,
    }
}

/// A text, in which `~` stands for a line feed.
fn spread(rt: &impl Abort, alloc: Global, text: &str) -> Vec<u8> {
    let mut bytes = Vec::new(alloc);
    for byte in text.bytes() {
        let byte = if byte == b'~' { b'\n' } else { byte };
        bytes.push(byte).expect(rt, "memory");
    }
    bytes
}

/// Checks a case.
fn compare(rt: &impl Abort, alloc: Global, case: &str) {
    let (text, line) = case.rsplit_once('|').expect(rt, "a line");
    let bytes = spread(rt, alloc, text);
    let want = line.parse::<u32>().expect(rt, "a number");
    assert_eq!(rt;
        told(read_edits(alloc, bytes.as_slice())),
        Some(want),
        "{text}"
    );
}

#[test]
fn lines_of_scripts(rt: HostRuntime) {
    for case in CASES.lines() {
        compare(&rt, rt.alloc(), case);
    }
}

/// A line many times.
fn times(rt: &impl Abort, alloc: Global, line: &[u8], count: u32) -> Vec<u8> {
    let mut bytes = Vec::new(alloc);
    for _turn in 0..count {
        bytes.extend_from_slice(line).expect(rt, "memory");
    }
    bytes
}

/// Checks what a line many times is read as.
fn compare_many(rt: &impl Abort, alloc: Global, line: &[u8], count: u32, want: u32) {
    let bytes = times(rt, alloc, line, count);
    assert_eq!(rt; told(read_edits(alloc, bytes.as_slice())), Some(want));
}

#[test]
fn limits_of_scripts(rt: HostRuntime) {
    compare_many(&rt, rt.alloc(), b"remove 7\n", 1000, 0);
    compare_many(&rt, rt.alloc(), b"remove 7\n", 1001, 1001);
    compare_many(&rt, rt.alloc(), b"advise\n", 16, 0);
    compare_many(&rt, rt.alloc(), b"advise\n", 17, 17);
}

/// Whether an edit is of some kind with its numbers, and its SQL.
fn is_so(edit: &Edit<'_>, weight: u32, number: u32, sql: &[u8]) -> bool {
    match edit {
        Edit::Add(heavy, text) => *heavy == weight && *text == sql && number == 0,
        Edit::Remove(other) => *other == number && weight == 0,
        Edit::Weigh(other, heavy) => *other == number && *heavy == weight,
        Edit::Advise => weight == 0 && number == 0,
    }
}

#[test]
fn edits_in_order(rt: HostRuntime) {
    let bytes = b"add 5 SELECT c FROM t;\nremove 30\nweigh 20 7\nadvise\n";
    let edits = read_edits(rt.alloc(), bytes).expect(&rt, "a script");
    let list = edits.list.as_slice();
    assert_eq!(rt; list.len(), 4);
    assert!(rt; is_so(&list[0], 5, 0, b"SELECT c FROM t;"));
    assert!(rt; is_so(&list[1], 0, 30, b""));
    assert!(rt; is_so(&list[2], 7, 20, b""));
    assert!(rt; is_so(&list[3], 0, 0, b""));
}
