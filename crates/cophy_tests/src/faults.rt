//! Reads and writes that fail, over files in memory and over the system's.
use crate::asserts::assert_told;
use crate::catalogues::catalogue;
use crate::scene::{number, told, walk};
use adv_shelf::{DiskShelf, Shelf};
use std::alloc::Global;
use std::path::AsPath;
use std::process::Abort;
use std::{env, fs, process};

/// How many calls read files, the status, a command line, what it prints where nothing fails, the name of the catalogue in CAT,
/// the workload in LOAD and the text in CONF; `~` stands for a line feed.
const LINES: &str =
    r#"4|0|cost CAT LOAD|statement 1 weight 1 cost 30000~total 30000~|T|SELECT c FROM t|
4|0|candidates CAT LOAD|1 t(c) 3 pages~left over 0~|T|SELECT c FROM t|
5|0|explain CAT LOAD CONF 1|statement 1 plan 30000 upkeep 0~heap on t cost 30000~|T|SELECT c FROM t|
5|5|explain CAT LOAD CONF 2|refused: no statement 2 of 1~|T|SELECT c FROM t|
5|0|whatif CAT LOAD CONF|size 0~statement 1 weight 1 cost 30000~total 30000~|T|SELECT c FROM t|
5|6|check CAT LOAD CONF|not proved: malformed at line 1~|T|SELECT c FROM t|
6|6|check-ruled CAT LOAD CONF CONF|not proved: malformed at line 1~|T|SELECT c FROM t|
5|0|ruled CAT LOAD 0 CONF|must 0 never 0~budget 0~candidates 1 left over 0~size 0~cost 30000~bound 30000~gap 0~nodes 1 of 20000~finished~|T|SELECT c FROM t|
4|0|sweep CAT LOAD 0 1 1|point 1 budget 0 size 0 cost 30000 bound 30000 best 30000 low 30000 nodes 1~finished~|T|SELECT c FROM t|
0|2|cost CAT|usage: missing word 3~|T|SELECT c FROM t|
0|0|bench 1 2 5 0|tables 2~statements 5~slots 6~budget 0~candidates 11 left over 0~size 0~cost 4944003918~bound 4944003918~gap 0~nodes 1 of 20000~finished~|T|SELECT c FROM t|
8|0|check CAT LOAD CONF|proved cost 954000 bound 954000 budget 4~|KNAP|-- weight 10~SELECT c FROM t ORDER BY c;~-- weight 11~SELECT d, e FROM v ORDER BY d, e;~|cophy certificate 1~budget 4~config 2~cost 954000~bound 954000~sets 0~tree 3~B 1~L 0~L 0~end~"#;

/// A run whose call of a number fails, which reads a file of a name.
const FAILS: &str = "files $5$|$6$|$7$
fail $0$
run 3|$3$|read fault: $1$~
kept";

/// A run none of whose calls fails: with room for all of its output, and with less and less.
const ENDS: &str = "files $5$|$6$|$7$
fail $0$
run $2$|$3$|$4$
kept
aside
fronts $3$|CONF";

/// The file that the call of a number reads: an empty file is read by one call, any other by two, of which the second finds its
/// end. A certificate is read so twice: its text, and then its tree.
fn name_of(call: u64) -> &'static str {
    match call {
        1 | 2 => "CAT",
        3 | 4 => "LOAD",
        _ => "CONF",
    }
}

/// Lets the call of each number fail, until the run of a line meets no failure.
fn assert_calls(rt: &impl Abort, alloc: Global, line: &str) {
    let (calls, rest) = line.split_once('|').expect(rt, "calls");
    let calls = number(rt, calls);
    for call in 1..calls.saturating_add(2) {
        let name = name_of(call);
        let case = format!(in alloc; "{call}|{name}|{rest}").expect(rt, "memory");
        let script = if call <= calls { FAILS } else { ENDS };
        walk(rt, alloc, script, case.as_str());
    }
}

#[test]
fn failed_reads_are_told_and_failed_writes_end_with_their_status(rt: HostRuntime) {
    for line in LINES.lines() {
        assert_calls(&rt, rt.alloc(), line);
    }
}

#[test]
fn bad_files_of_the_system_do_no_harm(rt: HostRuntime) {
    let alloc = rt.alloc();
    let heap = catalogue(&rt, alloc, "T");
    let folder = env::temp_dir(&rt).expect(&rt, "a folder");
    let name = format!(in alloc; "cophy-{}.toml", process::id(rt.process())).expect(&rt, "memory");
    let path = folder.join(alloc, name.as_str()).expect(&rt, "a path");
    let path = path.path_text();
    let words = format!(in alloc; "cost {path} /dev/null").expect(&rt, "memory");
    for (bytes, status) in [
        (b"".as_slice(), 5),
        (b"\xff\xfe", 5),
        (b"no = toml = here", 5),
        (heap.as_slice(), 0),
    ] {
        let mut shelf = DiskShelf::new(&rt);
        shelf.put(path, bytes).expect(&rt, "a file");
        let (found, _) = told(&rt, alloc, words.as_str(), &mut shelf, 1000);
        assert_eq!(rt; found, status, "{bytes:?}");
        let left = fs::read(&rt, path).expect(&rt, "a file");
        assert_eq!(rt; left.as_slice(), bytes);
    }
    fs::remove_file(&rt, path).expect(&rt, "a file");
    // a file that is gone, and a folder in a file's place
    for cat in [path, "/tmp", "/"] {
        let words = format!(in alloc; "cost {cat} /dev/null").expect(&rt, "memory");
        let output = format!(in alloc; "read fault: {cat}\n").expect(&rt, "memory");
        let mut shelf = DiskShelf::new(&rt);
        let (status, text) = told(&rt, alloc, words.as_str(), &mut shelf, 1000);
        assert_told(&rt, (status, text.as_slice()), (3, output.as_bytes()), cat);
    }
}
