//! A certificate whose file changes while `check` reads it.
use crate::asserts::assert_told;
use crate::files::Files;
use crate::scene::{number, spread, told};
use adv_shelf::{Failed, MemShelf, PutFault, Shelf};
use std::alloc::Global;
use std::process::Abort;

/// The file that changes, and the one whose bytes it holds then.
const CERTIFICATE: &str = "CONF";

const LATER: &str = "LATER";

/// A shelf that doesn't tell its files. Behind so many reads of the certificate that holds other bytes.
#[derive(Drop)]
struct Changing {
    shelf: MemShelf,
    reads_left: u64,
}

impl Shelf for Changing {
    ghost use Rattle.std.specs.Prelude.{None};

    ghost files = { λ _. None };

    ghost read_faults = { λ s. s.shelf.read_faults };

    ghost read_faults_at = { λ s _. s.shelf.read_faults };

    ghost put_faults = { λ s. s.shelf.put_faults };

    fn read_at(&mut self, name: &str, from: u64, buf: &mut [u8]) -> Result<usize, Failed> {
        if name != CERTIFICATE {
            return self.shelf.read_at(name, from, buf);
        }
        if self.reads_left == 0 {
            return self.shelf.read_at(LATER, from, buf);
        }
        self.reads_left -= 1;
        self.shelf.read_at(name, from, buf)
    }

    fn put(&mut self, name: &str, bytes: &[u8]) -> Result<(), PutFault> {
        self.shelf.put(name, bytes)
    }
}

/// How many reads find the first text, that text, the one from then on, and what is printed. Two reads are the first reading,
/// and two the second; the first read of each gives all bytes. Another tree is judged as that of the head; claims are those of
/// the first reading, and proved by what was read last; what was no certificate at the first reading isn't read again.
const CHANGES: &str =
    r#"4|cophy certificate 1~budget 4~config 2~cost 954000~bound 954000~sets 0~tree 3~B 1~L 0~L 0~end~|cophy certificate 1~budget 4~config 2~cost 954000~bound 954000~sets 0~tree 3~no matter|proved cost 954000 bound 954000 budget 4~
3|cophy certificate 1~budget 4~config 2~cost 954000~bound 954000~sets 0~tree 3~B 1~L 0~L 0~end~|cophy certificate 1~budget 4~config 2~cost 954000~bound 954000~sets 0~tree 3~B 1~L 0~L 0~end~|proved cost 954000 bound 954000 budget 4~
3|cophy certificate 1~budget 4~config 2~cost 954000~bound 954000~sets 0~tree 3~B 1~L 0~L 0~end~|cophy certificate 1~budget 4~config 2~cost 954000~bound 954000~sets 0~tree 3~B 1~L 0~L 0~end~more~|not proved: malformed at line 12~
2|cophy certificate 1~budget 4~config 2~cost 954000~bound 954000~sets 0~tree 3~B 1~L 0~L 0~end~|cophy certificate 1~budget 4~config 2~cost 954000~bound 954000~sets 0~tree 3~B 1~L 0~L 0~end~|proved cost 954000 bound 954000 budget 4~
2|cophy certificate 1~budget 4~config 2~cost 954000~bound 954000~sets 0~tree 3~B 1~L 0~L 0~end~|cophy certificate 1~budget 4~config 2~cost 954000~bound 954000~sets 0~tree 3~|not proved: malformed at line 8~
2|cophy certificate 1~budget 4~config 2~cost 954000~bound 954000~sets 0~tree 3~B 1~L 0~L 0~end~|cophy certificate 1~budget 4~config 2~cost 954000~bound 954000~sets 0~tree 3~B 1~L 0~|not proved: malformed at line 10~
2|cophy certificate 1~budget 4~config 2~cost 954000~bound 954000~sets 0~tree 3~B 1~L 0~L 0~end~|cophy certificate 1~budget 4~config 2~cost 954000~bound 954000~sets 0~tree 3~B 1~L 0~L 0~end|not proved: malformed at line 11~
2|cophy certificate 1~budget 4~config 2~cost 954000~bound 954000~sets 0~tree 3~B 1~L 0~L 0~end~|cophy certificate 1~budget 4~config 2~cost 954000~bound 954000~sets 0~tree 3~B 1~L 0~L 0~end~end~|not proved: malformed at line 12~
2|cophy certificate 1~budget 4~config 2~cost 954000~bound 954000~sets 0~tree 3~B 1~L 0~L 0~end~|cophy certificate 1~budget 4~config 2~cost 954000~bound 954000~sets 0~tree 3~B 1~L 0~B 2~L 0~L 0~end~|not proved: malformed at line 10~
2|cophy certificate 1~budget 4~config 2~cost 954000~bound 954000~sets 0~tree 3~B 1~L 0~L 0~end~|cophy certificate 1~budget 4~config 2~cost 954000~bound 954000~sets 0~tree 3~B 3~L 0~L 0~end~|not proved: branch at node 1~
2|cophy certificate 1~budget 4~config 2~cost 954000~bound 954000~sets 0~tree 3~B 1~L 0~L 0~end~|cophy certificate 1~budget 4~config 2~cost 954000~bound 954000~sets 0~tree 3~B 1~L 0~X~end~|not proved: leaf 3 has size 0~
2|cophy certificate 1~budget 4~config 2~cost 954000~bound 954000~sets 0~tree 3~B 1~L 0~L 0~end~|cophy certificate 1~budget 4~config 2~cost 954000~bound 954000~sets 0~tree 3~L 0~L 0~L 0~end~|not proved: malformed at line 8~
1|cophy certificate 1~budget 4~config 2~cost 954000~bound 954000~sets 0~tree 3~B 1~L 0~L 0~end~|cophy certificate 1~budget 4~config 2~cost 954000~bound 954000~sets 0~tree 3~B 1~L 0~L 0~end~|proved cost 954000 bound 954000 budget 4~
0|cophy certificate 1~budget 4~config 2~cost 954000~bound 954000~sets 0~tree 3~B 1~L 0~L 0~end~|cophy certificate 1~budget 4~config 2~cost 954000~bound 954000~sets 0~tree 3~B 1~L 0~|not proved: malformed at line 10~
2|cophy certificate 1~budget 4~config 2~cost 954000~bound 954000~sets 0~tree 3~B 1~L 0~L 0~end~|cophy certificate 1~budget 4~config 2~cost 954000~bound 953999~sets 0~tree 3~B 1~L 0~L 0~end~|proved cost 954000 bound 954000 budget 4~
2|cophy certificate 1~budget 4~config 2~cost 954000~bound 954000~sets 0~tree 3~B 1~L 0~L 0~end~|cophy certificate 1~budget 4~config 2~cost 954000~bound 954001~sets 0~tree 3~B 1~L 0~L 0~end~|proved cost 954000 bound 954000 budget 4~
2|cophy certificate 1~budget 4~config 2~cost 954000~bound 954001~sets 0~tree 3~B 1~L 0~L 0~end~|cophy certificate 1~budget 4~config 2~cost 954000~bound 954000~sets 0~tree 3~B 1~L 0~L 0~end~|not proved: leaf 3 has 954000 below 954001~
2|no certificate|cophy certificate 1~budget 4~config 2~cost 954000~bound 954000~sets 0~tree 3~B 1~L 0~L 0~end~|not proved: malformed at line 1~"#;

/// Checks the certificate of a line.
fn assert_changed(rt: &impl Abort, alloc: Global, line: &str) {
    let (reads, rest) = line.split_once('|').expect(rt, "reads");
    let (first, rest) = rest.split_once('|').expect(rt, "a text");
    let (later, wanted) = rest.split_once('|').expect(rt, "an answer");
    let files = Files {
        cat: "KNAP",
        load: "-- weight 10~SELECT c FROM t ORDER BY c;~-- weight 11~SELECT d, e FROM v ORDER BY d, e;~",
        conf: first,
    };
    let later = spread(rt, alloc, later);
    let mut shelf = files.shelf(rt, alloc);
    shelf.put(LATER, later.as_slice()).expect(rt, "a put");
    let mut shelf = Changing {
        shelf,
        reads_left: number(rt, reads),
    };
    let (status, text) = told(rt, alloc, "check CAT LOAD CONF", &mut shelf, 1000);
    let wanted_status = if wanted.starts_with("proved") { 0 } else { 6 };
    let wanted = spread(rt, alloc, wanted);
    let want = (wanted_status, wanted.as_slice());
    assert_told(rt, (status, text.as_slice()), want, line);
}

#[test]
fn what_changes_is_judged_by_its_head(rt: HostRuntime) {
    for line in CHANGES.lines() {
        assert_changed(&rt, rt.alloc(), line);
    }
}
