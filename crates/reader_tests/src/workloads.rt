//! Texts with their answers, and what they mean.
mod meanings;
mod queries;
mod writes;

use crate::workloads::meanings::MEANINGS;
use crate::workloads::queries::QUERIES;
use crate::workloads::writes::WRITES;
use crate::written::{repeat, written};
use sql_reader::{SqlFault, read_workload};
use std::alloc::{AllocError, Global};
use std::process::Abort;

/// Long texts: the answer, and the parts of the text, each with how often it stands there. Nesting ends at 200.
const LONG: &str = r#"ok 1|SELECT *1|(*199|c*1|)*199| FROM t*1
ok 1|SELECT *1|(*200|c*1|)*200| FROM t*1
syntax 208|SELECT *1|(*201|c*1|)*201| FROM t*1
ok 1|SELECT *1|+*199|c*1| FROM t*1
ok 1|SELECT *1|+*200|c*1| FROM t*1
syntax 208|SELECT *1|+*201|c*1| FROM t*1
ok 1|SELECT *1|f(*199|c*1|)*199| FROM t*1
ok 1|SELECT *1|f(*200|c*1|)*200| FROM t*1
syntax 409|SELECT *1|f(*201|c*1|)*201| FROM t*1
syntax 208|SELECT *1|(*1000000
ok 1|DELETE FROM t WHERE c IN (0*1|,1*999999|)*1
ok 1000|DELETE FROM t;*1000
syntax 14001|DELETE FROM t;*1000|x*1
many 14001|DELETE FROM t;*1000|DELETE ,*1
open 14010|DELETE FROM t;*1000|DELETE ,*1| '*1"#;

/// A fault as the cases write it.
fn fault_text(alloc: Global, fault: SqlFault) -> Result<String, AllocError> {
    let (what, place) = match fault {
        SqlFault::Memory => ("memory", 0),
        SqlFault::BadByte(place) => ("byte", place),
        SqlFault::OpenText(place) => ("open", place),
        SqlFault::Syntax(place) => ("syntax", place),
        SqlFault::Unsupported(place) => ("unsupported", place),
        SqlFault::BadWeight(place) => ("weight", place),
        SqlFault::TooManyStatements(place) => ("many", place),
    };
    format!(in alloc; "{what} {place}")
}

/// The answer to a text, as the cases write it, and what it means.
fn answers(rt: &impl Abort, alloc: Global, text: &[u8]) -> (String, String) {
    assert!(rt; text.len() <= 100_000_000);
    match read_workload(alloc, text) {
        Ok(parsed) => {
            let count = parsed.statements.len();
            let told = format!(in alloc; "ok {count}").expect(rt, "memory");
            let meant = format!(in alloc; "{:?}", parsed.statements).expect(rt, "memory");
            (told, meant)
        }
        Err(fault) => {
            let told = fault_text(alloc, fault).expect(rt, "memory");
            (told, String::new(alloc))
        }
    }
}

/// Walks a table of answers and texts, and counts its cases.
fn count_of(rt: &impl Abort, alloc: Global, cases: &str) -> u32 {
    let mut count = 0u32;
    for case in cases.lines() {
        let (wanted, text) = case.split_once('|').expect(rt, "a bar");
        let text = written(rt, alloc, text);
        let (found, _) = answers(rt, alloc, text.as_slice());
        assert!(rt; found.as_str() == wanted, "in {case}");
        count = count.saturating_add(1);
    }
    count
}

#[test]
fn each_text_has_its_answer(rt: HostRuntime) {
    let queries = count_of(&rt, rt.alloc(), QUERIES);
    let writes = count_of(&rt, rt.alloc(), WRITES);
    assert!(rt; queries.saturating_add(writes) >= 400);
}

/// The text of parts that stand so often each.
fn text_of(rt: &impl Abort, alloc: Global, parts: &str) -> Vec<u8> {
    let mut text = Vec::new(alloc);
    for part in parts.split('|') {
        let (part, times) = part.split_once('*').expect(rt, "a number of times");
        let times = times.parse::<u32>().expect(rt, "a number");
        repeat(rt, &mut text, part.as_bytes(), times);
    }
    text
}

#[test]
fn long_texts_end(rt: HostRuntime) {
    for case in LONG.lines() {
        let (wanted, parts) = case.split_once('|').expect(&rt, "a bar");
        let text = text_of(&rt, rt.alloc(), parts);
        let (found, _) = answers(&rt, rt.alloc(), text.as_slice());
        assert!(rt; found.as_str() == wanted, "in {parts}");
    }
}

#[test]
fn texts_mean_what_they_say(rt: HostRuntime) {
    for case in MEANINGS.lines() {
        let (text, wanted) = case.split_once('|').expect(&rt, "a bar");
        let text = written(&rt, rt.alloc(), text);
        let (_, meant) = answers(&rt, rt.alloc(), text.as_slice());
        assert!(rt; meant.as_str() == wanted);
    }
}
