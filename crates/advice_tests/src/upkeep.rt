//! What indexes take, and what writes cost at them: cases as lines, worked out by hand.
ghost use Rattle.std.specs.Prelude.{All};
ghost use Rattle.adv_base.specs.Named.{NamesShape};

use crate::opened::{candidates_of, catalogue_of, statements_of};
use crate::texts::{SHOP, WORTH};
use adv_base::{Catalogue, Config, IndexShape, push_decimal};
use hypo_indexes::{config_upkeep, fits, kept_upkeep, pages, upkeep};
use std::alloc::{AllocError, Global};

/// A table of 1000 rows with an index, one of 100, one with two indexes, one with none, and an empty one.
const CATALOGUE: &str = r#"version = 1
[[table]]
name = "t"
rows = 1000
pages = 20
column = [{ name = "c", kind = "int", width = 4 }, { name = "a", kind = "int", width = 4, distinct = 10 }]
index = [{ name = "t_c", keys = ["c"] }]
[[table]]
name = "s"
rows = 100
pages = 2
column = [{ name = "k", kind = "int", width = 4 }]
index = [{ name = "s_k", keys = ["k"] }]
[[table]]
name = "v"
rows = 1000
pages = 20
column = [{ name = "k", kind = "int", width = 4 }, { name = "m", kind = "int", width = 4 }]
index = [{ name = "v_k", keys = ["k"] }, { name = "v_km", keys = ["k", "m"] }]
[[table]]
name = "w"
rows = 1000
pages = 20
column = [{ name = "k", kind = "int", width = 4 }]
[[table]]
name = "e"
rows = 0
pages = 0
column = [{ name = "k", kind = "int", width = 4 }]
index = [{ name = "e_k", keys = ["k"] }]"#;

/// The upkeep of the indexes that exist. One write of an index of two levels is 2 * 4000 + 10.
const UPKEEP: &str = r#"8010|INSERT INTO t VALUES (1, 2)
16020|INSERT INTO t VALUES (1, 2), (3, 4)
8010000|DELETE FROM t
801000|DELETE FROM t WHERE a = 1
801000|DELETE FROM t WHERE c = 1
80100|DELETE FROM t WHERE a = 1 AND a = 2
16020000|UPDATE t SET c = 1
16020000|UPDATE t SET a = 1, c = 2
1602000|UPDATE t SET c = c + 1 WHERE a = 1
0|UPDATE t SET a = 1
0|UPDATE t SET a = 1 WHERE c = 1
4010|INSERT INTO s VALUES (1)
40100|DELETE FROM s WHERE k = 1
16020|INSERT INTO v VALUES (1, 2)
16020000|UPDATE v SET m = 1
32040000|UPDATE v SET k = 1
0|DELETE FROM w
0|INSERT INTO w VALUES (1)
4010|DELETE FROM e
0|SELECT c FROM t WHERE c = 1"#;

/// Tables at the ends of what is allowed.
const ENDS: &str = r#"version = 1
[[table]]
name = "none"
rows = 0
pages = 0
column = [{ name = "a", kind = "int", width = 8 }]
[[table]]
name = "three"
rows = 3
pages = 3
column = [{ name = "a", kind = "text", width = 1000 }, { name = "b", kind = "text", width = 1000 }, { name = "c", kind = "text", width = 1000 }, { name = "d", kind = "text", width = 1000 }, { name = "e", kind = "text", width = 1000 }, { name = "f", kind = "text", width = 1000 }, { name = "g", kind = "text", width = 1000 }, { name = "h", kind = "text", width = 1000 }]
[[table]]
name = "most"
rows = 1000000000000
pages = 1000000000000
column = [{ name = "a", kind = "text", width = 1000 }, { name = "b", kind = "text", width = 1000 }, { name = "c", kind = "text", width = 1000 }, { name = "d", kind = "text", width = 1000 }, { name = "e", kind = "text", width = 1000 }, { name = "f", kind = "text", width = 1000 }, { name = "g", kind = "text", width = 1000 }, { name = "h", kind = "text", width = 1000 }]"#;

/// Each asks for all columns of its table.
const WHOLE: &str = "SELECT * FROM none; SELECT * FROM three; SELECT * FROM most";

#[test]
fn upkeep_by_hand(rt: HostRuntime) {
    let alloc = rt.alloc();
    let cat = catalogue_of(&rt, alloc, CATALOGUE.as_bytes());
    for case in UPKEEP.lines() {
        let (wanted, text) = case.split_once('|').expect(&rt, "a bar");
        let read = statements_of(&rt, alloc, &cat, text.as_bytes());
        let mut line = Vec::new(alloc);
        for statement in read.items.iter() {
            push_decimal(alloc, &mut line, kept_upkeep(&cat, statement)).expect(&rt, "memory");
        }
        assert!(rt; line.as_slice() == wanted.as_bytes(), "in {text}");
    }
}

/// The pages of shapes as a line.
fn sizes(alloc: Global, cat: &Catalogue, shapes: &[IndexShape]) -> Result<Vec<u8>, AllocError>
    requires { All (NamesShape cat.now) shapes.now }
{
    let mut line = Vec::new(alloc);
    for shape in shapes {
        push_decimal(alloc, &mut line, pages(cat, shape) as u128)?;
        line.push(b' ')?;
    }
    Ok(line)
}

#[test]
fn sizes_by_hand(rt: HostRuntime) {
    let alloc = rt.alloc();
    let cases = [
        (SHOP, WORTH, "42 56 294 368 442 589 1471 2063 "),
        (ENDS, WHOLE, "2 6 2000000000000 "),
    ];
    for (tables, text, wanted) in cases.iter() {
        let cat = catalogue_of(&rt, alloc, tables.as_bytes());
        let found = candidates_of(&rt, alloc, &cat, text.as_bytes());
        let line = sizes(alloc, &cat, found.list.as_slice()).expect(&rt, "memory");
        assert!(rt; line.as_slice() == wanted.as_bytes());
    }
}

/// The configuration of the first two candidates, as they are on.
fn first_two(first: bool, second: bool) -> Config {
    let mut config = Config::none();
    config.on[0] = first;
    config.on[1] = second;
    config
}

#[test]
fn a_budget_at_its_edges(rt: HostRuntime) {
    let alloc = rt.alloc();
    let cat = catalogue_of(&rt, alloc, SHOP.as_bytes());
    let found = candidates_of(&rt, alloc, &cat, WORTH.as_bytes());
    let shapes = found.list.as_slice();
    let cases = [
        (false, false, 0),
        (true, false, 42),
        (false, true, 56),
        (true, true, 98),
    ];
    for (first, second, size) in cases.iter() {
        let config = first_two(*first, *second);
        assert!(rt; fits(&cat, shapes, &config, *size));
        assert!(rt; *size == 0 || !fits(&cat, shapes, &config, *size - 1));
    }
}

#[test]
fn upkeep_of_candidates(rt: HostRuntime) {
    let alloc = rt.alloc();
    let cat = catalogue_of(&rt, alloc, CATALOGUE.as_bytes());
    // They are w(k), t(a) and t(a,c).
    let read = b"SELECT k FROM w; SELECT c FROM t WHERE a = 1";
    let found = candidates_of(&rt, alloc, &cat, read);
    let shapes = found.list.as_slice();
    let written = b"UPDATE t SET c = 1 WHERE a = 1; INSERT INTO w VALUES (1)";
    let read = statements_of(&rt, alloc, &cat, written);
    let config = first_two(true, true);
    let mut line = Vec::new(alloc);
    for statement in read.items.iter() {
        for shape in shapes {
            push_decimal(alloc, &mut line, upkeep(&cat, statement, shape)).expect(&rt, "memory");
            line.push(b' ').expect(&rt, "memory");
        }
        push_decimal(
            alloc,
            &mut line,
            config_upkeep(&cat, statement, shapes, &config),
        )
        .expect(&rt, "memory");
        line.push(b';').expect(&rt, "memory");
    }
    assert!(rt; line.as_slice() == b"0 0 1602000 0;8010 0 0 8010;".as_slice());
}
