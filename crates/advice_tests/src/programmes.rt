//! Programmes that are worked out by hand. Cases are lines, in which `~` stands for a line feed.
use crate::opened::{Opened, open};
use crate::printed::words_of;
use crate::texts::TWO;
use adv_base::Config;
use bip_model::{Programme, value};
use std::alloc::Global;
use std::process::Abort;
use tuning::{TuneFault, programme};

/// A table of 1000 rows and 20 pages; so is every other one where nothing else is said.
const ONE: &str = r#"version = 1
[[table]]
name = "t"
rows = 1000
pages = 20
column = [{ name = "c", kind = "int", width = 4, distinct = 1000 }]"#;

/// The same with a second column, and an index on the first.
const INDEXED: &str = r#"version = 1
[[table]]
name = "t"
rows = 1000
pages = 20
column = [{ name = "c", kind = "int", width = 4, distinct = 1000 }, { name = "n", kind = "int", width = 4, distinct = 1000 }]
index = [{ name = "t_c", keys = ["c"] }]"#;

/// Two tables, of which the first has an index on both of its columns.
const JOINED: &str = r#"version = 1
[[table]]
name = "t"
rows = 1000
pages = 20
column = [{ name = "x", kind = "int", width = 4, distinct = 1000 }, { name = "z", kind = "int", width = 4, distinct = 1000 }]
index = [{ name = "t_xz", keys = ["x", "z"] }]
[[table]]
name = "u"
rows = 1000
pages = 20
column = [{ name = "y", kind = "int", width = 4, distinct = 1000 }]"#;

/// Customers, their orders and the orders' items.
const ORDERS: &str = r#"version = 1
[[table]]
name = "customer"
rows = 15000
pages = 400
column = [{ name = "c_id", kind = "int", width = 8, distinct = 15000 }, { name = "c_segment", kind = "text", width = 10, distinct = 5 }, { name = "c_name", kind = "text", width = 25, distinct = 15000 }]
index = [{ name = "customer_pk", keys = ["c_id"], unique = true }]
[[table]]
name = "orders"
rows = 150000
pages = 3000
column = [{ name = "o_id", kind = "int", width = 8, distinct = 150000 }, { name = "o_cust", kind = "int", width = 8, distinct = 10000 }, { name = "o_date", kind = "date", width = 4, distinct = 2400, low = "1992-01-01", high = "1998-12-31" }]
index = [{ name = "orders_pk", keys = ["o_id"], unique = true }]
[[table]]
name = "lineitem"
rows = 600000
pages = 15000
column = [{ name = "l_order", kind = "int", width = 8, distinct = 150000 }, { name = "l_price", kind = "int", width = 8 }, { name = "l_ship", kind = "date", width = 4 }]"#;

/// A hub of thirteen columns, and a table of seven.
const STAR: &str = r#"version = 1
[[table]]
name = "h"
rows = 10
pages = 1
column = [{ name = "a", kind = "int", width = 4 }, { name = "b", kind = "int", width = 4 }, { name = "c", kind = "int", width = 4 }, { name = "d", kind = "int", width = 4 }, { name = "e", kind = "int", width = 4 }, { name = "f", kind = "int", width = 4 }, { name = "g", kind = "int", width = 4 }, { name = "i", kind = "int", width = 4 }, { name = "j", kind = "int", width = 4 }, { name = "k", kind = "int", width = 4 }, { name = "l", kind = "int", width = 4 }, { name = "m", kind = "int", width = 4 }, { name = "n", kind = "int", width = 4 }]
[[table]]
name = "p"
rows = 10
pages = 1
column = [{ name = "a", kind = "int", width = 4 }, { name = "b", kind = "int", width = 4 }, { name = "c", kind = "int", width = 4 }, { name = "d", kind = "int", width = 4 }, { name = "e", kind = "int", width = 4 }, { name = "f", kind = "int", width = 4 }, { name = "g", kind = "int", width = 4 }]"#;

/// A catalogue, a workload and the words of its programme. A sort of 1000 rows costs 5 * 1000 * 10, a table 20 * 1000 +
/// 1000 * 10; an index of two or three pages of leaves takes one page more. A merge of two tables costs 5 * 2000 + 10 *
/// 1000, a hash join 8 * 3000 + 10 * 1000. An INSERT has no part; that of the last workload writes two rows, the DELETE 334
/// and the UPDATE one, twice, and a write costs 2 * 4000 + 10.
const PROGRAMMES: &str =
    r#"one|SELECT c FROM t ORDER BY c|sizes 3 upkeep 0 kept 0 part 1 1 template 0 50000 template 1 0 slot 30000 - grant 1 13000 13000 
one|SELECT c FROM t|sizes 3 upkeep 0 kept 0 part 1 1 template 0 0 slot 30000 grant 1 13000 
joined|SELECT t.x FROM t, u WHERE t.x = u.y|sizes 3 3 upkeep 0 0 kept 0 part 1 1 template 0 0 34000 template 1 1 20000 slot 14000 14000 grant 1 13000 13000 slot 30000 - grant 2 13000 13000 
two|-- weight 10~SELECT c FROM t ORDER BY c;~-- weight 11~SELECT d, e FROM v ORDER BY d, e;~|sizes 3 4 upkeep 0 0 kept 0 part 1 10 template 0 50000 template 1 0 slot 30000 - grant 1 13000 13000 part 2 11 template 0 50000 template 1 0 slot 30000 - grant 2 14000 14000 
one||sizes upkeep kept 0 
indexed|-- weight 2~SELECT n FROM t ORDER BY n;~-- weight 3~INSERT INTO t VALUES (1, 2), (3, 4);~-- weight 5~DELETE FROM t WHERE n > 5;~UPDATE t SET n = 1 WHERE c = 5;~|sizes 3 upkeep 13440780 kept 13424760 part 1 2 template 0 50000 template 1 0 slot 30000 - grant 1 13000 13000 part 3 5 template 0 0 slot 30000 grant 1 1341340 part 4 1 template 0 0 slot 5010 grant 1 4013000 "#;

/// A catalogue, the candidates of a configuration, what the programme says that it costs, and the workload.
const VALUES: &str =
    r#"two||1680000|-- weight 10~SELECT c FROM t ORDER BY c;~-- weight 11~SELECT d, e FROM v ORDER BY d, e;~
two|1|1010000|-- weight 10~SELECT c FROM t ORDER BY c;~-- weight 11~SELECT d, e FROM v ORDER BY d, e;~
two|2|954000|-- weight 10~SELECT c FROM t ORDER BY c;~-- weight 11~SELECT d, e FROM v ORDER BY d, e;~
two|1 2|284000|-- weight 10~SELECT c FROM t ORDER BY c;~-- weight 11~SELECT d, e FROM v ORDER BY d, e;~
orders||1567371650|-- weight 50~SELECT o.o_id, o.o_date, sum(l.l_price) AS revenue FROM customer c JOIN orders o ON c.c_id = o.o_cust JOIN lineitem l ON l.l_order = o.o_id WHERE c.c_segment = 'BUILDING' AND o.o_date BETWEEN DATE '1995-01-01' AND DATE '1995-03-31' GROUP BY o.o_id, o.o_date ORDER BY revenue DESC, o.o_date LIMIT 10;
orders|2 6 8|583783100|-- weight 50~SELECT o.o_id, o.o_date, sum(l.l_price) AS revenue FROM customer c JOIN orders o ON c.c_id = o.o_cust JOIN lineitem l ON l.l_order = o.o_id WHERE c.c_segment = 'BUILDING' AND o.o_date BETWEEN DATE '1995-01-01' AND DATE '1995-03-31' GROUP BY o.o_id, o.o_date ORDER BY revenue DESC, o.o_date LIMIT 10;
indexed||13739770|-- weight 2~SELECT n FROM t ORDER BY n;~-- weight 3~INSERT INTO t VALUES (1, 2), (3, 4);~-- weight 5~DELETE FROM t WHERE n > 5;~UPDATE t SET n = 1 WHERE c = 5;~
indexed|1|27046550|-- weight 2~SELECT n FROM t ORDER BY n;~-- weight 3~INSERT INTO t VALUES (1, 2), (3, 4);~-- weight 5~DELETE FROM t WHERE n > 5;~UPDATE t SET n = 1 WHERE c = 5;~
one|1|16063000|SELECT c FROM t ORDER BY c; UPDATE t SET c = 1
one||0|"#;

/// A hub of thirteen columns, tied to three others by three and to a fourth by four: 14 * 4 * 4 * 4 * 5 combinations.
const HUB: &str =
    "SELECT count(*) FROM h, p q, p r, p s, p t WHERE h.a = q.a AND h.b = q.b AND h.c = q.c AND h.d = r.a AND h.e = r.b AND h.f = r.c AND h.g = s.a AND h.i = s.b AND h.j = s.c AND h.k = t.a AND h.l = t.b AND h.m = t.c AND h.n = t.d";

/// Four tables, each tied to the others by seven columns: 8 * 8 * 8 * 8 combinations, the most that are taken.
const CLIQUE: &str =
    "SELECT count(*) FROM p w, p x, p y, p z WHERE w.a = x.a AND w.b = x.b AND w.c = x.c AND y.a = z.a AND y.b = z.b AND y.c = z.c AND w.d = y.d AND w.e = y.e AND x.d = z.d AND x.e = z.e AND w.f = z.f AND w.g = z.g AND x.f = y.f AND x.g = y.g";

/// The number of the first of two such hubs, and what stands before them.
const REFUSALS: &str = r#"1|
2|SELECT a FROM h;
3|INSERT INTO p VALUES (1, 2, 3, 4, 5, 6, 7); DELETE FROM p;"#;

/// The text of a catalogue.
fn catalogue(rt: &impl Abort, name: &str) -> &'static str {
    match name {
        "one" => ONE,
        "indexed" => INDEXED,
        "joined" => JOINED,
        "two" => TWO,
        "orders" => ORDERS,
        "star" => STAR,
        _ => panic!(rt; "no catalogue"),
    }
}

/// A text with its line feeds.
fn spread(rt: &impl Abort, alloc: Global, text: &str) -> Vec<u8> {
    let mut bytes = Vec::new(alloc);
    for byte in text.as_bytes() {
        let byte = if *byte == b'~' { b'\n' } else { *byte };
        bytes.push(byte).expect(rt, "memory");
    }
    bytes
}

/// What a catalogue and the text of a workload describe.
fn read_setting(rt: &impl Abort, alloc: Global, cat: &str, load: &str) -> Opened {
    let load = spread(rt, alloc, load);
    open(rt, alloc, catalogue(rt, cat).as_bytes(), load.as_slice())
}

fn programme_of(rt: &impl Abort, alloc: Global, opened: &Opened) -> Programme {
    programme(alloc, &opened.setting())
        .ok()
        .expect(rt, "a programme")
}

/// Walks a line of the programmes.
fn compare_words(rt: &impl Abort, alloc: Global, case: &str) {
    let (cat, rest) = case.split_once('|').expect(rt, "a catalogue");
    let (load, words) = rest.split_once('|').expect(rt, "a workload");
    let opened = read_setting(rt, alloc, cat, load);
    let made = programme_of(rt, alloc, &opened);
    let line = words_of(rt, alloc, &made);
    assert!(rt; line.as_slice() == words.as_bytes(), "{case}");
}

#[test]
fn programmes_by_hand(rt: HostRuntime) {
    for case in PROGRAMMES.lines() {
        compare_words(&rt, rt.alloc(), case);
    }
}

/// The configuration of these candidates.
fn config_of(numbers: &str) -> Config {
    let mut on = [false; 256];
    for word in numbers.split(' ') {
        let number = word.parse::<u8>().unwrap_or(0);
        if number > 0 {
            on[number as usize - 1] = true;
        }
    }
    Config { on }
}

/// Walks a line of the values.
fn compare_value(rt: &impl Abort, alloc: Global, case: &str) {
    let (cat, rest) = case.split_once('|').expect(rt, "a catalogue");
    let (numbers, rest) = rest.split_once('|').expect(rt, "candidates");
    let (total, load) = rest.split_once('|').expect(rt, "a total");
    let total = total.parse::<u64>().expect(rt, "a number");
    let opened = read_setting(rt, alloc, cat, load);
    let made = programme_of(rt, alloc, &opened);
    let config = config_of(numbers);
    assert!(rt; value(&made, &config) == total as u128, "{case}");
}

#[test]
fn values_by_hand(rt: HostRuntime) {
    for case in VALUES.lines() {
        compare_value(&rt, rt.alloc(), case);
    }
}

/// Walks a line of the refusals.
fn compare_refusal(rt: &impl Abort, alloc: Global, case: &str) {
    let (number, front) = case.split_once('|').expect(rt, "a number");
    let number = number.parse::<u32>().expect(rt, "a number");
    let mut load = String::from_str(alloc, front).expect(rt, "memory");
    load.push_str(HUB).expect(rt, "memory");
    load.push_str(";").expect(rt, "memory");
    load.push_str(HUB).expect(rt, "memory");
    let opened = read_setting(rt, alloc, "star", load.as_str());
    let fault = programme(alloc, &opened.setting()).err();
    assert!(rt;
        fault == Some(TuneFault::TooManyCombinations(number, 4480)),
        "{case}"
    );
}

#[test]
fn too_many_combinations(rt: HostRuntime) {
    for case in REFUSALS.lines() {
        compare_refusal(&rt, rt.alloc(), case);
    }
}

#[test]
fn most_combinations(rt: HostRuntime) {
    let opened = read_setting(&rt, rt.alloc(), "star", CLIQUE);
    let _made = programme_of(&rt, rt.alloc(), &opened);
}
