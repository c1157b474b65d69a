//! The ways to read the slots of a statement, with their words, prices and orders: cases as lines, worked out by hand.
//!
//! A line has for each way its words, its price and how many columns its order has, `|` and the statement.
ghost use Rattle.std.specs.Prelude.{All};
ghost use Rattle.adv_base.specs.Named.{NamesBlock, NamesShape};

use crate::opened::{candidates_of, catalogue_of, statements_of};
use access_paths::{ConfigOffers, labels, task};
use adv_base::{Block, Catalogue, Config, IndexShape, NoMemory, Work, push_decimal};
use plan_model::{Labels, Offers};
use std::alloc::Global;
use std::process::Abort;

/// Three tables of 1000 rows and 20 pages, each with an index on the first two of its columns; and one without.
const CATALOGUE: &str = r#"version = 1
[[table]]
name = "t"
rows = 1000
pages = 20
column = [{ name = "a", kind = "int", width = 4, distinct = 1000 }, { name = "b", kind = "int", width = 4, distinct = 1000 }, { name = "c", kind = "int", width = 4, distinct = 1000 }]
index = [{ name = "ab", keys = ["a", "b"] }]
[[table]]
name = "u"
rows = 1000
pages = 20
column = [{ name = "a", kind = "int", width = 4, distinct = 1000 }, { name = "b", kind = "int", width = 4, distinct = 1000 }, { name = "c", kind = "int", width = 4, distinct = 1000 }]
index = [{ name = "ab", keys = ["a", "b"], unique = true }]
[[table]]
name = "k"
rows = 1000
pages = 20
column = [{ name = "a", kind = "int", width = 4, distinct = 1000 }, { name = "b", kind = "int", width = 4, distinct = 1000 }, { name = "c", kind = "int", width = 4, distinct = 1000 }]
index = [{ name = "ab", keys = ["a", "b"], clustered = true }]
[[table]]
name = "w"
rows = 1000
pages = 20
column = [{ name = "a", kind = "int", width = 4, distinct = 1000 }]"#;

/// Without candidates. The index has four pages.
const EXISTING: &str = r#"heap 30000 0;index ab 5010 1;|SELECT * FROM t WHERE a = 1
heap 30000 0;index ab 5010 1;|SELECT * FROM t WHERE a = 1 AND a = 2
heap 30000 0;index ab 1010 2;|SELECT a FROM t WHERE a IN (1, 2) AND b > 1
heap 30000 0;index ab 14000 2;|SELECT a, b FROM t
heap 30000 0;index ab 4014000 2;|SELECT * FROM t
heap 30000 0;index ab 4014000 1;|SELECT * FROM t WHERE b = 1
heap 30000 0;index ab 1341340 2;|SELECT * FROM t WHERE a > 1
heap 30000 0;index ab 1341340 1;|SELECT * FROM t WHERE a > 1 AND b = 1
heap 30000 0;index ab 34000 2;|SELECT * FROM k
heap 30000 0;index ab 34000 2;|SELECT * FROM k WHERE a LIKE 'x%'
heap 30000 0;index ab 1010 0;|SELECT a FROM u WHERE a = 1 AND b = 1
heap 30000 0;|SELECT a FROM w WHERE a = 1"#;

/// With the candidates that the statement proposes.
const PROPOSED: &str =
    r#"heap 30000 0;index ab 14000 1;candidate 1 5010 0;candidate 2 1010 1;|SELECT a FROM t WHERE b = 1
heap 30000 0;candidate 1 1010 0;|SELECT a FROM w WHERE a = 1
heap 30000 0;index ab 14000 2;candidate 1 13000 1;heap 30000 0;candidate 2 13000 1;|SELECT t.b FROM t, w WHERE t.b = w.a"#;

/// Writes the ways to read a slot.
fn add_ways(
    alloc: Global,
    line: &mut Vec<u8>,
    offers: &ConfigOffers,
    words: &Labels,
    slot: u8,
) -> Result<(), NoMemory> {
    for offer in 0..offers.count(slot) {
        if let Some(names) = words.offers.items.get(slot as usize) {
            if let Some(name) = names.items.get(offer as usize) {
                line.extend_from_slice(name.as_slice())?;
            }
        }
        line.push(b' ')?;
        push_decimal(alloc, line, offers.price(slot, offer) as u128)?;
        line.push(b' ')?;
        push_decimal(alloc, line, offers.order(slot, offer).len() as u128)?;
        line.push(b';')?;
    }
    Ok(())
}

/// The ways to read each slot of a block under a configuration, as a line.
fn ways(
    alloc: Global,
    cat: &Catalogue,
    block: &Block,
    shapes: &[IndexShape],
    config: &Config,
) -> Result<Vec<u8>, NoMemory>
    requires named { NamesBlock cat.now block.now }
    requires shapes_named { All (NamesShape cat.now) shapes.now }
{
    let offers = ConfigOffers::new(alloc, cat, block, shapes, config)?;
    let words = labels(alloc, cat, block, shapes, config)?;
    let task = task(alloc, cat, block)?;
    let mut line = Vec::new(alloc);
    for slot in 0..task.slots {
        add_ways(alloc, &mut line, &offers, &words, slot)?;
    }
    Ok(line)
}

/// The ways to read the slots of a SELECT, with each of its candidates on or off, as a line.
fn ways_of(rt: &impl Abort, alloc: Global, cat: &Catalogue, text: &[u8], on: bool) -> Vec<u8> {
    let read = statements_of(rt, alloc, cat, text);
    let found = candidates_of(rt, alloc, cat, text);
    let config = Config { on: [on; 256] };
    let statement = read.items.get(0).expect(rt, "a statement");
    match &statement.work {
        Work::Select(block) => {
            ways(alloc, cat, block, found.list.as_slice(), &config).expect(rt, "memory")
        }
        _ => panic!(rt; "no query"),
    }
}

#[test]
fn ways_to_read_by_hand(rt: HostRuntime) {
    let alloc = rt.alloc();
    let cat = catalogue_of(&rt, alloc, CATALOGUE.as_bytes());
    for (cases, on) in [(EXISTING, false), (PROPOSED, true)].iter() {
        for case in cases.lines() {
            let (wanted, text) = case.split_once('|').expect(&rt, "a bar");
            let line = ways_of(&rt, alloc, &cat, text.as_bytes(), *on);
            assert!(rt; line.as_slice() == wanted.as_bytes(), "in {text}");
        }
    }
}
