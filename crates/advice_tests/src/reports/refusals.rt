//! The texts of refusals.
use crate::reports::asserts::assert_text;
use crate::reports::keys::KEYS;
use binder::BindFault;
use catalogue::{CatFault, KeyField, KeyPart, KeyPath};
use report::{Done, Refusal, Role};
use sql_reader::SqlFault;
use std::alloc::Global;
use std::process::Abort;

/// The faults of a catalogue, a path, `|`, and the text behind `refused: `. A path is the number of a table, a part, the
/// number of the column or index, a key, and the number of the element.
const CATALOGUE_FAULTS: &str = "NotToml 2 Index 1 Keys 2|not toml
Missing 2 Index 1 Keys 2|missing table[2].index[1].keys[2]
WrongKind 2 Index 1 Keys 2|wrong kind table[2].index[1].keys[2]
OutOfRange 2 Index 1 Keys 2|out of range table[2].index[1].keys[2]
TwoNames 2 Index 1 Keys 2|name twice table[2].index[1].keys[2]
UnknownName 2 Index 1 Keys 2|unknown name table[2].index[1].keys[2]
Missing 0 Whole 0 Version 0|missing version
Missing 0 Rates 0 Itself 0|missing rates
Missing 0 Rates 0 SeqPage 0|missing rates.seq_page
Missing 0 Rates 0 RandPage 0|missing rates.rand_page
Missing 0 Rates 0 RowCpu 0|missing rates.row_cpu
Missing 0 Rates 0 SortCpu 0|missing rates.sort_cpu
Missing 0 Rates 0 MergeCpu 0|missing rates.merge_cpu
Missing 0 Rates 0 HashCpu 0|missing rates.hash_cpu
Missing 0 Rates 0 GroupCpu 0|missing rates.group_cpu
Missing 0 Table 0 Itself 0|missing table
Missing 2 Table 0 Itself 0|missing table[2]
Missing 2 Table 0 Name 0|missing table[2].name
Missing 2 Table 0 Rows 0|missing table[2].rows
Missing 2 Table 0 Pages 0|missing table[2].pages
Missing 2 Table 0 MayCluster 0|missing table[2].may_cluster
Missing 2 Table 0 Columns 0|missing table[2].column
Missing 2 Column 1 Itself 0|missing table[2].column[1]
Missing 2 Column 1 Kind 0|missing table[2].column[1].kind
Missing 2 Column 1 Width 0|missing table[2].column[1].width
Missing 2 Column 1 Distinct 0|missing table[2].column[1].distinct
Missing 2 Column 1 Low 0|missing table[2].column[1].low
Missing 2 Column 1 High 0|missing table[2].column[1].high
Missing 2 Column 1 Bounds 0|missing table[2].column[1].bounds
OutOfRange 2 Column 1 Bounds 257|out of range table[2].column[1].bounds[257]
Missing 2 Table 0 Indexes 0|missing table[2].index
Missing 2 Index 1 Itself 0|missing table[2].index[1]
Missing 2 Index 1 Keys 0|missing table[2].index[1].keys
Missing 2 Index 1 Unique 0|missing table[2].index[1].unique
Missing 2 Index 1 Clustered 0|missing table[2].index[1].clustered
Missing 200 Index 1000 Keys 8|missing table[200].index[1000].keys[8]";

/// The next word of a line, and what follows it.
fn next_word<'a>(rt: &impl Abort, line: &'a str) -> (&'a str, &'a str) {
    line.split_once(' ').expect(rt, "a word")
}

/// The next word of a line as a number, and what follows it.
fn next_number<'a>(rt: &impl Abort, line: &'a str) -> (u32, &'a str) {
    let (word, rest) = next_word(rt, line);
    (word.parse::<u32>().expect(rt, "a number"), rest)
}

/// The part of a catalogue of a name.
fn part_of(name: &str) -> Option<KeyPart> {
    match name {
        "Whole" => Some(KeyPart::Whole),
        "Rates" => Some(KeyPart::Rates),
        "Table" => Some(KeyPart::Table),
        "Column" => Some(KeyPart::Column),
        "Index" => Some(KeyPart::Index),
        _ => None,
    }
}

/// The key of a name.
fn key_of(rt: &impl Abort, alloc: Global, name: &str) -> KeyField {
    for key in KEYS {
        let text = format!(in alloc; "{key:?}").expect(rt, "memory");
        if text.as_str() == name {
            return key;
        }
    }
    panic!(rt; "no key {name}")
}

/// The path that words say.
fn path_of(rt: &impl Abort, alloc: Global, words: &str) -> KeyPath {
    let (table, rest) = next_number(rt, words);
    let (part, rest) = next_word(rt, rest);
    let (item, rest) = next_number(rt, rest);
    let (field, at) = next_word(rt, rest);
    KeyPath {
        table,
        part: part_of(part).expect(rt, "a part"),
        item,
        field: key_of(rt, alloc, field),
        at: at.parse::<u32>().expect(rt, "a number"),
    }
}

/// The fault of a catalogue of a name, at a path.
fn catalogue_fault(name: &str, path: KeyPath) -> Option<CatFault> {
    match name {
        "NotToml" => Some(CatFault::NotToml),
        "Missing" => Some(CatFault::Missing(path)),
        "WrongKind" => Some(CatFault::WrongKind(path)),
        "OutOfRange" => Some(CatFault::OutOfRange(path)),
        "TwoNames" => Some(CatFault::TwoNames(path)),
        "UnknownName" => Some(CatFault::UnknownName(path)),
        _ => None,
    }
}

/// The text of a refusal.
fn assert_refusal(rt: &impl Abort, alloc: Global, refusal: Refusal, want: &str) {
    let want = format!(in alloc; "refused: {want}\n").expect(rt, "memory");
    assert_text(rt, alloc, &Done::Refused(refusal), None, want.as_str());
}

#[test]
fn refusals(rt: HostRuntime) {
    for (refusal, want) in [
        (Refusal::TooLong(Role::Catalogue), "too long shop.toml"),
        (Refusal::TooLong(Role::Workload), "too long load.sql"),
        (Refusal::TooLong(Role::Third), "too long none.conf"),
        (Refusal::Sql(SqlFault::BadByte(8)), "bad byte at 8"),
        (Refusal::Sql(SqlFault::OpenText(8)), "open text at 8"),
        (Refusal::Sql(SqlFault::Syntax(14)), "syntax at 14"),
        (Refusal::Sql(SqlFault::Unsupported(29)), "unsupported at 29"),
        (Refusal::Sql(SqlFault::BadWeight(1)), "bad weight at 1"),
        (
            Refusal::Sql(SqlFault::TooManyStatements(17001)),
            "more than 1000 statements at 17001",
        ),
        (Refusal::Bind(BindFault::NoTable(15)), "no table at 15"),
        (Refusal::Bind(BindFault::NoColumn(10)), "no column at 10"),
        (Refusal::Bind(BindFault::Ambiguous(8)), "ambiguous at 8"),
        (
            Refusal::Bind(BindFault::TwoAliases(18)),
            "alias twice at 18",
        ),
        (
            Refusal::Bind(BindFault::TooManySlots(62)),
            "more than 8 slots at 62",
        ),
        (Refusal::Bind(BindFault::Unjoined(1)), "unjoined at 1"),
        (
            Refusal::Bind(BindFault::TooManySlotsInAll(23001)),
            "more than 2000 slots at 23001",
        ),
        (Refusal::NoStatement(2, 1), "no statement 2 of 1"),
        (Refusal::BadConf(10), "configuration line 10"),
        (
            Refusal::TooManyCombinations(3, 4480),
            "statement 3 has 4480 combinations",
        ),
    ] {
        assert_refusal(&rt, rt.alloc(), refusal, want);
    }
}

#[test]
fn refusals_of_a_catalogue(rt: HostRuntime) {
    for line in CATALOGUE_FAULTS.lines() {
        let (why, want) = line.split_once('|').expect(&rt, "a bar");
        let (name, path) = next_word(&rt, why);
        let path = path_of(&rt, rt.alloc(), path);
        let fault = catalogue_fault(name, path).expect(&rt, "a fault");
        assert_refusal(&rt, rt.alloc(), Refusal::Cat(fault), want);
    }
}
