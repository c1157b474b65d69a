//! Catalogues, workloads, their candidates, and settings, from texts.
ghost use Rattle.std.specs.Prelude.{◌≤◌, All, length, sum_by};
ghost use Rattle.adv_base.specs.Limits.Settings.{SettingLimits, slot_count};
ghost use Rattle.adv_base.specs.Named.{NamesShape, NamesWork};
ghost use Rattle.adv_base.specs.declared.limits.TheConstants.{MOST_CANDIDATES, MOST_SLOTS_IN_ALL, MOST_STATEMENTS};

use adv_base::{Catalogue, IndexShape, List, Setting, Statement};
use binder::bind;
use candidates::{Candidates, candidates};
use catalogue::read_catalogue;
use sql_reader::read_workload;
use std::alloc::Global;
use std::process::Abort;

/// A catalogue, the statements of a workload over it, and the candidates that the workload proposes.
#[derive(Drop)]
pub(crate) struct Opened {
    pub cat: Catalogue,
    pub statements: List<Statement>,
    pub shapes: List<IndexShape>,
    pub ghost limits: { SettingLimits cat statements shapes },
}

impl Opened {
    /// The setting.
    pub(crate) fn setting(&self) -> Setting<'_> {
        Setting {
            cat: &self.cat,
            statements: self.statements.as_slice(),
            shapes: self.shapes.as_slice(),
        }
    }
}

/// The catalogue of a text.
pub(crate) fn catalogue_of(rt: &impl Abort, alloc: Global, text: &[u8]) -> Catalogue {
    match read_catalogue(alloc, text) {
        Ok(cat) => cat,
        Err(_) => panic!(rt; "no catalogue"),
    }
}

/// The catalogue of a table of 32 columns.
pub(crate) fn wide_catalogue(rt: &impl Abort, alloc: Global) -> Catalogue {
    let mut text = String::new(alloc);
    text.push_str("version = 1\n[[table]]\nname = \"w\"\nrows = 100000\npages = 2000\ncolumn = [")
        .expect(rt, "memory");
    for column in 0..32 {
        let one = format!(in alloc;
            "{{ name = \"c{column}\", kind = \"int\", width = 4, distinct = 1000 }}, "
        ).expect(rt, "memory");
        text.push_str(one.as_str()).expect(rt, "memory");
    }
    text.push_str("]\n").expect(rt, "memory");
    catalogue_of(rt, alloc, text.as_bytes())
}

/// The statements of a workload.
pub(crate) fn statements_of(
    rt: &impl Abort,
    alloc: Global,
    cat: &Catalogue,
    text: &[u8],
) -> List<Statement>
    ensures named { All (λ statement. NamesWork cat.now statement.work) result }
    ensures most { length result ≤ MOST_STATEMENTS }
    ensures few { sum_by (λ statement. slot_count statement.work) result ≤ MOST_SLOTS_IN_ALL }
{
    assert!(rt; text.len() < 100_000_000);
    let parsed = read_workload(alloc, text).ok().expect(rt, "a workload");
    match bind(alloc, cat, &parsed) {
        Ok(statements) => statements,
        Err(_) => panic!(rt; "names without meaning"),
    }
}

/// The one statement of a text.
pub(crate) fn statement_of(rt: &impl Abort, alloc: Global, cat: &Catalogue, text: &str) -> Statement
    ensures { NamesWork cat.now result.work }
{
    let mut list = statements_of(rt, alloc, cat, text.as_bytes()).items;
    list.pop().expect(rt, "a statement")
}

/// What statements propose.
pub(crate) fn proposed(
    rt: &impl Abort,
    alloc: Global,
    cat: &Catalogue,
    statements: &[Statement],
) -> Candidates
    requires { All (λ statement. NamesWork cat.now statement.work) statements.now }
    ensures few { length result.list ≤ MOST_CANDIDATES }
    ensures named { All (NamesShape cat.now) result.list }
{
    candidates(alloc, cat, statements).expect(rt, "memory")
}

/// The candidates of a workload, and how many proposals more there were.
pub(crate) fn candidates_of(
    rt: &impl Abort,
    alloc: Global,
    cat: &Catalogue,
    text: &[u8],
) -> Candidates
    ensures { All (NamesShape cat.now) result.list }
{
    let statements = statements_of(rt, alloc, cat, text);
    proposed(rt, alloc, cat, statements.as_slice())
}

/// What a catalogue and a workload describe.
pub(crate) fn open(rt: &impl Abort, alloc: Global, cat: &[u8], load: &[u8]) -> Opened {
    let cat = catalogue_of(rt, alloc, cat);
    let statements = statements_of(rt, alloc, &cat, load);
    let shapes = proposed(rt, alloc, &cat, statements.as_slice()).list;
    Opened {
        cat,
        statements,
        shapes,
    }
}
