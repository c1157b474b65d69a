//! Statements that change rows.
ghost use Rattle.std.specs.Prelude.{◌≡◌, ◌<◌, length, IfOk, Ok, All};
ghost use Rattle.adv_base.specs.Limits.Works.{ChangeLimits};
ghost use Rattle.binder.specs.Blocks as blocks;
ghost use Rattle.binder.specs.Conditions.{tests_of};
ghost use Rattle.binder.specs.Items.{columns_of};
ghost use Rattle.binder.specs.Limits.{ConditionsLimits, IsShort, NameLimits, SourceLimits};
ghost use Rattle.binder.specs.Names.{place};
ghost use Rattle.binder.specs.Plain as plain;
ghost use Rattle.binder.specs.Plain.{plain_block};
ghost use Rattle.binder.specs.Faults as faults;
ghost use Rattle.binder.specs.Faults.{Gives};
ghost use Rattle.binder.specs.Statements as meant;
ghost use Rattle.binder.specs.View.{names_of, plain_tests};

use crate::conditions::tests;
use crate::directory::Directory;
use crate::fault::BindFault;
use crate::gathered::{SlotColumn, Tests};
use crate::items::columns;
use crate::names::word;
use crate::needed::slots;
use crate::scope::Scope;
use crate::sources::{table_meant, visible};
use adv_base::{Block, List};
use sql_reader::{Condition, NameUse, Source};
use sql_tokens::Span;
use std::alloc::{AllocError, Global};

/// The one source of a statement that changes rows, as names see it.
fn one_source<'a>(
    alloc: Global,
    directory: &'a Directory<'a>,
    text: &'a [u8],
    source: Source,
) -> Result<Scope<'a>, BindFault>
    requires { SourceLimits source }
    ensures exact { Gives names_of result (blocks.one_source directory.now.cat.now text.now source) }
    ensures one { IfOk result (λ scope. length scope.sources ≡ 1) }
{
    let table = table_meant(alloc, directory, text, source.table)?;
    let new = visible(alloc, directory, text, source.alias, table)?;
    let mut items = Vec::new(alloc);
    items.push(new)?;
    Ok(Scope {
        directory,
        text,
        sources: List { items },
    })
}

/// The column of a name in a table that a statement writes to.
fn written_column(
    alloc: Global,
    directory: &Directory<'_>,
    text: &[u8],
    table: u16,
    name: NameUse,
) -> Result<u16, BindFault>
    requires { NameLimits name }
    ensures { Gives (λ c. c) result (blocks.written_column directory.now.cat.now text.now table name) }
{
    let word = word(alloc, text, name.name)?;
    match directory.column(table, word.as_slice()) {
        Some(column) => Ok(column),
        None => Err(BindFault::NoColumn(name.name.place())),
    }
}

/// The columns of names in a table that a statement writes to.
fn written_columns(
    alloc: Global,
    directory: &Directory<'_>,
    text: &[u8],
    table: u16,
    names: &[NameUse],
) -> Result<List<u16>, BindFault>
    requires { All NameLimits names.now }
    ensures { Gives (λ x. x) result (blocks.written_columns directory.now.cat.now text.now table names.now) }
{
    let mut items = Vec::new(alloc);
    for name in names {
        let column = written_column(alloc, directory, text, table, *name)?;
        items.push(column)?;
    }
    Ok(List { items })
}

/// The block of a statement that changes the rows of its one source, with the columns that it mentions.
fn change_block(
    alloc: Global,
    scope: &Scope<'_>,
    conditions: &[Condition],
    tests: Tests,
    mentions: &[SlotColumn],
) -> Result<Block, AllocError>
    requires one { length scope.now.sources ≡ 1 }
    requires limits { ConditionsLimits conditions.now }
    requires bound { tests_of (names_of scope.now) conditions.now ≡ Ok (plain_tests tests) }
    ensures exact { IfOk result (λ block. plain_block block ≡ blocks.change_block (names_of scope.now) (plain_tests tests) mentions.now) }
    ensures limits { IfOk result ChangeLimits }
{
    let cat = scope.directory.cat;
    let slots = slots(alloc, cat, &[], mentions, scope.sources.as_slice())?;
    Ok(Block {
        slots,
        preds: tests.preds,
        edges: tests.edges,
        group: None,
        order: List::new(alloc),
        may_cover: false,
    })
}

/// The block of such a statement with these conditions, which mentions these columns before them.
#[tactic(auto, unfolding(crate::specs::Blocks::changed_block))]
fn changed_block(
    alloc: Global,
    scope: &Scope<'_>,
    conditions: &[Condition],
    mut mentions: List<SlotColumn>,
) -> Result<Block, BindFault>
    requires one { length scope.now.sources ≡ 1 }
    requires limits { ConditionsLimits conditions.now }
    ensures exact { Gives plain_block result (blocks.changed_block (names_of scope.now) conditions.now mentions) }
    ensures limits { IfOk result ChangeLimits }
{
    let tests = tests(alloc, scope, conditions)?;
    mentions.items.extend_from_slice(tests.mentions.as_slice())?;
    Ok(change_block(alloc, scope, conditions, tests, mentions.as_slice())?)
}

/// The block of a DELETE.
#[tactic(auto, unfolding(crate::specs::Blocks::delete_of))]
pub fn delete_block(
    alloc: Global,
    directory: &Directory<'_>,
    text: &[u8],
    source: Source,
    conditions: &[Condition],
) -> Result<Block, BindFault>
    requires source_short { SourceLimits source }
    requires limits { ConditionsLimits conditions.now }
    ensures exact { Gives plain_block result (blocks.delete_of directory.now.cat.now text.now source conditions.now) }
    ensures limits { IfOk result ChangeLimits }
{
    let scope = one_source(alloc, directory, text, source)?;
    changed_block(alloc, &scope, conditions, List::new(alloc))
}

/// Where a fault stands in the text.
fn fault_place(fault: BindFault) -> u64
    ensures { result ≡ faults.fault_place fault }
{
    match fault {
        BindFault::Memory => 0,
        BindFault::NoTable(place)
        | BindFault::NoColumn(place)
        | BindFault::Ambiguous(place)
        | BindFault::TwoAliases(place)
        | BindFault::TooManySlots(place)
        | BindFault::Unjoined(place)
        | BindFault::TooManySlotsInAll(place) => place,
    }
}

/// The fault that stands first in the text; want of memory before all.
fn earlier(d: BindFault, e: BindFault) -> BindFault
    ensures { result ≡ faults.earlier d e }
{
    if fault_place(d) <= fault_place(e) {
        d
    } else {
        e
    }
}

/// The columns that SET sets and those on its right sides, which stand among each other.
fn set_clause(
    alloc: Global,
    scope: &Scope<'_>,
    names: &[NameUse],
    uses: &[NameUse],
) -> Result<(List<u16>, List<SlotColumn>), BindFault>
    requires one { length scope.now.sources ≡ 1 }
    requires names_short { All NameLimits names.now }
    requires uses_short { All NameLimits uses.now }
    ensures { let seen = names_of scope.now in
        Gives (λ x. x) result (faults.both (blocks.written_columns seen.cat seen.text (meant.first_table seen.sources) names.now) (columns_of seen uses.now)) }
{
    let table = scope.sources.items[0].table;
    let set = written_columns(alloc, scope.directory, scope.text, table, names);
    let used = columns(alloc, scope, uses);
    match (set, used) {
        (Ok(set), Ok(used)) => Ok((set, used)),
        (Ok(_), Err(e)) => Err(e),
        (Err(d), Ok(_)) => Err(d),
        (Err(d), Err(e)) => Err(earlier(d, e)),
    }
}

/// What an UPDATE does.
#[tactic(auto, unfolding(crate::specs::Statements::update_of))]
pub fn update_work(
    alloc: Global,
    directory: &Directory<'_>,
    text: &[u8],
    source: Source,
    names: &[NameUse],
    uses: &[NameUse],
    conditions: &[Condition],
) -> Result<(Block, List<u16>), BindFault>
    requires source_short { SourceLimits source }
    requires names_short { All NameLimits names.now }
    requires uses_short { All NameLimits uses.now }
    requires limits { ConditionsLimits conditions.now }
    ensures exact { Gives (λ x. plain.Update (plain_block x.0) x.1) result (meant.update_of directory.now.cat.now text.now source names.now uses.now conditions.now) }
    ensures limits { IfOk result (λ x. ChangeLimits x.0) }
{
    let scope = one_source(alloc, directory, text, source)?;
    let (set, used) = set_clause(alloc, &scope, names, uses)?;
    let block = changed_block(alloc, &scope, conditions, used)?;
    Ok((block, set))
}

/// Where the first of the tokens of a name stands.
fn first_place(name: NameUse) -> u64
    requires { NameLimits name }
    ensures { result ≡ place (meant.first_span name) }
{
    match name.qualifier {
        Some(span) => span.place(),
        None => name.name.place(),
    }
}

/// The table and the rows of an INSERT. No name has a meaning in VALUES.
#[tactic(auto, unfolding(crate::specs::Statements::insert_of))]
pub fn insert_table(
    alloc: Global,
    directory: &Directory<'_>,
    text: &[u8],
    table: Span,
    names: &[NameUse],
    uses: &[NameUse],
    rows: u64,
) -> Result<u16, BindFault>
    requires table_short { IsShort table }
    requires names_short { All NameLimits names.now }
    requires uses_short { All NameLimits uses.now }
    ensures { Gives (λ t. plain.Insert t rows) result (meant.insert_of directory.now.cat.now text.now table names.now uses.now rows) }
{
    let number = table_meant(alloc, directory, text, table)?;
    let _listed = written_columns(alloc, directory, text, number, names)?;
    match uses.first() {
        Some(name) => Err(BindFault::NoColumn(first_place(*name))),
        None => Ok(number),
    }
}
