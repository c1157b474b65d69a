//! The texts of refusals.
ghost use Rattle.std.specs.Prelude.{◌≡◌, ◌++◌, OnOk, Some, codes, map, slice_get, string_bytes};
ghost use Rattle.report.specs.Texts.{role_word, third_word, file_name as name_of_file, rule_fault, cat_fault, sql_fault, bind_fault, combinations, edit_fault, refusal};
ghost use Rattle.report.specs.Words.{numbered};
ghost use Rattle.report.specs.Paths.{path_text};

use crate::path::push_path;
use crate::usage::{push_both, push_numbered};
use crate::{EditFault, Refusal, Role};
use binder::BindFault;
use catalogue::{CatFault, KeyPath};
use dba_rules::RuleFault;
use sql_reader::SqlFault;
use std::alloc::{AllocError, Global};

/// Adds the name of a file, as the words give it; nothing where there is no such word.
#[tactic(auto, unfolding(crate::specs::Texts::file_name))]
fn push_file_name(out: &mut Vec<u8>, words: &[String], role: Role) -> Result<(), AllocError>
    ensures { OnOk result (out.new.items ≡ out.old.items ++ name_of_file (map string_bytes words.now) role) }
{
    match words.get(role_index(words, role)) {
        Some(word) => out.extend_from_slice(word.as_bytes()),
        None => Ok(()),
    }
}

/// Adds words and the name of a file.
pub(crate) fn push_about_file(
    out: &mut Vec<u8>,
    text: &[u8],
    words: &[String],
    role: Role,
) -> Result<(), AllocError>
    ensures { OnOk result (out.new.items ≡ out.old.items ++ (text.now ++ name_of_file (map string_bytes words.now) role)) }
{
    out.extend_from_slice(text)?;
    push_file_name(out, words, role)
}

/// The number of the word that names the third file of this command, from 0.
fn third_of(command: &[u8]) -> usize
    ensures { result ≡ third_word (Some command.now) }
{
    if command == b"ruled".as_slice() { 4 } else { 3 }
}

/// The number of the word that names the third file, from 0: `ruled` has its budget before it.
fn third_index(words: &[String]) -> usize
    ensures { result ≡ third_word (slice_get (map string_bytes words.now) 0) }
{
    match words.first() {
        Some(command) => third_of(command.as_bytes()),
        None => 3,
    }
}

/// The number of the word that names a file, from 0.
fn role_index(words: &[String], role: Role) -> usize
    ensures { result ≡ role_word (map string_bytes words.now) role }
{
    match role {
        Role::Catalogue => 1,
        Role::Workload => 2,
        Role::Third => third_index(words),
        Role::Fourth => 4,
    }
}

/// Adds words and the path of a key.
fn push_at_path(
    alloc: Global,
    out: &mut Vec<u8>,
    words: &[u8],
    path: KeyPath,
) -> Result<(), AllocError>
    ensures { OnOk result (out.new.items ≡ out.old.items ++ (words.now ++ path_text path)) }
{
    out.extend_from_slice(words)?;
    push_path(alloc, out, path)?;
    Ok(())
}

/// Adds a fault of the catalogue.
fn push_cat_fault(alloc: Global, out: &mut Vec<u8>, fault: CatFault) -> Result<(), AllocError>
    ensures { OnOk result (out.new.items ≡ out.old.items ++ cat_fault fault) }
{
    match fault {
        CatFault::Memory => Ok(()),
        CatFault::NotToml => out.extend_from_slice(b"not toml"),
        CatFault::Missing(path) => push_at_path(alloc, out, b"missing ", path),
        CatFault::WrongKind(path) => push_at_path(alloc, out, b"wrong kind ", path),
        CatFault::OutOfRange(path) => push_at_path(alloc, out, b"out of range ", path),
        CatFault::TwoNames(path) => push_at_path(alloc, out, b"name twice ", path),
        CatFault::UnknownName(path) => push_at_path(alloc, out, b"unknown name ", path),
    }
}

/// Adds a fault of the workload's text.
fn push_sql_fault(alloc: Global, out: &mut Vec<u8>, fault: SqlFault) -> Result<(), AllocError>
    ensures { OnOk result (out.new.items ≡ out.old.items ++ sql_fault fault) }
{
    match fault {
        SqlFault::Memory => Ok(()),
        SqlFault::BadByte(p) => push_numbered(alloc, out, b"bad byte at ", p as u128),
        SqlFault::OpenText(p) => push_numbered(alloc, out, b"open text at ", p as u128),
        SqlFault::Syntax(p) => push_numbered(alloc, out, b"syntax at ", p as u128),
        SqlFault::Unsupported(p) => push_numbered(alloc, out, b"unsupported at ", p as u128),
        SqlFault::BadWeight(p) => push_numbered(alloc, out, b"bad weight at ", p as u128),
        SqlFault::TooManyStatements(p) => {
            push_numbered(alloc, out, b"more than 1000 statements at ", p as u128)
        }
    }
}

/// Adds a fault of the workload's names.
fn push_bind_fault(alloc: Global, out: &mut Vec<u8>, fault: BindFault) -> Result<(), AllocError>
    ensures { OnOk result (out.new.items ≡ out.old.items ++ bind_fault fault) }
{
    match fault {
        BindFault::Memory => Ok(()),
        BindFault::NoTable(p) => push_numbered(alloc, out, b"no table at ", p as u128),
        BindFault::NoColumn(p) => push_numbered(alloc, out, b"no column at ", p as u128),
        BindFault::Ambiguous(p) => push_numbered(alloc, out, b"ambiguous at ", p as u128),
        BindFault::TwoAliases(p) => push_numbered(alloc, out, b"alias twice at ", p as u128),
        BindFault::TooManySlots(p) => {
            push_numbered(alloc, out, b"more than 8 slots at ", p as u128)
        }
        BindFault::Unjoined(p) => push_numbered(alloc, out, b"unjoined at ", p as u128),
        BindFault::TooManySlotsInAll(p) => {
            push_numbered(alloc, out, b"more than 2000 slots at ", p as u128)
        }
    }
}

/// Adds a fault of rules.
fn push_rule_fault(alloc: Global, out: &mut Vec<u8>, fault: RuleFault) -> Result<(), AllocError>
    ensures { OnOk result (out.new.items ≡ out.old.items ++ rule_fault fault) }
{
    match fault {
        RuleFault::Memory => Ok(()),
        RuleFault::BadLine(n) => push_numbered(alloc, out, b"rules line ", n as u128),
        RuleFault::NoTable(n) => push_numbered(alloc, out, b"rules no table at line ", n as u128),
        RuleFault::NoColumn(n) => push_numbered(alloc, out, b"rules no column at line ", n as u128),
        RuleFault::NotCandidate(n) => {
            push_numbered(alloc, out, b"rules no candidate at line ", n as u128)
        }
        RuleFault::Contrary(n, candidate) => push_both(
            alloc,
            out,
            b"rules line ",
            n as u128,
            b" contradicts on ",
            candidate as u128,
        ),
        RuleFault::TooLarge(size, budget) => {
            push_both(alloc, out, b"rules need ", size, b" over ", budget as u128)
        }
        RuleFault::Clash(first, second) => push_both(
            alloc,
            out,
            b"rules clash on ",
            first as u128,
            b" and ",
            second as u128,
        ),
    }
}

/// Adds how many combinations of interesting orders a statement has.
fn push_combinations(
    alloc: Global,
    out: &mut Vec<u8>,
    number: u32,
    count: u64,
) -> Result<(), AllocError>
    ensures { OnOk result (out.new.items ≡ out.old.items ++ combinations number count) }
{
    push_numbered(alloc, out, b"statement ", number as u128)?;
    push_numbered(alloc, out, b" has ", count as u128)?;
    out.extend_from_slice(b" combinations")
}

/// Adds a fault of an edit.
fn push_edit_fault(alloc: Global, out: &mut Vec<u8>, fault: EditFault) -> Result<(), AllocError>
    ensures { OnOk result (out.new.items ≡ out.old.items ++ edit_fault fault) }
{
    match fault {
        EditFault::BadLine => out.extend_from_slice(b"bad line"),
        EditFault::Sql(fault) => push_sql_fault(alloc, out, fault),
        EditFault::Bind(fault) => push_bind_fault(alloc, out, fault),
        EditFault::NoStatement(n) => push_numbered(alloc, out, b"no statement ", n as u128),
        EditFault::TooManyStatements => out.extend_from_slice(b"more than 1000 statements"),
        EditFault::TooManySlots => out.extend_from_slice(b"more than 2000 slots"),
        EditFault::TooManyCombinations(number, count) => {
            push_combinations(alloc, out, number, count)
        }
    }
}

/// Adds the line of an edit and its fault.
fn push_edit(
    alloc: Global,
    out: &mut Vec<u8>,
    line: u32,
    fault: EditFault,
) -> Result<(), AllocError>
    ensures { OnOk result (out.new.items ≡ out.old.items ++ (numbered (codes "edit line ") line ++ (codes ": " ++ edit_fault fault))) }
{
    push_numbered(alloc, out, b"edit line ", line as u128)?;
    out.extend_from_slice(b": ")?;
    push_edit_fault(alloc, out, fault)
}

/// Adds a refusal.
pub(crate) fn push_refusal(
    alloc: Global,
    out: &mut Vec<u8>,
    words: &[String],
    why: Refusal,
) -> Result<(), AllocError>
    ensures { OnOk result (out.new.items ≡ out.old.items ++ refusal (map string_bytes words.now) why) }
{
    match why {
        Refusal::TooLong(role) => push_about_file(out, b"too long ", words, role),
        Refusal::Cat(fault) => push_cat_fault(alloc, out, fault),
        Refusal::Sql(fault) => push_sql_fault(alloc, out, fault),
        Refusal::Bind(fault) => push_bind_fault(alloc, out, fault),
        Refusal::NoStatement(number, count) => push_both(
            alloc,
            out,
            b"no statement ",
            number as u128,
            b" of ",
            count as u128,
        ),
        Refusal::BadConf(line) => {
            push_numbered(alloc, out, b"configuration line ", line as u128)
        }
        Refusal::Rules(fault) => push_rule_fault(alloc, out, fault),
        Refusal::TooManyCombinations(number, count) => {
            push_combinations(alloc, out, number, count)
        }
        Refusal::FoldTooLong(length) => {
            push_numbered(alloc, out, b"folded workload too long ", length as u128)
        }
        Refusal::Edit(line, fault) => push_edit(alloc, out, line, fault),
    }
}
