//! The texts of prices, of candidates and plans, of a folded workload, and of faults.
ghost use Rattle.std.specs.Prelude.{◌≡◌, ◌++◌, OnOk, All, length, map, codes, string_bytes, option_map, Some};
ghost use Rattle.adv_base.specs.Named.{NamesShape};
ghost use Rattle.adv_base.specs.Settings.{the_setting};
ghost use Rattle.report.specs.Texts.{size_line, cost_line, cost_lines, prices_text, plan_part, explained_text, folding_text, word_fault, file_name, refusal, statements_in, listed_text, AreNamedIn};
ghost use Rattle.report.specs.Words.{line, numbered};

use crate::advised::push_line_of;
use crate::listed::push_candidates;
use crate::refusal::{push_about_file, push_refusal};
use crate::usage::{push_both, push_numbered, push_word_fault};
use crate::{Explained, FoldDone, Prices, Refusal, Role, WordFault};
use adv_base::{Setting, Statement};
use candidates::Candidates;
use std::alloc::{AllocError, Global};

/// Adds the pages of a configuration, where there is one.
fn push_size(alloc: Global, out: &mut Vec<u8>, size: Option<u128>) -> Result<(), AllocError>
    ensures { OnOk result (out.new.items ≡ out.old.items ++ size_line size) }
{
    match size {
        None => Ok(()),
        Some(pages) => push_line_of(alloc, out, b"size ", pages),
    }
}

/// Adds the line of a statement.
#[tactic(auto, unfolding(crate::specs::Texts::cost_line))]
fn push_cost(
    alloc: Global,
    out: &mut Vec<u8>,
    number: u128,
    weight: u32,
    cost: u128,
) -> Result<(), AllocError>
    ensures { OnOk result (out.new.items ≡ out.old.items ++ cost_line number weight cost) }
{
    push_numbered(alloc, out, b"statement ", number)?;
    push_numbered(alloc, out, b" weight ", weight as u128)?;
    push_numbered(alloc, out, b" cost ", cost)?;
    out.extend_from_slice(b"\n")
}

/// Adds the lines of the statements.
fn push_costs(
    alloc: Global,
    out: &mut Vec<u8>,
    statements: &[Statement],
    costs: &[u128],
) -> Result<(), AllocError>
    requires { length costs.now ≡ length statements.now }
    ensures { OnOk result (out.new.items ≡ out.old.items ++ cost_lines 1 statements.now costs.now) }
{
    'costs: for at in 0..costs.len() {
        let statement = &statements[at];
        push_cost(alloc, out, at as u128 + 1, statement.weight, costs[at])?;
    }
    Ok(())
}

/// Adds the text of prices.
pub(crate) fn push_prices(
    alloc: Global,
    out: &mut Vec<u8>,
    statements: &[Statement],
    prices: &Prices,
) -> Result<(), AllocError>
    requires { length prices.now.costs ≡ length statements.now }
    ensures { OnOk result (out.new.items ≡ out.old.items ++ prices_text statements.now prices.now) }
{
    push_size(alloc, out, prices.size)?;
    push_costs(alloc, out, statements, prices.costs.as_slice())?;
    push_line_of(alloc, out, b"total ", prices.total)
}

/// Adds the text of candidates of a setting.
fn push_found(
    alloc: Global,
    out: &mut Vec<u8>,
    setting: &Setting<'_>,
    found: &Candidates,
) -> Result<(), AllocError>
    requires { All (NamesShape setting.now.cat.now) found.now.list }
    ensures { OnOk result (out.new.items ≡ out.old.items ++ listed_text (Some (the_setting setting.now)) found.now) }
{
    push_candidates(alloc, out, setting.cat, found.list.as_slice())?;
    push_line_of(alloc, out, b"left over ", found.left_over as u128)
}

/// Adds the text of candidates over the setting that is there.
pub(crate) fn push_listed(
    alloc: Global,
    out: &mut Vec<u8>,
    setting: Option<&Setting<'_>>,
    found: &Candidates,
) -> Result<(), AllocError>
    requires { AreNamedIn (option_map (λ s. the_setting s.now) setting) found.now }
    ensures { OnOk result (out.new.items ≡ out.old.items ++ listed_text (option_map (λ s. the_setting s.now) setting.entry) found.now) }
{
    match setting {
        None => Ok(()),
        Some(setting) => push_found(alloc, out, setting, found),
    }
}

/// Adds what a plan costs.
fn push_plan(alloc: Global, out: &mut Vec<u8>, explained: &Explained) -> Result<(), AllocError>
    ensures { OnOk result (out.new.items ≡ out.old.items ++ plan_part explained.now) }
{
    match explained.plan {
        None => out.extend_from_slice(b" insert"),
        Some(_) => push_numbered(alloc, out, b" plan ", explained.cost),
    }
}

/// Adds the text of an explained plan.
pub(crate) fn push_explained(
    alloc: Global,
    out: &mut Vec<u8>,
    explained: &Explained,
) -> Result<(), AllocError>
    ensures { OnOk result (out.new.items ≡ out.old.items ++ explained_text explained.now) }
{
    push_numbered(alloc, out, b"statement ", explained.number as u128)?;
    push_plan(alloc, out, explained)?;
    push_numbered(alloc, out, b" upkeep ", explained.upkeep)?;
    out.extend_from_slice(b"\n")?;
    out.extend_from_slice(explained.text.as_slice())
}

/// Adds the line of a faulty command line.
pub(crate) fn push_usage(
    alloc: Global,
    out: &mut Vec<u8>,
    fault: WordFault,
) -> Result<(), AllocError>
    ensures { OnOk result (out.new.items ≡ out.old.items ++ line (codes "usage: " ++ word_fault fault)) }
{
    out.extend_from_slice(b"usage: ")?;
    push_word_fault(alloc, out, fault)?;
    out.extend_from_slice(b"\n")
}

/// Adds the line of a file that could not be read.
pub(crate) fn push_read_fault(
    out: &mut Vec<u8>,
    words: &[String],
    role: Role,
) -> Result<(), AllocError>
    ensures { OnOk result (out.new.items ≡ out.old.items
        ++ line (codes "read fault: " ++ file_name (map string_bytes words.now) role)) }
{
    push_about_file(out, b"read fault: ", words, role)?;
    out.extend_from_slice(b"\n")
}

/// Adds the line of a refusal.
pub(crate) fn push_refused(
    alloc: Global,
    out: &mut Vec<u8>,
    words: &[String],
    why: Refusal,
) -> Result<(), AllocError>
    ensures { OnOk result (out.new.items ≡ out.old.items
        ++ line (codes "refused: " ++ refusal (map string_bytes words.now) why)) }
{
    out.extend_from_slice(b"refused: ")?;
    push_refusal(alloc, out, words, why)?;
    out.extend_from_slice(b"\n")
}

/// Adds how many statements a workload has, into how many it was folded, and what both cost.
fn push_folding(alloc: Global, out: &mut Vec<u8>, folded: &FoldDone) -> Result<(), AllocError>
    ensures { OnOk result (out.new.items ≡ out.old.items ++ (numbered (codes "statements ") folded.now.statements
        ++ (numbered (codes " folded ") folded.now.groups ++ numbered (codes " total ") folded.now.total))) }
{
    push_numbered(alloc, out, b"statements ", folded.statements as u128)?;
    let groups = folded.groups as u128;
    push_both(alloc, out, b" folded ", groups, b" total ", folded.total)
}

/// Adds the line of a folded workload.
pub(crate) fn push_folded(
    alloc: Global,
    out: &mut Vec<u8>,
    folded: &FoldDone,
) -> Result<(), AllocError>
    ensures { OnOk result (out.new.items ≡ out.old.items ++ folding_text folded.now) }
{
    push_folding(alloc, out, folded)?;
    out.extend_from_slice(b"\n")
}

/// The statements of a setting, where there is one.
pub(crate) fn statements_of<'a>(setting: Option<&Setting<'a>>) -> &'a [Statement]
    ensures { result.now ≡ statements_in (option_map (λ s. the_setting s.now) setting.entry) }
{
    match setting {
        None => &[],
        Some(setting) => setting.statements,
    }
}
