//! The text of advice.
ghost use Rattle.std.specs.Prelude.{◌≡◌, ◌++◌, ◌≤◌, ◌==◌, OnOk, length, All, option_map};
ghost use Rattle.adv_base.specs.declared.limits.TheConstants.{MOST_CANDIDATES};
ghost use Rattle.adv_base.specs.Named.{NamesShape};
ghost use Rattle.report.specs.Listings as lists;
ghost use Rattle.adv_base.specs.Settings.{the_setting};
ghost use Rattle.report.specs.Advised.{gap, proposal_text, worth_text, end_word, search_text, advice_text};
ghost use Rattle.report.specs.Texts.{advised_text, rules_text, ruled_text, sizes_text, benched_text, IsBoundedBy, IsAdvice};
ghost use Rattle.report.specs.Words.{line, numbered};

use crate::listed::push_line;
use crate::usage::{push_numbered, push_signed};
use crate::{Advice, Bench, Ruled};
use adv_base::{Catalogue, Config, IndexShape, Setting};
use hypo_indexes::config_pages;
use std::alloc::{AllocError, Global};

/// The cost less the bound, which is at most the cost.
fn gap_of(cost: u128, bound: i128) -> u128
    requires { IsBoundedBy cost bound }
    ensures { result ≡ gap cost bound }
{
    if bound < 0 {
        cost + bound.unsigned_abs()
    } else {
        cost - bound as u128
    }
}

/// Adds the line of words and a number.
pub(crate) fn push_line_of(
    alloc: Global,
    out: &mut Vec<u8>,
    words: &[u8],
    number: u128,
) -> Result<(), AllocError>
    ensures { OnOk result (out.new.items ≡ out.old.items ++ line (numbered words.now number)) }
{
    push_numbered(alloc, out, words, number)?;
    out.extend_from_slice(b"\n")
}

/// Adds the budget and the number of candidates.
fn push_proposal(
    alloc: Global,
    out: &mut Vec<u8>,
    budget: u64,
    count: usize,
    left_over: u64,
) -> Result<(), AllocError>
    ensures { OnOk result (out.new.items ≡ out.old.items ++ proposal_text budget count left_over) }
{
    push_line_of(alloc, out, b"budget ", budget as u128)?;
    push_numbered(alloc, out, b"candidates ", count as u128)?;
    push_numbered(alloc, out, b" left over ", left_over as u128)?;
    out.extend_from_slice(b"\n")
}

/// Adds the line of a candidate, where it is picked.
fn push_pick(
    alloc: Global,
    out: &mut Vec<u8>,
    cat: &Catalogue,
    config: &Config,
    number: u16,
    shape: &IndexShape,
) -> Result<(), AllocError>
    requires { NamesShape cat.now shape.now }
    ensures { OnOk result (out.new.items ≡ out.old.items ++ lists.pick_line cat.now config.now number shape.now) }
{
    if !config.has(number) {
        return Ok(());
    }
    out.extend_from_slice(b"pick ")?;
    push_line(alloc, out, cat, number as u128, shape)
}

/// Adds a line for each candidate that is picked.
fn push_picks(
    alloc: Global,
    out: &mut Vec<u8>,
    cat: &Catalogue,
    config: &Config,
    shapes: &[IndexShape],
) -> Result<(), AllocError>
    requires few { length shapes.now ≤ MOST_CANDIDATES }
    requires named { All (NamesShape cat.now) shapes.now }
    ensures { OnOk result (out.new.items ≡ out.old.items ++ lists.pick_lines cat.now config.now 1 shapes.now) }
{
    'shapes: for at in 0..shapes.len() {
        push_pick(alloc, out, cat, config, at as u16 + 1, &shapes[at])?;
    }
    Ok(())
}

/// Adds the size of what is picked, the cost and the bound.
fn push_worth(
    alloc: Global,
    out: &mut Vec<u8>,
    size: u64,
    cost: u128,
    bound: i128,
) -> Result<(), AllocError>
    requires { IsBoundedBy cost bound }
    ensures { OnOk result (out.new.items ≡ out.old.items ++ worth_text size cost bound) }
{
    push_line_of(alloc, out, b"size ", size as u128)?;
    push_line_of(alloc, out, b"cost ", cost)?;
    push_signed(alloc, out, b"bound ", bound)?;
    out.extend_from_slice(b"\n")?;
    push_line_of(alloc, out, b"gap ", gap_of(cost, bound))
}

/// How a search ended that left this gap.
fn ending(left: u128) -> &'static [u8]
    ensures { result.now ≡ end_word left }
{
    if left == 0 { b"finished" } else { b"stopped" }
}

/// Adds the nodes of the search and how it ended.
fn push_search(
    alloc: Global,
    out: &mut Vec<u8>,
    made: usize,
    nodes: u32,
    left: u128,
) -> Result<(), AllocError>
    ensures { OnOk result (out.new.items ≡ out.old.items ++ search_text made nodes left) }
{
    push_numbered(alloc, out, b"nodes ", made as u128)?;
    push_numbered(alloc, out, b" of ", nodes as u128)?;
    out.extend_from_slice(b"\n")?;
    out.extend_from_slice(ending(left))?;
    out.extend_from_slice(b"\n")
}

/// Adds the text of advice over the candidates that it picks from.
pub(crate) fn push_advice(
    alloc: Global,
    out: &mut Vec<u8>,
    cat: &Catalogue,
    shapes: &[IndexShape],
    advice: &Advice,
) -> Result<(), AllocError>
    requires few { length shapes.now ≤ MOST_CANDIDATES }
    requires named { All (NamesShape cat.now) shapes.now }
    requires bounded { IsBoundedBy advice.now.answer.cost advice.now.answer.bound }
    ensures { OnOk result (out.new.items ≡ out.old.items ++ advice_text cat.now shapes.now advice.now) }
{
    let answer = &advice.answer;
    let left = gap_of(answer.cost, answer.bound);
    let size = config_pages(cat, shapes, &answer.config);
    push_proposal(alloc, out, advice.budget, shapes.len(), advice.left_over)?;
    push_picks(alloc, out, cat, &answer.config, shapes)?;
    push_worth(alloc, out, size, answer.cost, answer.bound)?;
    push_search(alloc, out, answer.tree.len(), advice.nodes, left)
}

/// Adds the text of advice over the setting that is there.
pub(crate) fn push_advised(
    alloc: Global,
    out: &mut Vec<u8>,
    setting: Option<&Setting<'_>>,
    advice: &Advice,
) -> Result<(), AllocError>
    requires { IsAdvice (option_map (λ s. the_setting s.now) setting) advice.now }
    ensures { OnOk result (out.new.items ≡ out.old.items ++ advised_text (option_map (λ s. the_setting s.now) setting.entry) advice.now) }
{
    match setting {
        None => Ok(()),
        Some(setting) => push_advice(alloc, out, setting.cat, setting.shapes, advice),
    }
}

/// Adds how many candidates rules make in, and how many out.
fn push_rules(alloc: Global, out: &mut Vec<u8>, must: u32, never: u32) -> Result<(), AllocError>
    ensures { OnOk result (out.new.items ≡ out.old.items ++ rules_text must never) }
{
    push_numbered(alloc, out, b"must ", must as u128)?;
    push_numbered(alloc, out, b" never ", never as u128)?;
    out.extend_from_slice(b"\n")
}

/// Adds the text of advice under rules, over the setting that is there.
pub(crate) fn push_ruled(
    alloc: Global,
    out: &mut Vec<u8>,
    setting: Option<&Setting<'_>>,
    ruled: &Ruled,
) -> Result<(), AllocError>
    requires { IsAdvice (option_map (λ s. the_setting s.now) setting) ruled.now.advice }
    ensures { OnOk result (out.new.items ≡ out.old.items ++ ruled_text (option_map (λ s. the_setting s.now) setting.entry) ruled.now) }
{
    push_rules(alloc, out, ruled.must, ruled.never)?;
    push_advised(alloc, out, setting, &ruled.advice)
}

/// Adds how large a made workload is.
fn push_sizes(
    alloc: Global,
    out: &mut Vec<u8>,
    tables: u32,
    statements: u32,
    slots: u32,
) -> Result<(), AllocError>
    ensures { OnOk result (out.new.items ≡ out.old.items ++ sizes_text tables statements slots) }
{
    push_line_of(alloc, out, b"tables ", tables as u128)?;
    push_line_of(alloc, out, b"statements ", statements as u128)?;
    push_line_of(alloc, out, b"slots ", slots as u128)
}

/// Adds the text of advice on a made workload, over the setting that is there.
pub(crate) fn push_benched(
    alloc: Global,
    out: &mut Vec<u8>,
    setting: Option<&Setting<'_>>,
    bench: &Bench,
) -> Result<(), AllocError>
    requires { IsAdvice (option_map (λ s. the_setting s.now) setting) bench.now.advice }
    ensures { OnOk result (out.new.items ≡ out.old.items ++ benched_text (option_map (λ s. the_setting s.now) setting.entry) bench.now) }
{
    push_sizes(alloc, out, bench.tables, bench.statements, bench.slots)?;
    push_advised(alloc, out, setting, &bench.advice)
}
