//! The root of a search that rules make.
ghost use Rattle.std.specs.Prelude.{◌≡◌, ◌<◌, ◌^◌, length, IfOk};
ghost use Rattle.std.specs.List.{list_any};
ghost use Rattle.adv_base.specs.Settings.{the_setting};
ghost use Rattle.adv_base.specs.declared.limits.TheConstants.{MOST_CANDIDATES};
ghost use Rattle.dba_rules.specs.Faults.{Gives};
ghost use Rattle.dba_rules.specs.Rules as rules;
ghost use Rattle.dba_rules.specs.Names as names;

use crate::fault::RuleFault;
use crate::line::{IndexName, Named, Rule, rule_in};
use crate::names::{Target, index_target, meets, target_of};
use adv_base::limits::MOST_CANDIDATES;
use adv_base::{IndexShape, Setting, first_line};
use bip_model::{Fix, State};
use std::alloc::Global;

/// Whether a rule meets the candidate at a place, from 0.
fn meets_at(target: &Target, shapes: &[IndexShape], place: usize) -> bool
    ensures { result ≡ rules.meets_at target.now shapes.now place }
{
    match shapes.get(place) {
        Some(shape) => meets(target, shape),
        None => false,
    }
}

/// Whether two states are in and out, or out and in.
fn are_opposite(one: State, other: State) -> bool
    ensures { result ≡ rules.are_opposite one other }
{
    match (one, other) {
        (State::In, State::Out) => true,
        (State::Out, State::In) => true,
        _ => false,
    }
}

/// Whether a rule would turn the state of the candidate at a place round.
#[tactic(auto, unfolding(crate::specs::Rules::opposes))]
fn opposes(target: &Target, to: State, shapes: &[IndexShape], root: &Fix, place: usize) -> bool
    requires { place < MOST_CANDIDATES }
    ensures { result ≡ rules.opposes target.now to shapes.now root.now place }
{
    meets_at(target, shapes, place) && are_opposite(to, root.state[place])
}

/// The least number of a candidate that earlier rules fixed the other way.
fn contrary(target: &Target, to: State, shapes: &[IndexShape], root: &Fix) -> Option<u16>
    ensures { result ≡ rules.contrary target.now to shapes.now root.now }
{
    for place in 0..MOST_CANDIDATES {
        if opposes(target, to, shapes, root, place) {
            return Some(place as u16 + 1);
        }
    }
    None
}

/// The state of the candidate at a place behind a rule.
#[tactic(auto, unfolding(crate::specs::Rules::state_behind))]
fn state_behind(
    target: &Target,
    to: State,
    shapes: &[IndexShape],
    root: &Fix,
    place: usize,
) -> State
    requires { place < MOST_CANDIDATES }
    ensures { result ≡ rules.state_behind target.now to shapes.now root.now place }
{
    if meets_at(target, shapes, place) {
        to
    } else {
        root.state[place]
    }
}

/// The root with the state of each candidate that a rule meets written.
fn root_behind(target: &Target, to: State, shapes: &[IndexShape], root: &Fix) -> Fix
    ensures { result ≡ rules.root_behind target.now to shapes.now root.now }
{
    let mut state = [State::Free; MOST_CANDIDATES];
    for place in 0..MOST_CANDIDATES {
        state[place] = state_behind(target, to, shapes, root, place);
    }
    Fix { state }
}

/// The root behind a rule, where no earlier one says the opposite.
#[tactic(auto, unfolding(crate::specs::Rules::fixed))]
fn fixed(
    number: u32,
    target: &Target,
    to: State,
    shapes: &[IndexShape],
    root: &Fix,
) -> Result<Fix, RuleFault>
    ensures { Gives (λ next. next) result (rules.fixed number target.now to shapes.now root.now) }
{
    if let Some(candidate) = contrary(target, to, shapes, root) {
        return Err(RuleFault::Contrary(number, candidate));
    }
    Ok(root_behind(target, to, shapes, root))
}

/// Whether a rule meets some candidate.
fn meets_some(target: &Target, shapes: &[IndexShape]) -> bool
    ensures { result ≡ list_any (names.meets target.now) shapes.now }
{
    shapes.iter().any(|shape| meets(target, shape))
}

/// The root behind a `must`.
#[tactic(auto, unfolding(crate::specs::Rules::behind_must))]
fn behind_must(
    alloc: Global,
    setting: &Setting<'_>,
    number: u32,
    root: &Fix,
    index: &IndexName,
) -> Result<Fix, RuleFault>
    ensures { Gives (λ next. next) result (rules.behind_must (the_setting setting.now) number root.now index.now) }
{
    let target = index_target(alloc, setting.cat, number, index)?;
    if !meets_some(&target, setting.shapes) {
        return Err(RuleFault::NotCandidate(number));
    }
    fixed(number, &target, State::In, setting.shapes, root)
}

/// The root behind a `never`.
#[tactic(auto, unfolding(crate::specs::Rules::behind_never))]
fn behind_never(
    alloc: Global,
    setting: &Setting<'_>,
    number: u32,
    root: &Fix,
    named: &Named,
) -> Result<Fix, RuleFault>
    ensures { Gives (λ next. next) result (rules.behind_never (the_setting setting.now) number root.now named.now) }
{
    let target = target_of(alloc, setting.cat, number, named)?;
    fixed(number, &target, State::Out, setting.shapes, root)
}

/// The root behind a rule.
fn behind_rule(
    alloc: Global,
    setting: &Setting<'_>,
    number: u32,
    root: &Fix,
    rule: &Rule,
) -> Result<Fix, RuleFault>
    ensures { Gives (λ next. next) result (rules.behind_rule (the_setting setting.now) number root.now rule.now) }
{
    match rule {
        Rule::Blank => Ok(*root),
        Rule::Must(index) => behind_must(alloc, setting, number, root, index),
        Rule::Never(named) => behind_never(alloc, setting, number, root, named),
    }
}

/// The root behind a line.
#[tactic(auto, unfolding(crate::specs::Rules::behind_line))]
fn behind_line(
    alloc: Global,
    setting: &Setting<'_>,
    number: u32,
    root: &Fix,
    line: &[u8],
) -> Result<Fix, RuleFault>
    ensures { Gives (λ next. next) result (rules.behind_line (the_setting setting.now) number root.now line.now) }
{
    let rule = rule_in(alloc, number, line)?;
    behind_rule(alloc, setting, number, root, &rule)
}

/// The root that rules make for a setting: each candidate that a `must` names is in, each that a `never` meets is out, and
/// all others are free. Each line ends with a line feed and is empty, a comment that begins with `#`, or one of
/// `must TABLE(COLUMN, COLUMN)`, `never TABLE(COLUMN, COLUMN)`, `never TABLE` and `never TABLE.COLUMN`; an index is the plain
/// one unless ` clustered` follows. Else the fault of the first line that has one: `BadLine` where it isn't so spelled, then
/// `NoTable` or `NoColumn` at the first name without meaning, then `NotCandidate` for a `must`, then `Contrary`. `Memory` is
/// want of memory.
pub fn read_rules(alloc: Global, setting: &Setting<'_>, bytes: &[u8]) -> Result<Fix, RuleFault>
    requires { length bytes.now < 2 ^ 32 }
    ensures exact { Gives (λ root. root) result (rules.root_of (the_setting setting.now) bytes.now) }
    ensures past { IfOk result (rules.IsFreePast setting.now.shapes.now) }
{
    let mut root = Fix {
        state: [State::Free; MOST_CANDIDATES],
    };
    let mut number: u64 = 1;
    let mut rest = bytes;
    'lines: while !rest.is_empty() {
        let (line, more) = match first_line(rest) {
            Some(read) => read,
            None => return Err(RuleFault::BadLine(number as u32)),
        };
        let next = behind_line(alloc, setting, number as u32, &root, line)?;
        root = next;
        number += 1;
        rest = more;
    }
    Ok(root)
}
