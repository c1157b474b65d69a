//! A programme in which one statement gets another weight.
ghost use Rattle.std.specs.Prelude.{◌≡◌, ◌+◌, ◌-◌, ◌*◌, ◌<◌, ◌≤◌, List, All, IfSome, IfNone, length, map, slice_index_or};
ghost use Rattle.adv_base.specs.Settings.{the_setting};
ghost use Rattle.adv_base.specs.Upkeep.{weighted_upkeep};
ghost use Rattle.adv_base.specs.declared.limits.TheConstants.{MOST_INDEXES, MOST_STATEMENTS, MOST_UPKEEP, MOST_WEIGHT};
ghost use Rattle.adv_base.specs.declared.workload.Statement as declared;
ghost use Rattle.bip_model.specs.StandsFor.{AreEach, StandsFor, blocked_from};
ghost use Rattle.bip_model.specs.declared.part.Part as part;
ghost use Rattle.programme_parts.specs.Kept.{HasKept};
ghost use Rattle.retune.specs.Sessions.{IsTuned, the_session};
ghost use Rattle.retune.specs.Steps.{AreReweighed};
ghost use Rattle.retune.specs.inner.Weights.{IsPartBy, RiseFrom, with_statements};

use adv_base::{Catalogue, List, Setting, Statement};
use bip_model::{Part, Programme};
use candidates::Candidates;
use hypo_indexes::{kept_upkeep, upkeep};

/// A sum of weight times upkeep in which a statement gets another weight.
fn with_weight(sum: u128, each: u128, before: u32, weight: u32) -> u128
    requires has { before * each ≤ sum }
    requires sum_most { sum ≤ MOST_STATEMENTS * (MOST_WEIGHT * (MOST_INDEXES * MOST_UPKEEP)) }
    requires each_most { each ≤ MOST_INDEXES * MOST_UPKEEP }
    requires weight_most { weight ≤ MOST_WEIGHT }
    ensures { result ≡ sum - before * each + weight * each }
{
    sum - before as u128 * each + weight as u128 * each
}

/// Gives the statement at a place another weight in the upkeep of candidates.
fn reweigh_upkeep(setting: &Setting<'_>, at: usize, weight: u32, costs: &mut List<u128>)
    requires within { at < length setting.now.statements.now }
    requires weight_most { weight ≤ MOST_WEIGHT }
    requires before { costs.old ≡ map (weighted_upkeep (the_setting setting.now)) setting.now.shapes.now }
    ensures after { (after : List declared.Statement) → AreReweighed setting.now.statements.now (at + 1) weight after → costs.new ≡ map (weighted_upkeep (with_statements (the_setting setting.now) after)) setting.now.shapes.now }
    ensures most { All (λ cost. cost ≤ MOST_STATEMENTS * (MOST_WEIGHT * MOST_UPKEEP)) costs.new }
    ensures count { length costs.new ≡ length costs.old }
{
    let statement = &setting.statements[at];
    for a in 0..setting.shapes.len() {
        let each = upkeep(setting.cat, statement, &setting.shapes[a]);
        costs.items[a] = with_weight(costs.items[a], each, statement.weight, weight);
    }
}

/// The place of the part of a statement of a number, if it has one. Parts stand by rising numbers.
pub(crate) fn place_of(parts: &[Part], number: u16) -> Option<usize>
    requires { RiseFrom 1 parts.now }
    ensures there { IfSome result (λ at. at < length parts.now) }
    ensures number { IfSome result (λ at. (d : part.Part) → (slice_index_or parts.now at d).statement ≡ number) }
    ensures none { IfNone result (All (λ part. ¬ (part.statement ≡ number)) parts.now) }
{
    let at = parts.partition_point(|part| part.statement < number);
    if at < parts.len() && parts[at].statement == number {
        return Some(at);
    }
    None
}

/// Gives the part at a place another weight.
fn set_part(parts: &mut Vec<Part>, at: usize, weight: u32)
    requires within { at < length parts.old.items }
    requires rise { RiseFrom 1 parts.old.items }
    requires least { 1 ≤ weight }
    requires most { weight ≤ MOST_WEIGHT }
    ensures { (d : part.Part) → AreEach (IsPartBy (slice_index_or parts.old.items at d).statement weight) parts.old.items parts.new.items }
{
    let part = &mut parts[at];
    part.weight = weight;
}

/// Gives the part of a statement of a number another weight, if it has one.
fn reweigh_part(parts: &mut List<Part>, number: u16, weight: u32)
    requires rise { RiseFrom 1 parts.old }
    requires least { 1 ≤ weight }
    requires most { weight ≤ MOST_WEIGHT }
    ensures { AreEach (IsPartBy number weight) parts.old parts.new }
{
    match place_of(parts.as_slice(), number) {
        Some(at) => set_part(&mut parts.items, at, weight),
        None => (),
    }
}

/// Gives the statement at a place another weight in the programme that stands for a setting.
fn reweigh_programme(setting: &Setting<'_>, at: usize, weight: u32, programme: &mut Programme)
    requires within { at < length setting.now.statements.now }
    requires least { 1 ≤ weight }
    requires most { weight ≤ MOST_WEIGHT }
    requires stands { StandsFor (the_setting setting.now) programme.old }
    requires kept { AreEach (HasKept setting.now.cat.now) (blocked_from 1 setting.now.statements.now) programme.old.parts }
    ensures stands { (after : List declared.Statement) → AreReweighed setting.now.statements.now (at + 1) weight after → StandsFor (with_statements (the_setting setting.now) after) programme.new }
    ensures kept { (after : List declared.Statement) → AreReweighed setting.now.statements.now (at + 1) weight after → AreEach (HasKept setting.now.cat.now) (blocked_from 1 after) programme.new.parts }
{
    let statement = &setting.statements[at];
    let each = kept_upkeep(setting.cat, statement);
    programme.kept = with_weight(programme.kept, each, statement.weight, weight);
    reweigh_upkeep(setting, at, weight, &mut programme.upkeep);
    reweigh_part(&mut programme.parts, at as u16 + 1, weight);
}

/// Gives the statement at a place another weight in the programme of statements and their candidates. It takes no memory,
/// and time that grows with the candidates and the indexes that exist.
pub(crate) fn reweigh(
    cat: &Catalogue,
    statements: &[Statement],
    candidates: &Candidates,
    at: usize,
    weight: u32,
    programme: &mut Programme,
)
    requires within { at < length statements.now }
    requires least { 1 ≤ weight }
    requires most { weight ≤ MOST_WEIGHT }
    requires tuned { IsTuned (the_session cat.now statements.now candidates.now programme.old) }
    ensures { (after : List declared.Statement) → AreReweighed statements.now (at + 1) weight after → IsTuned (the_session cat.now after candidates.now programme.new) }
{
    let setting = Setting {
        cat,
        statements,
        shapes: candidates.list.as_slice(),
    };
    reweigh_programme(&setting, at, weight, programme);
}
