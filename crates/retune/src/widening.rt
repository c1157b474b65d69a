//! A programme with one statement more.
ghost use Rattle.std.specs.Prelude.{◌≡◌, [], ◌-◌, ◌≤◌, ◌++◌, OnOk, OnErr, IfOk, length, map, take, drop, option_to_list, slice_get, Some};
ghost use Rattle.adv_base.specs.Limits.Settings.{SettingLimits};
ghost use Rattle.adv_base.specs.Settings.{the_setting};
ghost use Rattle.adv_base.specs.Upkeep as write;
ghost use Rattle.candidates.specs.Growing.{IsProposed};
ghost use Rattle.hypo_indexes.specs.Figures.{AreFigures};
ghost use Rattle.programme_parts.specs.Caches.{AreCached};
ghost use Rattle.programme_parts.specs.Laws.{IsProgrammeOf};
ghost use Rattle.retune.specs.Sessions.{IsTuned, the_session};
ghost use Rattle.retune.specs.inner.Renewing.{IsRenewedBy, all_but_last, with_shapes};

use crate::renewing::{part_at, put_renewed, renewed};
use crate::tables::Changed;
use adv_base::limits::MOST_CANDIDATES;
use adv_base::{Catalogue, IndexShape, List, NoMemory, Setting, Statement};
use bip_model::{Part, Programme};
use candidates::{Candidates, Proposed};
use hypo_indexes::{Figures, kept_upkeep, upkeep};
use inum_cache::Cache;
use std::alloc::Global;

/// The figures of the candidates behind the first so many.
fn fresh_figures(alloc: Global, setting: &Setting<'_>, known: usize) -> Result<Figures, NoMemory>
    requires { known ≤ length setting.now.shapes.now }
    ensures { IfOk result (AreFigures (with_shapes (the_setting setting.now) (drop known setting.now.shapes.now))) }
{
    let fresh = Setting {
        cat: setting.cat,
        statements: setting.statements,
        shapes: &setting.shapes[known..],
    };
    Figures::new(alloc, &fresh)
}

/// The pages of the first candidates and of the others.
fn grown_sizes(alloc: Global, known: &List<u64>, fresh: &List<u64>) -> Result<List<u64>, NoMemory>
    ensures { IfOk result (λ sizes. sizes ≡ known.now ++ fresh.now) }
{
    let mut sizes = Vec::new(alloc);
    sizes.extend_from_slice(known.as_slice())?;
    sizes.extend_from_slice(fresh.as_slice())?;
    Ok(List { items: sizes })
}

/// The upkeep of the first candidates, which is known but for the last statement, and of the others.
fn grown_upkeep(
    alloc: Global,
    setting: &Setting<'_>,
    last: &Statement,
    known: &List<u128>,
    fresh: &List<u128>,
) -> Result<List<u128>, NoMemory>
    requires some { 1 ≤ length setting.now.statements.now }
    requires last { slice_get setting.now.statements.now (length setting.now.statements.now - 1) ≡ Some last.now }
    requires known { known.now ≡ map (write.weighted_upkeep (all_but_last (the_setting setting.now) (length known.now))) (take (length known.now) setting.now.shapes.now) }
    requires fresh { fresh.now ≡ map (write.weighted_upkeep (the_setting setting.now)) (drop (length known.now) setting.now.shapes.now) }
    ensures { IfOk result (λ costs. costs ≡ map (write.weighted_upkeep (the_setting setting.now)) setting.now.shapes.now) }
{
    let mut costs = Vec::new(alloc);
    for at in 0..known.len() {
        let more = last.weight as u128 * upkeep(setting.cat, last, &setting.shapes[at]);
        costs.push(known.as_slice()[at] + more)?;
    }
    costs.extend_from_slice(fresh.as_slice())?;
    Ok(List { items: costs })
}

/// The parts of statements before the last one that new candidates change.
fn renewed_before(
    alloc: Global,
    setting: &Setting<'_>,
    caches: &[Option<Cache>],
    last: usize,
    fresh: &[IndexShape],
) -> Result<Vec<Option<Part>>, NoMemory>
    requires within { last ≤ length setting.now.statements.now }
    requires cached { AreCached setting.now.cat.now setting.now.statements.now caches.now }
    ensures { IfOk result (λ renewed. IsRenewedBy (the_setting setting.now) fresh.now last renewed.items) }
{
    if fresh.is_empty() {
        return Ok(Vec::new(alloc));
    }
    let parts = renewed(alloc, setting, caches, last, &Changed::by(fresh))?;
    Ok(parts)
}

/// Puts a part at the end, if there is one. An `Err` leaves the parts as they were.
fn push_own(parts: &mut Vec<Part>, own: Option<Part>) -> Result<(), NoMemory>
    ensures pushed { OnOk result (parts.new.items ≡ parts.old.items ++ option_to_list own) }
    ensures same { OnErr result (parts.new.items ≡ parts.old.items) }
{
    match own {
        None => Ok(()),
        Some(own) => {
            parts.push(own)?;
            Ok(())
        }
    }
}

/// Widens the programme of all statements but the last one and of the first candidates to all. An `Err` leaves it as it was.
fn widen_programme(
    alloc: Global,
    setting: &Setting<'_>,
    caches: &[Option<Cache>],
    programme: &mut Programme,
) -> Result<(), NoMemory>
    requires some { 1 ≤ length setting.now.statements.now }
    requires fewer { length programme.old.sizes ≤ length setting.now.shapes.now }
    requires cached { AreCached setting.now.cat.now setting.now.statements.now caches.now }
    requires before { IsProgrammeOf (all_but_last (the_setting setting.now) (length programme.old.sizes)) programme.old }
    ensures after { OnOk result (IsProgrammeOf (the_setting setting.now) programme.new) }
    ensures same { OnErr result (programme.new ≡ programme.old) }
{
    let last = setting.statements.len() - 1;
    let statement = &setting.statements[last];
    let known = programme.sizes.len();
    let figures = fresh_figures(alloc, setting, known)?;
    let sizes = grown_sizes(alloc, &programme.sizes, &figures.sizes)?;
    let costs = grown_upkeep(
        alloc,
        setting,
        statement,
        &programme.upkeep,
        &figures.upkeep,
    )?;
    let renewed = renewed_before(alloc, setting, caches, last, &setting.shapes[known..])?;
    let own = part_at(alloc, setting, last, &caches[last])?;
    let kept = programme.kept + statement.weight as u128 * kept_upkeep(setting.cat, statement);
    push_own(&mut programme.parts.items, own)?;
    put_renewed(&mut programme.parts.items, renewed);
    programme.sizes = sizes;
    programme.upkeep = costs;
    programme.kept = kept;
    Ok(())
}

/// Puts shapes at the end of a list. An `Err` leaves it as it was.
fn push_shapes(shapes: &mut Vec<IndexShape>, fresh: List<IndexShape>) -> Result<(), NoMemory>
    ensures pushed { OnOk result (shapes.new.items ≡ shapes.old.items ++ fresh) }
    ensures same { OnErr result (shapes.new.items ≡ shapes.old.items) }
{
    let mut fresh = fresh.items;
    shapes.append(&mut fresh)?;
    Ok(())
}

/// The candidates of statements and the programme that stands for both, from those of all statements but the last one. In `proposed`
/// is what all propose. An `Err` leaves both as they were.
pub(crate) fn widen(
    alloc: Global,
    cat: &Catalogue,
    statements: &[Statement],
    caches: &[Option<Cache>],
    proposed: &Proposed,
    found: &mut Candidates,
    programme: &mut Programme,
) -> Result<(), NoMemory>
    requires some { 1 ≤ length statements.now }
    requires limits { SettingLimits cat.now statements.now [] }
    requires cached { AreCached cat.now statements.now caches.now }
    requires proposed { IsProposed cat.now statements.now proposed.now }
    requires before { IsTuned (the_session cat.now (take (length statements.now - 1) statements.now) found.old programme.old) }
    ensures after { OnOk result (IsTuned (the_session cat.now statements.now found.new programme.new)) }
    ensures same { OnErr result (found.new ≡ found.old) }
    ensures same_programme { OnErr result (programme.new ≡ programme.old) }
{
    let before = found.list.len();
    let count = proposed.len();
    let kept = count.min(MOST_CANDIDATES);
    let fresh = proposed.shapes(alloc, before, kept)?;
    push_shapes(&mut found.list.items, fresh)?;
    let setting = Setting {
        cat,
        statements,
        shapes: found.list.as_slice(),
    };
    match widen_programme(alloc, &setting, caches, programme) {
        Ok(()) => {
            found.left_over = (count - kept) as u64;
            Ok(())
        }
        Err(fault) => {
            found.list.items.truncate(before);
            Err(fault)
        }
    }
}
