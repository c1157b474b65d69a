//! A programme with one statement less.
ghost use Rattle.std.specs.Prelude.{◌≡◌, ◌≢◌, [], ◌<◌, ◌≤◌, All, OnOk, OnErr, IfOk, length, slice_index_or};
ghost use Rattle.adv_base.specs.Limits.Settings.{SettingLimits};
ghost use Rattle.adv_base.specs.Settings.{the_setting};
ghost use Rattle.bip_model.specs.StandsFor.{AreEach};
ghost use Rattle.bip_model.specs.declared.part.Part as declared;
ghost use Rattle.candidates.specs.Growing.{IsProposed};
ghost use Rattle.programme_parts.specs.Caches.{AreCached};
ghost use Rattle.programme_parts.specs.Laws.{IsProgrammeOf};
ghost use Rattle.retune.specs.Sessions.{IsTuned, the_session};
ghost use Rattle.retune.specs.inner.Renewing as inner;
ghost use Rattle.retune.specs.inner.Weights.{RiseFrom};

use crate::numbers::Numbers;
use crate::renewing::renewed;
use crate::weights::place_of;
use adv_base::{Catalogue, IndexShape, List, NoMemory, Setting, Statement};
use bip_model::{Grant, Part, Programme, SlotPart};
use candidates::{Candidates, Proposed};
use hypo_indexes::Figures;
use inum_cache::Cache;
use std::alloc::Global;

/// The statement that goes, and the place, from 0, that it had.
#[derive(Clone, Copy)]
pub(crate) struct Removed<'a> {
    pub statement: &'a Statement,
    pub at: usize,
}

/// Gives grants their new numbers.
fn renumber_grants(grants: &mut List<Grant>, numbers: &Numbers)
    ensures { AreEach (inner.IsGrantBehind (λ n. slice_index_or numbers.now.of n 0)) grants.old grants.new }
{
    for grant in grants.items.iter_mut() {
        grant.candidate = numbers.number(grant.candidate);
    }
}

/// Gives the grants of slots their new numbers.
fn renumber_slots(slots: &mut List<SlotPart>, numbers: &Numbers)
    ensures { AreEach (inner.IsSlotBehind (λ n. slice_index_or numbers.now.of n 0)) slots.old slots.new }
{
    for slot in slots.items.iter_mut() {
        renumber_grants(&mut slot.grants, numbers);
    }
}

/// The number of a statement behind the one that goes.
fn number_behind(statement: u16, gone: u16) -> u16
    requires { 1 ≤ gone }
    ensures exact { result ≡ inner.number_without gone statement }
    ensures least { 1 ≤ statement → 1 ≤ result }
    ensures most { result ≤ statement }
{
    if statement > gone {
        return statement - 1;
    }
    statement
}

/// Gives a part the number of its statement behind the one that goes, and its grants their new numbers.
fn renumber(part: &mut Part, gone: u16, numbers: &Numbers)
    requires least { 1 ≤ gone }
    requires stays { part.old.statement ≢ gone }
    ensures { inner.IsPartBehind (inner.number_without gone part.old.statement) (λ n. slice_index_or numbers.now.of n 0) part.old part.new }
{
    part.statement = number_behind(part.statement, gone);
    renumber_slots(&mut part.slots, numbers);
}

/// Takes the part of the statement of a number away, if it has one. Parts stand by rising numbers.
fn remove_part(parts: &mut Vec<Part>, gone: u16)
    requires { RiseFrom 1 parts.old.items }
    ensures { parts.new.items ≡ inner.without_part gone parts.old.items }
{
    match place_of(parts.as_slice(), gone) {
        None => (),
        Some(at) => {
            let _gone = parts.remove(at);
        }
    }
}

/// Puts a part into its place; the old one gets its new numbers where there is none.
fn put_or_keep(parts: &mut [Part], at: usize, own: Option<Part>, gone: u16, numbers: &Numbers)
    requires within { at < length parts.old }
    requires least { 1 ≤ gone }
    requires stays { (d : declared.Part) → (slice_index_or parts.old at d).statement ≢ gone }
    ensures { inner.IsPutAt gone (λ n. slice_index_or numbers.now.of n 0) own at parts.old parts.new }
{
    match own {
        None => renumber(&mut parts[at], gone, numbers),
        Some(own) => parts[at] = own,
    }
}

/// Puts parts into their places; a part without one anew gets its new numbers.
fn put_or_renumber(parts: &mut [Part], renewed: Vec<Option<Part>>, gone: u16, numbers: &Numbers)
    requires few { length renewed.items ≤ length parts.old }
    requires least { 1 ≤ gone }
    requires stays { All (λ part. part.statement ≢ gone) parts.old }
    ensures { inner.ArePutBehind gone (λ n. slice_index_or numbers.now.of n 0) renewed.items parts.old parts.new }
{
    let mut left = renewed;
    while let Some(own) = left.pop() {
        put_or_keep(parts, left.len(), own, gone, numbers);
    }
}

/// Takes the part of the statement that goes away, and puts parts into the places of those that are left; a part without one
/// anew gets its new numbers.
fn replace_parts(parts: &mut List<Part>, renewed: Vec<Option<Part>>, gone: u16, numbers: &Numbers)
    requires least { 1 ≤ gone }
    requires rise { RiseFrom 1 parts.old }
    requires few { length renewed.items ≤ length (inner.without_part gone parts.old) }
    ensures { inner.ArePutBehind gone (λ n. slice_index_or numbers.now.of n 0) renewed.items (inner.without_part gone parts.old) parts.new }
{
    remove_part(&mut parts.items, gone);
    put_or_renumber(parts.items.as_mut_slice(), renewed, gone, numbers);
}

/// Narrows the programme to the statements and candidates of a setting, of which one statement has gone. An `Err` leaves it as
/// it was.
fn narrow_programme(
    alloc: Global,
    setting: &Setting<'_>,
    caches: &[Option<Cache>],
    removed: Removed<'_>,
    old: &[IndexShape],
    programme: &mut Programme,
) -> Result<(), NoMemory>
    requires within { removed.at ≤ length setting.now.statements.now }
    requires cached { AreCached setting.now.cat.now setting.now.statements.now caches.now }
    requires before { IsProgrammeOf (inner.setting_with (the_setting setting.now) removed.at removed.statement.now old.now) programme.old }
    ensures after { OnOk result (IsProgrammeOf (the_setting setting.now) programme.new) }
    ensures same { OnErr result (programme.new ≡ programme.old) }
{
    let numbers = Numbers::new(setting.cat.tables.as_slice().len(), old, setting.shapes);
    let figures = Figures::new(alloc, setting)?;
    let count = setting.statements.len();
    let renewed = renewed(alloc, setting, caches, count, &numbers.changed)?;
    let gone = removed.at as u16 + 1;
    replace_parts(&mut programme.parts, renewed, gone, &numbers);
    programme.sizes = figures.sizes;
    programme.upkeep = figures.upkeep;
    programme.kept = figures.kept;
    Ok(())
}

/// What statements propose and the first of it, of which one statement has gone, and the programme that stands for them with the
/// candidates, from that of before. An `Err` leaves the programme as it was.
pub(crate) fn narrow(
    alloc: Global,
    cat: &Catalogue,
    statements: &[Statement],
    caches: &[Option<Cache>],
    removed: Removed<'_>,
    old: &Candidates,
    programme: &mut Programme,
) -> Result<(Proposed, Candidates), NoMemory>
    requires within { removed.at ≤ length statements.now }
    requires limits { SettingLimits cat.now statements.now [] }
    requires cached { AreCached cat.now statements.now caches.now }
    requires before { IsTuned (the_session cat.now (inner.with_one statements.now removed.at removed.statement.now) old.now programme.old) }
    ensures proposed { IfOk result (λ r. IsProposed cat.now statements.now r.0) }
    ensures after { IfOk result (λ r. IsTuned (the_session cat.now statements.now r.1 programme.new)) }
    ensures same { OnErr result (programme.new ≡ programme.old) }
{
    let proposed = Proposed::new(alloc, cat, statements)?;
    let found = proposed.candidates(alloc)?;
    let setting = Setting {
        cat,
        statements,
        shapes: found.list.as_slice(),
    };
    narrow_programme(
        alloc,
        &setting,
        caches,
        removed,
        old.list.as_slice(),
        programme,
    )?;
    Ok((proposed, found))
}
