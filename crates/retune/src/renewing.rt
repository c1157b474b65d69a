//! Parts that are made anew, because candidates on their tables have changed.
ghost use Rattle.std.specs.Prelude.{◌≡◌, ◌+◌, ◌<◌, ◌≤◌, Some, IfOk, OnOk, length, slice_get};
ghost use Rattle.adv_base.specs.Settings.{the_setting};
ghost use Rattle.adv_base.specs.declared.workload.Statement as declared;
ghost use Rattle.plan_model.specs.Totals.{block_of};
ghost use Rattle.programme_parts.specs.Caches.{AreCached, IsCacheFor};
ghost use Rattle.programme_parts.specs.Parts.{blocked};
ghost use Rattle.retune.specs.inner.Renewing.{AreRenewed, IsPartAt, IsRenewed, put_one, put_over};

use crate::tables::Changed;
use adv_base::{Block, NoMemory, Setting, Statement};
use bip_model::Part;
use inum_cache::Cache;
use programme_parts::part;
use std::alloc::Global;

/// The part of the statement at a place, from 0, by its cache, where it has a block.
pub(crate) fn part_at(
    alloc: Global,
    setting: &Setting<'_>,
    at: usize,
    cache: &Option<Cache>,
) -> Result<Option<Part>, NoMemory>
    requires within { at < length setting.now.statements.now }
    requires cached { (statement : declared.Statement) → slice_get setting.now.statements.now at ≡ Some statement → IsCacheFor setting.now.cat.now statement cache.now }
    ensures { IfOk result (IsPartAt (the_setting setting.now) at) }
{
    let statement = &setting.statements[at];
    match statement.work.block() {
        None => Ok(None),
        Some(block) => match cache {
            None => Ok(None),
            Some(cache) => {
                let own = part(
                    alloc,
                    setting,
                    at as u16 + 1,
                    statement.weight,
                    block,
                    cache,
                )?;
                Ok(Some(own))
            }
        },
    }
}

/// The part of the statement at a place that has a block, where a slot of it is on one of some tables.
fn renewed_at(
    alloc: Global,
    setting: &Setting<'_>,
    at: usize,
    block: &Block,
    cache: &Option<Cache>,
    changed: &Changed,
) -> Result<Option<Part>, NoMemory>
    requires within { at < length setting.now.statements.now }
    requires cached { (statement : declared.Statement) → slice_get setting.now.statements.now at ≡ Some statement → IsCacheFor setting.now.cat.now statement cache.now }
    requires block_is { (statement : declared.Statement) → slice_get setting.now.statements.now at ≡ Some statement → block_of statement.work ≡ Some block.now }
    ensures { IfOk result (λ own. (statement : declared.Statement) → slice_get setting.now.statements.now at ≡ Some statement → IsRenewed (the_setting setting.now) changed.now (blocked (at + 1) statement.weight block.now) own) }
{
    if changed.touches(block) {
        part_at(alloc, setting, at, cache)
    } else {
        Ok(None)
    }
}

/// Puts the part of the statement at a place at the end where a slot of it is on one of some tables, and None where not.
/// Nothing is put for a statement without a block.
fn push_renewed(
    alloc: Global,
    setting: &Setting<'_>,
    at: usize,
    statement: &Statement,
    cache: &Option<Cache>,
    changed: &Changed,
    renewed: &mut Vec<Option<Part>>,
) -> Result<(), NoMemory>
    requires found { slice_get setting.now.statements.now at ≡ Some statement.now }
    requires cached { IsCacheFor setting.now.cat.now statement.now cache.now }
    requires before { AreRenewed (the_setting setting.now) changed.now at renewed.old.items }
    ensures { OnOk result (AreRenewed (the_setting setting.now) changed.now (at + 1) renewed.new.items) }
{
    match statement.work.block() {
        None => Ok(()),
        Some(block) => {
            let own = renewed_at(alloc, setting, at, block, cache, changed)?;
            renewed.push(own)?;
            Ok(())
        }
    }
}

/// Of the first so many statements each that has a block: its part, where a slot of it is on one of some tables.
pub(crate) fn renewed(
    alloc: Global,
    setting: &Setting<'_>,
    caches: &[Option<Cache>],
    count: usize,
    changed: &Changed,
) -> Result<Vec<Option<Part>>, NoMemory>
    requires within { count ≤ length setting.now.statements.now }
    requires cached { AreCached setting.now.cat.now setting.now.statements.now caches.now }
    ensures { IfOk result (λ renewed. AreRenewed (the_setting setting.now) changed.now count renewed.items) }
{
    let mut renewed = Vec::with_capacity(alloc, count)?;
    for at in 0..count {
        push_renewed(
            alloc,
            setting,
            at,
            &setting.statements[at],
            &caches[at],
            changed,
            &mut renewed,
        )?;
    }
    Ok(renewed)
}

/// Puts a part into its place, if there is one.
fn put_own(parts: &mut Vec<Part>, at: usize, own: Option<Part>)
    requires { at < length parts.old.items }
    ensures { parts.new.items ≡ put_one own at parts.old.items }
{
    match own {
        None => (),
        Some(own) => parts[at] = own,
    }
}

/// Puts parts into their places; a place without one keeps what it has.
pub(crate) fn put_renewed(parts: &mut Vec<Part>, renewed: Vec<Option<Part>>)
    requires { length renewed.items ≤ length parts.old.items }
    ensures { parts.new.items ≡ put_over renewed.items parts.old.items }
{
    let mut left = renewed;
    while let Some(own) = left.pop() {
        put_own(parts, left.len(), own);
    }
}
