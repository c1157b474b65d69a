//! The part of one statement.
ghost use Rattle.std.specs.Prelude.{◌≡◌, ◌+◌, ℕ, ◌<◌, ◌≤◌, All, IfOk, OnOk, Some, length, slice_get};
ghost use Rattle.adv_base.specs.Named.{NamesBlock};
ghost use Rattle.adv_base.specs.Settings.{the_setting};
ghost use Rattle.adv_base.specs.declared.limits.TheConstants.{MOST_STATEMENTS, MOST_WEIGHT};
ghost use Rattle.bip_model.specs.Limits.Grants.{MOST_ORDERS};
ghost use Rattle.bip_model.specs.StandsFor.{IsPart};
ghost use Rattle.inum_cache.specs.Caches.{orders_of};
ghost use Rattle.plan_model.specs.Totals.{block_of};
ghost use Rattle.programme_parts.specs.Caches.{IsCached, IsCacheFor};
ghost use Rattle.programme_parts.specs.Kept.{HasAllPlaces, HasKept};
ghost use Rattle.programme_parts.specs.Parts.{ArePartsBelow, blocked};
ghost use Rattle.programme_parts.specs.inner.Every.{AreEvery};
ghost use Rattle.programme_parts.specs.inner.Prices.{ArePriced};

use crate::slots::{every_offer, slot_part};
use access_paths::ConfigOffers;
use adv_base::{Block, List, NoMemory, Setting, Statement};
use bip_model::{Part, SlotPart};
use inum_cache::Cache;
use plan_model::Template;
use std::alloc::Global;

/// The prices of each slot, of the orders that the cache has for it, by the offers under every candidate.
fn slot_parts(
    alloc: Global,
    setting: &Setting<'_>,
    block: &Block,
    cache: &Cache,
    offers: &ConfigOffers,
) -> Result<List<SlotPart>, NoMemory>
    requires named { NamesBlock setting.now.cat.now block.now }
    requires every { AreEvery setting.now.cat.now block.now setting.now.shapes.now offers.now }
    requires few { (s : ℕ) → s < length block.now.slots → length (orders_of cache.now s) ≤ MOST_ORDERS }
    ensures { IfOk result (ArePriced (the_setting setting.now) block.now cache.now (length block.now.slots)) }
{
    let mut parts = Vec::new(alloc);
    for slot in 0..block.slots.len() as u8 {
        let orders = cache.orders(slot);
        let own = slot_part(
            alloc,
            setting.cat,
            block,
            setting.shapes,
            offers,
            slot,
            orders,
        )?;
        parts.push(own)?;
    }
    Ok(List { items: parts })
}

/// A copy of the templates of a cache.
fn copied_templates(alloc: Global, cache: &Cache) -> Result<List<Template>, NoMemory>
    ensures { IfOk result (λ templates. templates ≡ cache.now.templates) }
{
    Ok(List {
        items: Vec::from_slice(alloc, cache.templates())?,
    })
}

/// A template has a place for each slot that there may be.
fn has_all_places(template: &Template)
    ensures { HasAllPlaces template.now }
{
    let _needs = template.needs;
}

/// So has each of some.
fn have_all_places(templates: &[Template])
    ensures { All HasAllPlaces templates.now }
{
    for template in templates {
        has_all_places(template);
    }
}

/// The part of a statement that has a block, by its number, from 1, its weight and the block's cache.
pub fn part(
    alloc: Global,
    setting: &Setting<'_>,
    number: u16,
    weight: u32,
    block: &Block,
    cache: &Cache,
) -> Result<Part, NoMemory>
    requires named { NamesBlock setting.now.cat.now block.now }
    requires cached { IsCached setting.now.cat.now block.now cache.now }
    requires number_least { 1 ≤ number }
    requires number_most { number ≤ MOST_STATEMENTS }
    requires weight_least { 1 ≤ weight }
    requires weight_most { weight ≤ MOST_WEIGHT }
    ensures part_is { IfOk result (IsPart (the_setting setting.now) (blocked number weight block.now)) }
    ensures kept { IfOk result (HasKept setting.now.cat.now (blocked number weight block.now)) }
{
    let offers = every_offer(alloc, setting.cat, block, setting.shapes)?;
    let slots = slot_parts(alloc, setting, block, cache, &offers)?;
    let templates = copied_templates(alloc, cache)?;
    have_all_places(templates.as_slice());
    Ok(Part {
        statement: number,
        weight,
        templates,
        slots,
    })
}

/// Puts the part of the next statement at the end, by the cache of its block. `at` is its place, from 0.
fn push_part(
    alloc: Global,
    setting: &Setting<'_>,
    at: usize,
    statement: &Statement,
    block: &Block,
    cache: &Cache,
    parts: &mut Vec<Part>,
) -> Result<(), NoMemory>
    requires found { slice_get setting.now.statements.now at ≡ Some statement.now }
    requires block_is { block_of statement.now.work ≡ Some block.now }
    requires cached { IsCached setting.now.cat.now block.now cache.now }
    requires before { ArePartsBelow (the_setting setting.now) at parts.old.items }
    ensures { OnOk result (ArePartsBelow (the_setting setting.now) (at + 1) parts.new.items) }
{
    let own = part(
        alloc,
        setting,
        at as u16 + 1,
        statement.weight,
        block,
        cache,
    )?;
    parts.push(own)?;
    Ok(())
}

/// Puts the part of the next statement at the end, by its cache, where it has a block. `at` is its place, from 0.
pub fn push_statement(
    alloc: Global,
    setting: &Setting<'_>,
    at: usize,
    statement: &Statement,
    cache: &Option<Cache>,
    parts: &mut Vec<Part>,
) -> Result<(), NoMemory>
    requires found { slice_get setting.now.statements.now at ≡ Some statement.now }
    requires cached { IsCacheFor setting.now.cat.now statement.now cache.now }
    requires before { ArePartsBelow (the_setting setting.now) at parts.old.items }
    ensures { OnOk result (ArePartsBelow (the_setting setting.now) (at + 1) parts.new.items) }
{
    match statement.work.block() {
        None => Ok(()),
        Some(block) => match cache {
            None => Ok(()),
            Some(cache) => push_part(alloc, setting, at, statement, block, cache, parts),
        },
    }
}
