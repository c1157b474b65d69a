//! What an index matches of a slot's predicates.
ghost use Rattle.std.specs.Prelude.{◌≡◌, ◌<◌, ◌≤◌, length, Contains, map, fold, if◌then◌else◌};
ghost use Rattle.adv_base.specs.Access as access;
ghost use Rattle.adv_base.specs.Named.{NamesBlock};
ghost use Rattle.adv_base.specs.Parts as selectivity;
ghost use Rattle.adv_base.specs.Predicates as predicates;
ghost use Rattle.adv_base.specs.Sums as sum;
ghost use Rattle.adv_base.specs.declared.limits.TheConstants.{WHOLE};

use crate::predicates::{has_point, is_point_on, is_range_on};
use adv_base::limits::WHOLE;
use adv_base::{Block, Catalogue, Pred, times_part};
use cardinality::part_of;

/// How many leading keys have a predicate that gives their column one or some literals.
fn point_key_count(block: &Block, slot: u8, keys: &[u16]) -> usize
    ensures { result ≡ length (access.point_keys block.now slot keys.now) }
{
    keys.iter()
        .take_while(|key| has_point(block, slot, **key))
        .count()
}

/// A part taken through that of one more predicate, which counts where it is matched.
fn part_after(cat: &Catalogue, block: &Block, pred: &Pred, matched: bool, part: u64) -> u64
    requires named { NamesBlock cat.now block.now }
    requires own { Contains block.now.preds pred.now }
    requires some { 1 ≤ part }
    requires most { part ≤ WHOLE }
    ensures exact { result ≡ (if matched then sum.times_part part (selectivity.pred_part cat.now block.now pred.now) else part) }
    ensures least { 1 ≤ result }
    ensures most_after { result ≤ WHOLE }
{
    if matched {
        times_part(part, part_of(cat, block, pred))
    } else {
        part
    }
}

/// A part taken through those of the predicates that give a column one or some literals.
fn through_points(cat: &Catalogue, block: &Block, slot: u8, column: u16, start: u64) -> u64
    requires named { NamesBlock cat.now block.now }
    requires some { 1 ≤ start }
    requires most { start ≤ WHOLE }
    ensures exact { result ≡ fold sum.times_part start (map (selectivity.pred_part cat.now block.now) (predicates.preds_on predicates.is_point block.now.preds slot column)) }
    ensures least { 1 ≤ result }
    ensures most_after { result ≤ WHOLE }
{
    let mut part = start;
    for pred in block.preds.items.iter() {
        part = part_after(cat, block, pred, is_point_on(pred, slot, column), part);
    }
    part
}

/// A part taken through those of the predicates that ask for a range of a column.
fn through_ranges(cat: &Catalogue, block: &Block, slot: u8, column: u16, start: u64) -> u64
    requires named { NamesBlock cat.now block.now }
    requires some { 1 ≤ start }
    requires most { start ≤ WHOLE }
    ensures exact { result ≡ fold sum.times_part start (map (selectivity.pred_part cat.now block.now) (predicates.preds_on predicates.is_range block.now.preds slot column)) }
    ensures least { 1 ≤ result }
    ensures most_after { result ≤ WHOLE }
{
    let mut part = start;
    for pred in block.preds.items.iter() {
        part = part_after(cat, block, pred, is_range_on(pred, slot, column), part);
    }
    part
}

/// The part of an index's entries that a slot's predicates match, of 10^9. The leading keys are taken as far as each has
/// a predicate that gives its column one or some literals: these predicates match, and at the next key those that ask
/// for a range. Their parts are taken one after the other, by keys and then as written.
pub fn matched_part(cat: &Catalogue, block: &Block, slot: u8, keys: &[u16]) -> u64
    requires { NamesBlock cat.now block.now }
    ensures exact { result ≡ access.matched_part cat.now block.now slot keys.now }
    ensures least { 1 ≤ result }
    ensures most { result ≤ WHOLE }
{
    let points = point_key_count(block, slot, keys);
    let mut part = WHOLE;
    for key in &keys[..points] {
        part = through_points(cat, block, slot, *key, part);
    }
    if points < keys.len() {
        through_ranges(cat, block, slot, keys[points], part)
    } else {
        part
    }
}
