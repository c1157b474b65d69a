//! Sets of multipliers, as they are added to a certificate's text.
ghost use Rattle.std.specs.Prelude.{◌≡◌, ◌++◌, ◌≤◌, ◌<◌, OnOk, All, length, map, sum_by};
ghost use Rattle.adv_base.specs.declared.limits.TheConstants.{MOST_SLOTS};
ghost use Rattle.bip_model.specs.Values as values;
ghost use Rattle.bip_model.specs.Views as views;
ghost use Rattle.certificate.specs.Answers as answers;
ghost use Rattle.certificate.specs.Texts as texts;
ghost use Rattle.certificate.specs.inner.Writing as writing;

use crate::cert::Entry;
use crate::lines::{push_entry, push_set_line};
use bip_model::{Grant, Multipliers, Part, Programme, SlotPart, part_grants};
use std::alloc::{AllocError, Global};

/// Adds the entry of a candidate at a slot, which is counted from 0, where its rent isn't 0.
#[tactic(auto, unfolding(crate::specs::inner::Writing::entries_text))]
fn push_rent(
    alloc: Global,
    out: &mut Vec<u8>,
    statement: u16,
    slot: u8,
    candidate: u16,
    rent: u64,
) -> Result<(), AllocError>
    requires { slot < MOST_SLOTS }
    ensures { OnOk result (out.new.items ≡ out.old.items ++ writing.entries_text (answers.entry_of (record { statement = statement; slot = slot; candidate = candidate }) rent)) }
{
    if rent == 0 {
        return Ok(());
    }
    let entry = Entry {
        statement,
        slot: slot + 1,
        candidate,
        lambda: rent,
    };
    push_entry(alloc, out, entry)
}

/// Adds the entries of the grants of a slot, each with its rent.
fn push_grants(
    alloc: Global,
    out: &mut Vec<u8>,
    statement: u16,
    slot: u8,
    grants: &[Grant],
    rents: &[u64],
) -> Result<(), AllocError>
    requires within { slot < MOST_SLOTS }
    requires one_each { length rents.now ≡ length grants.now }
    ensures { OnOk result (out.new.items ≡ out.old.items ++ writing.entries_text (answers.entries_of (map (writing.grant_place statement slot) grants.now) rents.now)) }
{
    'grants: for at in 0..grants.len() {
        let candidate = grants[at].candidate;
        push_rent(alloc, out, statement, slot, candidate, rents[at])?;
    }
    Ok(())
}

/// Adds the entries of the slots of a statement.
fn push_slots(
    alloc: Global,
    out: &mut Vec<u8>,
    statement: u16,
    slots: &[SlotPart],
    rents: &[u64],
) -> Result<(), AllocError>
    requires few { length slots.now ≤ MOST_SLOTS }
    requires one_each { length rents.now ≡ sum_by (λ slot. length slot.grants) slots.now }
    ensures { OnOk result (out.new.items ≡ out.old.items ++ writing.entries_text (answers.entries_of (views.slot_places statement 0 slots.now) rents.now)) }
{
    let mut rest = rents;
    'slots: for s in 0..slots.len() {
        let grants = slots[s].grants.as_slice();
        let (own, more) = rest.split_at(grants.len());
        push_grants(alloc, out, statement, s as u8, grants, own)?;
        rest = more;
    }
    Ok(())
}

/// Adds the entries of parts.
fn push_parts(
    alloc: Global,
    out: &mut Vec<u8>,
    parts: &[Part],
    rents: &[u64],
) -> Result<(), AllocError>
    requires { length rents.now ≡ sum_by values.part_grants parts.now }
    ensures { OnOk result (out.new.items ≡ out.old.items ++ writing.entries_text (answers.entries_of (views.part_places parts.now) rents.now)) }
{
    let mut rest = rents;
    'parts: for at in 0..parts.len() {
        let part = &parts[at];
        let (own, more) = rest.split_at(part_grants(part));
        push_slots(alloc, out, part.statement, part.slots.as_slice(), own)?;
        rest = more;
    }
    Ok(())
}

/// How many rents aren't 0.
fn rent_count(rents: &[u64]) -> usize
    ensures { result ≡ answers.rent_count rents.now }
{
    rents.iter().filter(|rent| **rent > 0).count()
}

/// Adds the lines of a set.
fn push_set(
    alloc: Global,
    out: &mut Vec<u8>,
    prog: &Programme,
    set: &Multipliers,
) -> Result<(), AllocError>
    requires { views.AreMultipliers prog.now set.now }
    ensures { OnOk result (out.new.items ≡ out.old.items ++ texts.text_of (texts.set_lines (answers.sparse_set prog.now set.now))) }
{
    let rents = set.lambda.as_slice();
    push_set_line(alloc, out, set.mu, rent_count(rents) as u128)?;
    push_parts(alloc, out, prog.parts.as_slice(), rents)?;
    Ok(())
}

/// Adds the lines of sets.
pub(crate) fn push_sets(
    alloc: Global,
    out: &mut Vec<u8>,
    prog: &Programme,
    sets: &[Multipliers],
) -> Result<(), AllocError>
    requires { All (views.AreMultipliers prog.now) sets.now }
    ensures { OnOk result (out.new.items ≡ out.old.items ++ writing.sets_text prog.now sets.now) }
{
    'sets: for at in 0..sets.len() {
        push_set(alloc, out, prog, &sets[at])?;
    }
    Ok(())
}
