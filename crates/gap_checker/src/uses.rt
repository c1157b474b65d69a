//! The uses that entries name.
ghost use Rattle.std.specs.Prelude.{◌≡◌, ℕ, ◌-◌, ◌<◌, ◌≤◌, All, Some, None, slice_get, option_map, IfErr, IsTrue, OnOk, false, length};
ghost use Rattle.std.specs.List.{AllByRecursion};
ghost use Rattle.std.specs.Option.{ForSome};
ghost use Rattle.adv_base.specs.declared.limits.TheConstants.{MOST_ENTRIES, MOST_SETS};
ghost use Rattle.certificate.specs.Limits as limits;
ghost use Rattle.certificate.specs.declared.cert.SparseSet.{SparseSet};
ghost use Rattle.gap_checker.specs.Faults as faults;
ghost use Rattle.adv_base.specs.Settings.{the_setting};
ghost use Rattle.gap_checker.specs.inner.Uses as uses;

use crate::fault::CheckFault;
use adv_base::{Setting, Slot};
use certificate::{Entry, SparseSet};

/// The slot of a statement; both are counted from 1.
fn slot_at<'a>(setting: &Setting<'a>, statement: u16, slot: u8) -> Option<&'a Slot>
    ensures { option_map (λ s. s.now) result ≡ uses.slot_of (the_setting setting.now) statement (slot - 1) }
{
    let statement = setting
        .statements
        .get((statement as usize).saturating_sub(1))?;
    let block = statement.work.block()?;
    block
        .slots
        .as_slice()
        .get((slot as usize).saturating_sub(1))
}

/// Whether a candidate is on a slot's table.
fn is_on(setting: &Setting<'_>, slot: &Slot, candidate: u16) -> bool
    ensures { result ≡ uses.is_on (the_setting setting.now) slot.now candidate }
{
    match setting.shapes.get((candidate as usize).saturating_sub(1)) {
        Some(shape) => shape.table == slot.table,
        None => false,
    }
}

/// Whether an entry names a slot of a statement and a candidate on its table.
fn names_use(setting: &Setting<'_>, entry: &Entry) -> bool
    ensures { result ≡ uses.names_use (the_setting setting.now) entry.now.statement (entry.now.slot - 1) entry.now.candidate }
{
    match slot_at(setting, entry.statement, entry.slot) {
        Some(slot) => is_on(setting, slot, entry.candidate),
        None => false,
    }
}

/// The entry of a place.
fn entry_at(set: &SparseSet, place: usize) -> &Entry
    requires { place < length set.now.entries }
    ensures { slice_get set.now.entries place ≡ Some result.now }
{
    match set.entries.as_slice().get(place) {
        Some(entry) => entry,
        None => unreachable!(),
    }
}

/// The set of a place.
fn set_at(sets: &[SparseSet], place: usize) -> &SparseSet
    requires { place < length sets.now }
    ensures { slice_get sets.now place ≡ Some result.now }
{
    match sets.get(place) {
        Some(set) => set,
        None => unreachable!(),
    }
}

/// Whether the entry of a place names none.
fn is_bad(setting: &Setting<'_>, set: &SparseSet, place: usize) -> bool
    requires limits { limits.SetLimits set.now }
    requires within { place < length set.now.entries }
    ensures yes { IsTrue result → uses.IsBadAt (the_setting setting.now) set.now place }
    ensures no { result ≡ false → uses.IsNamedAt (the_setting setting.now) set.now place }
{
    let entry = entry_at(set, place);
    !names_use(setting, entry)
}

/// The number, from 1, of the first entry that names none.
fn bad_entry(setting: &Setting<'_>, set: &SparseSet) -> Option<u32>
    requires limits { limits.SetLimits set.now }
    requires few { length set.now.entries ≤ MOST_ENTRIES }
    ensures found { ForSome result (uses.IsBadEntry (the_setting setting.now) set.now) }
    ensures none { result ≡ None → All (faults.NamesPair (the_setting setting.now)) set.now.entries }
{
    for i in 0..set.entries.len() {
        let bad = is_bad(setting, set, i);
        if bad {
            return Some(i as u32 + 1);
        }
    }
    None
}

/// Judges the entries of all sets: each names a slot of a statement and a candidate on its table.
pub(crate) fn judge_pairs(setting: &Setting<'_>, sets: &[SparseSet]) -> Result<(), CheckFault>
    requires few { length sets.now ≤ MOST_SETS }
    requires limits { AllByRecursion limits.SetLimits sets.now }
    requires few_entries { limits.entry_count sets.now ≤ MOST_ENTRIES }
    ensures right { OnOk result ((j : ℕ) (set : SparseSet) → slice_get sets.now j ≡ Some set → All (faults.NamesPair (the_setting setting.now)) set.entries) }
    ensures wrong { IfErr result (uses.IsPairFault (the_setting setting.now) sets.now) }
{
    for j in 0..sets.len() {
        let set = set_at(sets, j);
        if let Some(entry) = bad_entry(setting, set) {
            return Err(CheckFault::BadPair(j as u8 + 1, entry));
        }
    }
    Ok(())
}
