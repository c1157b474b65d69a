//! Sets of multipliers, with what each candidate earns under them.
ghost use Rattle.std.specs.Option.{option_map_or};
ghost use Rattle.std.specs.Prelude.{◌≡◌, ◌+◌, ◌-◌, ◌*◌, ◌<◌, ◌≤◌, IsTrue, false, length, slice_get, Some, ◌==◌, All, IfOk, if◌then◌else◌};
ghost use Rattle.adv_base.specs.Settings.{the_setting};
ghost use Rattle.adv_base.specs.declared.limits.TheConstants.{MOST_RENT, MOST_SLOTS, MOST_STATEMENTS, MOST_WEIGHT};
ghost use Rattle.certificate.specs.Limits.{EntriesFrom, entry_place};
ghost use Rattle.plan_model.specs.Lagrangian as lagrangian;
ghost use Rattle.plan_model.specs.Totals as totals;
ghost use Rattle.gap_checker.specs.Views as views;
ghost use Rattle.gap_checker.specs.inner.Earnings as earning;
ghost use Rattle.gap_checker.specs.inner.Searches as searches;

use adv_base::{Config, NoMemory, Setting, Slot, Statement};
use certificate::Entry;
use std::alloc::Global;

/// A set of Lagrangian multipliers: the price of a page, in parts of 65536, and the rents other than 0 by statement, slot
/// and candidate.
#[derive(Clone, Copy)]
pub(crate) struct Rents<'a> {
    pub mu: u128,
    pub entries: &'a [Entry],
}

/// The terms on which a search may use candidates: those that are available, and the rents of their uses.
#[derive(Clone, Copy)]
pub(crate) struct Terms<'a> {
    pub config: &'a Config,
    pub rents: Rents<'a>,
}

/// Where a use stands among the entries of a set.
fn place_of(statement: u16, slot: u8, candidate: u16) -> u32
    ensures { result ≡ statement * 2048 + slot * 256 + candidate }
{
    statement as u32 * 2048 + slot as u32 * 256 + candidate as u32
}

/// Whether an entry stands before a place.
fn is_before(entry: &Entry, place: u32) -> bool
    ensures yes { IsTrue result → entry_place entry.now < place }
    ensures no { result ≡ false → place ≤ entry_place entry.now }
{
    place_of(entry.statement, entry.slot, entry.candidate) < place
}

/// The entry of a number.
fn entry_at(entries: &[Entry], at: usize) -> &Entry
    requires { at < length entries.now }
    ensures { slice_get entries.now at ≡ Some result.now }
{
    match entries.get(at) {
        Some(entry) => entry,
        None => unreachable!(),
    }
}

/// Halves the part of the entries in which the first that doesn't stand before a place is looked for.
fn halved(entries: &[Entry], place: u32, from: usize, to: usize) -> (usize, usize)
    requires rise { EntriesFrom 0 entries.now }
    requires cut { searches.IsCut entries.now place from to }
    requires some { from < to }
    ensures cut { searches.IsCut entries.now place result.0 result.1 }
    ensures smaller { result.1 + from < to + result.0 }
{
    let middle = from + (to - from) / 2;
    let entry = entry_at(entries, middle);
    if is_before(entry, place) {
        (middle + 1, to)
    } else {
        (from, middle)
    }
}

/// The first entry that doesn't stand before a place, or the end, by a binary search.
fn first_at(entries: &[Entry], place: u32) -> usize
    requires { EntriesFrom 0 entries.now }
    ensures { searches.IsCut entries.now place result result }
{
    let mut from = 0;
    let mut to = entries.len();
    'halve: while from < to {
        let (first, end) = halved(entries, place, from, to);
        from = first;
        to = end;
    }
    from
}

/// The rent of a use where the entry of a number is the use's, and else 0; `slot` counts from 1.
fn entry_rent(entries: &[Entry], at: usize, statement: u16, slot: u8, candidate: u16) -> u64
    requires { 1 ≤ slot }
    ensures { result ≡ searches.rent_of (slice_get entries.now at) statement (slot - 1) candidate }
{
    match entries.get(at) {
        Some(entry) => {
            if entry.statement == statement && entry.slot == slot && entry.candidate == candidate {
                entry.lambda
            } else {
                0
            }
        }
        None => 0,
    }
}

impl Rents<'_> {
    /// The rent of a use of a candidate: statements and candidates count from 1, slots from 0.
    pub(crate) fn rent(&self, statement: u16, slot: u8, candidate: u16) -> u64
        requires slot_in { slot < MOST_SLOTS }
        requires rise { EntriesFrom 0 self.now.entries.now }
        ensures exact { result ≡ views.rent_in self.now.entries.now statement slot candidate }
        ensures most { result ≤ MOST_RENT }
    {
        let place = place_of(statement, slot + 1, candidate);
        let at = first_at(self.entries, place);
        entry_rent(self.entries, at, statement, slot + 1, candidate)
    }
}

/// A set of multipliers, and for each candidate the sum of weight times rent over its uses.
#[derive(Drop)]
pub(crate) struct Multipliers<'a> {
    pub rents: Rents<'a>,
    pub earned: Vec<u128>,
}

/// A rent where a slot is on the candidate's table, and else 0.
fn slot_rent(
    rents: &Rents<'_>,
    statement: u16,
    number: u8,
    slot: &Slot,
    table: u16,
    candidate: u16,
) -> u64
    requires slot_in { number < MOST_SLOTS }
    requires rise { EntriesFrom 0 rents.now.entries.now }
    ensures exact { result ≡ (if slot.now.table == table then views.rent_in rents.now.entries.now statement number candidate else 0) }
    ensures most { result ≤ MOST_RENT }
{
    if slot.table == table {
        rents.rent(statement, number, candidate)
    } else {
        0
    }
}

/// The rents of a candidate's uses at the slots of a block.
fn slot_rents(rents: &Rents<'_>, statement: u16, slots: &[Slot], table: u16, candidate: u16) -> u128
    requires few { length slots.now ≤ MOST_SLOTS }
    requires rise { EntriesFrom 0 rents.now.entries.now }
    ensures exact { result ≡ lagrangian.slot_rents (λ s. views.rent_in rents.now.entries.now statement s candidate) table 0 slots.now }
    ensures most { result ≤ MOST_SLOTS * MOST_RENT }
{
    let mut sum: u128 = 0;
    for s in 0..slots.len() {
        sum += slot_rent(rents, statement, s as u8, &slots[s], table, candidate) as u128;
    }
    sum
}

/// Those at a statement's; an INSERT has none.
fn statement_rents(
    rents: &Rents<'_>,
    number: u16,
    statement: &Statement,
    table: u16,
    candidate: u16,
) -> u128
    requires { EntriesFrom 0 rents.now.entries.now }
    ensures exact { result ≡ option_map_or (λ block. lagrangian.slot_rents (λ s. views.rent_in rents.now.entries.now number s candidate) table 0 block.slots) (totals.block_of statement.now.work) 0 }
    ensures most { result ≤ MOST_SLOTS * MOST_RENT }
{
    match statement.work.block() {
        Some(block) => slot_rents(rents, number, block.slots.as_slice(), table, candidate),
        None => 0,
    }
}

/// The sum of weight times rent over the uses of a candidate on a table.
fn weighted_rents(setting: &Setting<'_>, rents: &Rents<'_>, table: u16, candidate: u16) -> u128
    requires { EntriesFrom 0 rents.now.entries.now }
    ensures exact { result ≡ lagrangian.weighted_rents (λ q s. views.rent_in rents.now.entries.now q s candidate) table 1 setting.now.statements.now }
    ensures most { result ≤ MOST_STATEMENTS * (MOST_WEIGHT * (MOST_SLOTS * MOST_RENT)) }
{
    let mut sum: u128 = 0;
    for i in 0..setting.statements.len() {
        let statement = &setting.statements[i];
        let own = statement_rents(rents, i as u16 + 1, statement, table, candidate);
        sum += statement.weight as u128 * own;
    }
    sum
}

/// The same of each candidate.
fn earned(alloc: Global, setting: &Setting<'_>, rents: &Rents<'_>) -> Result<Vec<u128>, NoMemory>
    requires { EntriesFrom 0 rents.now.entries.now }
    ensures exact { IfOk result (λ list. list.items ≡ earning.earned_from (earning.rent_of rents.now) setting.now.statements.now 1 setting.now.shapes.now) }
    ensures most { IfOk result (λ list. All (λ sum. sum ≤ MOST_STATEMENTS * (MOST_WEIGHT * (MOST_SLOTS * MOST_RENT))) list.items) }
{
    let mut list = Vec::new(alloc);
    for a in 0..setting.shapes.len() {
        let shape = &setting.shapes[a];
        list.push(weighted_rents(setting, rents, shape.table, a as u16 + 1))?;
    }
    Ok(list)
}

/// A set with what each candidate earns.
pub(crate) fn multipliers_of<'a>(
    alloc: Global,
    setting: &Setting<'_>,
    rents: Rents<'a>,
) -> Result<Multipliers<'a>, NoMemory>
    requires { EntriesFrom 0 rents.entries.now }
    ensures rents_are { IfOk result (λ set. (set.rents.mu ≡ rents.entry.mu) × (set.rents.entries.now ≡ rents.entry.entries.now)) }
    ensures earned_are { IfOk result (λ set. earning.AreEarned (the_setting setting.now) set) }
{
    let earned = earned(alloc, setting, &rents)?;
    Ok(Multipliers { rents, earned })
}
