//! What is made once of a programme for bounds: which parts each candidate can make cheaper, and prices and grants in
//! lists.
ghost use Rattle.std.specs.Prelude.{◌≡◌, ℕ, ◌*◌, ◌<◌, ◌≤◌, true, All, IfOk, Some, length, slice_get, slice_index_or, sum_by, take};
ghost use Rattle.adv_base.specs.declared.limits.TheConstants.{MOST_CANDIDATES, MOST_STATEMENTS};
ghost use Rattle.bip_model.specs.Candidates as candidates;
ghost use Rattle.bip_model.specs.Values as values;
ghost use Rattle.bip_model.specs.declared.part.Part as the_part;
ghost use Rattle.lagrange_bound.specs.Ledgers as ledgers;
ghost use Rattle.lagrange_bound.specs.inner.Marks as marks;

use crate::price_lists::PriceLists;
use crate::uses::{WeightedGrant, all_uses};
use adv_base::limits::{MOST_CANDIDATES, MOST_STATEMENTS};
use adv_base::{List, NoMemory};
use bip_model::{Grant, Part, Programme, SlotPart, part_grants};
use std::alloc::Global;

/// For each candidate 1000 flags, of which that of a part is on where the candidate gives some order of a slot of it
/// for less than all that exists; for each part how many grants stand before its own; the prices of all parts in lists;
/// and the grants of each candidate. Made once for a programme.
#[derive(Drop)]
pub struct CheaperParts {
    pub flags: Vec<bool>,
    pub starts: Vec<usize>,
    pub prices: PriceLists,
    pub uses: Vec<List<WeightedGrant>>,
}

/// Whether a price is below another, or stands where there is no other.
fn is_cheaper(price: Option<u64>, other: Option<u64>) -> bool
    ensures { result ≡ candidates.is_cheaper price other }
{
    match (price, other) {
        (None, _) => false,
        (Some(_), None) => true,
        (Some(price), Some(other)) => price < other,
    }
}

/// Whether some price of a list is cheaper than that in its place.
pub fn has_cheaper(prices: &[Option<u64>], base: &[Option<u64>]) -> bool
    ensures { result ≡ candidates.has_cheaper prices.now base.now }
{
    for o in 0..prices.len() {
        if o >= base.len() {
            return false;
        }
        if is_cheaper(prices[o], base[o]) {
            return true;
        }
    }
    false
}

/// Notes the candidate of a grant of the part of a place, where it gives some order for less than what exists.
fn note_grant(base: &[Option<u64>], grant: &Grant, place: usize, flags: &mut [bool])
    requires place { place < MOST_STATEMENTS }
    requires long { length flags.old ≡ MOST_CANDIDATES * MOST_STATEMENTS }
    ensures long { length flags.new ≡ length flags.old }
    ensures keeps { marks.Keeps flags.old flags.new }
    ensures noted { marks.IsNoted flags.new place base.now grant.now }
{
    if has_cheaper(grant.prices.as_slice(), base) {
        flags[(grant.candidate as usize - 1) * MOST_STATEMENTS + place] = true;
    }
}

/// Notes the candidates of the grants of a slot.
fn note_slot(slot: &SlotPart, place: usize, flags: &mut [bool])
    requires place { place < MOST_STATEMENTS }
    requires long { length flags.old ≡ MOST_CANDIDATES * MOST_STATEMENTS }
    ensures long { length flags.new ≡ length flags.old }
    ensures keeps { marks.Keeps flags.old flags.new }
    ensures noted { marks.AreNoted flags.new place slot.now }
{
    let base = slot.base.as_slice();
    let grants = slot.grants.as_slice();
    for k in 0..grants.len() {
        note_grant(base, &grants[k], place, flags);
    }
}

/// Notes the candidates of the grants of a part.
fn note_part(part: &Part, place: usize, flags: &mut [bool])
    requires place { place < MOST_STATEMENTS }
    requires long { length flags.old ≡ MOST_CANDIDATES * MOST_STATEMENTS }
    ensures long { length flags.new ≡ length flags.old }
    ensures keeps { marks.Keeps flags.old flags.new }
    ensures noted { All (marks.AreNoted flags.new place) part.now.slots }
{
    let slots = part.slots.as_slice();
    for s in 0..slots.len() {
        note_slot(&slots[s], place, flags);
    }
}

/// Notes the candidates of the grants of all parts.
fn note_parts(parts: &[Part], flags: &mut [bool])
    requires few { length parts.now ≤ MOST_STATEMENTS }
    requires long { length flags.old ≡ MOST_CANDIDATES * MOST_STATEMENTS }
    ensures long { length flags.new ≡ length flags.old }
    ensures noted { (i : ℕ) (part : the_part.Part) → slice_get parts.now i ≡ Some part → All (marks.AreNoted flags.new i) part.slots }
{
    for i in 0..parts.len() {
        note_part(&parts[i], i, flags);
    }
}

/// Writes how many grants stand before those of each part.
fn write_starts(parts: &[Part], starts: &mut [usize])
    requires few { length parts.now ≤ MOST_STATEMENTS }
    requires place_each { length starts.old ≡ length parts.now }
    ensures place_each { length starts.new ≡ length parts.now }
    ensures exact { (i : ℕ) → i < length parts.now → slice_index_or starts.new i 0 ≡ sum_by values.part_grants (take i parts.now) }
{
    let mut at = 0;
    for i in 0..parts.len() {
        starts[i] = at;
        at += part_grants(&parts[i]);
    }
}

impl CheaperParts {
    /// Those of a programme: 256000 bytes, 8 for each part and each grant, and the lists of prices, with what vectors
    /// that grow hold ready. Want of memory is the one error.
    pub fn new(alloc: Global, programme: &Programme) -> Result<CheaperParts, NoMemory>
        ensures { IfOk result (ledgers.AreCheaperParts programme.now) }
    {
        let parts = programme.parts.as_slice();
        let mut flags = vec![in alloc; false; MOST_CANDIDATES * MOST_STATEMENTS]?;
        let mut starts = vec![in alloc; 0; parts.len()]?;
        note_parts(parts, flags.as_mut_slice());
        write_starts(parts, starts.as_mut_slice());
        let prices = PriceLists::new(alloc, programme)?;
        let places = starts.as_slice();
        let owners = prices.owners.as_slice();
        let uses = all_uses(alloc, parts, places, owners)?;
        Ok(CheaperParts {
            flags,
            starts,
            prices,
            uses,
        })
    }
}
