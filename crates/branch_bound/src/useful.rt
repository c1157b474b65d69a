//! Which candidates may be of use.
ghost use Rattle.std.specs.Prelude.{◌≡◌, ℕ, ◌+◌, ◌<◌, ◌≤◌, ◌==◌, ◌&&◌, length, false, if◌then◌else◌, slice_index_or};
ghost use Rattle.std.specs.List.{list_any};
ghost use Rattle.adv_base.specs.declared.limits.TheConstants.{MOST_CANDIDATES};
ghost use Rattle.bip_model.specs.Candidates as candidates;

use adv_base::limits::MOST_CANDIDATES;
use bip_model::{Grant, Part, Programme, SlotPart};
use lagrange_bound::has_cheaper;

/// The useful candidates of a programme, a flag for each, and how many they are.
#[derive(Clone, Copy)]
pub(crate) struct Useful {
    pub flags: [bool; MOST_CANDIDATES],
    pub count: u32,
}

/// Whether a grant is of the candidate of this number, and gives some order for less than all that exists.
fn helps_by(grant: &Grant, base: &[Option<u64>], number: u16) -> bool
    ensures { result ≡ ((grant.now.candidate == number) && candidates.has_cheaper grant.now.prices base.now) }
{
    grant.candidate == number && has_cheaper(grant.prices.as_slice(), base)
}

/// Whether one of the grants does so.
fn helps_slot(grants: &[Grant], base: &[Option<u64>], number: u16) -> bool
    ensures { result ≡ list_any (λ grant. (grant.candidate == number) && candidates.has_cheaper grant.prices base.now) grants.now }
{
    for k in 0..grants.len() {
        if helps_by(&grants[k], base, number) {
            return true;
        }
    }
    false
}

/// Whether a candidate helps one of the slots.
fn helps_part(slots: &[SlotPart], number: u16) -> bool
    ensures { result ≡ list_any (candidates.helps_slot number) slots.now }
{
    for s in 0..slots.len() {
        if helps_slot(slots[s].grants.as_slice(), slots[s].base.as_slice(), number) {
            return true;
        }
    }
    false
}

/// Whether it helps one of the parts.
fn helps(parts: &[Part], number: u16) -> bool
    ensures { result ≡ list_any (candidates.helps_part number) parts.now }
{
    for q in 0..parts.len() {
        if helps_part(parts[q].slots.as_slice(), number) {
            return true;
        }
    }
    false
}

/// Whether a candidate is useful, by its index from 0: it fits the budget alone, and helps some part.
fn is_useful(programme: &Programme, budget: u64, index: usize) -> bool
    requires { index < length programme.now.sizes }
    ensures { result ≡ candidates.is_useful programme.now budget (index + 1) }
{
    let number = index as u16 + 1;
    programme.space(budget).fits_alone(number) && helps(programme.parts.as_slice(), number)
}

/// 1 for a flag that is on, else 0.
fn one_if(flag: bool) -> u32
    ensures exact { result ≡ (if flag then 1 else 0) }
    ensures most { result ≤ 1 }
{
    if flag { 1 } else { 0 }
}

/// The useful candidates.
pub(crate) fn useful_of(programme: &Programme, budget: u64) -> Useful
    ensures flags { (i : ℕ) → i < length programme.now.sizes → slice_index_or result.flags i false ≡ candidates.is_useful programme.now budget (i + 1) }
    ensures count { result.count ≡ candidates.useful_below programme.now budget (length programme.now.sizes) }
{
    let mut flags = [false; MOST_CANDIDATES];
    let mut count = 0;
    for index in 0..programme.sizes.len() {
        let flag = is_useful(programme, budget, index);
        flags[index] = flag;
        count += one_if(flag);
    }
    Useful { flags, count }
}
