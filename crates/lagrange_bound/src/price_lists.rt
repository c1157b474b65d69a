//! The prices of a programme in lists, for bounds that price all of its parts.
ghost use Rattle.std.specs.Prelude.{◌≡◌, ◌+◌, ◌*◌, ◌^◌, ◌<◌, ◌≤◌, ◌++◌, IfOk, OnOk, fold, length, map};
ghost use Rattle.adv_base.specs.declared.limits.TheConstants.{MOST_CANDIDATES, MOST_SLOTS, MOST_STATEMENTS};
ghost use Rattle.bip_model.specs.Limits.Grants.{MOST_ORDERS};
ghost use Rattle.bip_model.specs.Words.{word};
ghost use Rattle.lagrange_bound.specs.ListedPrices.{ArePrices, slots_of};
ghost use Rattle.lagrange_bound.specs.inner.SlotBySlot as inner;

use adv_base::NoMemory;
use bip_model::{Part, Programme, SlotPart, word};
use std::alloc::Global;

/// A price at which a grant gives an order for less than what exists. Places of orders and numbers of grants count over
/// all slots of a programme.
#[derive(Clone, Copy, Debug)]
pub struct CheaperPrice {
    pub price: u64,
    pub place: u32,
    pub grant: u32,
}

/// The orders and grants of all slots of a programme, one slot after the other: where the orders of each slot begin,
/// the price at which what exists gives each order, as a word, the place of each grant's candidate, and the grants'
/// prices that are below what exists. One that isn't can't become the least, whatever rents are paid. Made once for a
/// programme.
#[derive(Drop)]
pub struct PriceLists {
    pub starts: Vec<usize>,
    pub bases: Vec<u64>,
    pub owners: Vec<u8>,
    pub list: Vec<CheaperPrice>,
}

/// Puts at the end a grant's price for the order of a place, where it is below that of what exists.
fn push_cheaper(
    price: u64,
    base: u64,
    place: usize,
    grant: usize,
    list: &mut Vec<CheaperPrice>,
) -> Result<(), NoMemory>
    requires place { place < 2 ^ 32 }
    requires grant { grant < 2 ^ 32 }
    ensures { OnOk result (list.new.items ≡ list.old.items ++ inner.if_cheaper price base place grant) }
{
    if price < base {
        list.push(CheaperPrice {
            price,
            place: place as u32,
            grant: grant as u32,
        })?;
    }
    Ok(())
}

/// The same for each order of a slot, from the place of the first on.
fn push_prices(
    prices: &[Option<u64>],
    base: &[Option<u64>],
    place: usize,
    grant: usize,
    list: &mut Vec<CheaperPrice>,
) -> Result<(), NoMemory>
    requires price_each { length prices.now ≡ length base.now }
    requires places { place + length base.now ≤ 2 ^ 32 }
    requires grant { grant < 2 ^ 32 }
    ensures { OnOk result (list.new.items ≡ list.old.items ++ inner.grant_prices prices.now base.now place grant) }
{
    for o in 0..base.len() {
        push_cheaper(word(prices[o]), word(base[o]), place + o, grant, list)?;
    }
    Ok(())
}

/// Puts at the end the place of each grant's candidate, and the grants' prices that are below what exists, for a slot
/// whose first order has a place and whose first grant a number.
fn push_grants(
    slot: &SlotPart,
    place: usize,
    first: usize,
    owners: &mut Vec<u8>,
    list: &mut Vec<CheaperPrice>,
) -> Result<(), NoMemory>
    requires places { place + length slot.now.base ≤ 2 ^ 32 }
    requires numbers { first + length slot.now.grants ≤ 2 ^ 32 }
    ensures owners { OnOk result (owners.new.items ≡ owners.old.items ++ map inner.owner slot.now.grants) }
    ensures list { OnOk result (list.new.items ≡ list.old.items ++ inner.slot_prices slot.now.base slot.now.grants place first) }
{
    let grants = slot.grants.as_slice();
    for i in 0..grants.len() {
        let grant = &grants[i];
        owners.push((grant.candidate - 1) as u8)?;
        push_prices(
            grant.prices.as_slice(),
            slot.base.as_slice(),
            place,
            first + i,
            list,
        )?;
    }
    Ok(())
}

/// Puts at the end the price at which what exists gives each order of a slot, as a word.
fn push_bases(base: &[Option<u64>], bases: &mut Vec<u64>) -> Result<(), NoMemory>
    ensures { OnOk result (bases.new.items ≡ bases.old.items ++ map word base.now) }
{
    for price in base {
        bases.push(word(*price))?;
    }
    Ok(())
}

/// Puts the orders and grants of a slot at the end.
fn push_slot(slot: &SlotPart, lists: &mut PriceLists) -> Result<(), NoMemory>
    requires places { length lists.old.bases.items + MOST_ORDERS ≤ 2 ^ 32 }
    requires numbers { length lists.old.owners.items + MOST_CANDIDATES ≤ 2 ^ 32 }
    ensures lists { OnOk result (inner.lists_of lists.new ≡ inner.with_slot (inner.lists_of lists.old) slot.now) }
    ensures places { OnOk result (length lists.new.bases.items ≤ length lists.old.bases.items + MOST_ORDERS) }
    ensures numbers { OnOk result (length lists.new.owners.items ≤ length lists.old.owners.items + MOST_CANDIDATES) }
{
    let place = lists.bases.len();
    let first = lists.owners.len();
    lists.starts.push(place)?;
    push_bases(slot.base.as_slice(), &mut lists.bases)?;
    push_grants(slot, place, first, &mut lists.owners, &mut lists.list)
}

/// Puts those of the slots of a part at the end.
fn push_part(part: &Part, lists: &mut PriceLists) -> Result<(), NoMemory>
    requires places { length lists.old.bases.items + MOST_SLOTS * MOST_ORDERS ≤ 2 ^ 32 }
    requires numbers { length lists.old.owners.items + MOST_SLOTS * MOST_CANDIDATES ≤ 2 ^ 32 }
    ensures lists { OnOk result (inner.lists_of lists.new ≡ inner.with_part (inner.lists_of lists.old) part.now) }
    ensures places { OnOk result (length lists.new.bases.items ≤ length lists.old.bases.items + MOST_SLOTS * MOST_ORDERS) }
    ensures numbers { OnOk result (length lists.new.owners.items ≤ length lists.old.owners.items + MOST_SLOTS * MOST_CANDIDATES) }
{
    for slot in part.slots.as_slice() {
        push_slot(slot, lists)?;
    }
    Ok(())
}

/// Puts those of parts into lists that hold nothing.
fn push_parts(parts: &[Part], lists: &mut PriceLists) -> Result<(), NoMemory>
    requires few { length parts.now ≤ MOST_STATEMENTS }
    requires none { inner.lists_of lists.old ≡ inner.no_lists }
    ensures { OnOk result (inner.lists_of lists.new ≡ fold inner.with_part inner.no_lists parts.now) }
{
    for part in parts {
        push_part(part, lists)?;
    }
    Ok(())
}

impl PriceLists {
    /// Those of a programme: 8 bytes for each slot and each order, 1 for each grant and 16 for each price, and what
    /// vectors that grow hold ready. Want of memory is the one error.
    pub fn new(alloc: Global, programme: &Programme) -> Result<PriceLists, NoMemory>
        ensures { IfOk result (ArePrices (slots_of programme.now.parts)) }
    {
        let mut lists = PriceLists {
            starts: Vec::new(alloc),
            bases: Vec::new(alloc),
            owners: Vec::new(alloc),
            list: Vec::new(alloc),
        };
        push_parts(programme.parts.as_slice(), &mut lists)?;
        Ok(lists)
    }
}
