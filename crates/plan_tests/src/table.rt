//! Offers that are written down.
ghost use Rattle.std.specs.Prelude.{◌≡◌, ◌≢◌, ◌==◌, ◌≤◌, All, IfOk, [], ◌∷◌, true};
ghost use Rattle.std.specs.List.{find};
ghost use Rattle.std.specs.Option.{option_map_or, option_copied};
ghost use Rattle.adv_base.specs.Items.{AreApart, is_up_of as is_up};
ghost use Rattle.adv_base.specs.declared.limits.TheConstants.{MOST_PRICE};
ghost use Rattle.adv_base.specs.OfferTables.{OfferLimits};

use adv_base::limits::MOST_PRICE;
use adv_base::{Item, List};
use plan_model::Offers;
use std::alloc::{AllocError, Global};
use std::process::Abort;

/// An index on a slot: its price and its keys.
#[derive(Drop)]
pub struct Index {
    pub slot: u8,
    pub price: u64,
    pub keys: List<Item>,
    pub ghost limits: { OfferLimits slot (keys, price) },
}

/// A column of a slot, upwards.
fn one_key(alloc: Global, slot: u8, column: u16) -> Result<List<Item>, AllocError>
    ensures own { IfOk result (λ keys. All (λ item. is_up slot item ≡ true) keys) }
    ensures apart { IfOk result (λ keys. AreApart keys) }
{
    let mut items = Vec::new(alloc);
    items.push(Item::Up { slot, column })?;
    Ok(List { items })
}

/// Two columns of a slot, upwards.
fn two_keys(alloc: Global, slot: u8, first: u16, second: u16) -> Result<List<Item>, AllocError>
    requires { first ≢ second }
    ensures own { IfOk result (λ keys. All (λ item. is_up slot item ≡ true) keys) }
    ensures apart { IfOk result (λ keys. AreApart keys) }
{
    let mut items = Vec::new(alloc);
    items.push(Item::Up {
        slot,
        column: first,
    })?;
    items.push(Item::Up {
        slot,
        column: second,
    })?;
    Ok(List { items })
}

/// At most two columns of a slot, upwards; one that repeats the first is left out.
fn keys(alloc: Global, slot: u8, columns: &[u16]) -> Result<List<Item>, AllocError>
    ensures own { IfOk result (λ keys. All (λ item. is_up slot item ≡ true) keys) }
    ensures apart { IfOk result (λ keys. AreApart keys) }
{
    match columns {
        [] => Ok(List::new(alloc)),
        [first] => one_key(alloc, slot, *first),
        [first, second, ..] => {
            if *first == *second {
                return one_key(alloc, slot, *first);
            }
            two_keys(alloc, slot, *first, *second)
        }
    }
}

impl Index {
    pub fn new(alloc: Global, slot: u8, price: u64, columns: &[u16]) -> Result<Index, AllocError>
        requires { price ≤ MOST_PRICE }
        ensures { IfOk result (λ index. index.slot ≡ slot) }
    {
        let keys = keys(alloc, slot, columns)?;
        Ok(Index { slot, price, keys })
    }
}

/// The offers of a slot: the whole table and two indexes.
#[derive(Drop)]
pub struct Reads {
    pub slot: u8,
    pub heap: u64,
    pub first: Index,
    pub second: Index,
    pub ghost heap_most: { heap ≤ 4294967295 },
    pub ghost first_own: { first.slot ≡ slot },
    pub ghost second_own: { second.slot ≡ slot },
}

impl Reads {
    /// The offers of a slot at these prices, each with the columns of its order.
    pub fn new(
        alloc: Global,
        slot: u8,
        heap: u32,
        first: (u64, &[u16]),
        second: (u64, &[u16]),
    ) -> Result<Reads, AllocError>
        requires first { first.0 ≤ MOST_PRICE }
        requires second { second.0 ≤ MOST_PRICE }
    {
        let first = Index::new(alloc, slot, first.0, first.1)?;
        let second = Index::new(alloc, slot, second.0, second.1)?;
        Ok(Reads {
            slot,
            heap: heap as u64,
            first,
            second,
        })
    }
}

/// The offers of some slots. Any other slot is read for nothing.
#[derive(Drop)]
pub struct Table {
    pub slots: Vec<Reads>,
}

/// The columns of a text, one digit each.
fn columns_of(rt: &impl Abort, alloc: Global, text: &str) -> Vec<u16> {
    let mut columns = Vec::new(alloc);
    for byte in text.as_bytes() {
        columns.push((*byte & 15) as u16).expect(rt, "memory");
    }
    columns
}

/// Slots that are read whole at these prices; and with an index on each of the first slots, if it has some, whose columns stand
/// behind its price and a colon.
pub fn table_of(rt: &impl Abort, alloc: Global, heaps: &str, indexes: &str) -> Table {
    let mut slots = Vec::new(alloc);
    let mut slot: u8 = 0;
    for heap in heaps.split(' ') {
        let heap = heap.parse::<u32>().expect(rt, "a price");
        let index = indexes.split(' ').nth(slot as usize).unwrap_or("");
        let (price, columns) = index.split_once(':').unwrap_or(("0", ""));
        let price = price.parse::<u64>().expect(rt, "a price");
        let columns = columns_of(rt, alloc, columns);
        let whole: (u64, &[u16]) = (heap as u64, &[]);
        let first = if columns.is_empty() {
            whole
        } else {
            (price, columns.as_slice())
        };
        assert!(rt; first.0 <= MOST_PRICE);
        let reads = Reads::new(alloc, slot, heap, first, whole).expect(rt, "memory");
        slots.push(reads).expect(rt, "memory");
        slot = slot.wrapping_add(1);
    }
    Table { slots }
}

impl Table {
    fn at(&self, slot: u8) -> Option<&Reads>
        ensures { option_copied result ≡ find (λ reads. reads.slot == slot) self.now.slots.items }
    {
        self.slots.iter().find(|reads| reads.slot == slot)
    }
}

impl Offers for Table {
    ghost table = { λ t slot. option_map_or (λ reads. ([], reads.heap) ∷ (reads.first.keys, reads.first.price) ∷ (reads.second.keys, reads.second.price) ∷ []) (find (λ reads. reads.slot == slot) t.slots.items) (([], 0) ∷ []) };

    fn count(&self, slot: u8) -> u32 {
        match self.at(slot) {
            None => 1,
            Some(_) => 3,
        }
    }

    fn price(&self, slot: u8, offer: u32) -> u64 {
        match self.at(slot) {
            None => 0,
            Some(reads) => match offer {
                0 => reads.heap,
                1 => reads.first.price,
                _ => reads.second.price,
            },
        }
    }

    fn order(&self, slot: u8, offer: u32) -> &[Item] {
        match self.at(slot) {
            None => &[],
            Some(reads) => match offer {
                0 => &[],
                1 => reads.first.keys.as_slice(),
                _ => reads.second.keys.as_slice(),
            },
        }
    }

    fn limits(&self) {}
}
