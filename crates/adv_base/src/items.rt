//! Lists of items to group or to order by.
ghost use Rattle.std.specs.Prelude.{◌≡◌};
ghost use Rattle.std.specs.List.{list_all};
ghost use Rattle.adv_base.specs.Items as items;

use crate::workload::parts::Item;

/// Whether an item is an upward column of a slot.
fn is_up_of(item: &Item, slot: u8) -> bool
    ensures { result ≡ items.is_up_of slot item.now }
{
    match item {
        Item::Up { slot: own, .. } => *own == slot,
        _ => false,
    }
}

/// Whether each item is an upward column of a slot.
fn are_up_of(list: &[Item], slot: u8) -> bool
    ensures { result ≡ list_all (items.is_up_of slot) list.now }
{
    list.iter().all(|item| is_up_of(item, slot))
}

/// Whether a list isn't empty, is upwards throughout and lies wholly in a slot.
#[tactic(auto, using(crate::proofs::ItemLaws::own_list_test, std::proofs::lemmas::Bool::Decides::nat_tests))]
pub fn is_own_list(list: &[Item], slot: u8) -> bool
    ensures { result ≡ items.is_own_list slot list.now }
{
    !list.is_empty() && are_up_of(list, slot)
}
