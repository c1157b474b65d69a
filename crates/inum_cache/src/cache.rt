//! The cache of a task.
ghost use Rattle.std.specs.Prelude.{◌≡◌, All};
ghost use Rattle.inum_cache.specs.Templates.{FitsOrders};

use crate::choices::Choices;
use adv_base::{Item, List};
use plan_model::Template;

/// The templates of a task, after INUM's cache of plans: for each combination of interesting orders, one for each slot,
/// that no weaker one replaces at most at its cost, what a least plan costs above leaves that deliver these orders. It
/// keeps no query and no rows: a template is 32 bytes.
#[derive(Drop)]
pub struct Cache {
    pub(crate) choices: Choices,
    pub(crate) templates: List<Template>,
    pub ghost fit: { All (FitsOrders choices.orders) templates },
}

impl Cache {
    ghost use Rattle.inum_cache.specs.Caches.{orders_of};

    /// The templates, in increasing order of `needs` read from the first slot. `needs[s]` is a number into the orders
    /// of slot s.
    pub fn templates(&self) -> &[Template]
        ensures { result.now ≡ self.now.templates }
    {
        self.templates.as_slice()
    }

    /// The interesting orders of a slot, the empty one first; none of a slot that the task hasn't.
    pub fn orders(&self, slot: u8) -> &[List<Item>]
        ensures { result.now ≡ orders_of self.now slot }
    {
        match self.choices.orders.as_slice().get(slot as usize) {
            None => &[],
            Some(orders) => orders.as_slice(),
        }
    }
}
