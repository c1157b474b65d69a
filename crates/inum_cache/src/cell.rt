//! Lists of templates of a set of slots.
ghost use Rattle.std.specs.Prelude.{◌≡◌, ℕ, ◌+◌, ◌^◌, ◌<◌, ◌≤◌, List, [], IfOk, IsTrue, All, AllPairs, OnOk, length, slice_index_or};
ghost use Rattle.std.specs.List.{list_any};
ghost use Rattle.adv_base.specs.Items.{Order};
ghost use Rattle.inum_cache.specs.inner.Cells as cells;

use crate::choices::Choices;
use adv_base::{List, NoMemory};
use plan_model::Template;
use planner::has_front;
use std::alloc::Global;

/// Whether one needs of each slot a front of what the other needs.
fn asks_no_more(choices: &Choices, one: &Template, other: &Template) -> bool
    ensures { result ≡ cells.does_fit choices.now.orders (cells.asks choices.now.orders other.now) one.now }
{
    if one.needs == [0; 8] {
        return true;
    }
    for slot in 0..choices.slots() {
        let front = choices.order(slot, one.needs[slot as usize]);
        if !has_front(choices.order(slot, other.needs[slot as usize]), front) {
            return false;
        }
    }
    true
}

/// Whether it does and costs no more.
pub(crate) fn replaces(choices: &Choices, one: &Template, other: &Template) -> bool
    ensures { result ≡ cells.does_replace choices.now.orders one.now other.now }
{
    one.internal <= other.internal && asks_no_more(choices, one, other)
}

/// For each combination the place where a template that needs its orders was last put in a list: a hint, which is looked at
/// before it is believed, since the list may be another one.
#[derive(Drop)]
pub(crate) struct Hints {
    weights: [usize; 8],
    places: Vec<usize>,
}

impl Hints {
    /// Hints for so many combinations.
    pub(crate) fn new(alloc: Global, choices: &Choices, count: usize) -> Result<Hints, NoMemory> {
        // By how much the number of a combination rises with the place of each slot: the last slot's goes fastest.
        let mut weights = [0; 8];
        let mut weight = 1usize;
        for slot in (0..choices.slots()).rev() {
            weights[slot as usize] = weight;
            weight = weight.wrapping_mul(choices.size(slot));
        }
        Ok(Hints {
            weights,
            places: vec![in alloc; 0; count]?,
        })
    }

    /// The number of the combination of these orders.
    fn number(&self, needs: &[u8; 8]) -> usize {
        let mut number = 0usize;
        for slot in 0..8 {
            number = number.wrapping_add(self.weights[slot].wrapping_mul(needs[slot] as usize));
        }
        number
    }

    fn put(&mut self, number: usize, place: usize) {
        if let Some(old) = self.places.get_mut(number) {
            *old = place;
        }
    }
}

/// Whether the first template of a list replaces one. The first is mostly that of no orders, which replaces whatever
/// costs no less.
fn first_replaces(choices: &Choices, cell: &[Template], template: &Template) -> bool
    ensures { IsTrue result → cells.IsReplaced choices.now.orders cell.now template.now }
{
    match cell.first() {
        None => false,
        Some(first) => replaces(choices, first, template),
    }
}

/// Whether the template at a place needs the same.
fn needs_at(cell: &[Template], place: usize, needs: &[u8; 8]) -> bool
    ensures within { IsTrue result → place < length cell.now }
    ensures same { IsTrue result → (slot : ℕ) → cells.place_at (cells.template_at cell.now place) slot ≡ slice_index_or needs.now slot 0 }
{
    match cell.get(place) {
        None => false,
        Some(other) => other.needs == *needs,
    }
}

/// Puts a template in the place of one that needs the same, where it is cheaper.
fn lower(cell: &mut Vec<Template>, place: usize, template: Template)
    requires within { place < length cell.old.items }
    requires same { cells.NeedsSame (cells.template_at cell.old.items place) template }
    ensures { (orders : List (List Order)) → cells.Takes orders (λ t. t ≡ template) cell.old.items cell.new.items }
{
    if template.internal < cell[place].internal {
        cell[place] = template;
    }
}

/// Gives a list a template: it is put at the end, unless the first replaces it, or one that needs the same is found, of
/// which the cheaper stays. So a list may keep some that others replace, and no other is looked at.
pub(crate) fn insert(
    choices: &Choices,
    hints: &mut Hints,
    cell: &mut Vec<Template>,
    template: Template,
) -> Result<(), NoMemory>
    ensures { OnOk result (cells.Takes choices.now.orders (λ t. t ≡ template) cell.old.items cell.new.items) }
{
    if first_replaces(choices, cell.as_slice(), &template) {
        return Ok(());
    }
    let number = hints.number(&template.needs);
    let place = *hints.places.get(number).unwrap_or(&0);
    if needs_at(cell.as_slice(), place, &template.needs) {
        lower(cell, place, template);
        return Ok(());
    }
    hints.put(number, cell.len());
    cell.push(template)?;
    Ok(())
}

/// The template with a cost more.
fn raised(template: &Template, price: u128) -> Template
    requires { template.now.internal + price < 2 ^ 128 }
    ensures { cells.IsRaised template.now price result }
{
    Template {
        internal: template.internal + price,
        needs: template.needs,
    }
}

/// Gives a list what comes of each template of another at a cost more.
pub(crate) fn raise_each(
    choices: &Choices,
    hints: &mut Hints,
    cell: &mut Vec<Template>,
    from: &[Template],
    price: u128,
) -> Result<(), NoMemory>
    requires small { All cells.IsSmall from.now }
    requires price_most { price ≤ 100000000000000000000000 }
    ensures { OnOk result (cells.Takes choices.now.orders (cells.RaiseGives from.now price) cell.old.items cell.new.items) }
{
    for template in from {
        insert(choices, hints, cell, raised(template, price))?;
    }
    Ok(())
}

/// What a join of plans of disjoint sets needs of each slot.
fn joined_needs(left: &[u8; 8], right: &[u8; 8]) -> [u8; 8]
    ensures { (slot : ℕ) → slice_index_or result slot 0 ≡ cells.joined_place left.now right.now slot }
{
    let mut needs = *right;
    for slot in 0..8 {
        if left[slot] != 0 {
            needs[slot] = left[slot];
        }
    }
    needs
}

/// What comes of two templates by a join of that price.
fn joined(left: &Template, right: &Template, price: u128) -> Template
    requires left_small { cells.IsSmall left.now }
    requires right_small { cells.IsSmall right.now }
    requires price_most { price ≤ 100000000000000000000000 }
    ensures { cells.IsJoined left.now right.now price result }
{
    Template {
        internal: left.internal + right.internal + price,
        needs: joined_needs(&left.needs, &right.needs),
    }
}

/// Gives a list what comes of a template by joins with each of others.
fn join_one(
    choices: &Choices,
    hints: &mut Hints,
    cell: &mut Vec<Template>,
    left: &Template,
    right: &[Template],
    price: u128,
) -> Result<(), NoMemory>
    requires left_small { cells.IsSmall left.now }
    requires right_small { All cells.IsSmall right.now }
    requires price_most { price ≤ 100000000000000000000000 }
    ensures { OnOk result (cells.Takes choices.now.orders (cells.JoinGivesOf left.now right.now price) cell.old.items cell.new.items) }
{
    for other in right {
        insert(choices, hints, cell, joined(left, other, price))?;
    }
    Ok(())
}

/// Gives a list what comes of each template of a join's left side with each of its right one.
pub(crate) fn join_each(
    choices: &Choices,
    hints: &mut Hints,
    cell: &mut Vec<Template>,
    left: &[Template],
    right: &[Template],
    price: u128,
) -> Result<(), NoMemory>
    requires left_small { All cells.IsSmall left.now }
    requires right_small { All cells.IsSmall right.now }
    requires price_most { price ≤ 100000000000000000000000 }
    ensures { OnOk result (cells.Takes choices.now.orders (cells.JoinGives left.now right.now price) cell.old.items cell.new.items) }
{
    for one in left {
        join_one(choices, hints, cell, one, right, price)?;
    }
    Ok(())
}

/// Whether some template of a list replaces one.
fn is_replaced(choices: &Choices, cell: &[Template], template: &Template) -> bool
    ensures { result ≡ list_any (λ one. cells.does_replace choices.now.orders one template.now) cell.now }
{
    cell.iter().any(|one| replaces(choices, one, template))
}

/// Gives a list, in which none replaces another, a template that stands behind all of them: it comes for those that it
/// replaces, unless another replaces it.
fn keep(choices: &Choices, cell: &mut Vec<Template>, template: Template) -> Result<(), NoMemory>
    requires thin { cells.IsThin choices.now.orders cell.old.items }
    requires behind { All (λ other. cells.Precedes other template) cell.old.items }
    ensures takes { OnOk result (cells.Takes choices.now.orders (λ t. t ≡ template) cell.old.items cell.new.items) }
    ensures thin { OnOk result (cells.IsThin choices.now.orders cell.new.items) }
{
    if is_replaced(choices, cell.as_slice(), &template) {
        return Ok(());
    }
    cell.retain(|other| !replaces(choices, &template, other));
    cell.push(template)?;
    Ok(())
}

/// The templates of a list in order that no other replaces.
pub(crate) fn kept(
    alloc: Global,
    choices: &Choices,
    cell: &[Template],
) -> Result<List<Template>, NoMemory>
    requires { AllPairs cells.Precedes cell.now }
    ensures takes { IfOk result (λ templates. cells.Takes choices.now.orders (cells.IsAmong cell.now) [] templates) }
    ensures thin { IfOk result (λ templates. cells.IsThin choices.now.orders templates) }
{
    let mut templates = Vec::new(alloc);
    for template in cell {
        keep(choices, &mut templates, *template)?;
    }
    Ok(List { items: templates })
}
