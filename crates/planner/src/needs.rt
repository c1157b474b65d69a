//! The fronts that matter to a task.
ghost use Rattle.std.specs.Prelude.{◌≡◌, ◌↔◌, ℕ, ◌+◌, ◌^◌, ◌<◌, IfOk, IsTrue, length, slice_index_or};
ghost use Rattle.std.specs.List.{list_any};
ghost use Rattle.std.specs.Option.{ForSome};
ghost use Rattle.planner.specs.declared.front.Front.TheVariants as variant;
ghost use Rattle.planner.specs.Fronts as order_fronts;
ghost use Rattle.planner.specs.inner.Growing.{need_front, is_alike, is_same_link, AreFronts, IsAdded, IsGrowing, IsKeeping};

use crate::front::{Front, Link};
use adv_base::Item;
use plan_model::Task;
use std::alloc::{AllocError, Global};

/// The first item of what a front asks for.
fn head_of(front: Front, list: &[Item]) -> Option<Item>
    ensures { result ≡ order_fronts.first_item (order_fronts.front_order list.now front) }
{
    match front {
        Front::Any => None,
        Front::Listed => list.first().copied(),
        Front::Need(item) => Some(item),
    }
}

/// The first items of what the fronts ask for.
fn heads_of(alloc: Global, fronts: &[Front], list: &[Item]) -> Result<Vec<Option<Item>>, AllocError>
    ensures { IfOk result (λ heads. order_fronts.AreHeads list.now fronts.now heads.items) }
{
    let mut heads = Vec::with_capacity(alloc, fronts.len())?;
    for f in 0..fronts.len() {
        heads.push(head_of(fronts[f], list))?;
    }
    Ok(heads)
}

/// Whether a front asks for the item.
fn is_need(front: Front, item: Item) -> bool
    ensures { IsTrue result ↔ front ≡ variant.Need item }
{
    match front {
        Front::Any => false,
        Front::Listed => false,
        Front::Need(other) => other == item,
    }
}

/// The number of a front that asks for the item.
fn find_need(fronts: &[Front], item: Item) -> Option<usize>
    ensures within { ForSome result (λ i. i < length fronts.now) }
    ensures found { ForSome result (λ i. slice_index_or fronts.now i variant.Any ≡ variant.Need item) }
    ensures missing { result ≡ None → (i : ℕ) → i < length fronts.now → ¬ (slice_index_or fronts.now i variant.Any ≡ variant.Need item) }
{
    for i in 0..fronts.len() {
        if is_need(fronts[i], item) {
            return Some(i);
        }
    }
    None
}

/// The number of the front that asks for a need, which is added where it isn't there.
fn add_need(fronts: &mut Vec<Front>, item: Item) -> Result<usize, AllocError>
    requires { AreFronts fronts.old.items }
    ensures within { IfOk result (λ i. i < length fronts.new.items) }
    ensures found { IfOk result (λ i. slice_index_or fronts.new.items i variant.Any ≡ variant.Need item) }
    ensures fronts { IfOk result (λ _. AreFronts fronts.new.items) }
    ensures growing { IfOk result (λ _. IsGrowing fronts.old.items fronts.new.items) }
    ensures added { IfOk result (λ _. IsAdded fronts.old.items fronts.new.items (variant.Need item)) }
{
    if let Some(i) = find_need(fronts.as_slice(), item) {
        return Ok(i);
    }
    let i = fronts.len();
    fronts.push(Front::Need(item))?;
    Ok(i)
}

/// The number of the front that asks for a need, or for nothing where there is none.
fn add_front(fronts: &mut Vec<Front>, need: Option<Item>) -> Result<usize, AllocError>
    requires { AreFronts fronts.old.items }
    ensures within { IfOk result (λ i. i < length fronts.new.items) }
    ensures found { IfOk result (λ i. slice_index_or fronts.new.items i variant.Any ≡ need_front need) }
    ensures fronts { IfOk result (λ _. AreFronts fronts.new.items) }
    ensures growing { IfOk result (λ _. IsGrowing fronts.old.items fronts.new.items) }
    ensures added { IfOk result (λ _. IsAdded fronts.old.items fronts.new.items (need_front need)) }
{
    match need {
        None => Ok(0),
        Some(item) => add_need(fronts, item),
    }
}

/// Whether two links have the same slots and fronts.
fn are_same(one: &Link, other: &Link) -> bool
    ensures { result ≡ is_same_link one.now other.now }
{
    one.left == other.left
        && one.right == other.right
        && one.left_front == other.left_front
        && one.right_front == other.right_front
}

/// Whether they have them either way round.
fn are_alike(one: &Link, other: &Link) -> bool
    ensures { result ≡ is_alike one.now other.now }
{
    are_same(one, other) || are_same(&one.turned(), other)
}

/// Whether there is a link alike.
fn has_link(links: &[Link], link: &Link) -> bool
    ensures { result ≡ list_any (is_alike link.now) links.now }
{
    links.iter().any(|other| are_alike(link, other))
}

/// Adds a link, unless there is one alike.
fn keep_link(links: &mut Vec<Link>, link: Link) -> Result<(), AllocError>
    ensures { IfOk result (λ _. IsKeeping links.old.items links.new.items link) }
{
    if has_link(links.as_slice(), &link) {
        return Ok(());
    }
    links.push(link)?;
    Ok(())
}

/// The set of one slot.
fn set_of(slot: u8) -> usize
    requires { slot < 64 }
    ensures { result ≡ 2 ^ slot }
{
    1 << slot
}

/// Adds the fronts of an edge's needs, and its link.
fn add_link(
    fronts: &mut Vec<Front>,
    links: &mut Vec<Link>,
    task: &Task,
    k: usize,
) -> Result<(), AllocError>
    requires fronts { AreFronts fronts.old.items }
    requires needed { order_fronts.AreNeeded task.now.edges fronts.old.items }
    requires number { k < length task.now.edges }
    requires links { order_fronts.AreLinks (order_fronts.listed task.now) fronts.old.items task.now.edges links.old.items k }
    ensures fronts { IfOk result (λ _. AreFronts fronts.new.items) }
    ensures needed { IfOk result (λ _. order_fronts.AreNeeded task.now.edges fronts.new.items) }
    ensures links { IfOk result (λ _. order_fronts.AreLinks (order_fronts.listed task.now) fronts.new.items task.now.edges links.new.items (k + 1)) }
{
    let edge = task.edges.as_slice()[k];
    let left_front = add_front(fronts, edge.left_need)?;
    let right_front = add_front(fronts, edge.right_need)?;
    let link = Link {
        edge: k as u32,
        left: set_of(edge.left),
        right: set_of(edge.right),
        left_front,
        right_front,
    };
    keep_link(links, link)?;
    Ok(())
}

/// The fronts of a task, with the first items of what they ask for, and its links.
#[derive(Drop)]
pub(crate) struct Needs {
    pub fronts: Vec<Front>,
    pub heads: Vec<Option<Item>>,
    pub links: Vec<Link>,
}

/// The fronts of a task: none; the list to group or order by; and the needs of its edges, each once. Its links.
pub(crate) fn needs_of(alloc: Global, task: &Task) -> Result<Needs, AllocError>
    ensures { IfOk result (λ needs. order_fronts.AreNeeds task.now needs.fronts.items needs.heads.items needs.links.items) }
{
    let mut fronts = vec![in alloc; Front::Any, Front::Listed]?;
    let mut links = Vec::new(alloc);
    for k in 0..task.edges.len() {
        add_link(&mut fronts, &mut links, task, k)?;
    }
    let heads = heads_of(alloc, fronts.as_slice(), task.wanted_list())?;
    Ok(Needs {
        fronts,
        heads,
        links,
    })
}
