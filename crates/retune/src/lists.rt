//! Lists of statements, and of what is kept of them.
ghost use Rattle.std.specs.Prelude.{◌≡◌, ◌+◌, ◌-◌, ◌<◌, ◌≤◌, ◌++◌, ◌∷◌, [], IfOk, IfErr, OnOk, OnErr, length, take, drop};
ghost use Rattle.adv_base.specs.Limits.Settings.{slot_count};
ghost use Rattle.adv_base.specs.declared.limits.TheConstants.{MOST_SLOTS, MOST_STATEMENTS, MOST_WEIGHT};
ghost use Rattle.retune.specs.Steps as steps;
ghost use Rattle.retune.specs.declared.fault.RetuneFault.TheVariants.{NoStatement};

use crate::fault::RetuneFault;
use adv_base::Statement;
use inum_cache::Cache;
use std::alloc::AllocError;

/// The place, from 0, of the statement of a number among so many.
pub(crate) fn place(count: usize, number: u32) -> Result<usize, RetuneFault>
    ensures place { IfOk result (λ at. at + 1 ≡ number) }
    ensures within { IfOk result (λ at. at < count) }
    ensures fault { IfErr result (λ fault. fault ≡ NoStatement number) }
    ensures none { OnErr result (¬ ((1 ≤ number) × (number ≤ count))) }
{
    if number == 0 || number as usize > count {
        return Err(RetuneFault::NoStatement(number));
    }
    Ok(number as usize - 1)
}

/// How many slots a statement has.
pub(crate) fn slots_of(statement: &Statement) -> usize
    ensures exact { result ≡ slot_count statement.now.work }
    ensures most { result ≤ MOST_SLOTS }
{
    match statement.work.block() {
        None => 0,
        Some(block) => block.slots.len(),
    }
}

/// How many slots statements have together.
pub(crate) fn slots_in(statements: &[Statement]) -> usize
    requires { length statements.now ≤ MOST_STATEMENTS }
    ensures { result ≡ steps.slots_in_all statements.now }
{
    let mut slots = 0;
    for statement in statements {
        slots += slots_of(statement);
    }
    slots
}

/// Adds a statement and what is kept of it. An `Err` leaves both lists as they were.
pub(crate) fn grow(
    statements: &mut Vec<Statement>,
    caches: &mut Vec<Option<Cache>>,
    statement: Statement,
    cache: Option<Cache>,
) -> Result<(), AllocError>
    ensures statements { OnOk result (statements.new.items ≡ statements.old.items ++ statement ∷ []) }
    ensures caches { OnOk result (caches.new.items ≡ caches.old.items ++ cache ∷ []) }
    ensures same { OnErr result (statements.new.items ≡ statements.old.items) }
    ensures same_caches { OnErr result (caches.new.items ≡ caches.old.items) }
{
    statements.push(statement)?;
    match caches.push(cache) {
        Ok(()) => Ok(()),
        Err(_) => {
            statements.pop();
            Err(AllocError)
        }
    }
}

/// Takes the last of both lists away.
pub(crate) fn shrink(statements: &mut Vec<Statement>, caches: &mut Vec<Option<Cache>>)
    ensures statements { statements.new.items ≡ take (length statements.old.items - 1) statements.old.items }
    ensures caches { caches.new.items ≡ take (length caches.old.items - 1) caches.old.items }
{
    statements.pop();
    caches.pop();
}

/// Moves the item at a place to the end.
pub(crate) fn to_end<T>(items: &mut Vec<T>, at: usize)
    requires { at < length items.old.items }
    ensures { items.new.items ≡ take at items.old.items ++ (drop 1 (drop at items.old.items) ++ take 1 (drop at items.old.items)) }
{
    items.as_mut_slice()[at..].rotate_left(1);
}

/// Moves the last item to a place.
pub(crate) fn from_end<T>(items: &mut Vec<T>, at: usize)
    requires { at < length items.old.items }
    ensures { items.new.items ≡ take at items.old.items ++ (drop (length items.old.items - 1) items.old.items ++ take (length items.old.items - 1 - at) (drop at items.old.items)) }
{
    items.as_mut_slice()[at..].rotate_right(1);
}

/// Gives the statement at a place another weight.
pub(crate) fn set_weight(statements: &mut Vec<Statement>, at: usize, weight: u32)
    requires within { at < length statements.old.items }
    requires least { 1 ≤ weight }
    requires most { weight ≤ MOST_WEIGHT }
    ensures { steps.AreReweighed statements.old.items (at + 1) weight statements.new.items }
{
    let statement = &mut statements[at];
    statement.weight = weight;
}
