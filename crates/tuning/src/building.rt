//! How a programme is made.
ghost use Rattle.std.specs.Prelude.{◌≡◌, ◌+◌, IfErr, IfOk, OnOk, Some, length, slice_get, take};
ghost use Rattle.adv_base.specs.declared.setting.Config.{Config};
ghost use Rattle.adv_base.specs.Settings.{the_setting};
ghost use Rattle.bip_model.specs.StandsFor as stands;
ghost use Rattle.bip_model.specs.declared.programme.Programme as declared;
ghost use Rattle.bip_model.specs.Values as values;
ghost use Rattle.plan_model.specs.Totals as totals;
ghost use Rattle.programme_parts.specs.Combinations.{AreFew};
ghost use Rattle.programme_parts.specs.Kept.{HasKept};
ghost use Rattle.programme_parts.specs.Laws.{IsProgrammeOf};
ghost use Rattle.programme_parts.specs.Parts.{ArePartsBelow};
ghost use Rattle.tuning.specs.Refusals.{IsCause};

use crate::fault::TuneFault;
use adv_base::{List, Setting, Statement};
use bip_model::{Part, Programme};
use inum_cache::CacheFault;
use programme_parts::{programme_with_parts, push_statement, statement_cache};
use std::alloc::Global;

/// Puts the part of the next statement at the end, where it has a block.
fn push_next(
    alloc: Global,
    setting: &Setting<'_>,
    at: usize,
    statement: &Statement,
    parts: &mut Vec<Part>,
) -> Result<(), TuneFault>
    requires found { slice_get setting.now.statements.now at ≡ Some statement.now }
    requires before { ArePartsBelow (the_setting setting.now) at parts.old.items }
    requires few_before { AreFew setting.now.cat.now (take at setting.now.statements.now) }
    ensures after { OnOk result (ArePartsBelow (the_setting setting.now) (at + 1) parts.new.items) }
    ensures few { OnOk result (AreFew setting.now.cat.now (take (at + 1) setting.now.statements.now)) }
    ensures fault { IfErr result (IsCause (the_setting setting.now)) }
{
    match statement_cache(alloc, setting.cat, statement) {
        Ok(cache) => {
            push_statement(alloc, setting, at, statement, &cache, parts)?;
            Ok(())
        }
        Err(CacheFault::Memory) => Err(TuneFault::Memory),
        Err(CacheFault::TooManyCombinations(count)) => {
            Err(TuneFault::TooManyCombinations(at as u32 + 1, count))
        }
    }
}

/// The parts of the statements that have a block.
fn parts_of(alloc: Global, setting: &Setting<'_>) -> Result<List<Part>, TuneFault>
    ensures parts { IfOk result (ArePartsBelow (the_setting setting.now) (length setting.now.statements.now)) }
    ensures few { IfOk result (λ _. AreFew setting.now.cat.now setting.now.statements.now) }
    ensures fault { IfErr result (IsCause (the_setting setting.now)) }
{
    let mut parts = Vec::new(alloc);
    for at in 0..setting.statements.len() {
        push_next(alloc, setting, at, &setting.statements[at], &mut parts)?;
    }
    Ok(List { items: parts })
}

/// The programme that stands for a setting (CoPhy's, over INUM's templates): the pages of each candidate and its upkeep,
/// summed over the statements by weight; the weighted upkeep of the indexes that exist; and for each statement that has a
/// block a part, with the templates that the cache of the block's task keeps. At each slot it has, for each interesting
/// order, the least price of the table and the indexes that exist, and a grant for each candidate on the table, in
/// increasing number, with its price where it gives the order. So `value` of the programme is the workload's total under
/// every configuration of these candidates. There is no other such programme of the setting. `TooManyCombinations` comes at the first statement whose block has more than
/// `MOST_COMBINATIONS` combinations of interesting orders, and always there but for want of memory, which is `Memory`.
pub fn programme(alloc: Global, setting: &Setting<'_>) -> Result<Programme, TuneFault>
    ensures stands { IfOk result (stands.StandsFor (the_setting setting.now)) }
    ensures kept { IfOk result (λ programme. stands.AreEach (HasKept setting.now.cat.now) (stands.blocked_from 1 setting.now.statements.now) programme.parts) }
    ensures total { IfOk result (λ programme. (config : Config) → totals.IsTotal setting.now.cat.now setting.now.shapes.now config setting.now.statements.now (values.value programme config)) }
    ensures one { IfOk result (λ programme. (other : declared.Programme) → IsProgrammeOf (the_setting setting.now) other → other ≡ programme) }
    ensures few { IfOk result (λ _. AreFew setting.now.cat.now setting.now.statements.now) }
    ensures fault { IfErr result (IsCause (the_setting setting.now)) }
{
    let parts = parts_of(alloc, setting)?;
    let programme = programme_with_parts(alloc, setting, parts)?;
    Ok(programme)
}
