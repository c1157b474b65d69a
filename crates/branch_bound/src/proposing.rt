//! What a search takes of what is proposed to it: a configuration that is known, and sets of multipliers.
ghost use Rattle.std.specs.Prelude.{◌≡◌, ◌+◌, ◌<◌, ◌≤◌, [], ◌∷◌, ◌++◌, All, length, vec_len};
ghost use Rattle.std.specs.Vec.{vec_capacity};
ghost use Rattle.adv_base.specs.declared.limits.TheConstants.{MOST_SETS};
ghost use Rattle.bip_model.specs.Views.{AreMultipliers};
ghost use Rattle.branch_bound.specs.inner.Climbs as climbs;
ghost use Rattle.branch_bound.specs.inner.Proposals as proposals;

use crate::climb::Costed;
use crate::taken::taken;
use crate::task::Task;
use bip_model::Multipliers;
use lagrange_bound::improve;
use relaxations::Proposals;

/// The rounds in which the multipliers of the root are improved: each tries the rent multipliers of one price of a
/// page.
const ROUNDS: u32 = 41;

/// The multipliers that a search takes its sets from: some that are worked on, and one for each further set.
#[derive(Drop)]
pub(crate) struct Spares {
    pub first: Multipliers,
    pub spare: Multipliers,
    pub others: Vec<Multipliers>,
}

/// Keeps a set of multipliers, for which there is room.
fn keep(sets: &mut Vec<Multipliers>, set: Multipliers)
    requires { vec_len sets.old < vec_capacity sets.old }
    ensures items { sets.new.items ≡ sets.old.items ++ set ∷ [] }
    ensures room { vec_capacity sets.old ≤ vec_capacity sets.new }
{
    match sets.push(set) {
        Ok(()) => {}
        Err(_) => unreachable!(),
    }
}

/// Keeps the first set: the proposed one, or rent multipliers where these bound the root higher.
fn keep_first(
    task: &Task<'_>,
    proposed: &Proposals,
    first: Multipliers,
    spare: Multipliers,
    sets: &mut Vec<Multipliers>,
)
    requires first { AreMultipliers task.now.programme.now first }
    requires spare { AreMultipliers task.now.programme.now spare }
    requires some { 1 ≤ task.now.most }
    requires empty { sets.old.items ≡ [] }
    requires room { MOST_SETS ≤ vec_capacity sets.old }
    ensures sets { proposals.AreRaised task.now.programme.now task.now.budget task.now.root.now task.now.most sets.new.items }
    ensures room { MOST_SETS ≤ vec_capacity sets.new }
{
    let mut first = first;
    let mut spare = spare;
    proposed.write_set(0, task.programme, &mut first);
    improve(
        task.programme,
        task.budget,
        task.root,
        &mut first,
        &mut spare,
        ROUNDS,
    );
    keep(sets, first);
}

/// Keeps one more of the proposed sets.
fn keep_other(
    task: &Task<'_>,
    proposed: &Proposals,
    number: usize,
    other: Multipliers,
    sets: &mut Vec<Multipliers>,
)
    requires other { AreMultipliers task.now.programme.now other }
    requires sets { proposals.AreRaised task.now.programme.now task.now.budget task.now.root.now task.now.most sets.old.items }
    requires few { length sets.old.items < task.now.most }
    requires room { MOST_SETS ≤ vec_capacity sets.old }
    ensures sets { proposals.AreRaised task.now.programme.now task.now.budget task.now.root.now task.now.most sets.new.items }
    ensures room { MOST_SETS ≤ vec_capacity sets.new }
{
    let mut other = other;
    proposed.write_set(number, task.programme, &mut other);
    keep(sets, other);
}

/// Keeps the proposed sets from the second on.
fn keep_others(
    task: &Task<'_>,
    proposed: &Proposals,
    others: Vec<Multipliers>,
    sets: &mut Vec<Multipliers>,
)
    requires others { All (AreMultipliers task.now.programme.now) others.items }
    requires sets { proposals.AreRaised task.now.programme.now task.now.budget task.now.root.now task.now.most sets.old.items }
    requires room { MOST_SETS ≤ vec_capacity sets.old }
    ensures sets { proposals.AreRaised task.now.programme.now task.now.budget task.now.root.now task.now.most sets.new.items }
{
    let mut others = others;
    for number in 1..proposed.set_count() {
        if sets.len() >= task.most {
            return;
        }
        match others.pop() {
            None => return,
            Some(other) => keep_other(task, proposed, number, other, sets),
        }
    }
}

/// Has a configuration, sets and a plan proposed, and takes what is sound of the first two.
pub(crate) fn propose(
    task: &Task<'_>,
    nodes: u32,
    proposed: &mut Proposals,
    spares: Spares,
    sets: &mut Vec<Multipliers>,
) -> Costed
    requires first { AreMultipliers task.now.programme.now spares.first }
    requires spare { AreMultipliers task.now.programme.now spares.spare }
    requires others { All (AreMultipliers task.now.programme.now) spares.others.items }
    requires some { 1 ≤ task.now.most }
    requires empty { sets.old.items ≡ [] }
    requires room { MOST_SETS ≤ vec_capacity sets.old }
    ensures known { climbs.IsSoundHere task.now.programme.now task.now.shapes.now task.now.budget task.now.root.now result }
    ensures sets { proposals.AreRaised task.now.programme.now task.now.budget task.now.root.now task.now.most sets.new.items }
{
    let Spares {
        first,
        spare,
        others,
    } = spares;
    let found = proposed.find(
        task.shapes,
        task.root,
        task.useful,
        task.budget,
        nodes,
        task.most,
    );
    let known = taken(task, task.bare, found);
    let planned = proposed.plan(known.cost);
    let known = taken(task, known, planned);
    keep_first(task, proposed, first, spare, sets);
    keep_others(task, proposed, others, sets);
    known
}
