//! What certificates are judged by, and nodes of their trees.
ghost use Rattle.std.specs.Prelude.{◌≡◌, ◌<◌, IfOk, OnOk, ◌++◌, ◌∷◌, [], Some, length, slice_get};
ghost use Rattle.std.specs.List.{AllByRecursion};
ghost use Rattle.adv_base.specs.Configs.{space_of};
ghost use Rattle.adv_base.specs.Settings.{the_setting};
ghost use Rattle.bip_model.specs.StandsFor.{AreEach};
ghost use Rattle.bip_model.specs.Views.{the_space};
ghost use Rattle.certificate.specs.Limits as limits;
ghost use Rattle.hypo_indexes.specs.Figures.{AreFigures};
ghost use Rattle.gap_checker.specs.inner.Kept as kept;

use crate::claims::Claims;
use crate::fault::CheckFault;
use crate::lagrangian::lagrangian_value;
use crate::memo::Memo;
use crate::multipliers::{Multipliers, Rents, multipliers_of};
use adv_base::{NoMemory, Setting, is_apart};
use bip_model::{Fix, Node, Space};
use certificate::SparseSet;
use hypo_indexes::Figures;
use std::alloc::Global;

/// What a certificate is judged by: the setting and its figures, the space of its candidates, what the certificate claims
/// and the root of its tree; and its sets with what candidates earn under them, of which the first has no rents.
#[derive(Drop)]
pub(crate) struct Judge<'a> {
    pub setting: &'a Setting<'a>,
    pub figures: &'a Figures,
    pub space: Space<'a>,
    pub claims: Claims<'a>,
    pub root: &'a Fix,
    pub sets: Vec<Multipliers<'a>>,
    pub ghost figures_are: { AreFigures (the_setting setting.now) figures.now },
    pub ghost space_is: { the_space space ≡ space_of setting.now.cat.now setting.now.shapes.now claims.budget },
}

/// A set of a certificate, with what candidates earn.
fn kept_set<'a>(
    alloc: Global,
    setting: &Setting<'_>,
    set: &'a SparseSet,
) -> Result<Multipliers<'a>, NoMemory>
    requires limits { limits.SetLimits set.now }
    ensures { IfOk result (kept.IsKept (the_setting setting.now) set.now) }
{
    let rents = Rents {
        mu: set.mu,
        entries: set.entries.as_slice(),
    };
    multipliers_of(alloc, setting, rents)
}

/// The set without rents.
fn zero_set<'a>(alloc: Global, setting: &Setting<'_>) -> Result<Multipliers<'a>, NoMemory>
    ensures { IfOk result (kept.IsKept (the_setting setting.now) kept.zero_set) }
{
    let rents = Rents {
        mu: 0,
        entries: &[],
    };
    multipliers_of(alloc, setting, rents)
}

/// Puts a set at the end.
fn put<'a>(sets: &mut Vec<Multipliers<'a>>, set: Multipliers<'a>) -> Result<(), NoMemory>
    ensures { OnOk result (sets.new.items ≡ sets.old.items ++ set.entry ∷ []) }
{
    sets.push(set)?;
    Ok(())
}

/// All sets, that without rents first.
fn kept_sets<'a>(
    alloc: Global,
    setting: &Setting<'_>,
    sets: &'a [SparseSet],
) -> Result<Vec<Multipliers<'a>>, NoMemory>
    requires limits { AllByRecursion limits.SetLimits sets.now }
    ensures { IfOk result (λ list. AreEach (kept.IsKept (the_setting setting.now)) (kept.all_sets sets.now) list.items) }
{
    let mut kept = Vec::new(alloc);
    let zero = zero_set(alloc, setting)?;
    put(&mut kept, zero)?;
    for set in sets {
        let own = kept_set(alloc, setting, set)?;
        put(&mut kept, own)?;
    }
    Ok(kept)
}

/// The set of a number.
fn kept_set_at<'b, 'a>(sets: &'b [Multipliers<'a>], at: usize) -> &'b Multipliers<'a>
    requires { at < length sets.now }
    ensures { slice_get sets.now at ≡ Some result.now }
{
    match sets.get(at) {
        Some(set) => set,
        None => unreachable!(),
    }
}

impl<'a> Judge<'a> {
    ghost use Rattle.std.specs.Prelude.{◌≡◌, ◌≤◌, IfOk, IfErr, OnOk, length};
    ghost use Rattle.bip_model.specs.Views.{node_of};
    ghost use Rattle.bip_model.specs.declared.answer.Node.TheVariants.{Branch, Bounded, Overfull};
    ghost use Rattle.gap_checker.specs.inner.Claims.{KeepsLimits};
    ghost use Rattle.gap_checker.specs.inner.Judges as judges;
    ghost use Rattle.gap_checker.specs.inner.Memos.{IsMemo};

    /// The judge of a certificate's claims, and of its tree below a root. Want of memory is the one error.
    pub(crate) fn new(
        alloc: Global,
        setting: &'a Setting<'a>,
        figures: &'a Figures,
        claims: Claims<'a>,
        root: &'a Fix,
    ) -> Result<Judge<'a>, NoMemory>
        requires figures_are { AreFigures (the_setting setting.now) figures.now }
        requires limits { KeepsLimits claims }
        ensures judge { IfOk result judges.IsJudge }
        ensures setting { IfOk result (λ judge. judge.setting.now ≡ setting.now) }
        ensures claims { IfOk result (λ judge. judge.claims ≡ claims.entry) }
        ensures root { IfOk result (λ judge. judge.root.now ≡ root.now) }
    {
        let sets = kept_sets(alloc, setting, claims.sets)?;
        let space = Space {
            sizes: figures.sizes.as_slice(),
            budget: claims.budget,
        };
        Ok(Judge {
            setting,
            figures,
            space,
            claims,
            root,
            sets,
        })
    }

    /// Judges a branch: its candidate is one, and free.
    fn judge_branch(&self, number: u32, at: &Fix, candidate: u16) -> Result<(), CheckFault>
        ensures right { OnOk result (judges.IsRightFor self.now (node_of at.now) (Branch candidate)) }
        ensures wrong { IfErr result (judges.IsWrong self.now number (node_of at.now) (Branch candidate)) }
    {
        if candidate == 0 || candidate as usize > self.setting.shapes.len() {
            return Err(CheckFault::BadBranch(number));
        }
        if !at.is_free(candidate) {
            return Err(CheckFault::BadBranch(number));
        }
        Ok(())
    }

    /// Judges a leaf: its Lagrangian value is at least the bound.
    fn judge_leaf(
        &self,
        alloc: Global,
        memo: &mut Memo<'_>,
        number: u32,
        at: &Fix,
        set: u8,
    ) -> Result<(), CheckFault>
        requires judge { judges.IsJudge self.now }
        requires memo_is { IsMemo (judges.setting_of self.now) self.now.claims.sets.now memo.old }
        requires set_in { set ≤ length self.now.claims.sets.now }
        ensures memo { OnOk result (IsMemo (judges.setting_of self.now) self.now.claims.sets.now memo.new) }
        ensures right { OnOk result (judges.IsRightFor self.now (node_of at.now) (Bounded set)) }
        ensures wrong { IfErr result (judges.IsWrong self.now number (node_of at.now) (Bounded set)) }
    {
        let multipliers = kept_set_at(self.sets.as_slice(), set as usize);
        let last = &mut memo.lasts[set as usize];
        let desks = memo.desks.as_mut_slice();
        let value = lagrangian_value(alloc, self, desks, last, multipliers, at)?;
        if value < self.claims.bound {
            return Err(CheckFault::LeafBelow(number, value, self.claims.bound));
        }
        Ok(())
    }

    /// Judges a leaf that is called overfull: the pages of what is in exceed the budget, or else, but in version 1, two of
    /// its candidates are clustered on one table.
    fn judge_overfull(&self, number: u32, at: &Fix) -> Result<(), CheckFault>
        ensures right { OnOk result (judges.IsRightFor self.now (node_of at.now) Overfull) }
        ensures wrong { IfErr result (judges.IsWrong self.now number (node_of at.now) Overfull) }
    {
        let inside = at.inside();
        let size = self.space.pages(&inside);
        if size > self.claims.budget {
            return Ok(());
        }
        if self.claims.version == 1 || is_apart(self.setting.shapes, &inside) {
            return Err(CheckFault::NotInfeasible(number, size as u128));
        }
        Ok(())
    }

    /// Judges a node where it stands; nodes are numbered from 1.
    pub(crate) fn judge_node(
        &self,
        alloc: Global,
        memo: &mut Memo<'_>,
        number: u32,
        at: &Fix,
        node: Node,
    ) -> Result<(), CheckFault>
        requires judge { judges.IsJudge self.now }
        requires memo_is { IsMemo (judges.setting_of self.now) self.now.claims.sets.now memo.old }
        requires limits { limits.NodeLimits (length self.now.claims.sets.now) node }
        ensures memo { OnOk result (IsMemo (judges.setting_of self.now) self.now.claims.sets.now memo.new) }
        ensures right { OnOk result (judges.IsRightFor self.now (node_of at.now) node) }
        ensures wrong { IfErr result (judges.IsWrong self.now number (node_of at.now) node) }
    {
        match node {
            Node::Branch(candidate) => self.judge_branch(number, at, candidate),
            Node::Bounded(set) => self.judge_leaf(alloc, memo, number, at, set),
            Node::Overfull => self.judge_overfull(number, at),
        }
    }
}
