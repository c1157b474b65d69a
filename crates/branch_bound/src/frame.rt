//! What stays the same in a walk.
ghost use Rattle.std.specs.Prelude.{◌≤◌, All, length};
ghost use Rattle.adv_base.specs.declared.limits.TheConstants.{MOST_NODES, MOST_PAGES, MOST_SETS};
ghost use Rattle.bip_model.specs.Views.{AreMultipliers};
ghost use Rattle.lagrange_bound.specs.Ledgers.{AreCheaperParts};

use adv_base::IndexShape;
use adv_base::limits::MOST_CANDIDATES;
use bip_model::{Multipliers, Programme};
use lagrange_bound::CheaperParts;
use relaxations::Step;

/// The programme, its candidates, a budget of pages and one of nodes, the set of zeros and the other sets of
/// multipliers, which candidates are useful, the plan of the tree and whether the walk gives up where that ends, and
/// which parts each candidate can make cheaper.
#[derive(Drop)]
pub(crate) struct Frame<'a> {
    pub programme: &'a Programme,
    pub shapes: &'a [IndexShape],
    pub budget: u64,
    pub nodes: u32,
    pub zeros: &'a Multipliers,
    pub sets: &'a [Multipliers],
    pub useful: &'a [bool; MOST_CANDIDATES],
    pub plan: &'a [Step],
    pub stops: bool,
    pub cheaper: &'a CheaperParts,
    pub ghost budget_most: { budget ≤ MOST_PAGES },
    pub ghost nodes_most: { nodes ≤ MOST_NODES },
    pub ghost zeros_fit: { AreMultipliers programme.now zeros.now },
    pub ghost sets_few: { length sets.now ≤ MOST_SETS },
    pub ghost sets_fit: { All (AreMultipliers programme.now) sets.now },
    pub ghost cheaper_are: { AreCheaperParts programme.now cheaper.now },
}

/// No node of a plan.
const NO_STEP: Step = Step {
    candidate: 0,
    set: u8::MAX,
    outside: 0,
};

impl<'a> Frame<'a> {
    /// The node of the plan at a place; where the plan has none, a leaf without a set.
    pub fn step(&self, place: usize) -> Step {
        match self.plan.get(place) {
            Some(step) => *step,
            None => NO_STEP,
        }
    }
}
