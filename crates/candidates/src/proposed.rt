//! What a workload proposes, kept so that statements can be added to it.
use crate::answer::Candidates;
use crate::found::{known_proposals, shapes_between};
use crate::known::Proposal;
use crate::proposals::add_work;
use adv_base::limits::MOST_CANDIDATES;
use adv_base::{Catalogue, IndexShape, List, NoMemory, Statement};
use indexmap::IndexSet;
use std::alloc::Global;
use std::marker::Model;

/// The indexes that statements propose, each once and in sequence, less those that are left out.
#[derive(Drop)]
pub struct Proposed {
    /// The indexes that exist, how many are named by `existing`, and behind them what is proposed.
    known: IndexSet<Proposal>,
    existing: usize,
}

impl Model for Proposed {
    ghost use Rattle.std.specs.Prelude.{◌≤◌, take, drop, length};
    ghost use Rattle.candidates.specs.Growing.{TheProposed, the_proposed};
    ghost use Rattle.candidates.specs.inner.Known.{as_proposals};

    ghost Value = { TheProposed };

    ghost view = { λ p. the_proposed (take p.existing (as_proposals p.known.keys)) (drop p.existing (as_proposals p.known.keys)) };

    ghost invariant = { λ p. p.existing ≤ length p.known.keys };
}

impl Proposed {
    ghost use Rattle.std.specs.Prelude.{◌≡◌, ◌≤◌, ◌-◌, ◌++◌, ◌∷◌, [], List, OnOk, OnErr, IfOk, All, map, take, drop, length};
    ghost use Rattle.adv_base.specs.declared.limits.TheConstants.{MOST_CANDIDATES};
    ghost use Rattle.adv_base.specs.declared.workload.Statement.{Statement};
    ghost use Rattle.adv_base.specs.Limits.Numbers.{KeyLimits};
    ghost use Rattle.candidates.specs.Candidates as proposed;
    ghost use Rattle.candidates.specs.Growing as growing;

    /// What statements propose. The only error is want of memory.
    pub fn new(
        alloc: Global,
        cat: &Catalogue,
        statements: &[Statement],
    ) -> Result<Proposed, NoMemory>
        ensures { IfOk result (growing.IsProposed cat.now statements.now) }
    {
        let (known, existing) = known_proposals(alloc, cat, statements)?;
        Ok(Proposed { known, existing })
    }

    /// How many there are.
    pub fn len(&self) -> usize
        ensures { result ≡ length self.now.fresh }
    {
        self.known.len() - self.existing
    }

    /// Adds what one more statement proposes. An error, want of memory alone, leaves what there was.
    pub fn add(
        &mut self,
        alloc: Global,
        cat: &Catalogue,
        statement: &Statement,
    ) -> Result<(), NoMemory>
        ensures added { OnOk result ((statements : List Statement) → growing.IsProposed cat.now statements self.old → growing.IsProposed cat.now (statements ++ statement.now ∷ []) self.new) }
        ensures same { OnErr result (self.new ≡ self.old) }
    {
        let mut own: IndexSet<Proposal> = IndexSet::new(alloc);
        add_work(alloc, &mut own, cat, &statement.work)?;
        self.known.append(&mut own)?;
        Ok(())
    }

    /// Forgets all but so many.
    pub fn shorten(&mut self, count: usize)
        requires { count ≤ length self.old.fresh }
        ensures { self.new ≡ growing.the_proposed self.old.existing (take count self.old.fresh) }
    {
        // The sum stays within this.
        let _all = self.known.len();
        self.known.truncate(self.existing + count);
    }

    /// The shapes of those from one place up to another, from 0.
    pub fn shapes(
        &self,
        alloc: Global,
        from: usize,
        to: usize,
    ) -> Result<List<IndexShape>, NoMemory>
        requires order { from ≤ to }
        requires within { to ≤ length self.now.fresh }
        requires limits { All (λ p. KeyLimits p.keys) self.now.fresh }
        ensures same { IfOk result (λ list. map proposed.proposal_of list ≡ take (to - from) (drop from self.now.fresh)) }
        ensures not_unique { IfOk result (All proposed.IsNotUnique) }
    {
        // Both sums stay within this.
        let _all = self.known.len();
        let list = shapes_between(alloc, &self.known, self.existing + from, self.existing + to)?;
        Ok(list)
    }

    /// The first 256 of them, which are the candidates, and how many more there are.
    pub fn candidates(&self, alloc: Global) -> Result<Candidates, NoMemory>
        requires limits { All (λ p. KeyLimits p.keys) self.now.fresh }
        ensures list { IfOk result (λ found. map proposed.proposal_of found.list ≡ take MOST_CANDIDATES self.now.fresh) }
        ensures left_over { IfOk result (λ found. found.left_over ≡ length self.now.fresh - MOST_CANDIDATES) }
        ensures not_unique { IfOk result (λ found. All proposed.IsNotUnique found.list) }
    {
        let count = self.len();
        let kept = count.min(MOST_CANDIDATES);
        let list = self.shapes(alloc, 0, kept)?;
        Ok(Candidates {
            list,
            left_over: (count - kept) as u64,
        })
    }
}
