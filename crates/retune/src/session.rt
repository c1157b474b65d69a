//! Sessions.
use crate::caches::{cache_for, caches_of};
use crate::fault::RetuneFault;
use crate::lists::{from_end, grow, place, set_weight, shrink, slots_in, slots_of, to_end};
use crate::narrowing::{Removed, narrow};
use crate::programme::made;
use crate::weights::reweigh;
use crate::widening::widen;
use adv_base::limits::{MOST_SLOTS_IN_ALL, MOST_STATEMENTS};
use adv_base::{Catalogue, List, Statement};
use bip_model::Programme;
use candidates::{Candidates, Proposed};
use inum_cache::Cache;
use std::alloc::Global;
use std::marker::Model;

/// A workload over a catalogue, with the candidates that its statements propose and the programme that stands for both.
/// It keeps the cache of plans of each statement, and what they propose. Statements are numbered from 1.
#[derive(Drop)]
pub struct Session<'a> {
    alloc: Global,
    cat: &'a Catalogue,
    statements: Vec<Statement>,
    caches: Vec<Option<Cache>>,
    proposed: Proposed,
    candidates: Candidates,
    programme: Programme,
}

impl<'a> Model for Session<'a> {
    ghost use Rattle.retune.specs.Sessions.{TheSession, the_session, IsTuned};
    ghost use Rattle.candidates.specs.Growing.{IsProposed};
    ghost use Rattle.programme_parts.specs.Caches.{AreCached};

    ghost Value = { TheSession };

    ghost view = { λ s. the_session s.cat.now s.statements.items s.candidates s.programme };

    ghost invariant = { λ s. IsTuned (the_session s.cat.now s.statements.items s.candidates s.programme) × AreCached s.cat.now s.statements.items s.caches.items × IsProposed s.cat.now s.statements.items s.proposed };
}

impl<'a> Session<'a> {
    ghost use Rattle.std.specs.Prelude.{◌≡◌, ◌≤◌, [], All, IfOk, IfErr, OnOk, OnErr};
    ghost use Rattle.adv_base.specs.Limits.Settings.{SettingLimits};
    ghost use Rattle.adv_base.specs.Named.{NamesWork};
    ghost use Rattle.adv_base.specs.declared.limits.TheConstants.{MOST_WEIGHT};
    ghost use Rattle.programme_parts.specs.Combinations.{AreFew};
    ghost use Rattle.bip_model.specs.declared.programme.Programme as declared;
    ghost use Rattle.programme_parts.specs.Laws.{IsProgrammeOf};
    ghost use Rattle.candidates.specs.Growing.{IsProposed};
    ghost use Rattle.retune.specs.Sessions.{IsTuned, setting_of};
    ghost use Rattle.retune.specs.Steps as steps;
    ghost use Rattle.retune.specs.declared.fault.RetuneFault.TheVariants.{NoStatement};

    /// A session of statements. `TooManyCombinations` comes at the first of them whose block has more than
    /// `MOST_COMBINATIONS` combinations of interesting orders, and always there but for want of memory, which is `Memory`.
    pub fn new(
        alloc: Global,
        cat: &'a Catalogue,
        statements: List<Statement>,
    ) -> Result<Session<'a>, RetuneFault>
        requires { SettingLimits cat.now statements [] }
        ensures statements { IfOk result (λ session. session.statements ≡ statements) }
        ensures cat { IfOk result (λ session. session.cat ≡ cat.now) }
        ensures few { IfOk result (λ _. AreFew cat.now statements) }
        ensures fault { IfErr result (steps.IsNewFault cat.now statements) }
    {
        let proposed = Proposed::new(alloc, cat, statements.as_slice())?;
        Session::over(alloc, cat, statements, proposed)
    }

    /// A session of statements that propose what is known already. Its errors are those of `new`.
    pub fn over(
        alloc: Global,
        cat: &'a Catalogue,
        statements: List<Statement>,
        proposed: Proposed,
    ) -> Result<Session<'a>, RetuneFault>
        requires limits { SettingLimits cat.now statements [] }
        requires proposed { IsProposed cat.now statements proposed }
        ensures statements { IfOk result (λ session. session.statements ≡ statements) }
        ensures cat { IfOk result (λ session. session.cat ≡ cat.now) }
        ensures few { IfOk result (λ _. AreFew cat.now statements) }
        ensures fault { IfErr result (steps.IsNewFault cat.now statements) }
    {
        let statements = statements.items;
        let caches = caches_of(alloc, cat, statements.as_slice())?.items;
        let list = statements.as_slice();
        let (candidates, programme) = made(alloc, cat, list, caches.as_slice(), &proposed)?;
        Ok(Session {
            alloc,
            cat,
            statements,
            caches,
            proposed,
            candidates,
            programme,
        })
    }

    /// Whether there is room for a statement.
    fn admits(&self, statement: &Statement) -> Result<(), RetuneFault>
        ensures room { OnOk result (steps.HasRoom self.now.statements) }
        ensures slots { OnOk result (steps.HasSlots self.now.statements statement.now) }
        ensures fault { IfErr result (steps.IsAddFault self.now statement.now) }
    {
        if self.statements.len() >= MOST_STATEMENTS {
            return Err(RetuneFault::TooManyStatements);
        }
        if slots_in(self.statements.as_slice()) + slots_of(statement) > MOST_SLOTS_IN_ALL {
            return Err(RetuneFault::TooManySlots);
        }
        Ok(())
    }

    /// Adds a statement, which becomes the last one. Refused by the first of these: `TooManyStatements` where there are
    /// `MOST_STATEMENTS`; `TooManySlots` where all would have more than `MOST_SLOTS_IN_ALL` slots together;
    /// `TooManyCombinations` where its block has more than `MOST_COMBINATIONS` combinations of interesting orders, with the
    /// number that it would have and their count. `Memory` is want of memory. Whatever is refused changes nothing.
    pub fn add(&mut self, statement: Statement) -> Result<(), RetuneFault>
        requires { NamesWork self.old.cat statement.work }
        ensures statements { OnOk result (self.new.statements ≡ steps.added self.old.statements statement) }
        ensures cat { OnOk result (self.new.cat ≡ self.old.cat) }
        ensures can { OnOk result (steps.CanTake self.old statement) }
        ensures same { OnErr result (self.new ≡ self.old) }
        ensures fault { IfErr result (steps.IsAddFault self.old statement) }
    {
        self.admits(&statement)?;
        let number = self.statements.len() as u32 + 1;
        let cache = cache_for(self.alloc, self.cat, number, &statement)?;
        let before = self.proposed.len();
        self.proposed.add(self.alloc, self.cat, &statement)?;
        match grow(&mut self.statements, &mut self.caches, statement, cache) {
            Ok(()) => {}
            Err(_) => {
                self.proposed.shorten(before);
                return Err(RetuneFault::Memory);
            }
        }
        match widen(
            self.alloc,
            self.cat,
            self.statements.as_slice(),
            self.caches.as_slice(),
            &self.proposed,
            &mut self.candidates,
            &mut self.programme,
        ) {
            Ok(()) => Ok(()),
            Err(_) => {
                shrink(&mut self.statements, &mut self.caches);
                self.proposed.shorten(before);
                Err(RetuneFault::Memory)
            }
        }
    }

    /// Removes the statement of a number; later ones move down. `NoStatement` comes exactly where there is none; `Memory` is
    /// want of memory. Whatever is refused changes nothing.
    pub fn remove(&mut self, number: u32) -> Result<(), RetuneFault>
        ensures statements { OnOk result (self.new.statements ≡ steps.removed self.old.statements number) }
        ensures cat { OnOk result (self.new.cat ≡ self.old.cat) }
        ensures number { OnOk result (steps.IsNumber self.old.statements number) }
        ensures same { OnErr result (self.new ≡ self.old) }
        ensures fault { IfErr result (steps.IsNumberFault self.old number) }
    {
        let at = place(self.statements.len(), number)?;
        to_end(&mut self.statements, at);
        to_end(&mut self.caches, at);
        let count = self.statements.len() - 1;
        let statement = &self.statements[count];
        let removed = Removed { statement, at };
        match narrow(
            self.alloc,
            self.cat,
            &self.statements.as_slice()[..count],
            &self.caches.as_slice()[..count],
            removed,
            &self.candidates,
            &mut self.programme,
        ) {
            Ok((proposed, candidates)) => {
                shrink(&mut self.statements, &mut self.caches);
                self.proposed = proposed;
                self.candidates = candidates;
                Ok(())
            }
            Err(_) => {
                from_end(&mut self.statements, at);
                from_end(&mut self.caches, at);
                Err(RetuneFault::Memory)
            }
        }
    }

    /// Gives the statement of a number a weight. `NoStatement` comes exactly where there is none, and then nothing changes.
    /// The candidates stay and the programme changes in place: it takes no memory, and time that grows with the candidates
    /// and the indexes that exist.
    pub fn reweigh(&mut self, number: u32, weight: u32) -> Result<(), RetuneFault>
        requires least { 1 ≤ weight }
        requires most { weight ≤ MOST_WEIGHT }
        ensures statements { OnOk result (steps.AreReweighed self.old.statements number weight self.new.statements) }
        ensures cat { self.new.cat ≡ self.old.cat }
        ensures candidates { self.new.candidates ≡ self.old.candidates }
        ensures number { OnOk result (steps.IsNumber self.old.statements number) }
        ensures same { OnErr result (self.new ≡ self.old) }
        ensures fault { IfErr result (λ fault. fault ≡ NoStatement number) }
        ensures none { OnErr result (¬ (steps.IsNumber self.old.statements number)) }
    {
        let at = place(self.statements.len(), number)?;
        reweigh(
            self.cat,
            self.statements.as_slice(),
            &self.candidates,
            at,
            weight,
            &mut self.programme,
        );
        set_weight(&mut self.statements, at, weight);
        Ok(())
    }

    /// The statements, in order.
    pub fn statements(&self) -> &[Statement]
        ensures statements { result.now ≡ self.now.statements }
        ensures tuned { IsTuned self.now }
    {
        self.statements.as_slice()
    }

    /// The candidates that the statements propose, and how many proposals more there were.
    pub fn candidates(&self) -> &Candidates
        ensures candidates { result.now ≡ self.now.candidates }
        ensures tuned { IsTuned self.now }
    {
        &self.candidates
    }

    /// The programme that stands for the statements with the candidates, and the only one with the templates that are kept of
    /// each block: so the same, number for number, as one that is made from scratch.
    pub fn programme(&self) -> &Programme
        ensures programme { result.now ≡ self.now.programme }
        ensures one { (other : declared.Programme) → IsProgrammeOf (setting_of self.now) other → other ≡ self.now.programme }
        ensures tuned { IsTuned self.now }
    {
        &self.programme
    }
}
