//! A certificate without its tree, while its lines are read.
ghost use Rattle.std.specs.Prelude.{◌≡◌, ◌↔◌, ◌≤◌, ◌<◌, ◌+◌, ◌*◌, ◌-◌, ◌%◌, true, false, List, [], ◌∷◌, ◌++◌, IsTrue, IfOk, OnOk};
ghost use Rattle.certificate.specs.Limits as limits;
ghost use Rattle.certificate.specs.inner.Steps as steps;

use crate::cert::{Entry, SparseSet};
use crate::forms::{bound_line, config_line, entry_line, node_line, number_line, set_line};
use crate::stage::{Stage, Taken};
use crate::words::is_word;
use adv_base::limits::{MOST_ENTRIES, MOST_NODES, MOST_PAGES, MOST_SETS};
use adv_base::{List, NoMemory};
use bip_model::Node;
use std::alloc::Global;
use std::mem;

/// The place of the first entry that a set may have, and of the last, in the order by statement, slot and candidate.
const FIRST_PLACE: u32 = 2305;

const LAST_PLACE: u32 = 2050304;

/// What the lines so far say, apart from the nodes of the tree, and what they leave to come. Of the sets, `sets_left`
/// aren't whole; `entries` are those so far of the first of these, of price `mu`, which still needs `entries_left`, from
/// the place `least` on. So many entries as `spare` may come beside those. Of the tree, `nodes_left` nodes are to come,
/// which make `trees_left` trees.
#[derive(Debug, Drop)]
pub(crate) struct Outline {
    pub(crate) stage: Stage,
    pub(crate) version: u8,
    pub(crate) budget: u64,
    pub(crate) config: List<u16>,
    pub(crate) cost: u128,
    pub(crate) bound: i128,
    pub(crate) sets: List<SparseSet>,
    pub(crate) sets_left: u8,
    pub(crate) mu: u128,
    pub(crate) entries: List<Entry>,
    pub(crate) entries_left: u32,
    pub(crate) least: u32,
    pub(crate) spare: u32,
    pub(crate) nodes_left: u32,
    pub(crate) trees_left: u32,
}

/// The place of an entry in the order by statement, slot and candidate.
fn entry_place(entry: Entry) -> u32
    requires { limits.EntryLimits entry }
    ensures { result ≡ limits.entry_place entry }
{
    entry.statement as u32 * 2048 + entry.slot as u32 * 256 + entry.candidate as u32
}

/// Whether an entry stands at a place from the least one on, with room for so many entries behind it.
fn entry_fits(entry: Entry, least: u32, left: u32) -> bool
    requires limits { limits.EntryLimits entry }
    requires few { left ≤ 1500000 }
    ensures { IsTrue result ↔ ((least ≤ limits.entry_place entry) × (left + limits.entry_place entry ≤ LAST_PLACE)) }
{
    let place = entry_place(entry);
    least <= place && left + place <= LAST_PLACE
}

/// Whether so many nodes can make so many trees, as far as their counts say.
fn trees_fit(trees: u32, left: u32) -> bool
    ensures fits { result ≡ true → (trees ≤ left) × (trees ≡ 0 → left ≡ 0) }
    ensures not { result ≡ false → trees ≤ left → (trees ≡ 0 → left ≡ 0) → ⊥ }
{
    if trees > left {
        return false;
    }
    if trees == 0 {
        return left == 0;
    }
    true
}

fn is_odd(count: u32) -> bool
    ensures { IsTrue result ↔ (count % 2 ≡ 1) }
{
    count % 2 == 1
}

/// Puts a set at the end.
fn put_set(sets: &mut List<SparseSet>, set: SparseSet) -> Result<(), NoMemory>
    ensures { OnOk result (sets.new ≡ sets.old ++ set ∷ []) }
{
    sets.items.push(set).map_err(|_| NoMemory)
}

/// Puts an entry at the end.
fn put_entry(entries: &mut List<Entry>, entry: Entry) -> Result<(), NoMemory>
    ensures { OnOk result (entries.new ≡ entries.old ++ entry ∷ []) }
{
    entries.items.push(entry).map_err(|_| NoMemory)
}

/// How many trees are to come behind a node.
fn trees_after(trees: u32, node: Node) -> u32
    requires some { 0 < trees }
    requires few { trees ≤ 1000000 }
    ensures { result ≡ steps.trees_after trees node }
{
    match node {
        Node::Branch(_) => trees + 1,
        Node::Bounded(_) | Node::Overfull => trees - 1,
    }
}

impl Outline {
    ghost use Rattle.bip_model.specs.declared.answer.Node as nodes;
    ghost use Rattle.certificate.specs.declared.stage.Stage.TheVariants as stages;
    ghost use Rattle.certificate.specs.inner.Drafts as drafts;
    ghost use Rattle.certificate.specs.inner.Outlines as outlines;

    /// What no line says.
    #[tactic(auto, unfolding(crate::specs::inner::Steps::start))]
    pub(crate) fn new(alloc: Global) -> Outline
        ensures { outlines.with_tree result [] ≡ steps.start }
    {
        Outline {
            stage: Stage::Title,
            version: 1,
            budget: 0,
            config: List::new(alloc),
            cost: 0,
            bound: 0,
            sets: List::new(alloc),
            sets_left: 0,
            mu: 0,
            entries: List::new(alloc),
            entries_left: 0,
            least: FIRST_PLACE,
            spare: MOST_ENTRIES as u32,
            nodes_left: 1,
            trees_left: 1,
        }
    }

    fn take_title(&mut self, line: &[u8]) -> Taken
        ensures { steps.TakesAt stages.Title result self.old line.now self.new }
    {
        match number_line(line, b"cophy certificate", 1, 2) {
            None => Taken::Refused,
            Some(version) => {
                self.version = version as u8;
                self.stage = Stage::Budget;
                Taken::Line
            }
        }
    }

    fn take_budget(&mut self, line: &[u8]) -> Taken
        ensures { steps.TakesAt stages.Budget result self.old line.now self.new }
    {
        match number_line(line, b"budget", 0, MOST_PAGES as u128) {
            None => Taken::Refused,
            Some(budget) => {
                self.budget = budget as u64;
                self.stage = Stage::Config;
                Taken::Line
            }
        }
    }

    fn take_config(&mut self, alloc: Global, line: &[u8]) -> Result<Taken, NoMemory>
        ensures { IfOk result (λ taken. steps.TakesAt stages.Config taken self.old line.now self.new) }
    {
        match config_line(alloc, line)? {
            None => Ok(Taken::Refused),
            Some(config) => {
                self.config = config;
                self.stage = Stage::Cost;
                Ok(Taken::Line)
            }
        }
    }

    fn take_cost(&mut self, line: &[u8]) -> Taken
        ensures { steps.TakesAt stages.Cost result self.old line.now self.new }
    {
        match number_line(line, b"cost", 0, i128::MAX as u128) {
            None => Taken::Refused,
            Some(cost) => {
                self.cost = cost;
                self.stage = Stage::Bound;
                Taken::Line
            }
        }
    }

    fn take_bound(&mut self, line: &[u8]) -> Taken
        ensures { steps.TakesAt stages.Bound result self.old line.now self.new }
    {
        match bound_line(line) {
            None => Taken::Refused,
            Some(bound) => {
                self.bound = bound;
                self.stage = Stage::Sets;
                Taken::Line
            }
        }
    }

    fn take_sets(&mut self, line: &[u8]) -> Taken
        ensures { steps.TakesAt stages.Sets result self.old line.now self.new }
    {
        match number_line(line, b"sets", 0, MOST_SETS as u128) {
            None => Taken::Refused,
            Some(count) => {
                self.sets_left = count as u8;
                self.stage = Stage::Body;
                Taken::Line
            }
        }
    }

    /// Puts the set that is begun behind the whole ones, where it needs no more entries.
    fn close(&mut self, alloc: Global) -> Result<(), NoMemory>
        requires { self.old.entries_left ≡ 0 → 0 < self.old.sets_left }
        ensures { OnOk result ((tree : List nodes.Node) → outlines.with_tree self.new tree ≡ steps.closed (outlines.with_tree self.old tree)) }
    {
        if self.entries_left == 0 {
            let entries = mem::replace(&mut self.entries, List::new(alloc));
            let set = SparseSet {
                mu: self.mu,
                entries,
            };
            put_set(&mut self.sets, set)?;
            self.sets_left -= 1;
        }
        Ok(())
    }

    fn take_set(&mut self, alloc: Global, line: &[u8]) -> Result<Taken, NoMemory>
        requires fits { drafts.OutlineFits self.old }
        requires none { self.old.entries_left ≡ 0 }
        requires more { 0 < self.old.sets_left }
        ensures { IfOk result (λ taken. (tree : List nodes.Node) → steps.Takes taken (steps.BodyStep 0 self.old.sets_left (outlines.with_tree self.old tree) line.now) self.new tree) }
    {
        match set_line(line, self.spare) {
            None => Ok(Taken::Refused),
            Some((mu, count)) => {
                self.mu = mu;
                self.entries_left = count;
                self.spare -= count;
                self.least = FIRST_PLACE;
                self.close(alloc)?;
                Ok(Taken::Line)
            }
        }
    }

    fn take_entry(&mut self, alloc: Global, line: &[u8]) -> Result<Taken, NoMemory>
        requires fits { drafts.OutlineFits self.old }
        requires more { 0 < self.old.entries_left }
        ensures { IfOk result (λ taken. (tree : List nodes.Node) → steps.Takes taken (steps.BodyStep self.old.entries_left self.old.sets_left (outlines.with_tree self.old tree) line.now) self.new tree) }
    {
        let entry = match entry_line(line) {
            None => return Ok(Taken::Refused),
            Some(entry) => entry,
        };
        let left = self.entries_left - 1;
        if !entry_fits(entry, self.least, left) {
            return Ok(Taken::Refused);
        }
        put_entry(&mut self.entries, entry)?;
        self.entries_left = left;
        self.least = entry_place(entry) + 1;
        self.close(alloc)?;
        Ok(Taken::Line)
    }

    fn take_tree(&mut self, line: &[u8]) -> Taken
        ensures { (tree : List nodes.Node) → steps.Takes result (steps.BodyStep 0 0 (outlines.with_tree self.old tree) line.now) self.new tree }
    {
        match number_line(line, b"tree", 1, MOST_NODES as u128) {
            None => Taken::Refused,
            Some(count) => {
                if !is_odd(count as u32) {
                    return Taken::Refused;
                }
                self.nodes_left = count as u32;
                self.stage = Stage::Nodes;
                Taken::Line
            }
        }
    }

    fn take_node(&mut self, line: &[u8]) -> Taken
        requires fits { drafts.OutlineFits self.old }
        requires more { 0 < self.old.nodes_left }
        ensures { (tree : List nodes.Node) → steps.Takes result (steps.NodeStep self.old.nodes_left (outlines.with_tree self.old tree) line.now) self.new tree }
    {
        let node = match node_line(line, self.sets.len()) {
            None => return Taken::Refused,
            Some(node) => node,
        };
        let trees = trees_after(self.trees_left, node);
        let left = self.nodes_left - 1;
        if !trees_fit(trees, left) {
            return Taken::Refused;
        }
        self.nodes_left = left;
        self.trees_left = trees;
        Taken::Node(node)
    }

    fn take_end(&mut self, line: &[u8]) -> Taken
        ensures { (tree : List nodes.Node) → steps.Takes result (steps.NodeStep 0 (outlines.with_tree self.old tree) line.now) self.new tree }
    {
        if !is_word(line, b"end") {
            return Taken::Refused;
        }
        self.stage = Stage::Done;
        Taken::Line
    }

    /// Takes a line of the sets, or the one behind them.
    fn take_body(&mut self, alloc: Global, line: &[u8]) -> Result<Taken, NoMemory>
        requires { drafts.OutlineFits self.old }
        ensures { IfOk result (λ taken. steps.TakesAt stages.Body taken self.old line.now self.new) }
    {
        if self.entries_left > 0 {
            self.take_entry(alloc, line)
        } else if self.sets_left > 0 {
            self.take_set(alloc, line)
        } else {
            Ok(self.take_tree(line))
        }
    }

    /// Takes a line of the tree, or the one behind it.
    fn take_nodes(&mut self, line: &[u8]) -> Taken
        requires { drafts.OutlineFits self.old }
        ensures { steps.TakesAt stages.Nodes result self.old line.now self.new }
    {
        if self.nodes_left > 0 {
            self.take_node(line)
        } else {
            self.take_end(line)
        }
    }

    /// Takes the next line.
    pub(crate) fn take(&mut self, alloc: Global, line: &[u8]) -> Result<Taken, NoMemory>
        requires { drafts.OutlineFits self.old }
        ensures { IfOk result (λ taken. steps.TakesAt self.old.stage taken self.old line.now self.new) }
    {
        match self.stage {
            Stage::Title => Ok(self.take_title(line)),
            Stage::Budget => Ok(self.take_budget(line)),
            Stage::Config => self.take_config(alloc, line),
            Stage::Cost => Ok(self.take_cost(line)),
            Stage::Bound => Ok(self.take_bound(line)),
            Stage::Sets => Ok(self.take_sets(line)),
            Stage::Body => self.take_body(alloc, line),
            Stage::Nodes => Ok(self.take_nodes(line)),
            Stage::Done => Ok(Taken::Refused),
        }
    }

    /// Whether the next line stands before those of the nodes.
    pub(crate) fn is_front(&self) -> bool
        ensures { result ≡ steps.is_front self.now.stage }
    {
        match self.stage {
            Stage::Title
            | Stage::Budget
            | Stage::Config
            | Stage::Cost
            | Stage::Bound
            | Stage::Sets
            | Stage::Body => true,
            Stage::Nodes | Stage::Done => false,
        }
    }

    /// Whether no line is to come.
    pub(crate) fn is_done(&self) -> bool
        ensures done { result ≡ true → self.now.stage ≡ stages.Done }
        ensures not { result ≡ false → self.now.stage ≡ stages.Done → ⊥ }
    {
        match self.stage {
            Stage::Done => true,
            Stage::Title
            | Stage::Budget
            | Stage::Config
            | Stage::Cost
            | Stage::Bound
            | Stage::Sets
            | Stage::Body
            | Stage::Nodes => false,
        }
    }
}
