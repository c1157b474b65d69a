//! Trees that are judged while their text is read.
ghost use Rattle.std.specs.Prelude.{◌≡◌, ◌≤◌, ◌<◌, true, false};
ghost use Rattle.certificate.specs.Texts as texts;
ghost use Rattle.gap_checker.specs.inner.Walks as walks;

use crate::fault::AtFault;
use crate::judge::Judge;
use crate::memo::Memo;
use crate::tree::put;
use adv_base::{Bytes, NoMemory, first_line};
use bip_model::{Fix, Node};
use certificate::{Head, node_line};
use std::alloc::Global;

/// How many bytes a line of a tree has at most, without its line feed.
const LONGEST_LINE: usize = 5;

/// What the lines so far of a tree's text lead to, and the line that is open. `read` counts the nodes in those lines; `is_done`
/// says that the line behind the last node came too. `starts` has where the trees behind them start, the last one first.
#[derive(Drop)]
pub(crate) struct TreeReader {
    pub read: u32,
    pub is_done: bool,
    pub partial: Bytes,
    pub starts: Vec<Fix>,
}

/// Whether a line is the one behind the nodes.
fn is_end(line: &[u8]) -> bool
    ensures end { result ≡ true → line.now ≡ texts.end_line }
    ensures not { result ≡ false → line.now ≡ texts.end_line → ⊥ }
{
    match line.strip_prefix(b"end".as_slice()) {
        None => false,
        Some(rest) => rest.is_empty(),
    }
}

/// How many trees start behind a node before which so many do.
fn trees_after(trees: usize, node: Node) -> usize
    requires some { 0 < trees }
    requires few { trees ≤ 1000000 }
    ensures { result ≡ walks.trees_after trees node }
{
    match node {
        Node::Branch(_) => trees + 1,
        Node::Bounded(_) | Node::Overfull => trees - 1,
    }
}

/// Whether so many nodes can make so many trees, as far as their counts say.
fn trees_fit(trees: usize, left: usize) -> bool
    ensures fits { result ≡ true → walks.TreesFit trees left }
    ensures not { result ≡ false → walks.TreesFit trees left → ⊥ }
{
    if trees > left {
        return false;
    }
    trees > 0 || left == 0
}

impl TreeReader {
    ghost use Rattle.std.specs.Prelude.{◌≡◌, ◌≢◌, ◌<◌, ◌≤◌, ◌+◌, ◌-◌, ◌++◌, ◌∷◌, [], ℕ, List, true, false, IfOk, IfErr, OnOk, MatchOption, length};
    ghost use Rattle.bip_model.specs.declared.answer.Node as nodes;
    ghost use Rattle.certificate.specs.Certificates.{IsLine};
    ghost use Rattle.certificate.specs.Limits as limits;
    ghost use Rattle.certificate.specs.Texts as texts;
    ghost use Rattle.gap_checker.specs.At as at;
    ghost use Rattle.gap_checker.specs.declared.judge.Judge as judging;
    ghost use Rattle.gap_checker.specs.inner.Judges as judges;
    ghost use Rattle.gap_checker.specs.inner.Memos.{IsMemo};
    ghost use Rattle.gap_checker.specs.inner.Readings as readings;

    /// No line was read.
    pub(crate) fn new(alloc: Global, judge: &Judge<'_>, head: &Head) -> Result<TreeReader, NoMemory>
        requires { at.IsSomeHead head.now }
        ensures fits { IfOk result (readings.ReaderFits head.now) }
        ensures taken { IfOk result (λ reader. readings.HasTaken judge.now head.now reader []) }
        ensures left { IfOk result (λ reader. readings.bytes_left head.now reader ≤ 7000000) }
    {
        let mut starts = Vec::new(alloc);
        put(&mut starts, *judge.root)?;
        let partial = Bytes {
            items: Vec::with_capacity(alloc, LONGEST_LINE)?,
        };
        Ok(TreeReader {
            read: 0,
            is_done: false,
            partial,
            starts,
        })
    }

    /// Whether the line behind the nodes came.
    fn is_over(&self) -> bool
        ensures { result ≡ self.now.is_done }
    {
        self.is_done
    }

    /// Whether all nodes came.
    fn has_all(&self, head: &Head) -> bool
        ensures all { result ≡ true → self.now.read ≡ head.now.nodes }
        ensures not { result ≡ false → self.now.read ≡ head.now.nodes → ⊥ }
    {
        self.read == head.nodes
    }

    /// How many trees start behind the lines so far.
    fn trees(&self) -> usize
        ensures { result ≡ length self.now.starts.items }
    {
        self.starts.len()
    }

    /// Whether the open line has bytes.
    fn is_open(&self) -> bool
        ensures open_line { result ≡ true → 0 < length self.now.partial }
        ensures none { result ≡ false → length self.now.partial ≡ 0 }
    {
        !self.partial.items.is_empty()
    }

    /// Whether the open line is the one behind the nodes.
    fn has_end(&self) -> bool
        ensures end { result ≡ true → self.now.partial ≡ texts.end_line }
        ensures not { result ≡ false → self.now.partial ≡ texts.end_line → ⊥ }
    {
        is_end(self.partial.as_slice())
    }

    /// The node of the open line.
    fn node(&self, head: &Head) -> Option<Node>
        requires { length head.now.sets ≤ 16 }
        ensures { MatchOption result ((node : nodes.Node) → limits.NodeLimits (length head.now.sets) node → self.now.partial ≢ texts.node_line node)
            (λ node. limits.NodeLimits (length head.now.sets) node × (self.now.partial ≡ texts.node_line node)) }
    {
        node_line(self.partial.as_slice(), head.sets.len())
    }

    /// How many nodes are to come.
    fn left(&self, head: &Head) -> usize
        requires { self.now.read ≤ head.now.nodes }
        ensures { result ≡ head.now.nodes - self.now.read }
    {
        (head.nodes - self.read) as usize
    }

    /// The number of the line that is open.
    fn number(&self, head: &Head) -> u64
        ensures { result ≡ readings.line_number head.now self.now }
    {
        let number = head.lines as u64 + self.read as u64 + 1;
        if self.is_done { number + 1 } else { number }
    }

    /// Adds bytes to the open line; false where it would be longer than any of a tree.
    fn extend(&mut self, bytes: &[u8]) -> Result<bool, NoMemory>
        ensures { IfOk result (λ fits. readings.Extends fits self.old bytes.now self.new) }
    {
        if self.partial.items.len() + bytes.len() > LONGEST_LINE {
            return Ok(false);
        }
        self.partial.push_slice(bytes)?;
        Ok(true)
    }

    /// Counts the open line, which is that of a node.
    fn count_node(&mut self)
        requires { self.old.read < 1000000 }
        ensures { self.new ≡ record self.old { read = self.old.read + 1; partial = [] } }
    {
        self.read += 1;
        self.partial.clear();
    }

    /// Counts the open line, which is the one behind the nodes.
    fn count_end(&mut self)
        ensures { self.new ≡ record self.old { is_done = true; partial = [] } }
    {
        self.is_done = true;
        self.partial.clear();
    }

    /// Judges the node of the open line, and counts that.
    fn take_node(
        &mut self,
        alloc: Global,
        judge: &Judge<'_>,
        memo: &mut Memo<'_>,
        head: &Head,
        node: Node,
    ) -> Result<(), AtFault>
        requires judge { readings.IsJudgeFor judge.now head.now }
        requires memo_is { IsMemo (judges.setting_of judge.now) judge.now.claims.sets.now memo.old }
        requires fits { readings.ReaderFits head.now self.old }
        requires more { self.old.read < head.now.nodes }
        requires limits { limits.NodeLimits (length head.now.sets) node }
        requires line { self.old.partial ≡ texts.node_line node }
        ensures memo { OnOk result (IsMemo (judges.setting_of judge.now) judge.now.claims.sets.now memo.new) }
        ensures taken { OnOk result (readings.TakesOn judge.now head.now self.old (10 ∷ []) self.new) }
        ensures fault { IfErr result (readings.IsFaultIn judge.now head.now self.old (10 ∷ [])) }
    {
        let trees = trees_after(self.trees(), node);
        let left = self.left(head) - 1;
        if !trees_fit(trees, left) {
            return Err(AtFault::Malformed(self.number(head)));
        }
        judge.judge_next(alloc, memo, &mut self.starts, self.read + 1, node)?;
        self.count_node();
        Ok(())
    }

    /// Takes the open line, which is whole.
    fn take_line(
        &mut self,
        alloc: Global,
        judge: &Judge<'_>,
        memo: &mut Memo<'_>,
        head: &Head,
    ) -> Result<(), AtFault>
        requires judge { readings.IsJudgeFor judge.now head.now }
        requires memo_is { IsMemo (judges.setting_of judge.now) judge.now.claims.sets.now memo.old }
        requires fits { readings.ReaderFits head.now self.old }
        ensures memo { OnOk result (IsMemo (judges.setting_of judge.now) judge.now.claims.sets.now memo.new) }
        ensures taken { OnOk result (readings.TakesOn judge.now head.now self.old (10 ∷ []) self.new) }
        ensures fault { IfErr result (readings.IsFaultIn judge.now head.now self.old (10 ∷ [])) }
    {
        if self.is_over() {
            return Err(AtFault::Malformed(self.number(head)));
        }
        if self.has_all(head) {
            if !self.has_end() {
                return Err(AtFault::Malformed(self.number(head)));
            }
            self.count_end();
            return Ok(());
        }
        match self.node(head) {
            None => Err(AtFault::Malformed(self.number(head))),
            Some(node) => self.take_node(alloc, judge, memo, head, node),
        }
    }

    /// Takes bytes without a line feed, and the line feed behind them.
    fn end_line(
        &mut self,
        alloc: Global,
        judge: &Judge<'_>,
        memo: &mut Memo<'_>,
        head: &Head,
        bytes: &[u8],
    ) -> Result<(), AtFault>
        requires judge { readings.IsJudgeFor judge.now head.now }
        requires memo_is { IsMemo (judges.setting_of judge.now) judge.now.claims.sets.now memo.old }
        requires fits { readings.ReaderFits head.now self.old }
        requires plain { IsLine bytes.now }
        ensures memo { OnOk result (IsMemo (judges.setting_of judge.now) judge.now.claims.sets.now memo.new) }
        ensures taken { OnOk result (readings.TakesOn judge.now head.now self.old (bytes.now ++ 10 ∷ []) self.new) }
        ensures fault { IfErr result (readings.IsFaultIn judge.now head.now self.old (bytes.now ++ 10 ∷ [])) }
    {
        let fits = self.extend(bytes)?;
        if !fits {
            return Err(AtFault::Malformed(self.number(head)));
        }
        self.take_line(alloc, judge, memo, head)
    }

    /// Takes a piece of the text, and judges the nodes whose lines end in it.
    pub(crate) fn take(
        &mut self,
        alloc: Global,
        judge: &Judge<'_>,
        memo: &mut Memo<'_>,
        head: &Head,
        piece: &[u8],
    ) -> Result<(), AtFault>
        requires judge { readings.IsJudgeFor judge.now head.now }
        requires memo_is { IsMemo (judges.setting_of judge.now) judge.now.claims.sets.now memo.old }
        requires fits { readings.ReaderFits head.now self.old }
        ensures memo { OnOk result (IsMemo (judges.setting_of judge.now) judge.now.claims.sets.now memo.new) }
        ensures taken { OnOk result (readings.TakesOn judge.now head.now self.old piece.now self.new) }
        ensures fault { IfErr result (readings.IsFaultIn judge.now head.now self.old piece.now) }
    {
        let mut rest = piece;
        'lines: while let Some((line, more)) = first_line(rest) {
            self.end_line(alloc, judge, memo, head, line)?;
            rest = more;
        }
        let fits = self.extend(rest)?;
        if !fits {
            return Err(AtFault::Malformed(self.number(head)));
        }
        Ok(())
    }

    /// What is answered where the text ends.
    pub(crate) fn end(&self, head: &Head) -> Result<(), AtFault>
        requires fits { readings.ReaderFits head.now self.now }
        ensures whole { OnOk result ((judge : judging.Judge) (text : List ℕ) → readings.IsJudgeFor judge head.now → readings.HasTaken judge head.now self.now text → readings.IsWhole judge head.now text) }
        ensures fault { IfErr result (λ fault. (judge : judging.Judge) (text : List ℕ) → readings.IsJudgeFor judge head.now → readings.HasTaken judge head.now self.now text →
            readings.IsTreeFault (judges.setting_of judge) (judges.root_of judge) head.now text fault) }
    {
        if !self.is_over() {
            return Err(AtFault::Malformed(self.number(head)));
        }
        if self.is_open() {
            return Err(AtFault::Malformed(self.number(head)));
        }
        Ok(())
    }
}
