//! A text that is read in pieces.

use crate::counts::Counts;
use crate::outline::Outline;
use crate::{CertFault, Head};
use adv_base::{Bytes, NoMemory, first_line};
use std::alloc::Global;

/// How many bytes a line of a certificate has at most. The longest are those of configurations.
pub(crate) const LONGEST_LINE: usize = 1030;

/// What the lines so far of a text say, and the line that is open. `read` counts those lines, and `front` those of them that
/// stand before the nodes; `nodes` is how many nodes the tree has.
#[derive(Drop)]
pub(crate) struct Reading {
    pub(crate) outline: Outline,
    pub(crate) partial: Bytes,
    pub(crate) read: Counts,
    pub(crate) front: Counts,
    pub(crate) nodes: u32,
}

impl Reading {
    ghost use Rattle.std.specs.Prelude.{◌≡◌, ◌++◌, ◌∷◌, ◌+◌, ◌<◌, true, false, [], ℕ, List, IsTrue, IfOk, IfErr, IsErrOf, length};
    ghost use Rattle.adv_base.specs.declared.limits.TheConstants.{MOST_CERTIFICATE_BYTES};
    ghost use Rattle.bip_model.specs.declared.answer.Node as nodes;
    ghost use Rattle.certificate.specs.Certificates as certificates;
    ghost use Rattle.certificate.specs.Heads as heads;
    ghost use Rattle.certificate.specs.declared.stage.Stage.TheVariants as stages;
    ghost use Rattle.certificate.specs.inner.Pieces as readings;

    /// No byte was read. Memory is taken for the open line, once.
    pub(crate) fn new(alloc: Global) -> Result<Reading, NoMemory>
        ensures read { IfOk result (λ reading. readings.IsRead reading []) }
        ensures reached { IfOk result (λ reading. ∥ readings.IsReached reading ∥₁) }
    {
        let partial = Bytes {
            items: Vec::with_capacity(alloc, LONGEST_LINE)?,
        };
        Ok(Reading {
            outline: Outline::new(alloc),
            partial,
            read: Counts { bytes: 0, lines: 0 },
            front: Counts { bytes: 0, lines: 0 },
            nodes: 1,
        })
    }

    /// The number of the line that is open.
    pub(crate) fn number(&self) -> u64
        ensures { result ≡ self.now.read.lines + 1 }
    {
        self.read.lines as u64 + 1
    }

    /// Adds bytes to the open line; false where it would be longer than any of a certificate.
    fn extend(&mut self, bytes: &[u8]) -> Result<bool, NoMemory>
        ensures { IfOk result (λ fits. readings.Extends fits self.old bytes.now self.new) }
    {
        if self.partial.items.len() + bytes.len() > LONGEST_LINE {
            return Ok(false);
        }
        self.partial.push_slice(bytes)?;
        Ok(true)
    }

    /// Counts the open line, which was taken.
    fn count_line(&mut self, is_front: bool)
        requires bytes { self.old.read.bytes + length self.old.partial < MOST_CERTIFICATE_BYTES }
        requires lines { self.old.read.lines < MOST_CERTIFICATE_BYTES }
        ensures { self.new ≡ readings.counted is_front self.old }
    {
        self.read = self.read.with_line(self.partial.items.len());
        self.partial.clear();
        if is_front {
            self.front = self.read;
            self.nodes = self.outline.nodes_left;
        }
    }

    /// Takes the open line, which is whole; false where no certificate goes on with it.
    fn take_line(&mut self, alloc: Global) -> Result<bool, NoMemory>
        requires { ∥ readings.IsReached self.old ∥₁ }
        ensures line { IfOk result (λ fits. (lines : List (List ℕ)) (tree : List nodes.Node) →
            readings.Reaches lines tree self.old.outline self.old.read self.old.front self.old.nodes → readings.TakesLine fits lines tree self.old self.new) }
        ensures reached { IfOk result (λ fits. IsTrue fits → ∥ readings.IsReached self.new ∥₁) }
    {
        let is_front = self.outline.is_front();
        let taken = self.outline.take(alloc, self.partial.as_slice())?;
        if taken.is_refused() {
            return Ok(false);
        }
        self.count_line(is_front);
        Ok(true)
    }

    /// Takes bytes without a line feed, and the line feed behind them; false where no certificate goes on with the line.
    fn end_line(&mut self, alloc: Global, bytes: &[u8]) -> Result<bool, NoMemory>
        requires reached { ∥ readings.IsReached self.old ∥₁ }
        requires plain { certificates.IsLine bytes.now }
        ensures read { IfOk result (λ fits. (text : List ℕ) → readings.IsRead self.old text → readings.ReadsOn fits (text ++ (bytes.now ++ 10 ∷ [])) self.new) }
        ensures reached { IfOk result (λ fits. IsTrue fits → ∥ readings.IsReached self.new ∥₁) }
    {
        let fits = self.extend(bytes)?;
        if !fits {
            return Ok(false);
        }
        self.take_line(alloc)
    }

    /// Takes bytes without a line feed; false where no certificate goes on with the line.
    fn open_line(&mut self, bytes: &[u8]) -> Result<bool, NoMemory>
        requires reached { ∥ readings.IsReached self.old ∥₁ }
        requires plain { certificates.IsLine bytes.now }
        ensures read { IfOk result (λ fits. (text : List ℕ) → readings.IsRead self.old text → readings.ReadsOn fits (text ++ bytes.now) self.new) }
        ensures reached { IfOk result (λ fits. IsTrue fits → ∥ readings.IsReached self.new ∥₁) }
    {
        self.extend(bytes)
    }

    /// Takes a piece of the text; false where no certificate goes on with the line that is open then.
    pub(crate) fn take(&mut self, alloc: Global, piece: &[u8]) -> Result<bool, NoMemory>
        requires { ∥ readings.IsReached self.old ∥₁ }
        ensures read { IfOk result (λ fits. (text : List ℕ) → readings.IsRead self.old text → readings.ReadsOn fits (text ++ piece.now) self.new) }
        ensures reached { IfOk result (λ fits. IsTrue fits → ∥ readings.IsReached self.new ∥₁) }
    {
        let mut rest = piece;
        'lines: while let Some((line, more)) = first_line(rest) {
            let fits = self.end_line(alloc, line)?;
            if !fits {
                return Ok(false);
            }
            rest = more;
        }
        self.open_line(rest)
    }

    /// Whether no line is open, and none is to come.
    fn is_whole(&self) -> bool
        ensures whole { result ≡ true → (length self.now.partial ≡ 0) × (self.now.outline.stage ≡ stages.Done) }
        ensures not { result ≡ false → self.now.partial ≡ [] → self.now.outline.stage ≡ stages.Done → ⊥ }
    {
        if !self.partial.items.is_empty() {
            return false;
        }
        self.outline.is_done()
    }

    /// The head of the certificate whose text was read.
    fn into_head(self) -> Head
        ensures { result ≡ readings.head_read self }
    {
        let nodes = self.nodes;
        let front = self.front;
        let outline = self.outline;
        Head {
            version: outline.version,
            budget: outline.budget,
            config: outline.config,
            cost: outline.cost,
            bound: outline.bound,
            sets: outline.sets,
            nodes,
            tree_at: front.bytes,
            lines: front.lines,
        }
    }

    /// The head of the certificate whose text was read, or the line at which that breaks.
    pub(crate) fn end(self) -> Result<Head, CertFault>
        ensures found { IfOk result (λ head. (text : List ℕ) → readings.IsRead self text → heads.IsHeadOf text head) }
        ensures fault { IfErr result (λ fault. (text : List ℕ) → readings.IsRead self text → certificates.Faults text fault) }
        ensures enough { IsErrOf result CertFault.Memory → ⊥ }
    {
        if !self.is_whole() {
            return Err(CertFault::Malformed(self.number()));
        }
        Ok(self.into_head())
    }
}
