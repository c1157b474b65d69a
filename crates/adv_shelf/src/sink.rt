//! A sink, which takes bytes.
ghost use Rattle.std.specs.Prelude.{◌≡◌, ◌≤◌, ◌<◌, ℕ, List, length, take, Option, OnErr, IfOk};
ghost use Rattle.adv_shelf.specs.Faults.{Rose};
ghost use Rattle.adv_shelf.specs.Sink.{append_to};

use crate::Failed;

/// Output that takes bytes, and a count of what failed.
pub trait Sink {
    /// The bytes written so far, where the sink tells them.
    ghost written: { Self → Option (List ℕ) };

    /// How many writes have failed.
    ghost faults: { Self → ℕ };

    /// Writes a prefix of the piece, and answers its length, which is 0 for an empty piece alone.
    fn write(&mut self, piece: &[u8]) -> Result<usize, Failed>
        ensures within { IfOk result (λ n. n ≤ length piece.now) }
        ensures some { 0 < length piece.now → IfOk result (λ n. 0 < n) }
        ensures ok { IfOk result (λ n. written self.new ≡ append_to (written self.old) (take n piece.now)) }
        ensures failed { OnErr result (Rose (faults self.old) (faults self.new)) }
        ensures err { OnErr result (written self.new ≡ written self.old) }
        ensures counts { faults self.old ≤ faults self.new };
}
