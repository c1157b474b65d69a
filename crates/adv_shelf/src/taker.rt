//! A taker, which is handed a text in pieces.
ghost use Rattle.std.specs.Prelude.{◌↔◌, ℕ, List, OnOk, IsErr};
ghost use Rattle.adv_shelf.specs.Taker.{GoesOn};

use adv_base::NoMemory;

/// What takes a text piece by piece, however it is cut.
pub trait Taker {
    /// It stands for a text: that of the pieces that it took.
    ghost stands_for: { Self → List ℕ → Type 0 };

    /// It ran out of memory, and stands for nothing more.
    ghost has_given_up: { Self → Type 0 };

    /// Takes the next piece. Once it has answered an error it answers no other.
    fn take(&mut self, piece: &[u8]) -> Result<(), NoMemory>
        ensures ok { OnOk result (GoesOn stands_for self.old piece.now self.new) }
        ensures err { IsErr result ↔ has_given_up self.new }
        ensures lasts { has_given_up self.old → IsErr result };
}
