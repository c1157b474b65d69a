//! Files that are handed on in pieces.
ghost use Rattle.std.specs.Prelude.{◌≡◌, ◌≤◌, ◌<◌, ◌+◌, ◌⊎◌, ℕ, List, length, IfOk, IsErrOf};
ghost use Rattle.adv_shelf.specs.Faults.{Rose};
ghost use Rattle.adv_shelf.specs.Shelf.{HasFile, IsFile};
ghost use Rattle.adv_shelf.specs.Taker.{GoesOn, IsFront};

use crate::{GetFault, Shelf, Taker};

/// How many bytes are handed on at once.
const PIECE: usize = 4096;

/// Hands a file on to its end, in pieces of at most 4096 bytes, and answers how many bytes it has. `TooLong` says that it
/// has more than `most` bytes, of which `most + 1` were taken then. `Memory` says that the taker ran out of memory; no
/// memory is taken here.
pub fn feed_all<S: Shelf, T: Taker>(
    shelf: &mut S,
    name: &str,
    most: u64,
    taker: &mut T,
) -> Result<u64, GetFault>
    ensures whole { IfOk result (λ count. (bytes : List ℕ) × IsFile (S.files shelf.old) name.now bytes
        × (length bytes ≡ count) × GoesOn T.stands_for taker.old bytes taker.new) }
    ensures most { IfOk result (λ count. count ≤ most) }
    ensures too_long { IsErrOf result GetFault.TooLong → HasFile (S.files shelf.old) name.now (λ file. most < length file) }
    ensures too_much { IsErrOf result GetFault.TooLong → (bytes : List ℕ) × IsFront (S.files shelf.old) name.now bytes
        × (length bytes ≡ most + 1) × GoesOn T.stands_for taker.old bytes taker.new }
    ensures failed { IsErrOf result GetFault.Failed → Rose (S.read_faults shelf.old) (S.read_faults shelf.new) }
    ensures failed_at { IsErrOf result GetFault.Failed → Rose (S.read_faults_at shelf.old name.now) (S.read_faults_at shelf.new name.now) }
    // Where a call of `take` answered an error.
    ensures memory { T.has_given_up taker.new → (T.has_given_up taker.old) ⊎ IsErrOf result GetFault.Memory }

    ensures files { S.files shelf.new ≡ S.files shelf.old }
    ensures counts { S.read_faults shelf.old ≤ S.read_faults shelf.new }
    ensures counts_at { (n : List ℕ) → S.read_faults_at shelf.old n ≤ S.read_faults_at shelf.new n }
    ensures puts { S.put_faults shelf.new ≡ S.put_faults shelf.old }
{
    let mut buf = [0; PIECE];
    let mut done = 0;
    'feeding: loop {
        let room = (most - done).min(PIECE as u64 - 1) as usize + 1;
        let count = shelf.read_at(name, done, &mut buf[..room])?;
        if count == 0 {
            return Ok(done);
        }
        taker.take(&buf[..count])?;
        if count as u64 > most - done {
            return Err(GetFault::TooLong);
        }
        done += count as u64;
    }
}
