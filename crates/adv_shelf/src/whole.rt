//! Whole files and whole outputs, over any shelf and any sink.
ghost use Rattle.std.specs.Prelude.{◌≡◌, ◌≤◌, ◌<◌, ℕ, List, length, OnOk, OnErr, IfOk, IsErrOf};
ghost use Rattle.adv_shelf.specs.Faults.{Rose};
ghost use Rattle.adv_shelf.specs.Shelf.{HasFile, IsFile};
ghost use Rattle.adv_shelf.specs.Sink.{AppendsPrefix, append_to};
ghost use Rattle.adv_shelf.specs.declared.whole.GetFault.TheVariants.{Memory as OutOfMemory, Failed as ReadFailed};

use crate::{Failed, Shelf, Sink};
use adv_base::{Bytes, NoMemory};
use std::alloc::{AllocError, Global};

/// How many bytes are asked for at once.
const PIECE: usize = 65536;

/// Why a file could not be read whole.
#[derive(Clone, Copy, Debug, PartialEq, Eq)]
pub enum GetFault {
    /// Memory ran out.
    Memory,
    /// A read failed, and the shelf has counted it.
    Failed,
    /// The file is longer than the limit.
    TooLong,
}

impl From<AllocError> for GetFault {
    ghost from_gives = { λ _ e. e ≡ OutOfMemory };

    fn from(_: AllocError) -> Self {
        GetFault::Memory
    }
}

impl From<NoMemory> for GetFault {
    ghost from_gives = { λ _ e. e ≡ OutOfMemory };

    fn from(_: NoMemory) -> Self {
        GetFault::Memory
    }
}

impl From<Failed> for GetFault {
    ghost from_gives = { λ _ e. e ≡ ReadFailed };

    fn from(_: Failed) -> Self {
        GetFault::Failed
    }
}

/// Reads a file to its end. `TooLong` says that it has more than `most` bytes, of which `most + 1` were
/// taken then.
pub fn read_all<S: Shelf>(
    alloc: Global,
    shelf: &mut S,
    name: &str,
    most: u64,
) -> Result<Bytes, GetFault>
    ensures whole { IfOk result (λ bytes. IsFile (S.files shelf.old) name.now bytes) }
    ensures most { IfOk result (λ bytes. length bytes ≤ most) }
    ensures too_long { IsErrOf result GetFault.TooLong → HasFile (S.files shelf.old) name.now (λ file. most < length file) }
    ensures failed { IsErrOf result GetFault.Failed → Rose (S.read_faults shelf.old) (S.read_faults shelf.new) }
    ensures failed_at { IsErrOf result GetFault.Failed → Rose (S.read_faults_at shelf.old name.now) (S.read_faults_at shelf.new name.now) }

    ensures files { S.files shelf.new ≡ S.files shelf.old }
    ensures counts { S.read_faults shelf.old ≤ S.read_faults shelf.new }
    ensures counts_at { (n : List ℕ) → S.read_faults_at shelf.old n ≤ S.read_faults_at shelf.new n }
    ensures puts { S.put_faults shelf.new ≡ S.put_faults shelf.old }
{
    let mut buf = [0; PIECE];
    let mut bytes = Vec::new(alloc);
    'reading: while bytes.len() as u64 <= most {
        let from = bytes.len() as u64;
        let room = (most - from).min(PIECE as u64 - 1) as usize + 1;
        let count = shelf.read_at(name, from, &mut buf[..room])?;
        if count == 0 {
            return Ok(Bytes { items: bytes });
        }
        bytes.extend_from_slice(&buf[..count])?;
    }
    Err(GetFault::TooLong)
}

/// Writes all the bytes. After `Failed` a prefix of them is written.
pub fn write_all<O: Sink>(out: &mut O, bytes: &[u8]) -> Result<(), Failed>
    ensures ok { OnOk result (O.written out.new ≡ append_to (O.written out.old) bytes.now) }
    ensures failed { OnErr result (Rose (O.faults out.old) (O.faults out.new)) }
    ensures prefix { OnErr result (AppendsPrefix (O.written out.old) (O.written out.new) bytes.now) }
    ensures counts { O.faults out.old ≤ O.faults out.new }
{
    let mut done = 0;
    'writing: while done < bytes.len() {
        done += out.write(&bytes[done..])?;
    }
    Ok(())
}
