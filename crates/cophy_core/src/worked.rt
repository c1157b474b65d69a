//! What a command works out.
ghost use Rattle.std.specs.Prelude.{◌≡◌, ◌∷◌, [], IfOk};
ghost use Rattle.cophy_core.specs.Endings.{plain_puts};

use adv_base::{Bytes, List, NoMemory};
use report::Done;
use std::alloc::Global;

/// A file to be put, with its bytes.
#[derive(Drop)]
pub struct FilePut {
    pub name: String,
    pub bytes: Bytes,
}

/// A file to be put, alone.
fn one(alloc: Global, put: FilePut) -> Result<List<FilePut>, NoMemory>
    ensures { IfOk result (λ puts. puts ≡ put ∷ []) }
{
    let mut items = Vec::new(alloc);
    match items.push(put) {
        Ok(()) => Ok(List { items }),
        Err(_) => Err(NoMemory),
    }
}

/// Bytes to be put into a file of that name, alone.
pub(crate) fn one_put(alloc: Global, name: &str, bytes: Bytes) -> Result<List<FilePut>, NoMemory>
    ensures { IfOk result (λ puts. plain_puts puts ≡ record { name = name.now; bytes = bytes } ∷ []) }
{
    let name = String::from_str(alloc, name)?;
    let puts = one(alloc, FilePut { name, bytes })?;
    Ok(puts)
}

/// An answer, and the files that are put for it, in turn.
#[derive(Drop)]
pub(crate) struct Worked {
    pub done: Done,
    pub puts: List<FilePut>,
}

impl Worked {
    /// An answer for which no file is put.
    pub(crate) fn alone(alloc: Global, done: Done) -> Worked
        ensures done { result.done ≡ done }
        ensures puts { plain_puts result.puts ≡ [] }
    {
        Worked {
            done,
            puts: List::new(alloc),
        }
    }
}
