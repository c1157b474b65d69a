//! Numbers looked up by name.
ghost use Rattle.std.specs.Prelude.{◌≡◌, ℕ, List, OnOk, None, Some, bytes_eq, if◌then◌else◌};
ghost use Rattle.binder.specs.Names as spelling;
ghost use Rattle.binder.specs.Lookups.{find_in};

use crate::names::folded;
use indexmap::IndexMap;
use std::alloc::{AllocError, Global};

/// Numbers by names, in which letters are folded.
#[derive(Drop)]
pub struct NameIndex {
    pub numbers: IndexMap<Vec<u8>, usize>,
}

impl NameIndex {
    /// No name.
    pub fn new(alloc: Global) -> NameIndex
        ensures { (word : List ℕ) → find_in result word ≡ None }
    {
        NameIndex {
            numbers: IndexMap::new(alloc),
        }
    }

    /// Gives a name a number, in place of the one that it has.
    pub fn put(&mut self, alloc: Global, name: &[u8], number: usize) -> Result<(), AllocError>
        ensures { OnOk result ((word : List ℕ) → find_in self.new word
            ≡ (if bytes_eq (spelling.folded name.now) word then Some number else find_in self.old word)) }
    {
        self.numbers.insert(folded(alloc, name)?, number)?;
        Ok(())
    }

    /// The number of a name, which is given with its letters folded.
    pub fn find(&self, word: &[u8]) -> Option<usize>
        ensures { result ≡ find_in self.now word.now }
    {
        self.numbers.get(word).copied()
    }
}
