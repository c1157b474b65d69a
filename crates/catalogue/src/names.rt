//! Names in the order in which they came, looked up with their letters folded.
ghost use Rattle.std.specs.Prelude.{◌≡◌, [], ◌∷◌, ◌++◌, length, not, if◌then◌else◌, IfOk, IfSome, ◌<◌};
ghost use Rattle.catalogue.specs.Values.{folded, has_name};
ghost use Rattle.catalogue.specs.Keys.{number_of};

use indexmap::IndexSet;
use std::alloc::{AllocError, Global};
use std::marker::Model;

/// Names that differ, each with its ASCII letters folded. Contracts see them as the list of their bytes.
#[derive(Drop)]
pub struct Names {
    seen: IndexSet<String>,
}

impl Model for Names {
    ghost use Rattle.std.specs.Prelude.{List, ℕ, map, string_bytes};

    ghost Value = { List (List ℕ) };

    ghost view = { λ a. map string_bytes a.seen.keys };
}

impl Names {
    /// No names.
    pub fn new(alloc: Global) -> Names
        ensures { result ≡ [] }
    {
        Names {
            seen: IndexSet::new(alloc),
        }
    }

    /// How many names there are.
    pub fn len(&self) -> usize
        ensures { result ≡ length self.now }
    {
        self.seen.len()
    }

    /// Puts a name behind the others, unless it is there; says whether it was put.
    pub fn add(&mut self, alloc: Global, name: &str) -> Result<bool, AllocError>
        ensures is_new { IfOk result (λ added. added ≡ not (has_name self.old (folded name.now))) }
        ensures names { IfOk result
            (λ added. self.new ≡ (if added then self.old ++ folded name.now ∷ [] else self.old)) }
    {
        let folded = name.to_ascii_lowercase(alloc)?;
        let (_, added) = self.seen.insert_full(folded)?;
        Ok(added)
    }

    /// The place of a name, counted from 0.
    pub fn number_of(&self, alloc: Global, name: &str) -> Result<Option<usize>, AllocError>
        ensures exact { IfOk result (λ n. n ≡ number_of self.now (folded name.now)) }
        ensures within { IfOk result (λ n. IfSome n (λ k. k < length self.now)) }
    {
        let wanted = name.to_ascii_lowercase(alloc)?;
        Ok(self.seen.get_index_of(wanted.as_str()))
    }
}
