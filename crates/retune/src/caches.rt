//! The caches of plans of statements.
ghost use Rattle.std.specs.Prelude.{◌+◌, ◌≤◌, All, IfOk, IfErr, OnOk, length};
ghost use Rattle.adv_base.specs.Named.{NamesWork};
ghost use Rattle.adv_base.specs.declared.limits.TheConstants.{MOST_STATEMENTS};
ghost use Rattle.programme_parts.specs.Caches.{AreCached, IsCacheFor};
ghost use Rattle.programme_parts.specs.Combinations.{AreFew, HasFew};
ghost use Rattle.retune.specs.Steps.{IsNewFault};
ghost use Rattle.retune.specs.inner.Caches.{AreCachesBelow, IsCacheFault};

use crate::fault::RetuneFault;
use adv_base::{Catalogue, List, Statement};
use inum_cache::{Cache, CacheFault};
use programme_parts::statement_cache;
use std::alloc::Global;

/// The cache of a statement, where it has a block. A fault names the statement by its number.
pub(crate) fn cache_for(
    alloc: Global,
    cat: &Catalogue,
    number: u32,
    statement: &Statement,
) -> Result<Option<Cache>, RetuneFault>
    requires { NamesWork cat.now statement.now.work }
    ensures cache { IfOk result (IsCacheFor cat.now statement.now) }
    ensures few { IfOk result (λ _. HasFew cat.now statement.now) }
    ensures fault { IfErr result (IsCacheFault cat.now statement.now number) }
{
    match statement_cache(alloc, cat, statement) {
        Ok(cache) => Ok(cache),
        Err(CacheFault::Memory) => Err(RetuneFault::Memory),
        Err(CacheFault::TooManyCombinations(count)) => {
            Err(RetuneFault::TooManyCombinations(number, count))
        }
    }
}

/// Puts the cache of the next statement at the end. `at` is its place, from 0.
fn push_cache(
    alloc: Global,
    cat: &Catalogue,
    statements: &[Statement],
    at: usize,
    caches: &mut Vec<Option<Cache>>,
) -> Result<(), RetuneFault>
    requires within { at + 1 ≤ length statements.now }
    requires most { length statements.now ≤ MOST_STATEMENTS }
    requires named { All (λ statement. NamesWork cat.now statement.work) statements.now }
    requires before { AreCachesBelow cat.now statements.now at caches.old.items }
    ensures after { OnOk result (AreCachesBelow cat.now statements.now (at + 1) caches.new.items) }
    ensures fault { IfErr result (IsNewFault cat.now statements.now) }
{
    let cache = cache_for(alloc, cat, at as u32 + 1, &statements[at])?;
    caches.push(cache)?;
    Ok(())
}

/// The cache of each statement.
pub(crate) fn caches_of(
    alloc: Global,
    cat: &Catalogue,
    statements: &[Statement],
) -> Result<List<Option<Cache>>, RetuneFault>
    requires most { length statements.now ≤ MOST_STATEMENTS }
    requires named { All (λ statement. NamesWork cat.now statement.work) statements.now }
    ensures caches { IfOk result (AreCached cat.now statements.now) }
    ensures few { IfOk result (λ _. AreFew cat.now statements.now) }
    ensures fault { IfErr result (IsNewFault cat.now statements.now) }
{
    let mut caches = Vec::new(alloc);
    for at in 0..statements.len() {
        push_cache(alloc, cat, statements, at, &mut caches)?;
    }
    Ok(List { items: caches })
}
