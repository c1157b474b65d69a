//! The caches of plans of blocks and of statements.
ghost use Rattle.std.specs.Prelude.{IfErr, IfOk};
ghost use Rattle.adv_base.specs.Named.{NamesBlock, NamesWork};
ghost use Rattle.programme_parts.specs.Caches.{IsCached, IsBlockFault, IsCacheFor, IsStatementFault};
ghost use Rattle.programme_parts.specs.Combinations.{HasFew, IsFew};

use access_paths::task;
use adv_base::{Block, Catalogue, Statement};
use inum_cache::{Cache, CacheFault, build};
use std::alloc::Global;

/// The cache of a block's task. `TooManyCombinations` comes where the block has more than `MOST_COMBINATIONS` combinations
/// of interesting orders, with their number; `Memory` is want of memory.
pub fn block_cache(alloc: Global, cat: &Catalogue, block: &Block) -> Result<Cache, CacheFault>
    requires { NamesBlock cat.now block.now }
    ensures cache { IfOk result (IsCached cat.now block.now) }
    ensures few { IfOk result (λ _. IsFew cat.now block.now) }
    ensures fault { IfErr result (IsBlockFault cat.now block.now) }
{
    match task(alloc, cat, block) {
        Ok(task) => build(alloc, &task),
        Err(_) => Err(CacheFault::Memory),
    }
}

/// The cache of the block of a statement, where it has one. Its faults are those of `block_cache`.
pub fn statement_cache(
    alloc: Global,
    cat: &Catalogue,
    statement: &Statement,
) -> Result<Option<Cache>, CacheFault>
    requires { NamesWork cat.now statement.now.work }
    ensures cache { IfOk result (IsCacheFor cat.now statement.now) }
    ensures few { IfOk result (λ _. HasFew cat.now statement.now) }
    ensures fault { IfErr result (IsStatementFault cat.now statement.now) }
{
    match statement.work.block() {
        None => Ok(None),
        Some(block) => match block_cache(alloc, cat, block) {
            Ok(cache) => Ok(Some(cache)),
            Err(fault) => Err(fault),
        },
    }
}
