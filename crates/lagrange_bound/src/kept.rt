//! What a search keeps of a bound.
ghost use Rattle.std.specs.Prelude.{◌≡◌, IfOk, length, replicate};

use adv_base::{List, NoMemory};
use bip_model::Programme;
use std::alloc::Global;

/// What the plan of each part costs at a node under multipliers, without weight and upkeep, in thousandths of a page read.
#[derive(Debug, Drop)]
pub struct Terms {
    pub least: List<u128>,
}

impl Terms {
    /// One 0 for each part. Want of memory is the one error.
    pub fn new(alloc: Global, programme: &Programme) -> Result<Terms, NoMemory>
        ensures { IfOk result (λ terms. terms.least ≡ replicate (length programme.now.parts) 0) }
    {
        Ok(Terms {
            least: List {
                items: vec![in alloc; 0; programme.parts.len()]?,
            },
        })
    }
}
