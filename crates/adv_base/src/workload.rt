//! Statements, with their names already turned into numbers.
ghost use Rattle.adv_base.specs.Limits.Works.{StatementLimits};

pub mod block;
pub mod parts;
pub mod predicate;

use crate::list::List;
use crate::workload::block::Block;

/// What a statement does.
#[derive(Debug, Drop)]
pub enum Work {
    /// It reads.
    Select(Block),
    /// It changes rows of its one slot, setting the columns of these numbers.
    Update(Block, List<u16>),
    /// It removes rows of its one slot.
    Delete(Block),
    /// It adds this number of rows, from 1 to 10^12, to the table of this number.
    Insert { table: u16, rows: u64 },
}

impl Work {
    ghost use Rattle.std.specs.Prelude.{◌≡◌, option_map};
    ghost use Rattle.adv_base.specs.Works as works;

    /// The block of a SELECT, an UPDATE or a DELETE; an INSERT has none.
    pub fn block(&self) -> Option<&Block>
        ensures { option_map (λ block. block.now) result ≡ works.block_of self.now }
    {
        match self {
            Work::Select(block) => Some(block),
            Work::Update(block, _) => Some(block),
            Work::Delete(block) => Some(block),
            Work::Insert { .. } => None,
        }
    }
}

/// A statement and how often it counts, from 1 to 10^6.
#[derive(Debug, Drop)]
pub struct Statement {
    pub weight: u32,
    pub work: Work,
    pub ghost limits: { StatementLimits weight work },
}
