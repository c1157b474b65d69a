//! Laws of the definitions.
ghost use Rattle.programme_parts.specs.Laws.{BlocksHaveACount, BlocksHaveNoOther, ProgrammesAreOne};

/// A block has one number of combinations of interesting orders: some number, where the catalogue has what it names, and no
/// other. So where every such number is within the limit, the block's is.
pub fn blocks_have_one_count()
    ensures some { BlocksHaveACount }
    ensures one { BlocksHaveNoOther }
{}

/// A setting has one programme: two that stand for it, with the templates that are kept in their order, are the same number
/// by number. A template has a place for each slot that there may be, as every value of its type has.
pub fn programmes_are_one()
    ensures { ProgrammesAreOne }
{}
