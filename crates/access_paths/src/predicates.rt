//! The predicates of a slot by the kind of their test.
ghost use Rattle.std.specs.Prelude.{◌≡◌};
ghost use Rattle.adv_base.specs.Predicates as predicates;

use adv_base::{Block, Pred};

/// Whether a predicate gives a column of a slot one or some literals.
pub fn is_point_on(pred: &Pred, slot: u8, column: u16) -> bool
    ensures { result ≡ predicates.is_pred_on predicates.is_point slot column pred.now }
{
    pred.slot == slot && pred.column == column && pred.test.is_point()
}

/// Whether a predicate asks for a range of a column of a slot.
pub fn is_range_on(pred: &Pred, slot: u8, column: u16) -> bool
    ensures { result ≡ predicates.is_pred_on predicates.is_range slot column pred.now }
{
    pred.slot == slot && pred.column == column && pred.test.is_range()
}

/// Whether some predicate gives a column of a slot one or some literals.
pub fn has_point(block: &Block, slot: u8, column: u16) -> bool
    ensures { result ≡ predicates.has_pred predicates.is_point block.now.preds slot column }
{
    block
        .preds
        .items
        .iter()
        .any(|pred| is_point_on(pred, slot, column))
}

/// Whether a column of a slot is bound: some predicate gives it a literal.
pub fn is_bound(block: &Block, slot: u8, column: u16) -> bool
    ensures { result ≡ predicates.is_bound block.now.preds slot column }
{
    block.preds.items.iter().any(|pred| pred.slot == slot
        && pred.column == column
        && pred.test.is_equality())
}
