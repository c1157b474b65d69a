//! Join edges of a task.
use adv_base::Item;

/// An equality between columns of two slots. A need is the column upwards, by which a merge wants its side on that slot
/// to begin, or none where the column is bound to a literal.
#[derive(Clone, Copy, Debug)]
pub struct TaskEdge {
    pub left: u8,
    pub left_column: u16,
    pub left_need: Option<Item>,
    pub right: u8,
    pub right_column: u16,
    pub right_need: Option<Item>,
}
