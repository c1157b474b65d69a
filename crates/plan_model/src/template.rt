//! Templates.

/// A plan with its leaves left open, after INUM: what all above the leaves costs, and for each slot the number of the
/// order that the plan needs of it, among the slot's interesting orders. Places past the task's slots hold 0.
#[derive(Clone, Copy, Debug, PartialEq, Eq)]
pub struct Template {
    pub internal: u128,
    pub needs: [u8; 8],
}
