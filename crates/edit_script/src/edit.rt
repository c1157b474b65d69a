//! Edits of a workload.
use adv_base::List;

/// The lines of a script.
pub const MOST_LINES: usize = 1000;
/// Those of them that ask for advice.
pub const MOST_ADVICES: usize = 16;

/// A step of a script. Statements are numbered from 1, as they are when the step is taken.
#[derive(Clone, Copy, Debug)]
pub enum Edit<'a> {
    /// Adds a statement at the end, by its weight and the bytes of its SQL.
    Add(u32, &'a [u8]),
    /// Removes the statement of a number.
    Remove(u32),
    /// Gives the statement of a number a weight.
    Weigh(u32, u32),
    /// Asks for advice.
    Advise,
}

/// The steps of a script, in order.
#[derive(Debug, Drop)]
pub struct Edits<'a> {
    pub list: List<Edit<'a>>,
}
