//! Why there is no cache.

/// Why there is no cache of a task.
#[derive(Clone, Copy, Debug, PartialEq, Eq)]
pub enum CacheFault {
    /// Memory ran out.
    Memory,
    /// The task has this many combinations of interesting orders, more than `MOST_COMBINATIONS`.
    TooManyCombinations(u64),
}
