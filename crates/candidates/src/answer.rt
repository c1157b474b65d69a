//! What is answered.
use adv_base::{IndexShape, List};

/// The candidates, numbered from 1 by their places, and how many proposals more there were.
#[derive(Debug, Drop)]
pub struct Candidates {
    pub list: List<IndexShape>,
    pub left_over: u64,
}
