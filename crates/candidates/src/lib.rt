//! Proposes indexes for a workload.
//!
//! In go a catalogue and the statements of a workload; out come at most 256 candidate indexes, and how many proposals
//! more there were. For each slot of a statement that reads, `specs/Columns.antt` tells which of its columns are tested,
//! joined, grouped or ordered by and needed, `specs/Proposals.antt` which key lists they make and whether each is proposed
//! clustered too, and `specs/Candidates.antt` which proposals are left out. Whether a candidate helps is left to others.
//!
//! `Candidates` has them, as `adv_base`'s `IndexShape`s, and that number. `Proposed` keeps what was proposed, so that one
//! more statement only adds its own.
//!
//! ```rust
//! // `SELECT b FROM t WHERE a = 1`, where a and b are columns 0 and 1 of t, which has no index.
//! let found = candidates(alloc, &cat, statements)?;
//! assert_eq!(rt; found.list.len(), 2); // t(a) and t(a, b)
//! let last = found.list.items.last().map(|shape| shape.keys.as_slice());
//! assert_eq!(rt; last, Some([0u16, 1].as_slice()));
//! assert_eq!(rt; found.left_over, 0);
//! ```
#![tactic(auto)]

mod answer;
mod columns;
mod found;
mod known;
mod proposals;
mod proposed;

pub use answer::Candidates;
pub use found::candidates;
pub use proposed::Proposed;
