//! Branch and bound over CoPhy's programme: which candidate indexes to choose within a budget of pages, of which no two
//! are clustered on one table.
//!
//! In goes a programme, the candidates that it is of, a root that fixes some of them, a budget of pages and one of
//! nodes; out comes a configuration that fits, what it costs, and a tree of Lagrangian bounds below which no
//! configuration that fits goes; it is best where the bound is its cost, and else the cheapest one that was found.
//! `relaxations` proposes a configuration, up to 16 sets of multipliers and a plan of the tree; what is here trusts
//! none of it. It walks the tree depth first along the plan, the side that takes a candidate in before the side that
//! leaves it out, branches where the plan's candidate is open and useful, and closes leaves by exact bounds under zeros
//! and the sets, and those where two of what is in clash. All memory is taken before the search, in its room and its
//! `Proposals`. Costs and bounds are in thousandths of a sequential page read, sizes in pages.
//!
//! The programme, the `Fix` that is the root and the `Answer` are `bip_model`'s; the `Room` has the memory of one
//! search, and `Proposals` what one leaves to the next of the same programme.
//!
//! ```rust
//! // Statements of weights 10 and 11, which cost 80000 each, and 13000 and 14000 with candidates 1 and 2, of 3 and 4
//! // pages; 7 is the upkeep of what exists. `shapes` are both candidates, of which none is clustered.
//! let root = Fix { state: [State::Free; 256] };
//! let room = Room::new(alloc, &programme, 20000)?;
//! let mut proposed = Proposals::new(alloc, &programme, 20000)?;
//! let answer = search(&programme, &shapes, &root, 6, 20000, room, &mut proposed);
//! assert_eq!(rt; answer.cost, 954007); // 10 * 80000 + 11 * 14000 + 7
//! assert_eq!(rt; answer.bound, 954007);
//! ```
#![tactic(auto)]

mod best;
mod climb;
mod explore;
mod fixing;
mod found;
mod frame;
mod ledgers;
mod node;
mod proposing;
mod room;
mod taken;
mod task;
mod useful;
mod walk;

pub use best::search;
pub use relaxations::{Earlier, NewNumbers, Proposals};
pub use room::Room;
