//! Lagrangian bounds over CoPhy's binary programme.
//!
//! At a node of a search each candidate is in, out or free. Where each use of a candidate pays a rent and each page of
//! the budget has a price, what the least plans of all statements cost, with what is in, less what the rents bring in
//! and the budget's price, bounds every fitting configuration below the node. `bound` tells that number from a
//! programme alone; `specs/` says which number it is, and a law that it is the Lagrangian value of every setting for
//! which the programme stands. `rent` makes multipliers under which no candidate earns more than it costs, `improve`
//! takes the best of these where one is better than what it has. `terms`, `carry` and `total` are the parts of a bound; `open_ledger` makes one anew by
//! lists of prices, and `bound_by` carries it from node to node. Costs are in thousandths of a sequential page read,
//! sizes in pages.
//!
//! `Terms` are what the plan of each part costs at a node. A `Ledger` keeps these in place under one set of multipliers, and
//! the `CheaperParts` of a programme say which parts each candidate can make cheaper, and so have to be priced anew where it
//! comes or goes. They have the `PriceLists` too: the price of what exists for each order of each slot, and each
//! `CheaperPrice` of a grant, one that is below. `PriceRows` are room for least prices.
//!
//! ```rust
//! // Statements of weights 10 and 11, which cost 80000 each, and 13000 and 14000 with candidates 1 and 2, of 3 and 4 pages.
//! let root = Fix { state: [State::Free; 256] };
//! let mut multipliers = Multipliers::zero(alloc, &programme)?;
//! assert_eq!(rt; bound(&programme, 4, &root, &multipliers), 284000); // 10 * 13000 + 11 * 14000
//! // A page at 2^17 thousandths: a use of the first pays 3 * 2^17 / 10, one of the second 4 * 2^17 / 11.
//! rent(&programme, 8589934592, &mut multipliers);
//! assert_eq!(rt; bound(&programme, 4, &root, &multipliers), 677204); // 10 * 52321 + 11 * 61662 - 4 * 2^17
//! ```
#![tactic(auto)]

mod bounds;
mod candidates;
mod carrying;
mod changed_parts;
mod cheaper;
mod costs_anew;
mod costs_by_lists;
mod earnings;
mod improving;
mod kept;
mod laws;
mod ledger;
mod marked;
mod plan_costs;
mod price_lists;
mod sharing;
mod uses;
mod walking;

pub use bounds::bound;
pub use carrying::{carry, terms, total};
pub use cheaper::{CheaperParts, has_cheaper};
pub use improving::improve;
pub use kept::Terms;
pub use laws::{lagrangian_is_it, plan_costs_are_least, rent_multipliers_agree, rents_are_covered};
pub use ledger::{Ledger, PriceRows, bound_by, open_ledger};
pub use price_lists::{CheaperPrice, PriceLists};
pub use sharing::rent;
pub use uses::WeightedGrant;
