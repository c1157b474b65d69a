//! CoPhy's binary programme of a workload over INUM's templates, and what a search over it works with and answers.
//!
//! A programme has a part for each statement with a block: templates, and at each slot the price of each interesting order
//! under the indexes that exist (`base`) and under each candidate (its grant). `specs/` says when a programme stands for a
//! setting, what it says a configuration costs, which node a `Fix` is, which tree a list of nodes tells, and what a bound
//! on all fitting configurations rests on; `laws` has the theorems. Sizes are in pages, costs in thousandths of a
//! sequential page read. Making a programme, bounding it and searching are left to others.
//!
//! A `Programme` has `Part`s, these have `SlotPart`s, and these `Grant`s. A `Fix` is a node of a search, `Multipliers`
//! are one set of rents and a price of a page, and an `Answer` has the tree, as `Node`s; a `Point` is an answer at one of
//! several budgets. `Rows` hold the least price of each order of each slot of a part, by which `cost_by_rows` tells what
//! its plan costs.
//!
//! ```rust
//! // Two statements, of weights 10 and 11: each costs 80000, with its candidate 13000 and 14000.
//! let mut config = Config::none();
//! assert_eq!(rt; value(&programme, &config), 1680000);
//! config.on[1] = true;
//! assert_eq!(rt; value(&programme, &config), 954000); // 10 * 80000 + 11 * 14000
//! ```
#![tactic(auto)]

mod answer;
mod costs;
mod fix;
mod grant;
mod laws;
mod multipliers;
mod part;
mod point;
mod programme;
mod rows;
mod slot_part;
mod space;

pub use answer::{Answer, Node};
pub use costs::{part_cost, value};
pub use fix::{Fix, State, is_in, is_out};
pub use grant::Grant;
pub use laws::{
    fixing_never_lowers, none_useful_is_total, programme_decides, shown_bounds, trees_stay_small,
    value_is_total, values_never_fall,
};
pub use multipliers::{Multipliers, grant_count, part_grants};
pub use part::Part;
pub use point::Point;
pub use programme::Programme;
pub use rows::{NO_PRICE, NO_ROWS, Row, Rows, cost_by_rows, lesser, word};
pub use slot_part::SlotPart;
pub use space::Space;
