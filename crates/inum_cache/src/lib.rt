//! The cache of internal plans of a task, after INUM.
//!
//! In goes a task; out comes a cache of templates: for each combination of interesting orders that no weaker one
//! replaces, what a least plan costs above leaves that deliver these orders. From them the cost of a least plan over any
//! offers is found without a search.
//!
//! `build` makes a `Cache` of `plan_model`'s `Template`s, or says by a `CacheFault` that there are too many
//! combinations.
//!
//! ```rust
//! // `SELECT c FROM t ORDER BY c` over 1000 rows: the table costs 30000, an index on c 13000.
//! let cache = build(alloc, &task)?;
//! assert_eq!(rt; cache.templates().len(), 2); // for no order, with a sort; and for c, with none
//! assert_eq!(rt; cache.templates().first().map(|template| template.internal), Some(50000));
//! assert_eq!(rt; cache.cost(&offers), 13000);
//! ```
#![tactic(auto)]

mod building;
mod cache;
mod cell;
mod choices;
mod fault;
mod lookup;
mod pass;
mod top;

pub use building::build;
pub use cache::Cache;
pub use fault::CacheFault;
