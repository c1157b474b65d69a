//! Indexes that exist or might: how many pages each takes, which sets of them fit a space budget, and what each write
//! costs at them.
//!
//! Sizes are in pages of 8192 bytes, upkeep in thousandths of a page read. The definitions that the contracts cite stand in `adv_base`.
//!
//! In go `adv_base`'s `Catalogue`, `IndexShape`, `Config` and `Statement`; out come numbers, and no memory is taken.
//! `Figures` has the numbers of all candidates of a setting, found once.
//!
//! ```rust
//! // One candidate, on a column of 4 bytes of a table of 1000 rows: two pages of leaves, and one above them.
//! let mut config = Config::none();
//! config.on[0] = true;
//! assert_eq!(rt; config_pages(&cat, shapes, &config), 3);
//! assert!(rt; fits(&cat, shapes, &config, 3) && !fits(&cat, shapes, &config, 2));
//! // An INSERT of one row goes down two levels: 2 * 4000 + 10.
//! assert_eq!(rt; config_upkeep(&cat, insert, shapes, &config), 8010);
//! ```
#![tactic(auto)]

mod budget;
mod figures;
mod size;
mod writes;

pub use budget::{config_pages, fits};
pub use figures::Figures;
pub use size::{index_pages, pages};
pub use writes::{config_upkeep, kept_upkeep, upkeep};
