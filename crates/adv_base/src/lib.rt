//! The types that every layer of the advisor shares: a catalogue with its statistics, statements as blocks of slots,
//! predicates and join edges, index shapes and configurations.
//!
//! In goes nothing but values; out come types that keep their limits (each has a ghost field that says so), two sums
//! (`times_part`, `binary_digits`) and the reader of dates. `specs/` has the definitions that the layers above cite:
//! selectivity parts, rows, index sizes, upkeep, the offers of a slot, and what fits a space budget. Rows and pages are
//! counts; costs are thousandths of a sequential page read. Reading text, planning and searching are left to others.
//!
//! Of a catalogue there are `Catalogue`, `Rates`, `Table`, `Column`, `Index` and `IndexShape`; of a statement
//! `Statement`, `Work`, `Block`, `Slot`, `Pred` with its `Test`, `Edge` and `Item`. A `Config` says which candidates
//! are chosen, a `Setting` is a catalogue with statements and candidates. `List`, `Name` and `Bytes` hold them, and
//! `NoMemory` is want of memory.
//!
//! ```rust
//! assert_eq!(rt; times_part(1000, 1000000), 1); // a thousandth of 1000 rows
//! assert_eq!(rt; binary_digits(1000), 10);
//! assert_eq!(rt; day_of(b"1995-01-01"), Some(9131));
//! let mut config = Config::none();
//! config.on[255] = true; // candidates count from 1
//! assert!(rt; config.has(256) && !config.has(255));
//! ```
#![tactic(auto)]

mod catalogue;
mod clashes;
mod days;
mod decimal;
mod items;
mod laws;
pub mod limits;
mod lines;
mod list;
mod lookups;
mod memory;
mod numbers;
mod sets;
mod setting;
mod workload;

pub use catalogue::Catalogue;
pub use catalogue::column::{Column, Kind};
pub use catalogue::index::{Index, IndexShape};
pub use catalogue::rates::Rates;
pub use catalogue::table::Table;
pub use clashes::{first_clash, is_apart};
pub use days::day_of;
pub use decimal::{push_decimal, read_number};
pub use items::is_own_list;
pub use laws::{offers_keep_limits, shares_rise};
pub use lines::first_line;
pub use list::{Bytes, List, Name};
pub use lookups::{slot_table, table_at, table_column};
pub use memory::NoMemory;
pub use numbers::{binary_digits, times_part};
pub use sets::{all_slots, has_slot};
pub use setting::{Config, Setting};
pub use workload::block::Block;
pub use workload::parts::{Edge, Item, Slot};
pub use workload::predicate::{Pred, Test, Value};
pub use workload::{Statement, Work};
