//! From a setting to CoPhy's binary programme.
//!
//! In goes a setting: a catalogue, weighted statements and candidate indexes. Out comes the programme that stands for it:
//! pages and weighted upkeep of each candidate, the weighted upkeep of the indexes that exist, and for each statement with
//! a block a part, with the templates that INUM's cache keeps of the block's task and the price of each interesting order
//! at each slot. From it the cost of the workload under every configuration is told without planning again. Upkeep and
//! prices are in thousandths of a sequential page read, sizes in pages. Bounding the programme and searching for a
//! configuration are left to others.
//!
//! The setting is `adv_base`'s `Setting`, the programme `bip_model`'s `Programme`; a `TuneFault` says which statement
//! has too many combinations of interesting orders.
//!
//! ```rust
//! // Statements of weights 10 and 11, which cost 80000 each, and 13000 and 14000 with candidates 1 and 2.
//! let programme = programme(alloc, &setting)?;
//! assert_eq!(rt; programme.sizes.as_slice(), [3, 4].as_slice());
//! let mut config = Config::none();
//! config.on[1] = true;
//! assert_eq!(rt; value(&programme, &config), 954000); // 10 * 80000 + 11 * 14000
//! ```
#![tactic(auto)]

mod building;
mod fault;

pub use building::programme;
pub use fault::TuneFault;
