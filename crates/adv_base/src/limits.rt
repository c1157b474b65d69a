//! The limits that types keep, each stated once; contracts and definitions cite these names.

/// Rows of a table, distinct values of a column and rows of a join: at most 10^12.
pub const MOST_ROWS: u64 = 1_000_000_000_000;
/// Pages of a table and of a space budget: at most 10^12.
pub const MOST_PAGES: u64 = 1_000_000_000_000;
/// The whole that selectivities are parts of: 10^9.
pub const WHOLE: u64 = 1_000_000_000;
/// A rate, in thousandths of a sequential page read.
pub const MOST_RATE: u64 = 1_000_000;
/// The price of reading a slot in one way, in thousandths of a page read: at most 10^19.
pub const MOST_PRICE: u64 = 10_000_000_000_000_000_000;
/// The price of reading a whole table, in thousandths of a page read: 10^12 pages and 10^12 rows at the greatest rates.
pub const MOST_TABLE_PRICE: u64 = 2_000_000_000_000_000_000;
/// The price of reading a slot through an index, in thousandths of a page read: 2 * 10^12 pages of the index, 10^12
/// fetches and 10^12 rows at the greatest rates.
pub const MOST_INDEX_PRICE: u64 = 4_000_000_000_000_000_000;
/// The ways to read a slot: the table, the indexes of a catalogue and the candidates.
pub const MOST_OFFERS: usize = 1257;
/// How often a statement counts.
pub const MOST_WEIGHT: u32 = 1_000_000;
/// An end of a column's values is at most so far from 0: 10^18.
pub const MOST_END: i64 = 1_000_000_000_000_000_000;
/// The bytes of a column's values.
pub const MOST_WIDTH: u16 = 1000;
/// The ends of a column's histogram: those of 256 buckets.
pub const MOST_BOUNDS: usize = 257;
/// The tables of a catalogue.
pub const MOST_TABLES: usize = 200;
/// The columns of a table.
pub const MOST_COLUMNS: usize = 200;
/// The indexes of a catalogue, those of all tables together.
pub const MOST_INDEXES: usize = 1000;
/// The keys of an index.
pub const MOST_KEYS: usize = 8;
/// The pages of one index.
pub const MOST_INDEX_PAGES: u64 = 2_000_000_000_000;
/// The upkeep of one index by one statement, in thousandths of a page read: two writes of 10^12 rows, each down two
/// levels.
pub const MOST_UPKEEP: u64 = 6_000_000_000_000_000_000;
/// The statements of a workload.
pub const MOST_STATEMENTS: usize = 1000;
/// The slots of a block.
pub const MOST_SLOTS: usize = 8;
/// The slots of all statements together.
pub const MOST_SLOTS_IN_ALL: usize = 2000;
/// The candidates, and with them the flags of a configuration.
pub const MOST_CANDIDATES: usize = 256;
/// The combinations of interesting orders of a block that a cache of plans takes.
pub const MOST_COMBINATIONS: u64 = 4096;
/// The rent of one use of a candidate, a Lagrangian multiplier, in thousandths of a page read: at most 10^18.
pub const MOST_RENT: u64 = 1_000_000_000_000_000_000;
/// The price of a page of the budget, a Lagrangian multiplier, in parts of 65536: at most 10^20.
pub const MOST_PAGE_PRICE: u128 = 100_000_000_000_000_000_000;
/// The sets of multipliers of an answer.
pub const MOST_SETS: usize = 16;
/// The rents of all sets of an answer that aren't 0.
pub const MOST_ENTRIES: usize = 1_500_000;
/// The nodes of a search tree.
pub const MOST_NODES: u32 = 1_000_000;
/// The bytes of a catalogue, a workload or a configuration file.
pub const MOST_FILE_BYTES: u64 = 16_777_216;
/// The bytes of a certificate.
pub const MOST_CERTIFICATE_BYTES: u64 = 67_108_864;
