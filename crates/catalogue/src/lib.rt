//! Reads a catalogue from its TOML text.
//!
//! In go the bytes of a file; out comes the catalogue that they describe, or the first fault with the path of its key.
//! `specs/Catalogue.antt` says which: a line for each key, with its kind, its range and what stands where it is left
//! out, in the order in which keys are checked. The code has a small function for each of those definitions. Names are
//! compared with their ASCII letters folded and looked up in an `IndexSet`, so that the time grows with the text.
//! Finding the file and printing a fault are left to others. A fault is a `CatFault`, with the `KeyPath` of its key: the
//! part of the document (`KeyPart`), the numbers of table and column or index, and the key (`KeyField`).
//!
//! ```rust
//! let text = r#"version = 1
//! [[table]]
//! name = "t"
//! rows = 100
//! pages = 2
//! column = [{ name = "a", kind = "int", width = 4 }]
//! "#;
//! let cat = read_catalogue(alloc, text.as_bytes())?;
//! let table = &cat.tables.as_slice()[0];
//! assert_eq!(rt; table.rows, 100);
//! assert_eq!(rt; table.columns.as_slice()[0].width, 4);
//! ```
#![tactic(auto)]

mod bounds;
mod columns;
mod document;
mod fault;
mod indexes;
mod keys;
mod names;
mod paths;
mod ranges;
mod rates;
mod tables;
mod values;

pub use document::read_catalogue;
pub use fault::{CatFault, KeyField, KeyPart, KeyPath};
