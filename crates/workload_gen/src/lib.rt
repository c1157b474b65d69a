//! Makes a catalogue and a workload of any size from a seed, to try the advisor on.
//!
//! In go a seed and how many tables and statements there are to be; out come two texts, as the readers of catalogues
//! (TOML) and of workloads (SQL) take them. The same numbers give the same bytes everywhere. `specs/Draws.antt` has the
//! generator of numbers, `specs/Tables.antt` and `specs/Statements.antt` what is written with them. Rows and pages are
//! counts. Reading the texts is left to others.
//!
//! `make` answers a `Made`, which is both texts.
//!
//! ```rust
//! let made = make(alloc, 1, 2, 1)?; // the seed 1, two tables, one statement
//! let workload = "-- weight 31\nSELECT k, d FROM t1 WHERE b BETWEEN 90 AND 140;\n";
//! assert_eq!(rt; made.workload.as_slice(), workload.as_bytes());
//! let catalogue = "version = 1\n[[table]]\nname = \"t1\"\nrows = 775000\npages = 15500\n";
//! assert!(rt; made.catalogue.as_slice().starts_with(catalogue.as_bytes()));
//! ```
#![tactic(auto)]

mod draws;
mod made;
mod statements;
mod tables;

pub use made::{Made, make};
