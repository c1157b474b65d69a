//! A checker of certificates, which trusts the planner alone.
//!
//! In go a setting and a certificate; out comes what the certificate proves, or the first place at which it proves nothing.
//! Costs come from searches of least plans: of each statement under the configuration, and at each leaf of the tree over
//! what is available there, with the rents of the leaf's set of multipliers added. The search of a statement is made once,
//! its offers are priced once, and what it cost at a set's last leaf stays where none of its tables has other candidates
//! available. No cache of plans and no programme is read.
//!
//! A configuration may have no two candidates that are clustered on one table. A leaf of a certificate of version 2 is
//! overfull where what is in there has two such or too many pages, a leaf of one of version 1 by its pages alone.
//!
//! `specs/Views` has the certificate as the definitions of `bip_model` see it, `specs/Faults` what each answer says.
//!
//! `check` answers a `Checked`, or a `CheckFault`.
//!
//! ```rust
//! // Statements of weights 10 and 11 cost 80000 each, the second 14000 with candidate 2, of 4 pages.
//! let text =
//!     "cophy certificate 1\nbudget 4\nconfig 2\ncost 954000\nbound 954000\nsets 0\ntree 3\nB 1\nL 0\nL 0\nend\n";
//! let cert = read_cert(alloc, text.as_bytes())?;
//! let proved = Checked {
//!     budget: 4,
//!     cost: 954000,
//!     bound: 954000,
//! };
//! assert_eq!(rt; check(alloc, &setting, &cert), Ok(proved));
//! ```
#![tactic(auto)]

mod board;
mod changes;
mod checking;
mod claims;
mod desk;
mod fault;
mod judge;
mod lagrangian;
mod laws;
mod memo;
mod multipliers;
mod part;
mod planning;
mod row;
mod tree;
mod tree_reader;
mod uses;

pub use checking::{check, check_at};
pub use claims::config_with;
pub use fault::{AtFault, CheckFault, Checked};
pub use laws::{
    answers_are_alike, answers_are_one, best_answers_are_proved, faults_exclude_proofs,
};
