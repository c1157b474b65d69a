//! Rules of an administrator: which candidate indexes have to be, and what must never be indexed.
//!
//! In go a setting and the bytes of a file of rules; out comes the root of a search, bip_model's `Fix`, that makes each
//! candidate in, out or free, or the first fault of the rules. `settle` judges whether what has to be fits a budget, and
//! `broken` which candidate of a configuration goes against the rules. `specs/Lines` says how a rule is spelled, `Rules`
//! what rules make of candidates, `Settled` the rest; `lines_are_rules` is the law that a line is read as a rule exactly
//! where it is spelled so. Lines and candidates are numbered from 1, sizes are in pages. Searching from the root, and
//! checking what was found, are left to others, as the text of a fault is.
//!
//! ```rust
//! // Candidates 1 to 3 are t(b), t(c) and t(b, c).
//! let root = read_rules(alloc, &setting, b"must t(b)\nnever t.c\n")?;
//! assert_eq!(rt; root.state_of(1), State::In);
//! assert_eq!(rt; root.state_of(3), State::Out);
//! assert_eq!(rt; broken(&root, &Config::none()), Some(1));
//! ```
#![tactic(auto)]

mod fault;
mod laws;
mod line;
mod names;
mod rules;
mod settling;

pub use fault::RuleFault;
pub use laws::{lines_are_rules, one_answer};
pub use rules::read_rules;
pub use settling::{broken, in_count, out_count, settle};
