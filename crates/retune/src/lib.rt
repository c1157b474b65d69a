//! A workload that is changed step by step, with its candidates and its programme.
//!
//! In go a catalogue and statements, then statements that are added, and numbers of statements that are removed or get
//! another weight. After each step the session has the statements as they are, the candidates that they propose, and
//! CoPhy's programme that stands for both, with the templates that are kept of each block. It keeps the cache of plans of
//! each statement and what they propose, so only an added one is planned and proposes; prices are found anew where the
//! candidates on a table change, which another weight can't do. A step that is refused changes nothing. Searching the
//! programme is left to others.
//!
//! ```rust
//! let mut session = Session::new(alloc, &cat, statements)?;
//! session.reweigh(1, 20)?;
//! session.remove(2)?;
//! let total = value(session.programme(), &Config::none());
//! ```
#![tactic(auto)]

mod caches;
mod fault;
mod lists;
mod narrowing;
mod numbers;
mod parts;
mod programme;
mod renewing;
mod session;
mod tables;
mod weights;
mod widening;

pub use fault::RetuneFault;
pub use numbers::is_same_shape;
pub use session::Session;
