//! What the program answers, and the texts that it prints.
//!
//! `Done` is an answer: a list of prices or of candidates, an explained plan, advice, the points of a sweep, the advice that a
//! script of edits asks for, what a certificate proves or why it proves nothing, a refusal, a fault. `text` gives the bytes
//! that stand for it on the output: one line a fact, each ended by a line feed. Costs are in thousandths of a page read, places are byte offsets from 1, and numbers of statements, words and
//! lines count from 1. Finding an answer is left to others.
//!
//! ```rust
//! let done = Done::Checked(Checked {
//!     budget: 4,
//!     cost: 954000,
//!     bound: 954000,
//! });
//! let printed = text(alloc, &done, &[], None)?;
//! assert_eq!(rt; printed.as_slice(), b"proved cost 954000 bound 954000 budget 4\n".as_slice());
//! ```
#![tactic(auto)]

mod advised;
mod checked;
mod done;
mod listed;
mod path;
mod printed;
mod refusal;
mod retuned;
mod swept;
mod usage;

pub use command_line::WordFault;
pub use done::{
    Advice, Bench, Done, EditFault, Explained, FoldDone, NotProved, Prices, Refusal, Role, Ruled,
    Tuned, text,
};
pub use swept::{has_no_gap, have_no_gap};
