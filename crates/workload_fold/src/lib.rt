//! Folds a workload: alike statements become one, with the sum of their weights.
//!
//! In go a catalogue and the statements of a workload; out come groups of alike statements, and a text that has one
//! statement for each group. `specs/Alike.antt` says which statements are alike: they differ in nothing that an advisor
//! prices. `specs/Groups.antt` says which groups a workload has, and `specs/Texts.antt` how they are written. So the folded
//! workload has the candidates of the whole, and costs the same under every configuration; the laws say so.
//!
//! `Folded` has the groups. `alike` compares two statements, `fold` makes the groups, and `fold_text` writes them. That what is
//! written reads back and binds as the groups is a law.
//!
//! ```rust
//! // `SELECT c FROM t WHERE c = 1; SELECT c FROM t WHERE c = 2; SELECT c FROM t WHERE c = 2 ORDER BY c`
//! let folded = fold(alloc, &cat, statements)?;
//! assert_eq!(rt; folded.first.as_slice(), [1u16].as_slice()); // a bound column leaves the order
//! assert_eq!(rt; folded.weights.as_slice(), [3u32].as_slice());
//! let text = fold_text(alloc, &parsed, &folded)?;
//! assert_eq!(rt; text.as_slice(), b"-- weight 3\nSELECT c FROM t WHERE c = 1 ;\n".as_slice());
//! ```
#![tactic(auto)]

mod digests;
mod folded;
mod gathered;
mod grouping;
mod laws;
mod sameness;
mod writing;

pub use folded::Folded;
pub use grouping::fold;
pub use laws::{
    alike_cost_the_same, binding_is_natural, folded_texts_keep_tokens, folded_texts_read_back,
    folding_keeps_totals, reading_is_natural,
};
pub use sameness::alike;
pub use writing::fold_text;
