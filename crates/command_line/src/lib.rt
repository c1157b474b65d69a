//! What the words of a command line ask for.
//!
//! `read_words` tells the `Command` that they are, or their first fault from the left, as a `WordFault`. `specs/CommandLine`
//! has the table of commands: the name of each, and the kinds of its words. `specs/Spellings` says which words a command has
//! by that, and `specs/CommandLine` how words are read by it, and which fault comes first. No file is read here.
//!
//! ```rust
//! // the words advise, CAT, LOAD and many
//! assert_eq!(rt; read_words(words.as_slice()).err(), Some(WordFault::BadNumber(4)));
//! ```
#![tactic(auto)]

mod arguments;
mod commands;
mod fault;
mod number;
mod options;
mod words;

pub use commands::{Command, DEFAULT_NODES, read_words};
pub use fault::WordFault;
