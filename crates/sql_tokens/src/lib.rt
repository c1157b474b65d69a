//! The tokens of a workload of SQL statements: any bytes go in, and out comes the list of their tokens or the first
//! fault.
//!
//! `tokens` cuts a text from the left, each lexeme the longest that stands there: words, quoted names, numbers, texts
//! and symbols. Blanks and comments give no token, except that a line comment may give the weight of a statement. What
//! a word means is left to the crate above.
//!
//! `Tokens` is a text with its tokens. A `TokenReader` gives the same tokens one by one, for callers that need no list.
//! A `Token` has a `TokenKind` and the `Span` of its bytes, and a `TokenFault` says why a text has none. The other
//! functions are laws: a text has one list of tokens or one first fault, a reader comes to these, and a comment has one
//! weight.
//!
//! ```rust
//! let found = tokens(alloc, b"SELECT a1 FROM t -- ten rows")?;
//! let list = found.list.as_slice();
//! assert_eq!(rt; list.len(), 4);
//! assert_eq!(rt; list[1].kind, TokenKind::Word);
//! assert_eq!(rt; list[1].span.place(), 8); // counted from 1
//! assert!(rt; matches!(tokens(alloc, b"a ! b"), Err(TokenFault::BadByte(3))));
//! ```
#![tactic(auto)]

mod byte;
mod cut;
mod front;
mod laws;
mod lexeme;
mod token;
mod token_list;
mod token_reader;
mod weight;

pub use cut::tokens;
pub use laws::{one_fault, one_list, one_weight, some_answer, tokens_ahead, tokens_or_fault};
pub use token::{Span, Token, TokenKind};
pub use token_list::{TokenFault, Tokens};
pub use token_reader::TokenReader;
