//! A text and its statements.
ghost use Rattle.sql_reader.specs.Valid.{statements_in};
ghost use Rattle.std.specs.Prelude.{◌<◌, ◌^◌, IsTrue, length};

use crate::ParsedStatement;
use adv_base::List;

/// A text and its statements.
#[derive(Debug, Drop)]
pub struct Parsed<'a> {
    pub text: &'a [u8],
    pub statements: List<ParsedStatement>,
    /// Places fit 32 bits.
    pub ghost short: { length text.now < 2 ^ 32 },
    /// The places of the statements lie in the text, and their numbers are within the limits.
    pub ghost within: { IsTrue (statements_in (length text.now) statements) },
}
