//! Reads a text token by token.
ghost use Rattle.std.specs.Prelude.{◌≤◌, length};

use crate::byte::after;
use crate::cut::{fault_at, token_of};
use crate::front::front;
use crate::{Token, TokenFault};

/// A text that is read token by token, for callers that need no list of its tokens. A copy reads on from the same
/// place.
#[derive(Clone, Copy, Debug)]
pub struct TokenReader<'a> {
    pub text: &'a [u8],
    /// How many bytes of the text are read.
    pub at: usize,
    pub ghost within: { at ≤ length text.now },
}

impl<'a> TokenReader<'a> {
    ghost use Rattle.std.specs.Option.{ForSome};
    ghost use Rattle.std.specs.Prelude.{◌≡◌, ◌<◌, ◌≤◌, length, IfOk, OnOk};
    ghost use Rattle.sql_tokens.specs.Ahead.{ahead, IsLexeme, IsNext};
    ghost use Rattle.sql_tokens.specs.Span.{LiesIn};

    /// Reads a text from its front. `tokens_ahead` says what comes then.
    pub fn new(text: &'a [u8]) -> TokenReader<'a>
        ensures text { result.text.now ≡ text.now }
        ensures at { result.at ≡ 0 }
    {
        TokenReader { text, at: 0 }
    }

    /// Reads one lexeme: its token, if it gives one.
    fn next_lexeme(&mut self) -> Result<Option<Token>, TokenFault>
        requires { self.old.at < length self.old.text.now }
        ensures text { self.new.text.now ≡ self.old.text.now }
        ensures reads { IsLexeme (ahead self.old.text.now self.old.at) result (ahead self.old.text.now self.new.at) }
        ensures lies { IfOk result (λ token. ForSome token (LiesIn self.new.text.now)) }
        ensures forward { OnOk result (self.old.at < self.new.at) }
    {
        let at = self.at as u64;
        let rest = after(self.text, self.at);
        match front(rest) {
            Ok(lexeme) => {
                let bytes = rest.split_at(lexeme.length).0;
                self.at += lexeme.length;
                Ok(token_of(at, lexeme.form, bytes))
            }
            Err(stop) => Err(fault_at(at, stop)),
        }
    }

    /// The next token, or None at the end of the text.
    ///
    /// # Errors
    ///
    /// `BadByte` and `OpenText`, as `tokens` gives them, where no token is left before the text's fault. `Memory` never
    /// comes.
    ///
    /// Where no token comes, what is ahead stays, so that a later call gives the same.
    pub fn next_token(&mut self) -> Result<Option<Token>, TokenFault>
        ensures text { self.new.text.now ≡ self.old.text.now }
        ensures reads { IsNext (ahead self.old.text.now self.old.at) result (ahead self.old.text.now self.new.at) }
        ensures lies { IfOk result (λ token. ForSome token (LiesIn self.new.text.now)) }
        ensures forward { IfOk result (λ token. ForSome token (λ _. self.old.at < self.new.at)) }
    {
        'turns: while self.at < self.text.len() {
            let token = self.next_lexeme()?;
            if token.is_some() {
                return Ok(token);
            }
        }
        Ok(None)
    }
}
