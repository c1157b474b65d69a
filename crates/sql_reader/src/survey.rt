//! Looks through a text before the grammar reads it.
ghost use Rattle.sql_reader.specs.Grammar.{starts};
ghost use Rattle.sql_reader.specs.Kinds.{has};
ghost use Rattle.sql_reader.specs.Terminals as terminals;
ghost use Rattle.sql_reader.specs.Words as words;
ghost use Rattle.sql_reader.specs.inner.Surveyed as surveyed;
ghost use Rattle.sql_tokens.specs.Cut.{HasFault};
ghost use Rattle.sql_tokens.specs.Span.{LiesIn};
ghost use Rattle.std.specs.Prelude.{◌≡◌, ◌<◌, ◌^◌, IfErr, IfOk, length};

use crate::cursor::has;
use crate::scan::bytes_of;
use crate::statement::STARTS;
use crate::words::{comment_weight, word_kind};
use sql_tokens::{Token, TokenFault, TokenKind, TokenReader};

/// What is known of a text before the grammar reads it.
#[derive(Clone, Copy)]
pub struct Survey {
    /// The place of the first weight comment whose number isn't 1 to 10^6.
    pub bad_weight: Option<u64>,
    /// The place of the 1001st word with which a statement begins.
    pub start: Option<u64>,
    /// How many more such words may come before it.
    pub left: u32,
}

/// The place of a token that is a weight comment without a weight.
fn bad_weight(text: &[u8], token: Token) -> Option<u64>
    requires { LiesIn text.now token }
    ensures { result ≡ surveyed.bad_weight_of text.now token }
{
    match token.kind {
        TokenKind::Weight => match comment_weight(bytes_of(text, token)) {
            Some(_) => None,
            None => Some(token.span.place()),
        },
        _ => None,
    }
}

/// Whether a token is a word with which a statement begins.
fn is_start(text: &[u8], token: Token) -> bool
    requires { LiesIn text.now token }
    ensures { result ≡ has starts (terminals.kind_of token.kind (terminals.bytes_of text.now token)) }
{
    match token.kind {
        TokenKind::Word => begins_statement(bytes_of(text, token)),
        _ => false,
    }
}

/// Whether a statement begins with this word. The words with which one does have six letters, so no other is looked up.
fn begins_statement(word: &[u8]) -> bool
    ensures { result ≡ has starts (words.word_kind word.now) }
{
    word.len() == 6 && has(&STARTS, word_kind(word))
}

impl Survey {
    /// Nothing is looked at.
    fn new() -> Survey
        ensures { result ≡ surveyed.unseen }
    {
        Survey {
            bad_weight: None,
            start: None,
            left: 1000,
        }
    }

    /// A word with which a statement begins stands at this place.
    fn count(&mut self, place: u64)
        ensures { self.new ≡ surveyed.with_start self.old place }
    {
        if self.left > 0 {
            self.left -= 1;
        } else if self.start.is_none() {
            self.start = Some(place);
        }
    }

    /// Looks at one token more.
    fn add(&mut self, text: &[u8], token: Token)
        requires { LiesIn text.now token }
        ensures { self.new ≡ surveyed.after_token text.now token self.old }
    {
        if self.bad_weight.is_none() {
            self.bad_weight = bad_weight(text, token);
        }
        if is_start(text, token) {
            self.count(token.span.place());
        }
    }

    /// Looks through a text, token by token.
    ///
    /// # Errors
    ///
    /// The text's first token fault.
    pub fn of(text: &[u8]) -> Result<Survey, TokenFault>
        requires { length text.now < 2 ^ 32 }
        ensures ok { IfOk result (λ survey. surveyed.IsSurvey text.now survey) }
        ensures err { IfErr result (λ fault. HasFault text.now fault) }
    {
        let mut tokens = TokenReader::new(text);
        let mut survey = Survey::new();
        'turns: while let Some(token) = tokens.next_token()? {
            survey.add(tokens.text, token);
        }
        Ok(survey)
    }
}
