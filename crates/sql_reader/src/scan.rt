//! Makes terminals of the tokens of a text.
ghost use Rattle.sql_reader.specs.Terminals as terminals;
ghost use Rattle.sql_reader.specs.inner.Ahead as ahead;
ghost use Rattle.sql_tokens.specs.Ahead.{ahead as tokens_ahead};
ghost use Rattle.sql_tokens.specs.Span.{LiesIn};
ghost use Rattle.std.specs.Option.{ForSome};
ghost use Rattle.std.specs.Prelude.{◌≡◌, ◌≤◌, ◌<◌, ◌^◌, ◌<ℤ◌, length, neg_ℤ, pos, slice_index};

use crate::words::{comment_weight, quoted_kind, symbol_kind, text_day, whole_number, word_kind};
use crate::{Mark, Terminal, TerminalKind};
use sql_tokens::{Token, TokenKind, TokenReader};

/// The bytes of a token.
pub fn bytes_of(text: &[u8], token: Token) -> &[u8]
    requires { LiesIn text.now token }
    ensures { result.now ≡ terminals.bytes_of text.now token }
{
    &text[token.span.from as usize..token.span.to as usize]
}

/// The kind of a token and its number.
fn classify(kind: TokenKind, bytes: &[u8]) -> (TerminalKind, Option<i64>)
    requires { 1 ≤ length bytes.now }
    ensures kind { result.0 ≡ terminals.kind_of kind bytes.now }
    ensures number { result.1 ≡ terminals.number_of kind bytes.now }
    ensures least { ForSome result.1 (λ n. neg_ℤ (pos (10 ^ 18)) <ℤ n) }
    ensures most { ForSome result.1 (λ n. n <ℤ pos (10 ^ 18)) }
{
    match kind {
        TokenKind::Word => (word_kind(bytes), None),
        TokenKind::Quoted => (quoted_kind(bytes), None),
        TokenKind::Whole => (TerminalKind::Whole, whole_number(bytes)),
        TokenKind::Decimal => (TerminalKind::Decimal, None),
        TokenKind::Text => classify_text(text_day(bytes)),
        TokenKind::Symbol => (symbol_kind(bytes[0], second(bytes)), None),
        TokenKind::Weight => (TerminalKind::LeftOut, None),
    }
}

/// A text, with its day where it holds one.
fn classify_text(day: Option<i64>) -> (TerminalKind, Option<i64>)
    ensures kind { result.0 ≡ terminals.kind_of_text day }
    ensures number { result.1 ≡ day }
{
    match day {
        Some(number) => (TerminalKind::Day, Some(number)),
        None => (TerminalKind::Text, None),
    }
}

/// The second byte, or 0.
fn second(bytes: &[u8]) -> u8
    ensures { result ≡ slice_index bytes.now 1 }
{
    if bytes.len() > 1 { bytes[1] } else { 0 }
}

/// The terminal that a token is.
fn terminal(text: &[u8], token: Token, mark: Mark) -> Terminal
    requires lies { LiesIn text.now token }
    requires short { length text.now < 2 ^ 32 }
    ensures { terminals.IsTerminal text.now mark token result }
{
    let (kind, number) = classify(token.kind, bytes_of(text, token));
    Terminal {
        kind,
        span: token.span,
        number,
        mark,
    }
}

/// The mark behind a weight comment.
fn mark_behind(text: &[u8], token: Token, mark: Mark) -> Mark
    requires { LiesIn text.now token }
    ensures { result ≡ terminals.mark_behind text.now token mark }
{
    match comment_weight(bytes_of(text, token)) {
        Some(weight) => Mark {
            place: token.span.place(),
            weight,
        },
        None => mark,
    }
}

/// Whether the kind is that of weight comments.
fn is_weight(kind: TokenKind) -> bool
    ensures { result ≡ terminals.is_weight kind }
{
    match kind {
        TokenKind::Weight => true,
        _ => false,
    }
}

/// The next token, if one comes before the end of the text or its first fault.
fn next_token(tokens: &mut TokenReader<'_>) -> Option<Token>
    ensures text { tokens.new.text.now ≡ tokens.old.text.now }
    ensures next { (tokens_ahead tokens.old.text.now tokens.old.at).tokens ≡ ahead.from_next result (tokens_ahead tokens.old.text.now tokens.new.at).tokens }
    ensures lies { ForSome result (LiesIn tokens.new.text.now) }
    ensures forward { ForSome result (λ _. tokens.old.at < tokens.new.at) }
{
    match tokens.next_token() {
        Ok(token) => token,
        Err(_) => None,
    }
}

/// The next terminal, if one comes before the end of the text or its first fault. The mark becomes that of the weight
/// comments before it.
pub fn next_terminal(tokens: &mut TokenReader<'_>, mark: &mut Mark) -> Option<Terminal>
    requires { length tokens.old.text.now < 2 ^ 32 }
    ensures text { tokens.new.text.now ≡ tokens.old.text.now }
    ensures next { ahead.from_next result (ahead.terminals_behind tokens.old.text.now tokens.new.at mark.new) ≡
        ahead.terminals_behind tokens.old.text.now tokens.old.at mark.old }
{
    'turns: while let Some(token) = next_token(tokens) {
        if !is_weight(token.kind) {
            return Some(terminal(tokens.text, token, *mark));
        }
        *mark = mark_behind(tokens.text, token, *mark);
    }
    None
}
