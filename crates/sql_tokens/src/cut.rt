//! A text cut into its tokens.
ghost use Rattle.std.specs.Prelude.{◌≡◌, ◌+◌, ◌<◌, ◌≤◌, ◌^◌, ◌++◌, List, [], ◌∷◌, length, IfOk, IfErr, MatchResult, ◌⊎◌};
ghost use Rattle.std.specs.Option.{option_to_list};
ghost use Rattle.sql_tokens.specs.declared.token.Token.{Token};
ghost use Rattle.sql_tokens.specs.declared.token_list.TokenFault.{TokenFault};
ghost use Rattle.sql_tokens.specs.Cut.{AreTokens, HasFault, tokens_of_lexeme, fault_at, token_at, stop_length};

use crate::lexeme::{Form, NoLexeme};
use crate::weight::weight_length;
use crate::{Span, Token, TokenFault, TokenKind, TokenReader, Tokens};
use std::alloc::Global;

/// The fault behind so many bytes.
pub fn fault_at(at: u64, stop: NoLexeme) -> TokenFault
    requires { at + stop_length stop + 1 < 2 ^ 64 }
    ensures { result ≡ fault_at at stop }
{
    match stop {
        NoLexeme::BadByte(behind) => TokenFault::BadByte(at + behind as u64 + 1),
        NoLexeme::OpenText => TokenFault::OpenText(at + 1),
    }
}

/// A token of so many bytes behind so many others.
fn token_at(kind: TokenKind, at: u64, length: usize) -> Token
    requires { at + length < 2 ^ 64 }
    ensures { result ≡ token_at kind at length }
{
    Token {
        kind,
        span: Span {
            from: at,
            to: at + length as u64,
        },
    }
}

/// The token that a lexeme gives, if it gives one.
pub fn token_of(at: u64, form: Form, bytes: &[u8]) -> Option<Token>
    requires fits { at + length bytes.now < 2 ^ 64 }
    requires comment { form ≡ Form.LineComment → 2 ≤ length bytes.now }
    ensures { option_to_list result ≡ tokens_of_lexeme at form bytes.now }
{
    match form {
        Form::Blank => None,
        Form::LineComment => match weight_length(bytes) {
            Some(length) => Some(token_at(TokenKind::Weight, at, length)),
            None => None,
        },
        Form::BlockComment => None,
        Form::Token(kind) => Some(token_at(kind, at, bytes.len())),
    }
}

/// Puts a token at the end of the list.
fn add(list: &mut Vec<Token>, token: Token) -> Result<(), TokenFault>
    ensures { MatchResult result (λ _. list.new.items ≡ list.old.items ++ token ∷ []) (λ e. e ≡ TokenFault.Memory) }
{
    match list.push(token) {
        Ok(()) => Ok(()),
        Err(_) => Err(TokenFault::Memory),
    }
}

/// Cuts a text, as the workload of SQL statements is given, into its tokens: from the left, each lexeme the
/// longest that stands there, where blanks and comments are lexemes too and give no token, except that a line
/// comment may give the weight of a statement. The text is any bytes, of any length. Memory is taken for the
/// list alone, and each byte is read a fixed number of times.
///
/// Spans are in the order of the text, and lie in it; `Tokens` keeps that.
///
/// # Errors
///
/// The first of these two in the text, where there is one:
/// - `BadByte`, the place of the first byte that begins no token and continues none: a byte of no token, a `!`,
///   `|` or `$` that begins no symbol, a letter or `_` directly behind a number, the second quote of `""`.
/// - `OpenText`, the place of a text, a quoted name or a block comment that has no end. A quoted name ends in
///   its line.
///
/// `Memory`, where there isn't enough memory for the list.
pub fn tokens<'a>(alloc: Global, text: &'a [u8]) -> Result<Tokens<'a>, TokenFault>
    ensures same_text { IfOk result (λ t. t.text.now ≡ text.now) }
    ensures found { IfOk result (λ t. AreTokens text.now t.list) }
    ensures only { (list : List Token) → AreTokens text.now list → MatchResult result (λ t. t.list ≡ list) (λ e. e ≡ TokenFault.Memory) }
    ensures fault { IfErr result (λ e. (e ≡ TokenFault.Memory) ⊎ HasFault text.now e) }
    ensures fault_only { (e : TokenFault) → HasFault text.now e → MatchResult result (λ _. ⊥) (λ f. (f ≡ e) ⊎ (f ≡ TokenFault.Memory)) }
{
    let mut list = Vec::new(alloc);
    let mut reader = TokenReader::new(text);
    'turns: while let Some(token) = reader.next_token()? {
        add(&mut list, token)?;
    }
    Ok(Tokens {
        text,
        list: adv_base::List { items: list },
    })
}
