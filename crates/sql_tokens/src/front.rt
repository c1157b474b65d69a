//! The lexeme at the front of a text.
ghost use Rattle.std.specs.Prelude.{◌≡◌, ◌+◌, ◌<◌, ◌≤◌, length, IsTrue, IfOk, IfErr, IfSome};
ghost use Rattle.sql_tokens.specs.Front.{begins_fraction, number_lexeme, number, quoted, closing, text_lexeme, comment_end, comment_lexeme, symbol, front};
ghost use Rattle.sql_tokens.specs.Cut.{stop_length};
ghost use Rattle.sql_tokens.specs.Byte.{begins, is_mark, is_pair, ends_comment};

use crate::TokenKind;
use crate::byte::{ByteSet, Class, after, class_of};
use crate::lexeme::{Form, Lexeme, NoLexeme};

/// Whether the bytes begin with a point and a digit.
fn begins_fraction(bytes: &[u8]) -> bool
    ensures value { result ≡ begins_fraction bytes.now }
    ensures some { IsTrue result → 2 ≤ length bytes.now }
{
    ByteSet::Point.begins(bytes) && ByteSet::Digit.begins(after(bytes, 1))
}

/// Digits, and where a point and a digit follow, the point and its digits.
#[tactic(auto, unfolding(crate::specs::Front::number_lexeme))]
fn number_lexeme(bytes: &[u8]) -> Lexeme
    ensures value { result ≡ number_lexeme bytes.now }
    ensures within { result.length ≤ length bytes.now }
{
    let whole = ByteSet::Digit.run(bytes);
    let behind = after(bytes, whole);
    if begins_fraction(behind) {
        let fraction = ByteSet::Digit.run(after(behind, 1));
        Lexeme {
            form: Form::Token(TokenKind::Decimal),
            length: whole + (1 + fraction),
        }
    } else {
        Lexeme {
            form: Form::Token(TokenKind::Whole),
            length: whole,
        }
    }
}

/// A number that no letter follows directly.
#[tactic(auto, unfolding(crate::specs::Front::number))]
fn number(bytes: &[u8]) -> Result<Lexeme, NoLexeme>
    ensures value { result ≡ number bytes.now }
    ensures within { IfOk result (λ p. p.length ≤ length bytes.now) }
    ensures reach { IfErr result (λ s. stop_length s ≤ length bytes.now) }
{
    let lexeme = number_lexeme(bytes);
    if ByteSet::Letter.begins(after(bytes, lexeme.length)) {
        return Err(NoLexeme::BadByte(lexeme.length));
    }
    Ok(lexeme)
}

/// A quoted name, by what stands behind its first quote.
#[tactic(auto, unfolding(crate::specs::Front::quoted))]
fn quoted(behind: &[u8]) -> Result<Lexeme, NoLexeme>
    ensures value { result ≡ quoted behind.now }
    ensures within { IfOk result (λ p. p.length ≤ 1 + length behind.now) }
    ensures reach { IfErr result (λ s. stop_length s ≤ 1) }
{
    let name = ByteSet::Name.run(behind);
    if !ByteSet::Quote.begins(after(behind, name)) {
        return Err(NoLexeme::OpenText);
    }
    if name == 0 {
        return Err(NoLexeme::BadByte(1));
    }
    Ok(Lexeme {
        form: Form::Token(TokenKind::Quoted),
        length: name + 2,
    })
}

/// How many bytes behind the first quote of a text end it: the most there are.
fn closing(behind: &[u8]) -> Option<usize>
    ensures value { result ≡ closing behind.now }
    ensures within { IfSome result (λ n. n ≤ length behind.now) }
{
    let mut end = None;
    let mut at = 0;
    while at < behind.len() {
        if behind[at] != b'\'' {
            at += 1;
            continue;
        }
        at += 1;
        end = Some(at);
        if !ByteSet::Apostrophe.begins(after(behind, at)) {
            return end;
        }
        at += 1;
    }
    end
}

/// Whether the two bytes end a block comment.
fn ends_comment(first: u8, second: u8) -> bool
    ensures { result ≡ ends_comment first second }
{
    first == b'*' && second == b'/'
}

/// How many bytes behind `/*` end the comment.
fn comment_end(behind: &[u8]) -> Option<usize>
    ensures value { result ≡ comment_end behind.now }
    ensures within { IfSome result (λ n. n ≤ length behind.now) }
{
    let mut at = 0;
    while at + 1 < behind.len() {
        if ends_comment(behind[at], behind[at + 1]) {
            return Some(at + 2);
        }
        at += 1;
    }
    None
}

/// Whether the byte is a symbol by itself.
fn is_mark(byte: u8) -> bool
    ensures { result ≡ is_mark byte }
{
    byte == b'%' || (b'(' <= byte && byte <= b'/') || (b';' <= byte && byte <= b'?')
}

/// Whether the two bytes are a symbol together.
fn is_pair(first: u8, second: u8) -> bool
    ensures { result ≡ is_pair first second }
{
    ((first == b'<' || first == b'>' || first == b'!') && second == b'=')
        || (first == b'<' && second == b'>')
        || (first == b'|' && second == b'|')
}

/// A symbol: two bytes, one byte, or `$` and digits.
#[tactic(auto, unfolding(crate::specs::Front::symbol))]
fn symbol(first: u8, behind: &[u8]) -> Result<Lexeme, NoLexeme>
    ensures value { result ≡ symbol first behind.now }
    ensures within { IfOk result (λ p. p.length ≤ 1 + length behind.now) }
    ensures reach { IfErr result (λ s. stop_length s ≤ 1) }
{
    let form = Form::Token(TokenKind::Symbol);
    if begins_pair(first, behind) {
        Ok(Lexeme { form, length: 2 })
    } else if is_mark(first) {
        Ok(Lexeme { form, length: 1 })
    } else if first == b'$' && ByteSet::Digit.begins(behind) {
        let length = 1 + ByteSet::Digit.run(behind);
        Ok(Lexeme { form, length })
    } else {
        Err(NoLexeme::BadByte(0))
    }
}

/// Whether the byte and the one behind it are a symbol together.
fn begins_pair(first: u8, behind: &[u8]) -> bool
    ensures value { result ≡ begins (is_pair first) behind.now }
    ensures some { IsTrue result → 0 < length behind.now }
{
    !behind.is_empty() && is_pair(first, behind[0])
}

/// A text, by what stands behind its first quote.
fn text(behind: &[u8]) -> Result<Lexeme, NoLexeme>
    ensures value { result ≡ text_lexeme (closing behind.now) }
    ensures within { IfOk result (λ p. p.length ≤ 1 + length behind.now) }
    ensures reach { IfErr result (λ s. stop_length s ≤ 1) }
{
    match closing(behind) {
        Some(end) => Ok(Lexeme {
            form: Form::Token(TokenKind::Text),
            length: 1 + end,
        }),
        None => Err(NoLexeme::OpenText),
    }
}

/// A block comment, by what stands behind its `/*`.
fn block_comment(behind: &[u8]) -> Result<Lexeme, NoLexeme>
    ensures value { result ≡ comment_lexeme (comment_end behind.now) }
    ensures within { IfOk result (λ p. p.length ≤ 2 + length behind.now) }
    ensures reach { IfErr result (λ s. stop_length s ≤ 1) }
{
    match comment_end(behind) {
        Some(end) => Ok(Lexeme {
            form: Form::BlockComment,
            length: 2 + end,
        }),
        None => Err(NoLexeme::OpenText),
    }
}

/// The lexeme at the front of a text that has a byte, or why there is none.
pub fn front(bytes: &[u8]) -> Result<Lexeme, NoLexeme>
    requires { 0 < length bytes.now }
    ensures value { result ≡ front bytes.now }
    ensures within { IfOk result (λ p. p.length ≤ length bytes.now) }
    ensures reach { IfErr result (λ s. stop_length s ≤ length bytes.now) }
{
    let first = bytes[0];
    let behind = after(bytes, 1);
    let mark = Ok(Lexeme {
        form: Form::Token(TokenKind::Symbol),
        length: 1,
    });
    match class_of(first) {
        Class::Blank => Ok(Lexeme {
            form: Form::Blank,
            length: 1,
        }),
        Class::Letter => Ok(Lexeme {
            form: Form::Token(TokenKind::Word),
            length: 1 + ByteSet::Word.run(behind),
        }),
        Class::Digit => number(bytes),
        Class::Point if ByteSet::Digit.begins(behind) => number(bytes),
        Class::Quote => quoted(behind),
        Class::Apostrophe => text(behind),
        Class::Minus if ByteSet::Minus.begins(behind) => Ok(Lexeme {
            form: Form::LineComment,
            length: 1 + ByteSet::Line.run(behind),
        }),
        Class::Slash if ByteSet::Star.begins(behind) => block_comment(after(behind, 1)),
        Class::Point | Class::Minus | Class::Slash => mark,
        Class::Other => symbol(first, behind),
    }
}
