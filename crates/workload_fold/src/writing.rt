//! Writes a folded workload.
ghost use Rattle.std.specs.Prelude.{◌≡◌, ◌<◌, ◌≤◌, ◌-◌, ◌++◌, ◌∷◌, [], IfOk, OnOk, MatchOption, length};
ghost use Rattle.std.specs.Option.{ForSome};
ghost use Rattle.sql_reader.specs.Terminals as terminals;
ghost use Rattle.sql_tokens.specs.Ahead.{ahead};
ghost use Rattle.sql_tokens.specs.Span.{LiesIn};
ghost use Rattle.workload_fold.specs.Texts as texts;

use crate::folded::Folded;
use adv_base::{Bytes, NoMemory, push_decimal};
use sql_reader::{Parsed, ParsedStatement};
use sql_tokens::{Token, TokenKind, TokenReader};
use std::alloc::{AllocError, Global};

/// The bytes of a token.
fn bytes_of(text: &[u8], token: Token) -> &[u8]
    requires { LiesIn text.now token }
    ensures { result.now ≡ terminals.bytes_of text.now token }
{
    &text[token.span.from as usize..token.span.to as usize]
}

/// Whether a token is a weight.
fn is_weight(kind: TokenKind) -> bool
    ensures { result ≡ terminals.is_weight kind }
{
    match kind {
        TokenKind::Weight => true,
        _ => false,
    }
}

/// Whether a token is a symbol.
fn is_symbol(kind: TokenKind) -> bool
    ensures { result ≡ texts.is_symbol kind }
{
    match kind {
        TokenKind::Symbol => true,
        _ => false,
    }
}

/// Whether a token is `;`.
fn is_semicolon(text: &[u8], token: Token) -> bool
    requires { LiesIn text.now token }
    ensures { result ≡ texts.is_semicolon text.now token }
{
    is_symbol(token.kind) && text[token.span.from as usize] == b';'
}

/// The next token behind so many bytes, and how many bytes it ends behind; None where none comes before the end of the
/// text or its first fault.
fn next_token(text: &[u8], at: usize) -> Option<(Token, usize)>
    requires { at ≤ length text.now }
    ensures next { MatchOption result ((ahead text.now at).tokens ≡ []) (λ r. (ahead text.now at).tokens ≡ r.0 ∷ (ahead text.now r.1).tokens) }
    ensures lies { ForSome result (λ r. LiesIn text.now r.0) }
    ensures forward { ForSome result (λ r. at < r.1) }
    ensures within { ForSome result (λ r. r.1 ≤ length text.now) }
{
    let mut tokens = TokenReader { text, at };
    match tokens.next_token() {
        Ok(Some(token)) => Some((token, tokens.at)),
        Ok(None) => None,
        Err(_) => None,
    }
}

/// The next token of the statement, which a `;` ends, and how many bytes it ends behind. Weights are passed over.
fn next_own(text: &[u8], from: usize) -> Option<(Token, usize)>
    requires { from ≤ length text.now }
    ensures next { MatchOption result (texts.own_tokens text.now (ahead text.now from).tokens ≡ [])
        (λ r. texts.own_tokens text.now (ahead text.now from).tokens ≡ r.0 ∷ texts.own_tokens text.now (ahead text.now r.1).tokens) }
    ensures lies { ForSome result (λ r. LiesIn text.now r.0) }
    ensures forward { ForSome result (λ r. from < r.1) }
    ensures within { ForSome result (λ r. r.1 ≤ length text.now) }
{
    let mut at = from;
    'turns: while let Some((token, behind)) = next_token(text, at) {
        if !is_weight(token.kind) {
            if is_semicolon(text, token) {
                return None;
            }
            return Some((token, behind));
        }
        at = behind;
    }
    None
}

/// Adds a token and a space.
fn push_token(out: &mut Vec<u8>, bytes: &[u8]) -> Result<(), AllocError>
    ensures { OnOk result (out.new.items ≡ out.old.items ++ (bytes.now ++ 32 ∷ [])) }
{
    out.extend_from_slice(bytes)?;
    out.push(b' ')?;
    Ok(())
}

/// Adds the tokens of the statement that begins behind so many bytes, with a space behind each.
fn push_tokens(out: &mut Vec<u8>, text: &[u8], from: usize) -> Result<(), AllocError>
    requires { from ≤ length text.now }
    ensures { OnOk result (out.new.items ≡ out.old.items ++ texts.spaced text.now (texts.own_tokens text.now (ahead text.now from).tokens)) }
{
    let mut at = from;
    'tokens: while let Some((token, behind)) = next_own(text, at) {
        push_token(out, bytes_of(text, token))?;
        at = behind;
    }
    Ok(())
}

/// Adds the line of a weight.
fn push_weight(alloc: Global, out: &mut Vec<u8>, weight: u32) -> Result<(), AllocError>
    ensures { OnOk result (out.new.items ≡ out.old.items ++ texts.weight_line weight) }
{
    out.extend_from_slice(b"-- weight ")?;
    push_decimal(alloc, out, weight as u128)?;
    out.push(b'\n')?;
    Ok(())
}

/// How many bytes stand before a place, which counts from 1.
#[tactic(auto, using(sql_tokens::proofs::Ahead::ahead_end))]
fn start_of(text: &[u8], place: u64) -> usize
    ensures within { result ≤ length text.now }
    ensures same { (ahead text.now result).tokens ≡ (ahead text.now (place - 1)).tokens }
{
    let at = place.saturating_sub(1);
    if at < text.len() as u64 {
        at as usize
    } else {
        text.len()
    }
}

/// Adds a group, whose first statement begins at a place.
#[tactic(auto, unfolding(crate::specs::Texts::group_text, crate::specs::Texts::statement_tokens))]
fn push_group(
    alloc: Global,
    out: &mut Vec<u8>,
    text: &[u8],
    place: u64,
    weight: u32,
) -> Result<(), AllocError>
    ensures { OnOk result (out.new.items ≡ out.old.items ++ texts.group_text text.now place weight) }
{
    let from = start_of(text, place);
    push_weight(alloc, out, weight)?;
    push_tokens(out, text, from)?;
    out.extend_from_slice(b";\n")?;
    Ok(())
}

/// Where the statement of a number, from 1, begins.
fn place_of_number(statements: &[ParsedStatement], number: u16) -> u64
    ensures { result ≡ texts.place_of_number statements.now number }
{
    match statements.get((number as usize).saturating_sub(1)) {
        Some(statement) => statement.place,
        None => 0,
    }
}

/// The text of a folded workload: for each group the line `-- weight W`, and then the tokens of its first statement without
/// weights, with a space between each two, ` ;` and a line feed. `parsed` is what was read, and the groups are those of the
/// statements that were bound from it. The only error is want of memory.
pub fn fold_text(alloc: Global, parsed: &Parsed<'_>, folded: &Folded) -> Result<Bytes, NoMemory>
    ensures { IfOk result (λ text. text ≡ texts.folded_text parsed.now.text.now parsed.now.statements folded.now.first folded.now.weights) }
{
    let first = folded.first.as_slice();
    let weights = folded.weights.as_slice();
    let mut out = Vec::new(alloc);
    'groups: for at in 0..first.len() {
        let place = place_of_number(parsed.statements.as_slice(), first[at]);
        push_group(alloc, &mut out, parsed.text, place, weights[at])?;
    }
    Ok(Bytes { items: out })
}
