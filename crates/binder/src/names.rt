//! The names in a text, and how they are compared.
ghost use Rattle.std.specs.Prelude.{◌≡◌, IfOk};
ghost use Rattle.binder.specs.Names as spelling;
ghost use Rattle.binder.specs.Lookups.{goes_by};

use sql_tokens::Span;
use std::alloc::{AllocError, Global};

/// The bytes of a span; none where it doesn't lie in the text.
fn span_bytes<'a>(text: &'a [u8], span: Span) -> &'a [u8]
    ensures { result.now ≡ spelling.span_bytes text.now span }
{
    if span.from <= span.to && span.to <= text.len() as u64 {
        &text[span.from as usize..span.to as usize]
    } else {
        &[]
    }
}

/// What stands between quotes, where bytes begin with this quote; else the bytes.
#[tactic(auto, unfolding(crate::specs::Names::unquoted))]
fn unquoted(quote: u8, bytes: &[u8]) -> &[u8]
    ensures { result.now ≡ spelling.unquoted quote bytes.now }
{
    if bytes.len() >= 2 && bytes[0] == quote {
        &bytes[1..bytes.len() - 1]
    } else {
        bytes
    }
}

/// The bytes of a name: those of its token, or those between the quotes of a quoted one.
pub fn name_bytes<'a>(text: &'a [u8], span: Span) -> &'a [u8]
    ensures { result.now ≡ spelling.name_in text.now span }
{
    unquoted(b'"', span_bytes(text, span))
}

/// The bytes between the quotes of a text.
pub fn text_bytes<'a>(text: &'a [u8], span: Span) -> &'a [u8]
    ensures { result.now ≡ spelling.text_in text.now span }
{
    unquoted(b'\'', span_bytes(text, span))
}

/// A name with its letters folded, as names are compared.
pub fn folded(alloc: Global, name: &[u8]) -> Result<Vec<u8>, AllocError>
    ensures { IfOk result (λ v. v.items ≡ spelling.folded name.now) }
{
    name.to_ascii_lowercase(alloc)
}

/// The name of a token with its letters folded.
pub fn word(alloc: Global, text: &[u8], span: Span) -> Result<Vec<u8>, AllocError>
    ensures { IfOk result (λ v. v.items ≡ spelling.word_in text.now span) }
{
    folded(alloc, name_bytes(text, span))
}

/// Whether two names are the same, in any case of letters.
pub fn is_same_name(a: &[u8], b: &[u8]) -> bool
    ensures { result ≡ goes_by (spelling.folded b.now) a.now }
{
    a.eq_ignore_ascii_case(b)
}
