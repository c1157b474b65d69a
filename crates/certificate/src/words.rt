//! Numbers and words of lines.
ghost use Rattle.std.specs.Prelude.{◌≡◌, ◌≢◌, ◌↔◌, ◌<◌, ◌≤◌, ◌^◌, ◌++◌, ℕ, List, Some, IsTrue, MatchOption, true, length, slice_index, decimal};
ghost use Rattle.adv_base.specs.Numbers as numbers;
ghost use Rattle.certificate.specs.inner.Words as inner;

use std::str;

/// Whether bytes begin as a number does.
fn is_plain(text: &[u8]) -> bool
    ensures { result ≡ numbers.is_plain text.now }
{
    if text.is_empty() {
        return false;
    }
    text[0] > b'0' || (text[0] == b'0' && text.len() == 1)
}

/// The number below 2^128 whose decimal digits a text is that begins as a number does.
fn parse_wide(digits: &str) -> Option<u128>
    requires { numbers.is_plain digits.now ≡ true }
    ensures { MatchOption result ((n : ℕ) → n < 2 ^ 128 → digits.now ≢ decimal n) (λ n. (n < 2 ^ 128) × (digits.now ≡ decimal n)) }
{
    match digits.parse::<u128>() {
        Err(_) => None,
        Ok(value) => Some(value),
    }
}

/// The number below 2^128 whose decimal digits the bytes are. Most numbers are below 2^64, which are read faster.
fn value_of(text: &[u8]) -> Option<u128>
    ensures { MatchOption result ((n : ℕ) → n < 2 ^ 128 → text.now ≢ decimal n) (λ n. (n < 2 ^ 128) × (text.now ≡ decimal n)) }
{
    if !is_plain(text) {
        return None;
    }
    match str::from_utf8(text) {
        Err(_) => None,
        Ok(digits) => match digits.parse::<u64>() {
            Err(_) => parse_wide(digits),
            Ok(value) => Some(value as u128),
        },
    }
}

/// The number from `least` to `most` whose decimal digits the bytes are; a number has no leading zero but that of 0
/// itself.
pub(crate) fn number(text: &[u8], least: u128, most: u128) -> Option<u128>
    ensures { MatchOption result ((n : ℕ) → ¬ (numbers.IsNumber least most text.now n)) (numbers.IsNumber least most text.now) }
{
    let value = value_of(text)?;
    if value < least {
        return None;
    }
    if most < value {
        return None;
    }
    Some(value)
}

/// How many bytes stand before the first space.
fn word_len(text: &[u8]) -> usize
    ensures within { result ≤ length text.now }
    ensures before { (k : ℕ) → k < result → slice_index text.now k ≢ 32 }
    ensures at { result < length text.now → slice_index text.now result ≡ 32 }
{
    for (i, byte) in text.iter().enumerate() {
        if *byte == b' ' {
            return i;
        }
    }
    text.len()
}

/// The number within limits that the bytes begin with, up to a space or their end, and what follows it.
pub(crate) fn front_number(text: &[u8], least: u128, most: u128) -> Option<(u128, &[u8])>
    ensures { MatchOption result ((n : ℕ) (rest : List ℕ) → ¬ (inner.BeginsWithNumber least most text.now n rest)) (λ r. inner.BeginsWithNumber least most text.now r.0 r.1.now) }
{
    let len = word_len(text);
    match number(&text[..len], least, most) {
        None => None,
        Some(value) => Some((value, &text[len..])),
    }
}

/// What follows a word at the front.
pub(crate) fn after<'a>(text: &'a [u8], word: &[u8]) -> Option<&'a [u8]>
    ensures { MatchOption result ((rest : List ℕ) → text.now ≢ word.now ++ rest) (λ rest. text.now ≡ word.now ++ rest.now) }
{
    match text.strip_prefix(word) {
        None => None,
        Some(rest) => Some(rest),
    }
}

/// The number within limits behind the space that the bytes begin with, and what follows it.
pub(crate) fn next_number(text: &[u8], least: u128, most: u128) -> Option<(u128, &[u8])>
    ensures { MatchOption result ((n : ℕ) (rest : List ℕ) → ¬ (inner.GoesOnWithNumber least most text.now n rest)) (λ r. inner.GoesOnWithNumber least most text.now r.0 r.1.now) }
{
    let rest = after(text, b" ")?;
    front_number(rest, least, most)
}

/// Whether the bytes are a word.
pub(crate) fn is_word(text: &[u8], word: &[u8]) -> bool
    ensures { IsTrue result ↔ (text.now ≡ word.now) }
{
    match after(text, word) {
        None => false,
        Some(rest) => rest.is_empty(),
    }
}

/// The number within limits that ends a line, behind a space.
pub(crate) fn last_number(text: &[u8], least: u128, most: u128) -> Option<u128>
    ensures { MatchOption result ((n : ℕ) → ¬ (inner.IsSpacedNumber least most text.now n)) (inner.IsSpacedNumber least most text.now) }
{
    let rest = after(text, b" ")?;
    number(rest, least, most)
}
