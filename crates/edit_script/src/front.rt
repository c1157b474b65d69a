//! Words and numbers at the front of bytes.
ghost use Rattle.std.specs.Prelude.{◌≡◌, ◌≢◌, ◌<◌, ◌≤◌, ◌^◌, ◌++◌, ℕ, List, true, false, MatchOption, IfSome, length, slice_index};
ghost use Rattle.std.specs.Char.{is_ascii_digit};
ghost use Rattle.std.specs.List.{prefix_len};
ghost use Rattle.edit_script.specs.inner.Fronts as fronts;

use adv_base::read_number;

/// What follows a word at the front.
pub(crate) fn after<'a>(text: &'a [u8], word: &[u8]) -> Option<&'a [u8]>
    ensures { MatchOption result ((rest : List ℕ) → text.now ≢ word.now ++ rest) (λ rest. text.now ≡ word.now ++ rest.now) }
{
    match text.strip_prefix(word) {
        None => None,
        Some(rest) => Some(rest),
    }
}

/// Where the digits at the front end.
fn digits_end(text: &[u8]) -> usize
    ensures within { result ≤ length text.now }
    ensures before { (k : ℕ) → k < result → is_ascii_digit (slice_index text.now k) ≡ true }
    ensures at { result < length text.now → is_ascii_digit (slice_index text.now result) ≡ false }
{
    for (i, byte) in text.iter().enumerate() {
        if !byte.is_ascii_digit() {
            return i;
        }
    }
    text.len()
}

/// How many digits stand at the front.
fn digits_len(text: &[u8]) -> usize
    ensures exact { result ≡ prefix_len is_ascii_digit text.now }
    ensures within { result ≤ length text.now }
{
    digits_end(text)
}

/// The number from 1 to `most` before the space behind the digits at the front, and what follows that space.
pub(crate) fn front_number(text: &[u8], most: u32) -> Option<(u32, &[u8])>
    ensures { MatchOption result ((n : ℕ) (rest : List ℕ) → ¬ (fronts.BeginsWithNumber most text.now n rest)) (λ r. fronts.BeginsWithNumber most text.now r.0 r.1.now) }
{
    let len = digits_len(text);
    let rest = after(&text[len..], b" ")?;
    let number = read_number(&text[..len], 1, most as u64)?;
    Some((number as u32, rest))
}
