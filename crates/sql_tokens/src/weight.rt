//! The weight that a line comment gives.
ghost use Rattle.std.specs.Prelude.{◌≡◌, ◌≤◌, length, IfSome, ◌==◌};
ghost use Rattle.sql_tokens.specs.Weight.{is_margins, number_end, weight_end, weight_length};

use crate::byte::{ByteSet, after};

/// Whether nothing but blanks stands there.
fn is_margins(bytes: &[u8]) -> bool
    ensures { result ≡ is_margins bytes.now }
{
    ByteSet::Margin.run(bytes) == bytes.len()
}

/// At least one space or tab, at least one digit, and nothing but blanks: how many bytes stand before those.
#[tactic(auto, unfolding(crate::specs::Weight::number_end))]
fn number_end(behind: &[u8]) -> Option<usize>
    ensures value { result ≡ number_end behind.now }
    ensures within { IfSome result (λ n. n ≤ length behind.now) }
{
    let gap = ByteSet::Space.run(behind);
    let number = after(behind, gap);
    let digits = ByteSet::Digit.run(number);
    let good = gap > 0 && digits > 0 && is_margins(after(number, digits));
    if good { Some(gap + digits) } else { None }
}

/// The word `weight` in any case of letters, and what follows it, up to the last digit.
#[tactic(auto, unfolding(crate::specs::Weight::weight_end))]
fn weight_end(text: &[u8]) -> Option<usize>
    ensures value { result ≡ weight_end text.now }
    ensures within { IfSome result (λ n. n ≤ length text.now) }
{
    if text.len() <= 5 {
        return None;
    }
    let (word, behind) = text.split_at(6);
    if !word.eq_ignore_ascii_case(b"weight") {
        return None;
    }
    match number_end(behind) {
        Some(end) => Some(6 + end),
        None => None,
    }
}

/// How many bytes of a comment, from `--` to the end of its line, are its weight, if it gives one.
#[tactic(auto, unfolding(crate::specs::Weight::weight_length))]
pub fn weight_length(comment: &[u8]) -> Option<usize>
    requires { 2 ≤ length comment.now }
    ensures value { result ≡ weight_length comment.now }
    ensures within { IfSome result (λ n. n ≤ length comment.now) }
{
    let text = after(comment, 2);
    let blanks = ByteSet::Margin.run(text);
    match weight_end(after(text, blanks)) {
        Some(end) => Some(2 + blanks + end),
        None => None,
    }
}
