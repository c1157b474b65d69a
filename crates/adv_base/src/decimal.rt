//! Numbers as text.
ghost use Rattle.std.specs.Prelude.{◌≡◌, ◌≢◌, ◌↔◌, ◌<◌, ◌≤◌, ◌^◌, ◌++◌, ℕ, Some, IfSome, MatchOption, OnOk, OnErr, decimal};
ghost use Rattle.adv_base.specs.Numbers as numbers;

use std::alloc::{AllocError, Global};
use std::str;

/// Adds the decimal digits of a number to a text. An `Err` leaves the text as it was.
pub fn push_decimal(alloc: Global, out: &mut Vec<u8>, n: u128) -> Result<(), AllocError>
    ensures ok { OnOk result (out.new.items ≡ out.old.items ++ decimal n) }
    ensures err { OnErr result (out.new.items ≡ out.old.items) }
{
    let digits = format!(in alloc; "{n}")?;
    out.extend_from_slice(digits.as_bytes())?;
    Ok(())
}

/// The number from `least` to `most` whose decimal digits the bytes are; `None` where there is none. A number has no
/// sign, no blank, and no leading zero but that of 0 itself.
pub fn read_number(text: &[u8], least: u64, most: u64) -> Option<u64>
    ensures exact { (n : ℕ) → (result ≡ Some n) ↔ numbers.IsNumber least most text.now n }
    ensures low { IfSome result (λ n. least ≤ n) }
    ensures high { IfSome result (λ n. n ≤ most) }
{
    match value_of(text) {
        None => None,
        Some(value) => within(value, least, most),
    }
}

/// A value where it lies in a range.
fn within(value: u64, least: u64, most: u64) -> Option<u64>
    ensures exact { (n : ℕ) → (result ≡ Some n) ↔ ((value ≡ n) × (least ≤ n) × (n ≤ most)) }
    ensures low { IfSome result (λ n. least ≤ n) }
    ensures high { IfSome result (λ n. n ≤ most) }
{
    if value < least || most < value {
        None
    } else {
        Some(value)
    }
}

/// Whether bytes begin as a number does.
fn is_plain(text: &[u8]) -> bool
    ensures { result ≡ numbers.is_plain text.now }
{
    if text.is_empty() {
        return false;
    }
    text[0] > b'0' || (text[0] == b'0' && text.len() == 1)
}

/// The number below 2^64 whose decimal digits the bytes are.
fn value_of(text: &[u8]) -> Option<u64>
    ensures { MatchOption result ((n : ℕ) → n < 2 ^ 64 → text.now ≢ decimal n) (λ n. (n < 2 ^ 64) × (text.now ≡ decimal n)) }
{
    if !is_plain(text) {
        return None;
    }
    match str::from_utf8(text) {
        Err(_) => None,
        Ok(digits) => match digits.parse::<u64>() {
            Err(_) => None,
            Ok(value) => Some(value),
        },
    }
}
