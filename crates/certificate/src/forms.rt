//! The lines of a certificate that say more than one number.
ghost use Rattle.std.specs.Prelude.{◌≡◌, ◌≢◌, ◌≤◌, ◌<◌, ◌+◌, ◌^◌, ◌∷◌, ℕ, ℤ, negsuc, List, IfOk, MatchOption};
ghost use Rattle.std.specs.Fmt.{signed_decimal};
ghost use Rattle.bip_model.specs.declared.answer.Node as nodes;
ghost use Rattle.certificate.specs.Limits as limits;
ghost use Rattle.certificate.specs.Texts as texts;
ghost use Rattle.certificate.specs.declared.cert.Entry as entries;
ghost use Rattle.certificate.specs.inner.Words as inner;

use crate::cert::Entry;
use crate::words::{after, front_number, is_word, last_number, next_number, number};
use adv_base::limits::{MOST_CANDIDATES, MOST_PAGE_PRICE, MOST_RENT, MOST_SLOTS, MOST_STATEMENTS};
use adv_base::{List, NoMemory};
use bip_model::Node;
use std::alloc::Global;

/// The number within limits of a line that is a word and a number.
pub(crate) fn number_line(line: &[u8], word: &[u8], least: u128, most: u128) -> Option<u128>
    ensures { MatchOption result ((n : ℕ) → ¬ (inner.IsNumberLine word.now least most line.now n)) (inner.IsNumberLine word.now least most line.now) }
{
    match after(line, word) {
        None => None,
        Some(rest) => match last_number(rest, least, most) {
            None => None,
            Some(value) => Some(value),
        },
    }
}

/// The numbers of candidates in a line of a configuration, strictly rising; `None` where it is no such line.
pub(crate) fn config_line(alloc: Global, line: &[u8]) -> Result<Option<List<u16>>, NoMemory>
    ensures { IfOk result (λ read. MatchOption read ((ns : List ℕ) → limits.Rise 1 ns → line.now ≢ texts.config_line ns) (λ ns. limits.Rise 1 ns × (line.now ≡ texts.config_line ns))) }
{
    let mut rest = match after(line, b"config") {
        None => return Ok(None),
        Some(numbers) => numbers,
    };
    let mut numbers = Vec::new(alloc);
    let mut least = 1;
    'numbers: while !rest.is_empty() {
        let (number, more) = match next_number(rest, least, MOST_CANDIDATES as u128) {
            None => return Ok(None),
            Some(next) => next,
        };
        numbers.push(number as u16)?;
        least = number + 1;
        rest = more;
    }
    Ok(Some(List { items: numbers }))
}

/// The number below zero of magnitude below 2^127 behind a space.
fn negative(text: &[u8]) -> Option<i128>
    ensures { MatchOption result ((n : ℕ) → n + 1 < 2 ^ 127 → text.now ≢ 32 ∷ signed_decimal (negsuc n)) (λ z. (n : ℕ) × (z ≡ negsuc n) × (n + 1 < 2 ^ 127) × (text.now ≡ 32 ∷ signed_decimal (negsuc n))) }
{
    let digits = match after(text, b" -") {
        None => return None,
        Some(digits) => digits,
    };
    match number(digits, 1, i128::MAX as u128) {
        None => None,
        Some(value) => Some(-(value as i128)),
    }
}

/// The number of a line of a bound, of magnitude below 2^127; 0 has no sign.
pub(crate) fn bound_line(line: &[u8]) -> Option<i128>
    ensures { MatchOption result ((z : ℤ) → limits.IsSmall z → line.now ≢ texts.bound_line z) (λ z. limits.IsSmall z × (line.now ≡ texts.bound_line z)) }
{
    let rest = match after(line, b"bound") {
        None => return None,
        Some(rest) => rest,
    };
    match last_number(rest, 0, i128::MAX as u128) {
        None => match negative(rest) {
            None => None,
            Some(value) => Some(value),
        },
        Some(value) => Some(value as i128),
    }
}

/// The price of a page and the count of entries, at most `most`, of the line that begins a set.
pub(crate) fn set_line(line: &[u8], most: u32) -> Option<(u128, u32)>
    ensures { MatchOption result ((mu count : ℕ) → ¬ (inner.IsSetLine most line.now mu count)) (λ r. inner.IsSetLine most line.now r.0 r.1) }
{
    let numbers = match after(line, b"set") {
        None => return None,
        Some(numbers) => numbers,
    };
    let (mu, rest) = match next_number(numbers, 0, MOST_PAGE_PRICE) {
        None => return None,
        Some(found) => found,
    };
    match last_number(rest, 0, most as u128) {
        None => None,
        Some(count) => Some((mu, count as u32)),
    }
}

/// The entry of a line.
pub(crate) fn entry_line(line: &[u8]) -> Option<Entry>
    ensures { MatchOption result ((e : entries.Entry) → limits.EntryLimits e → line.now ≢ texts.entry_line e) (λ e. limits.EntryLimits e × (line.now ≡ texts.entry_line e)) }
{
    let (statement, behind_statement) = match front_number(line, 1, MOST_STATEMENTS as u128) {
        None => return None,
        Some(found) => found,
    };
    let (slot, behind_slot) = match next_number(behind_statement, 1, MOST_SLOTS as u128) {
        None => return None,
        Some(found) => found,
    };
    let (candidate, behind_candidate) = match next_number(behind_slot, 1, MOST_CANDIDATES as u128) {
        None => return None,
        Some(found) => found,
    };
    match last_number(behind_candidate, 1, MOST_RENT as u128) {
        None => None,
        Some(lambda) => Some(Entry {
            statement: statement as u16,
            slot: slot as u8,
            candidate: candidate as u16,
            lambda: lambda as u64,
        }),
    }
}

/// The node of a line of a tree whose leaves may name so many sets, the line without its line feed; `None` where it is no
/// such line.
pub fn node_line(line: &[u8], sets: usize) -> Option<Node>
    requires { sets ≤ 16 }
    ensures { MatchOption result ((node : nodes.Node) → limits.NodeLimits sets node → line.now ≢ texts.node_line node) (λ node. limits.NodeLimits sets node × (line.now ≡ texts.node_line node)) }
{
    if is_word(line, b"X") {
        return Some(Node::Overfull);
    }
    if let Some(candidate) = number_line(line, b"B", 1, MOST_CANDIDATES as u128) {
        return Some(Node::Branch(candidate as u16));
    }
    match number_line(line, b"L", 0, sets as u128) {
        None => None,
        Some(set) => Some(Node::Bounded(set as u8)),
    }
}
