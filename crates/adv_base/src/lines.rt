//! Lines of texts.
ghost use Rattle.std.specs.Prelude.{◌≡◌, ◌≢◌, ◌<◌, ◌≤◌, ℕ, List, MatchOption, length, slice_index};
ghost use Rattle.adv_base.specs.Numbers.{BeginsWithLine};

/// How many bytes stand before the first line feed.
fn line_len(bytes: &[u8]) -> usize
    ensures within { result ≤ length bytes.now }
    ensures before { (k : ℕ) → k < result → slice_index bytes.now k ≢ 10 }
    ensures at { result < length bytes.now → slice_index bytes.now result ≡ 10 }
{
    for (i, byte) in bytes.iter().enumerate() {
        if *byte == b'\n' {
            return i;
        }
    }
    bytes.len()
}

/// The first line and what follows the line feed that ends it; `None` where there is no line feed.
pub fn first_line(bytes: &[u8]) -> Option<(&[u8], &[u8])>
    ensures { MatchOption result ((line rest : List ℕ) → ¬ (BeginsWithLine bytes.now line rest)) (λ r. BeginsWithLine bytes.now r.0.now r.1.now) }
{
    let len = line_len(bytes);
    if len < bytes.len() {
        Some((&bytes[..len], &bytes[len + 1..]))
    } else {
        None
    }
}
