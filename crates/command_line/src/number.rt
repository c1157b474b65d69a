//! Numbers as words.
ghost use Rattle.std.specs.Prelude.{◌≡◌, ◌≤◌, IfSome};
ghost use Rattle.command_line.specs.Numbers.{number_within};

use adv_base::read_number;

/// The number from `least` to `most` whose decimal digits the bytes are; `None` for all other bytes. Takes no memory.
pub(crate) fn number_of(text: &[u8], least: u64, most: u64) -> Option<u64>
    ensures exact { result ≡ number_within least most text.now }
    ensures low { IfSome result (λ n. least ≤ n) }
    ensures range { IfSome result (λ n. n ≤ most) }
{
    read_number(text, least, most)
}
