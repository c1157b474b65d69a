//! Configuration files.
ghost use Rattle.std.specs.Prelude.{◌≡◌, ◌<◌, ◌≤◌, ◌∷◌, ◌++◌, ℕ, true, IfOk, IfErr, IfSome, MatchOption, Some, decimal, slice_get};
ghost use Rattle.cophy_core.specs.Confs.{IsConf, IsConfFault, NoLine};

use adv_base::limits::MOST_CANDIDATES;
use adv_base::{Config, first_line, read_number};

/// The number above `last` of the first line, and what follows the line.
fn next_number(bytes: &[u8], last: u16, count: u16) -> Option<(u16, &[u8])>
    ensures line { MatchOption result (NoLine count last bytes.now) (λ r. bytes.now ≡ decimal r.0 ++ 10 ∷ r.1.now) }
    ensures above { IfSome result (λ r. last < r.0) }
    ensures within { IfSome result (λ r. r.0 ≤ count) }
{
    let (line, rest) = first_line(bytes)?;
    let number = read_number(line, last as u64 + 1, count as u64)?;
    Some((number as u16, rest))
}

/// The configuration that a file gives, of candidates numbered from 1 to `count`: a number a line, each ended by a line
/// feed, strictly rising. An `Err` holds the number of the first line that breaks a rule. Takes no memory.
pub fn read_conf(bytes: &[u8], count: u16) -> Result<Config, u64>
    requires { count ≤ 256 }
    ensures conf { IfOk result (IsConf count bytes.now) }
    ensures fault { IfErr result (IsConfFault count bytes.now) }
    ensures below { IfOk result (λ config. (a : ℕ) → slice_get config.on a ≡ Some true → a < count) }
{
    let mut on = [false; MOST_CANDIDATES];
    let mut last: u16 = 0;
    let mut line: u64 = 1;
    let mut rest = bytes;
    'lines: while !rest.is_empty() {
        let (number, more) = match next_number(rest, last, count) {
            Some(read) => read,
            None => return Err(line),
        };
        on[number as usize - 1] = true;
        last = number;
        line += 1;
        rest = more;
    }
    Ok(Config { on })
}
