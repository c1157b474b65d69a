//! Single words of a command line.
ghost use Rattle.std.specs.Prelude.{◌≡◌, ◌≤◌, ◌<◌, IfOk};
ghost use Rattle.command_line.specs.CommandLine as spec;

use crate::WordFault;
use crate::number::number_of;

/// The word of a number, from 1.
#[tactic(auto, unfolding(crate::specs::CommandLine::word_at))]
pub(crate) fn word_at<'a>(words: &'a [String], number: u32) -> Result<&'a str, WordFault>
    requires { 1 ≤ number }
    ensures { spec.GivesBy (λ word. word.now) result (spec.word_at (spec.texts words.now) number) }
{
    match words.get(number as usize - 1) {
        Some(word) => Ok(word.as_str()),
        None => Err(WordFault::Missing(number)),
    }
}

/// The number that a word is.
#[tactic(auto, unfolding(crate::specs::CommandLine::number_at))]
pub(crate) fn number_at(
    words: &[String],
    number: u32,
    least: u64,
    most: u64,
) -> Result<u64, WordFault>
    requires { 1 ≤ number }
    ensures exact { result ≡ spec.number_at (spec.texts words.now) number least most }
    ensures range { IfOk result (λ n. n ≤ most) }
{
    let word = word_at(words, number)?;
    match number_of(word.as_bytes(), least, most) {
        Some(n) => Ok(n),
        None => Err(WordFault::BadNumber(number)),
    }
}

/// Says that no word stands behind the one of a number.
#[tactic(auto, unfolding(crate::specs::CommandLine::end_at))]
pub(crate) fn end_at(words: &[String], number: u32) -> Result<(), WordFault>
    requires { number < 100 }
    ensures { result ≡ spec.end_at (spec.texts words.now) number }
{
    if (number as usize) < words.len() {
        Err(WordFault::Extra(number + 1))
    } else {
        Ok(())
    }
}
