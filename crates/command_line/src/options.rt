//! The options of a search.
ghost use Rattle.std.specs.Prelude.{◌≤◌, ◌<◌};
ghost use Rattle.command_line.specs.CommandLine as spec;

use crate::WordFault;
use crate::words::{number_at, word_at};

/// The most nodes of a search.
const MOST_NODES: u64 = 1000000;

/// The options of a search that were given.
#[derive(Clone, Copy, Debug)]
pub(crate) struct Options<'a> {
    pub nodes: Option<u32>,
    pub cert: Option<&'a str>,
}

/// `--nodes` with its number.
fn nodes_option<'a>(
    words: &[String],
    number: u32,
    given: Options<'a>,
) -> Result<Options<'a>, WordFault>
    requires { number < 100 }
    ensures { spec.GivesBy spec.plain_options result (spec.nodes_option (spec.texts words.now) number (spec.plain_options given.entry)) }
{
    if given.nodes.is_some() {
        return Err(WordFault::Twice(number));
    }
    let nodes = number_at(words, number + 1, 1, MOST_NODES)?;
    Ok(Options {
        nodes: Some(nodes as u32),
        cert: given.cert,
    })
}

/// `--cert` with its file.
fn cert_option<'a>(
    words: &'a [String],
    number: u32,
    given: Options<'a>,
) -> Result<Options<'a>, WordFault>
    requires { number < 100 }
    ensures { spec.GivesBy spec.plain_options result (spec.cert_option (spec.texts words.now) number (spec.plain_options given.entry)) }
{
    if given.cert.is_some() {
        return Err(WordFault::Twice(number));
    }
    let name = word_at(words, number + 1)?;
    Ok(Options {
        nodes: given.nodes,
        cert: Some(name),
    })
}

/// The option at the word of a number; `--cert` is one where `certifies`.
#[tactic(auto, unfolding(crate::specs::CommandLine::option_at))]
fn option_at<'a>(
    words: &'a [String],
    certifies: bool,
    number: u32,
    given: Options<'a>,
) -> Result<Options<'a>, WordFault>
    requires some { 1 ≤ number }
    requires few { number < 100 }
    ensures { spec.GivesBy spec.plain_options result (spec.option_at certifies (spec.texts words.now) number (spec.plain_options given.entry)) }
{
    let word = word_at(words, number)?;
    if word == "--nodes" {
        return nodes_option(words, number, given);
    }
    if certifies && word == "--cert" {
        return cert_option(words, number, given);
    }
    if word.as_bytes().starts_with(b"--") {
        return Err(WordFault::UnknownOption(number));
    }
    Err(WordFault::Extra(number))
}

/// The options of a search, from the word of a number on; `--cert` is one where `certifies`.
pub(crate) fn read_options<'a>(
    words: &'a [String],
    certifies: bool,
    first: u32,
) -> Result<Options<'a>, WordFault>
    requires some { 1 ≤ first }
    requires few { first < 90 }
    ensures { spec.GivesBy spec.plain_options result (spec.options_from certifies (spec.texts words.now) 3 first spec.no_options) }
{
    let mut given = Options {
        nodes: None,
        cert: None,
    };
    'options: for turn in 0..3u32 {
        let number = first + 2 * turn;
        if words.len() < number as usize {
            return Ok(given);
        }
        given = match option_at(words, certifies, number, given) {
            Ok(next) => next,
            Err(fault) => return Err(fault),
        };
    }
    Err(WordFault::Extra(first + 6))
}
