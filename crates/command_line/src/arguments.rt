//! The words of a command line, one after another.
ghost use Rattle.std.specs.Prelude.{◌≡◌, ◌+◌, ◌≤◌, ◌<◌, IfOk};
ghost use Rattle.command_line.specs.CommandLine as spec;
ghost use Rattle.command_line.specs.inner.Arguments.{next_word, next_number, next_options, at_end, judged, GoTogether, ReadsFile, ReadsNumber};

use crate::options::{Options, read_options};
use crate::words::{end_at, number_at, word_at};
use crate::{Command, WordFault};

/// The words of a command line, read one after another from the one behind its name. Behind the first fault nothing is read,
/// and values that mean nothing stand in place of the words, so that a command is read straight through.
#[derive(Drop)]
pub(crate) struct Arguments<'a> {
    pub words: &'a [String],
    /// The number of the last word that was read, from 1.
    pub at: u32,
    /// The first fault so far, if there is one.
    pub so_far: Result<(), WordFault>,
}

impl<'a> Arguments<'a> {
    /// The next word, or the first fault.
    pub(crate) fn next_word(&self) -> Result<&'a str, WordFault>
        requires { self.now.at < 100 }
        ensures { spec.GivesBy (λ word. word.now) result (next_word self.now) }
    {
        self.so_far?;
        word_at(self.words, self.at + 1)
    }

    /// The number that the next word is, or the first fault.
    pub(crate) fn next_number(&self, least: u64, most: u64) -> Result<u64, WordFault>
        requires { self.now.at < 100 }
        ensures exact { result ≡ next_number least most self.now }
        ensures range { IfOk result (λ n. n ≤ most) }
    {
        self.so_far?;
        number_at(self.words, self.at + 1, least, most)
    }

    /// Reads the next word, the name of a file.
    pub(crate) fn file(&mut self) -> &'a str
        requires { self.old.at < 100 }
        ensures next { self.new.at ≡ self.old.at + 1 }
        ensures reads { ReadsFile self.old self.new result.now }
    {
        let word = self.next_word();
        self.at += 1;
        match word {
            Ok(word) => word,
            Err(fault) => {
                self.so_far = Err(fault);
                ""
            }
        }
    }

    /// Reads the next word, a number in a range.
    pub(crate) fn number(&mut self, least: u64, most: u64) -> u64
        requires { self.old.at < 100 }
        ensures next { self.new.at ≡ self.old.at + 1 }
        ensures range { result ≤ most }
        ensures reads { ReadsNumber least most self.old self.new result }
    {
        let number = self.next_number(least, most);
        self.at += 1;
        match number {
            Ok(number) => number,
            Err(fault) => {
                self.so_far = Err(fault);
                0
            }
        }
    }

    /// The first fault so far; else a bad number of the last plain word, where the plain words don't go together.
    fn judged(&self, go_together: bool) -> Result<(), WordFault>
        ensures { result ≡ judged go_together self.now }
    {
        self.so_far?;
        if go_together {
            Ok(())
        } else {
            Err(WordFault::BadNumber(self.at))
        }
    }

    /// Judges the plain words that were read as a whole.
    pub(crate) fn together(&mut self, go_together: bool)
        ensures { GoTogether go_together self.old self.new }
    {
        self.so_far = self.judged(go_together);
    }

    /// The options of a search, which are the rest of the words, or the first fault; `--cert` is one where `certifies`.
    pub(crate) fn options(&self, certifies: bool) -> Result<Options<'a>, WordFault>
        requires { self.now.at < 80 }
        ensures { spec.GivesBy spec.plain_options result (next_options certifies self.now) }
    {
        self.so_far?;
        read_options(self.words, certifies, self.at + 1)
    }

    /// The command, if nothing stands behind its words, or the first fault.
    pub(crate) fn end(&self, command: Command<'a>) -> Result<Command<'a>, WordFault>
        requires { self.now.at < 100 }
        ensures { spec.GivesBy spec.plain_command result (at_end self.now (spec.plain_command command.entry)) }
    {
        self.so_far?;
        end_at(self.words, self.at)?;
        Ok(command)
    }
}
