//! Faults of a command line.

/// Why the words of the command line ask for nothing. A number is that of the word, from 1; of `Missing`, that of the
/// word that isn't there.
#[derive(Clone, Copy, Debug, PartialEq, Eq)]
pub enum WordFault {
    NoCommand,
    UnknownCommand(u32),
    Missing(u32),
    Extra(u32),
    UnknownOption(u32),
    Twice(u32),
    BadNumber(u32),
}
