//! The texts of faulty command lines.
ghost use Rattle.std.specs.Prelude.{◌≡◌, ◌++◌, OnOk};
ghost use Rattle.report.specs.Texts.{word_fault};
ghost use Rattle.report.specs.Words.{numbered, signed};

use crate::WordFault;
use adv_base::push_decimal;
use std::alloc::{AllocError, Global};

/// Adds words and a number.
pub(crate) fn push_numbered(
    alloc: Global,
    out: &mut Vec<u8>,
    words: &[u8],
    number: u128,
) -> Result<(), AllocError>
    ensures { OnOk result (out.new.items ≡ out.old.items ++ numbered words.now number) }
{
    out.extend_from_slice(words)?;
    push_decimal(alloc, out, number)?;
    Ok(())
}

/// Adds two numbers, each behind its words.
pub(crate) fn push_both(
    alloc: Global,
    out: &mut Vec<u8>,
    before: &[u8],
    first: u128,
    between: &[u8],
    second: u128,
) -> Result<(), AllocError>
    ensures { OnOk result (out.new.items ≡ out.old.items ++ (numbered before.now first ++ numbered between.now second)) }
{
    push_numbered(alloc, out, before, first)?;
    push_numbered(alloc, out, between, second)
}

/// Adds words and a number that may be negative.
pub(crate) fn push_signed(
    alloc: Global,
    out: &mut Vec<u8>,
    words: &[u8],
    number: i128,
) -> Result<(), AllocError>
    ensures { OnOk result (out.new.items ≡ out.old.items ++ signed words.now number) }
{
    let digits = format!(in alloc; "{number}")?;
    out.extend_from_slice(words)?;
    out.extend_from_slice(digits.as_bytes())?;
    Ok(())
}

/// Adds a fault of the words.
pub(crate) fn push_word_fault(
    alloc: Global,
    out: &mut Vec<u8>,
    fault: WordFault,
) -> Result<(), AllocError>
    ensures { OnOk result (out.new.items ≡ out.old.items ++ word_fault fault) }
{
    match fault {
        WordFault::NoCommand => out.extend_from_slice(b"no command"),
        WordFault::UnknownCommand(w) => {
            push_numbered(alloc, out, b"unknown command at word ", w as u128)
        }
        WordFault::Missing(w) => push_numbered(alloc, out, b"missing word ", w as u128),
        WordFault::Extra(w) => push_numbered(alloc, out, b"extra word ", w as u128),
        WordFault::UnknownOption(w) => {
            push_numbered(alloc, out, b"unknown option at word ", w as u128)
        }
        WordFault::Twice(w) => push_numbered(alloc, out, b"option twice at word ", w as u128),
        WordFault::BadNumber(w) => push_numbered(alloc, out, b"bad number at word ", w as u128),
    }
}
